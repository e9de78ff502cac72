//! Times and segments.
#![tactic(auto)]

pub mod segment;
pub mod time;

pub use segment::{Format, Segment};
pub use time::{LIMIT, scale};
