//! Orders of elements in which each link goes forward.
#![tactic(auto)]

pub mod link;
mod marks;
pub mod order;

pub use link::Link;
pub use order::{Linking, Order};
