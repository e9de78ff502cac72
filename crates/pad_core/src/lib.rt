//! Pads: what crosses them, how they are linked, and what stops an item at them.
#![tactic(auto)]

pub mod crossing;
mod last;
pub mod linking;
pub mod probe;
pub mod sink_pad;
pub mod src_pad;

pub use crossing::Crossing;
pub use linking::{LinkReturn, link};
pub use probe::Probe;
pub use sink_pad::SinkPad;
pub use src_pad::SrcPad;
