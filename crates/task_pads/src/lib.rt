//! Source pads of the elements of a task: what waits at each, where each leads, and how an item crosses.
#![tactic(auto)]

pub mod crossing;
mod offer;
pub mod pad;
pub mod put;

pub use crossing::Crossing;
pub use pad::{Behind, Pad};
pub use put::{fill, spread};
