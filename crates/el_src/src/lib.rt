//! Sources: elements that make a stream.
#![tactic(auto)]

pub mod answer;
mod block;
pub mod fault;
pub mod file_src;
mod frames;
pub mod ramp_src;

pub use answer::Next;
pub use fault::{SizeFault, SrcFault};
pub use file_src::FileSrc;
pub use ramp_src::{Ramp, RampSrc};
