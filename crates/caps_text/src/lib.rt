//! Caps as texts, and texts as caps, in the way of gst-launch-1.0.
#![tactic(auto)]

mod class;
pub mod fault;
mod kind;
mod laws;
mod list;
mod number;
mod printing;
mod reading;
mod scanner;
mod single;
mod structures;

pub use fault::CapsTextFault;
pub use laws::{one_reading, printed_again};
pub use printing::{print, print_fixed};
pub use reading::parse;
