//! Launch lines as trees, and trees as launch lines, in the way of gst-launch-1.0.
#![tactic(auto)]

mod class;
pub mod fault;
mod front;
mod laws;
mod line;
mod parts;
mod place;
mod printing;
mod reading;
pub mod tree;
mod value;
mod word;

pub use fault::{LineFault, LineKind};
pub use laws::{printed_again, word_rows};
pub use printing::print;
pub use reading::parse;
pub use tree::{Chain, Node, Part, Tree};
