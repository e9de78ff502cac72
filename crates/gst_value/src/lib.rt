//! Texts, lists and names that all crates share, the values of fields, and fixed caps.
#![tactic(auto)]

pub mod fault;
pub mod field;
pub mod fixed;
pub mod list;
pub mod memory;
pub mod name;
pub mod one;
pub mod ratio;
pub mod text;

pub use fault::CapsFault;
pub use fixed::Fixed;
pub use list::List;
pub use memory::OutOfMemory;
pub use name::{PadName, Prop};
pub use one::One;
pub use ratio::fraction;
pub use text::Text;
