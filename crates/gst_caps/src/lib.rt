//! Caps as sets of fixed caps. Texts, lists, names and fixed caps are handed on from gst_value.
#![tactic(auto)]

pub mod caps;
mod common;
mod equal;
mod fixate;
mod merge;
pub mod structure;
pub mod value;
mod walk;

pub use caps::{Caps, choose};
pub use equal::same_caps;
pub use gst_value::{CapsFault, Fixed, List, One, OutOfMemory, PadName, Prop, Text, fraction};
pub use structure::Structure;
pub use value::Value;
