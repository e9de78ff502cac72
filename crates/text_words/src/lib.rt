//! What launch lines and scripts share: classes of bytes, words, values, properties, names of pads, and numbers.
#![tactic(auto)]

mod characters;
mod class;
pub mod fault;
mod laws;
mod number;
mod value;
mod word;

pub use characters::Characters;
pub use class::{Class, is_run};
pub use fault::WordFault;
pub use laws::word_rows;
pub use number::read_number;
pub use value::{cut, read_pad, read_prop, read_value, split_property};
pub use word::{Mode, Separator, Words, is_closed};
