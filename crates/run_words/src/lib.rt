//! The words of the program: its options, and the line that the other words make.
#![tactic(auto)]

mod command;
pub mod fault;
mod law;
mod line;
mod options;

pub use fault::WordsFault;
pub use law::{plain_words_are_the_line, written_words_are_read};
pub use line::join_words;
pub use options::{Options, read_words};
