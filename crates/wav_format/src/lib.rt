//! Heads of WAV files, as in the RIFF WAVE format: reading them from the first bytes of a file, and writing
//! them. No call takes memory.
#![tactic(auto)]

mod chunk;
mod format;
pub mod head;
mod laws;
mod reader;
mod reading;
mod writing;

pub use head::{Head, HeadAnswer, WavKind};
pub use laws::{head_stays, one_is_told};
pub use reader::HeadReader;
pub use reading::read_head;
pub use writing::write_head;
