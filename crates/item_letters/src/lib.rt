//! Items as letters: what rows of tests are written in.
#![tactic(auto)]

pub mod answer;
pub mod caps;
pub mod digits;
pub mod item;
pub mod number;
pub mod word;

pub use answer::{letter_of_answer, letter_of_flow, letter_of_place};
pub use caps::letter_of_caps;
pub use digits::bytes_by;
pub use item::{buffer_of, item_of, letter_of, letter_of_event, letters_of};
pub use number::{item_numbered, number_of};
pub use word::{event_by, segment_by, word_of};
