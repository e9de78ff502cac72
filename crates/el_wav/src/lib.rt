//! Elements that read and write WAV files.
#![tactic(auto)]

mod laws;
mod wav_begun;
mod wav_data;
mod wav_gathered;
pub mod wav_parse;
mod wav_put_out;
mod wav_told;

pub use laws::frames_are_the_data;
pub use wav_parse::WavParse;
pub use wav_told::heads_are_told;
