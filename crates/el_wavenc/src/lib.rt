//! The element that writes WAV files.
#![tactic(auto)]

mod file;
mod laws;
mod stream;
pub mod wav_enc;

pub use laws::file_is_whole;
pub use wav_enc::WavEnc;
