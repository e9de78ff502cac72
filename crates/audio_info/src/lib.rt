//! Samples of audio: their formats, how they lie in bytes, and the two laws of G.711; and the caps of audio.
#![tactic(auto)]

pub mod alone;
mod field;
pub mod g711;
pub mod info;
pub mod lanes;
pub mod sample;
pub mod templates;

pub use alone::exactly;
pub use g711::{alaw_dec, alaw_enc, mulaw_dec, mulaw_enc};
pub use info::{Info, LARGEST_RATE, MOST_CHANNELS, NotAudio};
pub use lanes::mulaw_enc_sixteen;
pub use sample::{Sample, get, put};
pub use templates::{
    audio_template, format_names, only_structure, raw_audio, raw_formats, raw_template,
    sample_template, wav_template,
};
