//! What a stream of audio is made of, and the caps that say so.
ghost use Rattle.std.specs.Prelude.{◌≤◌};

use crate::field::{number_in, sample_in, set};
use crate::sample::Sample;
use gst_value::{Fixed, One, OutOfMemory, Text};
use std::alloc::Global;
use thiserror::Error;

/// The most frames a second.
pub const LARGEST_RATE: u32 = 768_000;

/// The most channels.
pub const MOST_CHANNELS: u32 = 64;

/// The caps are not those of raw audio or of a law of G.711, or a field is missing or out of its limits.
#[derive(Clone, Copy, Debug, PartialEq, Eq, Error)]
#[error("no caps of audio")]
pub struct NotAudio;

/// The format of a stream of audio, whose frames have a sample for each channel.
#[derive(Clone, Copy, Debug, PartialEq, Eq)]
pub struct Info {
    pub format: Sample,
    /// Frames a second, from 1 to `LARGEST_RATE`.
    pub rate: u32,
    /// From 1 to `MOST_CHANNELS`.
    pub channels: u32,
    ghost some_rate: { 1 ≤ rate },
    ghost rate_in_range: { rate ≤ 768000 },
    ghost some_channels: { 1 ≤ channels },
    ghost channels_in_range: { channels ≤ 64 },
}

impl Info {
    ghost use Rattle.std.specs.Prelude.{◌≡◌, ◌*◌, ◌⊎◌, Some, None, IfOk, IfErr};
    ghost use Rattle.audio_info.specs.Media.{caps_of, channels_of, law_caps as law_caps_of, rate_of, raw_caps as raw_caps_of, sample_of};
    ghost use Rattle.audio_info.specs.Packing.{sample_width};

    /// What fixed caps say of audio: the media types `audio/x-raw`, `audio/x-mulaw` and `audio/x-alaw`, with the
    /// fields `rate` and `channels`, and for raw audio `format`. The other fields are not looked at.
    pub fn from_fixed(caps: &Fixed) -> Result<Info, NotAudio>
        ensures format { IfOk result (λ info. sample_of caps.now ≡ Some info.format) }
        ensures rate { IfOk result (λ info. rate_of caps.now ≡ Some info.rate) }
        ensures channels { IfOk result (λ info. channels_of caps.now ≡ Some info.channels) }
        ensures not_audio { IfErr result (λ _. (sample_of caps.now ≡ None) ⊎ (rate_of caps.now ≡ None) ⊎ (channels_of caps.now ≡ None)) }
    {
        let format = sample_in(caps).ok_or(NotAudio)?;
        let rate = number_in(caps, "rate", LARGEST_RATE).ok_or(NotAudio)?;
        let channels = number_in(caps, "channels", MOST_CHANNELS).ok_or(NotAudio)?;
        Ok(Info {
            format,
            rate,
            channels,
        })
    }

    /// The caps of the stream, with all fields that such caps have.
    pub fn to_fixed(&self, alloc: Global) -> Result<Fixed, OutOfMemory>
        ensures caps { IfOk result (λ made. made ≡ caps_of self.now.format self.now.rate self.now.channels) }
        ensures format { IfOk result (λ made. sample_of made ≡ Some self.now.format) }
        ensures rate { IfOk result (λ made. rate_of made ≡ Some self.now.rate) }
        ensures channels { IfOk result (λ made. channels_of made ≡ Some self.now.channels) }
    {
        match self.format {
            Sample::MuLaw => self.law_caps(alloc, "audio/x-mulaw"),
            Sample::ALaw => self.law_caps(alloc, "audio/x-alaw"),
            raw => self.raw_caps(alloc, raw.name()),
        }
    }

    /// The bytes of a frame.
    pub fn width(&self) -> u32
        ensures bytes { result ≡ self.now.channels * sample_width self.now.format }
        ensures some { 1 ≤ result }
        ensures most { result ≤ 256 }
    {
        self.channels * self.format.width()
    }

    // The caps of raw audio in a format of this name.
    fn raw_caps(&self, alloc: Global, format: &str) -> Result<Fixed, OutOfMemory>
        ensures { IfOk result (λ made. made ≡ raw_caps_of format.now self.now.rate self.now.channels) }
    {
        let mut caps = Fixed::new(alloc, "audio/x-raw")?;
        let format = Text::from_str(alloc, format)?;
        let layout = Text::from_str(alloc, "interleaved")?;
        set(&mut caps, alloc, "channels", One::Int(self.channels as i32))?;
        set(&mut caps, alloc, "format", One::Text(format))?;
        set(&mut caps, alloc, "layout", One::Text(layout))?;
        set(&mut caps, alloc, "rate", One::Int(self.rate as i32))?;
        Ok(caps)
    }

    // The caps of a law of this media type.
    fn law_caps(&self, alloc: Global, media: &str) -> Result<Fixed, OutOfMemory>
        ensures { IfOk result (λ made. made ≡ law_caps_of media.now self.now.rate self.now.channels) }
    {
        let mut caps = Fixed::new(alloc, media)?;
        set(&mut caps, alloc, "channels", One::Int(self.channels as i32))?;
        set(&mut caps, alloc, "rate", One::Int(self.rate as i32))?;
        Ok(caps)
    }
}
