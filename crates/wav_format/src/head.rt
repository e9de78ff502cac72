//! What a head says, and the answers to reading one.

/// What the head of a WAV file says.
#[derive(Clone, Copy, Debug, PartialEq, Eq)]
pub struct Head {
    /// The coding of the samples: 1 is PCM, unsigned at 8 bits and else signed and little-endian, 6 is A-law
    /// and 7 mu-law. Of the extensible form it is the true tag.
    pub tag: u16,
    /// Channels, 1 to 64.
    pub channels: u16,
    /// Frames a second, 1 to 768,000.
    pub rate: u32,
    /// Bits of one sample.
    pub bits: u16,
    /// The place in the file where the data begins, in bytes.
    pub start: u64,
    /// The length of the data in bytes, or None where it lasts until the end of the file.
    pub size: Option<u64>,
}

/// Why bytes are not the head of a WAV file.
#[derive(Clone, Copy, Debug, PartialEq, Eq)]
pub enum WavKind {
    /// The first four bytes are not `RIFF`.
    NotRiff,
    /// Bytes 8 to 11 are not `WAVE`.
    NotWave,
    /// The data comes before any `fmt ` chunk.
    NoFmt,
    /// A `fmt ` chunk is too short, or its numbers are outside the limits or do not fit one another.
    BadFmt,
    /// A coding that is not known, or one that is not known with that many bits.
    TagUnknown,
    /// The data would begin too far into the file.
    HeadTooLong,
}

/// What the first bytes of a file say of its head.
#[derive(Clone, Copy, Debug, PartialEq, Eq)]
pub enum HeadAnswer {
    /// The bytes begin with this head.
    Whole(Head),
    /// The bytes are the beginning of some head. The number is the least length, in bytes from the start of
    /// the file, that decides more.
    NeedMore(u64),
    /// The bytes begin no head, because of what stands at this place.
    Bad { place: u64, kind: WavKind },
}
