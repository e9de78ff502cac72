//! The formats of samples, and how samples lie in bytes.
ghost use Rattle.std.specs.Prelude.{◌≡◌, ◌≤◌, ◌++◌, length, drop, find};
ghost use Rattle.std.specs.Str.{bytes_eq};
ghost use Rattle.audio_info.specs.Media.{raw_samples, sample_name};
ghost use Rattle.audio_info.specs.Packing.{FitsBytes, IsRaw, sample_bytes, sample_value, sample_width};

use byteorder::{BigEndian, ByteOrder, LittleEndian};

/// A format of samples, under GStreamer's name: signed or unsigned, the number of bits, and the order of the
/// bytes; or one of the laws of G.711.
#[derive(Clone, Copy, Debug, PartialEq, Eq)]
pub enum Sample {
    S8,
    U8,
    S16LE,
    S16BE,
    S24LE,
    S32LE,
    MuLaw,
    ALaw,
}

/// The formats of raw audio, which are not those of a law.
pub(crate) const RAW: [Sample; 6] = [
    Sample::S8,
    Sample::U8,
    Sample::S16LE,
    Sample::S16BE,
    Sample::S24LE,
    Sample::S32LE,
];

impl Sample {
    /// The bytes of a sample.
    pub fn width(self) -> u32
        ensures { result ≡ sample_width self }
    {
        match self {
            Sample::S8 | Sample::U8 | Sample::MuLaw | Sample::ALaw => 1,
            Sample::S16LE | Sample::S16BE => 2,
            Sample::S24LE => 3,
            Sample::S32LE => 4,
        }
    }

    /// GStreamer's name of the format, which the caps of raw audio have in their field `format`.
    pub fn name(self) -> &'static str
        ensures { result.now ≡ sample_name self }
    {
        match self {
            Sample::S8 => "S8",
            Sample::U8 => "U8",
            Sample::S16LE => "S16LE",
            Sample::S16BE => "S16BE",
            Sample::S24LE => "S24LE",
            Sample::S32LE => "S32LE",
            Sample::MuLaw => "MULAW",
            Sample::ALaw => "ALAW",
        }
    }

    /// The format of raw audio of this name.
    pub fn raw_named(name: &str) -> Option<Sample>
        ensures { result ≡ find (λ s. bytes_eq (sample_name s) name.now) raw_samples }
    {
        RAW.iter().copied().find(|s| s.name() == name)
    }
}

/// The value of the first sample in `bytes`, from -2^(n-1) to 2^(n-1) - 1 for samples of n bits.
pub fn get(format: Sample, bytes: &[u8]) -> i32
    requires raw { IsRaw format }
    requires room { sample_width format ≤ length bytes.now }
    ensures value { result ≡ sample_value format bytes.now }
    ensures range { FitsBytes (sample_width format) result }
{
    match format {
        Sample::S8 => i32::from(bytes[0].cast_signed()),
        Sample::U8 => i32::from(bytes[0]) - 128,
        Sample::S16LE => i32::from(LittleEndian::read_i16(bytes)),
        Sample::S16BE => i32::from(BigEndian::read_i16(bytes)),
        Sample::S24LE => LittleEndian::read_i24(bytes),
        Sample::S32LE => LittleEndian::read_i32(bytes),
        Sample::MuLaw | Sample::ALaw => unreachable!(),
    }
}

/// Writes the sample of a value at the front of `into`, and leaves the rest.
pub fn put(format: Sample, value: i32, into: &mut [u8])
    requires raw { IsRaw format }
    requires range { FitsBytes (sample_width format) value }
    requires room { sample_width format ≤ length into.old }
    ensures bytes { into.new ≡ sample_bytes format value ++ drop (sample_width format) into.old }
    ensures back { sample_value format into.new ≡ value }
{
    match format {
        Sample::S8 => into[0] = (value as i8).cast_unsigned(),
        Sample::U8 => into[0] = (value + 128) as u8,
        Sample::S16LE => LittleEndian::write_i16(into, value as i16),
        Sample::S16BE => BigEndian::write_i16(into, value as i16),
        Sample::S24LE => LittleEndian::write_i24(into, value),
        Sample::S32LE => LittleEndian::write_i32(into, value),
        Sample::MuLaw | Sample::ALaw => unreachable!(),
    }
}
