ghost use Rattle.std.specs.Prelude.{◌≤◌, ◌≤ℤ◌, negsuc, pos};
ghost use Rattle.audio_info.specs.Packing.{FitsBytes, IsRaw, sample_width};

use crate::rows::holds;
use audio_info::{
    Info, NotAudio, Sample, alaw_dec, alaw_enc, get, mulaw_dec, mulaw_enc, mulaw_enc_sixteen, put,
};
use gst_value::{Fixed, One, Text};
use std::alloc::Global;
use std::process::Abort;
use std::test::Fail;

/// A step of the hash FNV-1a of 64 bits.
fn hashed(hash: u64, byte: u8) -> u64 {
    (hash ^ u64::from(byte)).wrapping_mul(0x100_0000_01b3)
}

/// The hash of no bytes.
const EMPTY: u64 = 0xcbf2_9ce4_8422_2325;

// The hashes of the four tables of GStreamer's elements, computed from their outputs by another program: the codes
// of the samples from -32768 to 32767, and the samples of the codes from 0 to 255 in S16LE. At 127 negative samples
// that stand on a bound between two intervals, GStreamer's alawenc rounds to the interval further from 0; there
// the code of ITU-T's own encoder took its place.
const MULAW_CODES: u64 = 0x94d7_5252_14c7_5eb2;

const ALAW_CODES: u64 = 0xf030_666e_b780_cf25;

const MULAW_SAMPLES: u64 = 0xb91e_65d6_8481_a1a8;

const ALAW_SAMPLES: u64 = 0x693a_40ca_62a3_d2a5;

#[test]
fn all_codes(rt: HostRuntime) {
    let mut mulaw = EMPTY;
    let mut alaw = EMPTY;
    for v in i16::MIN..=i16::MAX {
        mulaw = hashed(mulaw, mulaw_enc(v));
        alaw = hashed(alaw, alaw_enc(v));
    }
    assert_eq!(rt; mulaw, MULAW_CODES);
    assert_eq!(rt; alaw, ALAW_CODES);
}

/// Sixteen samples from a number on, -32768 counted as 0, in two bytes each with the lower first.
fn sixteen_from(first: u16) -> [u8; 32]
    requires { first ≤ 65520 }
{
    let mut bytes = [0; 32];
    for place in 0..16 {
        let [low, high] = (first + place).wrapping_add(0x8000).to_le_bytes();
        bytes[2 * usize::from(place)] = low;
        bytes[2 * usize::from(place) + 1] = high;
    }
    bytes
}

#[test]
fn all_codes_by_sixteen(rt: HostRuntime) {
    let mut mulaw = EMPTY;
    for group in 0..4096 {
        for code in mulaw_enc_sixteen(&sixteen_from(16 * group)).to_array() {
            mulaw = hashed(mulaw, code);
        }
    }
    assert_eq!(rt; mulaw, MULAW_CODES);
}

#[test]
fn all_samples(rt: HostRuntime) {
    let mut mulaw = EMPTY;
    let mut alaw = EMPTY;
    for code in 0..=u8::MAX {
        for byte in mulaw_dec(code).to_le_bytes() {
            mulaw = hashed(mulaw, byte);
        }
        for byte in alaw_dec(code).to_le_bytes() {
            alaw = hashed(alaw, byte);
        }
    }
    assert_eq!(rt; mulaw, MULAW_SAMPLES);
    assert_eq!(rt; alaw, ALAW_SAMPLES);
}

#[test]
fn worked_codes(rt: HostRuntime) {
    let rows = [
        (0, 0xFF, 0xD5),
        (32_767, 0x80, 0xAA),
        (-32_768, 0x00, 0x2A),
        (-1, 0x7F, 0x55),
        (1, 0xFF, 0xD5),
    ];
    for (v, mulaw, alaw) in rows {
        holds(&rt, "a mu-law code", mulaw_enc(v) == mulaw);
        holds(&rt, "an A-law code", alaw_enc(v) == alaw);
    }
    holds(&rt, "a mu-law sample", mulaw_dec(0x00) == -32_124);
    holds(&rt, "an A-law sample", alaw_dec(0xD5) == 8);
}

/// Puts a value in front of other bytes, and gets it back.
fn packs<R: Abort>(rt: &R, format: Sample, value: i32, wanted: &[u8])
    requires raw { IsRaw format }
    requires range { FitsBytes (sample_width format) value }
{
    let mut bytes = [0x5A; 5];
    put(format, value, &mut bytes);
    holds(rt, format.name(), bytes.get(..wanted.len()) == Some(wanted));
    holds(rt, format.name(), bytes[4] == 0x5A);
    holds(rt, format.name(), get(format, &bytes) == value);
}

/// The same for the least and the greatest value, -1 and 0.
fn packs_all<R: Abort>(rt: &R, format: Sample, least: i32, most: i32, wanted: [&[u8]; 4])
    requires raw { IsRaw format }
    requires least { FitsBytes (sample_width format) least }
    requires most { FitsBytes (sample_width format) most }
    requires around { (least ≤ℤ negsuc 0) × (pos 0 ≤ℤ most) }
{
    let [first, second, third, last] = wanted;
    packs(rt, format, least, first);
    packs(rt, format, -1, second);
    packs(rt, format, 0, third);
    packs(rt, format, most, last);
}

#[test]
fn packings(rt: HostRuntime) {
    packs_all(
        &rt,
        Sample::S8,
        -128,
        127,
        [&[0x80], &[0xFF], &[0x00], &[0x7F]],
    );
    packs_all(
        &rt,
        Sample::U8,
        -128,
        127,
        [&[0x00], &[0x7F], &[0x80], &[0xFF]],
    );
    packs_all(
        &rt,
        Sample::S16LE,
        -32_768,
        32_767,
        [&[0x00, 0x80], &[0xFF, 0xFF], &[0x00, 0x00], &[0xFF, 0x7F]],
    );
    packs_all(
        &rt,
        Sample::S16BE,
        -32_768,
        32_767,
        [&[0x80, 0x00], &[0xFF, 0xFF], &[0x00, 0x00], &[0x7F, 0xFF]],
    );
    packs_all(
        &rt,
        Sample::S24LE,
        -8_388_608,
        8_388_607,
        [
            &[0x00, 0x00, 0x80],
            &[0xFF, 0xFF, 0xFF],
            &[0x00, 0x00, 0x00],
            &[0xFF, 0xFF, 0x7F],
        ],
    );
    packs_all(
        &rt,
        Sample::S32LE,
        i32::MIN,
        i32::MAX,
        [
            &[0x00, 0x00, 0x00, 0x80],
            &[0xFF, 0xFF, 0xFF, 0xFF],
            &[0x00, 0x00, 0x00, 0x00],
            &[0xFF, 0xFF, 0xFF, 0x7F],
        ],
    );
}

/// What caps of a format with two channels say, and what is read from them.
fn goes_round(
    rt: &impl Abort,
    alloc: Global,
    format: Sample,
    width: u32,
    media: &str,
) -> Result<(), Fail> {
    let info = Info {
        format,
        rate: 768_000,
        channels: 2,
    };
    holds(rt, media, info.width() == width);
    let caps = info.to_fixed(alloc)?;
    holds(rt, media, caps.media() == media);
    holds(rt, media, Info::from_fixed(&caps) == Ok(info));
    Ok(())
}

#[test]
fn caps_and_back(rt: HostRuntime) -> Result<(), Fail> {
    let alloc = rt.alloc();
    goes_round(&rt, alloc, Sample::S16LE, 4, "audio/x-raw")?;
    goes_round(&rt, alloc, Sample::S24LE, 6, "audio/x-raw")?;
    goes_round(&rt, alloc, Sample::MuLaw, 2, "audio/x-mulaw")?;
    goes_round(&rt, alloc, Sample::ALaw, 2, "audio/x-alaw")
}

/// Caps without channels.
fn caps_of(alloc: Global, media: &str, format: &str, rate: i32) -> Result<Fixed, Fail> {
    let mut caps = Fixed::new(alloc, media)?;
    caps.set(alloc, "rate", One::Int(rate))?;
    caps.set(alloc, "format", One::Text(Text::from_str(alloc, format)?))?;
    Ok(caps)
}

/// Whether caps with channels are of audio; those without never are.
fn are_audio(rt: &impl Abort, alloc: Global, mut caps: Fixed, channels: i32) -> Result<bool, Fail> {
    holds(rt, "no channels", Info::from_fixed(&caps) == Err(NotAudio));
    caps.set(alloc, "channels", One::Int(channels))?;
    Ok(Info::from_fixed(&caps).is_ok())
}

#[test]
fn not_audio(rt: HostRuntime) -> Result<(), Fail> {
    let alloc = rt.alloc();
    let rows = [
        ("audio/x-raw", "S16LE", 8_000, 64, true),
        ("audio/x-raw", "S16LE", 8_000, 65, false),
        ("audio/x-raw", "S16LE", 0, 1, false),
        ("audio/x-raw", "S16LE", 768_001, 1, false),
        ("audio/x-raw", "F32LE", 8_000, 1, false),
        ("audio/x-mulaw", "F32LE", 8_000, 1, true),
        ("audio/x-wav", "S16LE", 8_000, 1, false),
    ];
    for (media, format, rate, channels, wanted) in rows {
        let caps = caps_of(alloc, media, format, rate)?;
        holds(&rt, media, are_audio(&rt, alloc, caps, channels)? == wanted);
    }
    Ok(())
}
