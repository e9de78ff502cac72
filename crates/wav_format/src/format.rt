//! The body of a `fmt ` chunk, of which maybe only the first bytes are there.
ghost use Rattle.std.specs.Prelude.{◌≡◌, ℕ, ◌+◌, ◌*◌, ◌/◌, ◌%◌, ◌<◌, ◌≤◌, ◌↔◌, ◌==◌, length, IsTrue};
ghost use Rattle.byteorder.specs.Endian.{little_from};
ghost use Rattle.wav_format.specs.Faults.{MayBeFormat, MayFit};
ghost use Rattle.wav_format.specs.Format.{extensible, format_of};
ghost use Rattle.wav_format.specs.Given.{Agrees, BitsMayFit, BlockMayFit, ByteAgrees, FormatAgrees, LimitsMayHold, MayBeCoded, NumbersAgree, RateMayFit, SomeCodingMayBe, TagMayBe, channels_in};

use byteorder::{ByteOrder, LittleEndian};

const EXTENSIBLE: u16 = 0xFFFE;

/// How the samples of a stream are stored.
#[derive(Clone, Copy, Debug, PartialEq, Eq)]
pub struct SampleFormat {
    pub tag: u16,
    pub channels: u16,
    pub rate: u32,
    pub bits: u16,
}

fn number_at(bytes: &[u8], place: usize) -> u16
    requires { place + 2 ≤ length bytes.now }
    ensures { result ≡ little_from place 2 bytes.now }
{
    LittleEndian::read_u16(&bytes[place..])
}

/// Whether a body is of the extensible form.
pub(crate) fn is_extensible(body: &[u8]) -> bool
    ensures { result ≡ (little_from 0 2 body.now == extensible) }
{
    body.len() >= 2 && number_at(body, 0) == EXTENSIBLE
}

/// The format that a body says, of which maybe only the bytes that decide are there.
pub(crate) fn read_format(body: &[u8]) -> SampleFormat
    requires long { 16 ≤ length body.now }
    requires extended { little_from 0 2 body.now ≡ extensible → 26 ≤ length body.now }
    ensures { result ≡ format_of body.now }
{
    SampleFormat {
        tag: number_at(body, if is_extensible(body) { 24 } else { 0 }),
        channels: number_at(body, 2),
        rate: LittleEndian::read_u32(&body[4..]),
        bits: number_at(body, 14),
    }
}

fn byte_agrees(given: &[u8], place: usize, byte: u8) -> bool
    ensures { IsTrue result ↔ ByteAgrees given.now place byte }
{
    place >= given.len() || given[place] == byte
}

fn agrees(given: &[u8], place: usize, number: u16) -> bool
    requires { place < 65536 }
    ensures { IsTrue result ↔ Agrees given.now place number }
{
    byte_agrees(given, place, (number % 256) as u8)
        && byte_agrees(given, place + 1, (number / 256) as u8)
}

fn channels_in(given: &[u8]) -> u16
    ensures value { result ≡ channels_in given.now }
    ensures byte { result < 256 }
{
    if given.len() > 2 {
        u16::from(given[2])
    } else {
        1
    }
}

fn rate_may_fit(given: &[u8]) -> bool
    ensures { IsTrue result ↔ RateMayFit given.now }
{
    if given.len() < 7 {
        return true;
    }
    let low = LittleEndian::read_u24(&given[4..]);
    low >= 1 && low <= 768_000 && byte_agrees(given, 7, 0)
}

fn limits_may_hold(given: &[u8]) -> bool
    ensures { IsTrue result ↔ LimitsMayHold given.now }
{
    let channels = channels_in(given);
    channels >= 1 && channels <= 64 && byte_agrees(given, 3, 0) && rate_may_fit(given)
}

fn tag_may_be(given: &[u8], size: usize, tag: u16) -> bool
    ensures { IsTrue result ↔ TagMayBe given.now size tag }
{
    agrees(given, 0, tag) || size >= 40 && agrees(given, 0, EXTENSIBLE) && agrees(given, 24, tag)
}

fn may_be_coded(given: &[u8], size: usize, tag: u16, width: u16) -> bool
    requires { width ≤ 4 }
    ensures { IsTrue result ↔ MayBeCoded given.now size tag width }
{
    tag_may_be(given, size, tag)
        && agrees(given, 12, channels_in(given) * width)
        && agrees(given, 14, 8 * width)
}

fn bits_may_fit(given: &[u8], align: u16) -> bool
    requires { 1 ≤ channels_in given.now }
    ensures { IsTrue result ↔ BitsMayFit given.now align }
{
    let channels = u32::from(channels_in(given));
    let frame = 8 * u32::from(align);
    if frame % channels != 0 {
        return false;
    }
    let bits = frame / channels;
    if bits > 65_535 {
        return false;
    }
    agrees(given, 14, bits as u16)
}

// The low byte of the block align is known, and each high byte is tried.
fn low_block_may_fit(given: &[u8], low: u8) -> bool
    requires { 1 ≤ channels_in given.now }
    ensures { IsTrue result ↔ ((high : ℕ) × (high < 256) × BitsMayFit given.now (256 * high + low)) }
{
    for high in 0..256u16 {
        if bits_may_fit(given, 256 * high + u16::from(low)) {
            return true;
        }
    }
    false
}

fn block_may_fit(given: &[u8]) -> bool
    requires some { 1 ≤ channels_in given.now }
    requires few { channels_in given.now ≤ 64 }
    ensures { IsTrue result ↔ BlockMayFit given.now }
{
    if given.len() <= 12 {
        return true;
    }
    if given.len() == 13 {
        return low_block_may_fit(given, given[12]);
    }
    bits_may_fit(given, number_at(given, 12))
}

fn numbers_agree(given: &[u8], size: usize) -> bool
    ensures { IsTrue result ↔ NumbersAgree given.now size }
{
    if size < 16 || !limits_may_hold(given) {
        return false;
    }
    if given.len() >= 2 && number_at(given, 0) == EXTENSIBLE && size < 40 {
        return false;
    }
    block_may_fit(given)
}

fn some_coding_may_be(given: &[u8], size: usize) -> bool
    ensures { IsTrue result ↔ SomeCodingMayBe given.now size }
{
    may_be_coded(given, size, 1, 1)
        || may_be_coded(given, size, 1, 2)
        || may_be_coded(given, size, 1, 3)
        || may_be_coded(given, size, 1, 4)
        || may_be_coded(given, size, 6, 1)
        || may_be_coded(given, size, 7, 1)
}

fn format_agrees(given: &[u8], size: usize) -> bool
    ensures { IsTrue result ↔ FormatAgrees given.now size }
{
    size >= 16 && limits_may_hold(given) && some_coding_may_be(given, size)
}

/// Whether some body of that size that begins with these bytes has numbers that fit.
pub(crate) fn may_fit(given: &[u8], size: usize) -> bool
    requires { length given.now ≤ size }
    ensures { IsTrue result ↔ MayFit given.now size }
{
    numbers_agree(given, size)
}

/// Whether some body of that size that begins with these bytes says a format.
pub(crate) fn may_be_format(given: &[u8], size: usize) -> bool
    requires { length given.now ≤ size }
    ensures { IsTrue result ↔ MayBeFormat given.now size }
{
    format_agrees(given, size)
}
