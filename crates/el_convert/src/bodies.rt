//! Bodies of raw audio in another format and number of channels.
ghost use Rattle.std.specs.Prelude.{◌≡◌, ◌≤◌, ◌+◌, ◌*◌, ◌%◌, ◌^◌, ◌++◌, length, map, take, true, IfOk, OnOk, OnErr, pos, ◌+ℤ◌, vec_len, vec_capacity};
ghost use Rattle.std.specs.List.{flat_map};
ghost use Rattle.std.specs.Int.{int_shr};
ghost use Rattle.audio_info.specs.Packing.{IsRaw, FitsBytes, sample_width, sample_value, sample_bytes};
ghost use Rattle.gst_item.specs.declared.body.TheConstants.{LARGEST_BODY};
ghost use Rattle.el_convert.specs.Bodies.{converted_bytes, half_sum as half_sum_of, rescaled as rescaled_value, repacked};

use audio_info::{Info, Sample, get};
use gst_item::Body;
use gst_value::OutOfMemory;
use std::alloc::Global;

/// Puts the samples and channels of `output` in place of those of `input` in a body of whole samples. Where these are
/// the same nothing is done. Where there is no memory the body stays.
pub(crate) fn convert(
    alloc: Global,
    input: Info,
    output: Info,
    body: &mut Body,
) -> Result<(), OutOfMemory>
    requires from { IsRaw input.format }
    requires to { IsRaw output.format }
    requires whole { length body.old % sample_width input.format ≡ 0 }
    ensures made { OnOk result (body.new ≡ converted_bytes input.format output.format input.channels output.channels body.old) }
    ensures stays { OnErr result (body.new ≡ body.old) }
{
    if is_same(input, output) {
        unchanged(input.format, input.channels, body.as_slice());
        return Ok(());
    }
    let made = converted_samples(alloc, input, output, body.as_slice())?;
    *body = Body::from_vec(alloc, made)?;
    Ok(())
}

/// Whether format and channels are the same.
fn is_same(input: Info, output: Info) -> bool
    ensures { result ≡ true → (input.format ≡ output.format) × (input.channels ≡ output.channels) }
{
    input.format == output.format && input.channels == output.channels
}

/// A law: where format and channels stay, whole samples stay as they are.
fn unchanged(_format: Sample, _channels: u32, _bytes: &[u8])
    ensures { IsRaw _format → length _bytes.now % sample_width _format ≡ 0 → converted_bytes _format _format _channels _channels _bytes.now ≡ _bytes.now }
{}

/// The bytes of a body with the samples and channels of `output` in place of those of `input`. Each pair of formats
/// has loops of its own.
fn converted_samples(
    alloc: Global,
    input: Info,
    output: Info,
    bytes: &[u8],
) -> Result<Vec<u8>, OutOfMemory>
    requires from { IsRaw input.format }
    requires to { IsRaw output.format }
    requires small { length bytes.now ≤ LARGEST_BODY }
    ensures { IfOk result (λ made. made.items ≡ converted_bytes input.format output.format input.channels output.channels bytes.now) }
{
    let channels = input.channels;
    match input.format {
        Sample::S8 => from_width::<1, 0>(alloc, Sample::S8, channels, output, bytes),
        Sample::U8 => from_width::<1, 1>(alloc, Sample::U8, channels, output, bytes),
        Sample::S16LE => from_width::<2, 0>(alloc, Sample::S16LE, channels, output, bytes),
        Sample::S16BE => from_width::<2, 1>(alloc, Sample::S16BE, channels, output, bytes),
        Sample::S24LE => from_width::<3, 0>(alloc, Sample::S24LE, channels, output, bytes),
        Sample::S32LE => from_width::<4, 0>(alloc, Sample::S32LE, channels, output, bytes),
        Sample::MuLaw | Sample::ALaw => unreachable!(),
    }
}

#[inline(always)]
/// The same, for samples of `IN` bytes that come in. `PLACE` tells the formats of one width apart, so that the compiler
/// makes a function of each, whose loops ask nothing about the format.
fn from_width<const IN: usize, const PLACE: usize>(
    alloc: Global,
    from: Sample,
    channels: u32,
    output: Info,
    bytes: &[u8],
) -> Result<Vec<u8>, OutOfMemory>
    requires from { IsRaw from }
    requires to { IsRaw output.format }
    requires bytes_in { sample_width from ≡ IN }
    requires small { length bytes.now ≤ LARGEST_BODY }
    ensures { IfOk result (λ made. made.items ≡ converted_bytes from output.format channels output.channels bytes.now) }
{
    let after = output.channels;
    match output.format {
        Sample::S8 => to_width::<IN, 1>(alloc, from, Sample::S8, channels, after, bytes),
        Sample::U8 => to_width::<IN, 1>(alloc, from, Sample::U8, channels, after, bytes),
        Sample::S16LE => to_width::<IN, 2>(alloc, from, Sample::S16LE, channels, after, bytes),
        Sample::S16BE => to_width::<IN, 2>(alloc, from, Sample::S16BE, channels, after, bytes),
        Sample::S24LE => to_width::<IN, 3>(alloc, from, Sample::S24LE, channels, after, bytes),
        Sample::S32LE => to_width::<IN, 4>(alloc, from, Sample::S32LE, channels, after, bytes),
        Sample::MuLaw | Sample::ALaw => unreachable!(),
    }
}

#[inline(always)]
/// The same, for samples of `OUT` bytes that go out, and by the number of channels before and after.
fn to_width<const IN: usize, const OUT: usize>(
    alloc: Global,
    from: Sample,
    to: Sample,
    before: u32,
    after: u32,
    bytes: &[u8],
) -> Result<Vec<u8>, OutOfMemory>
    requires from { IsRaw from }
    requires to { IsRaw to }
    requires bytes_in { sample_width from ≡ IN }
    requires bytes_out { sample_width to ≡ OUT }
    requires small { length bytes.now ≤ LARGEST_BODY }
    ensures { IfOk result (λ made. made.items ≡ converted_bytes from to before after bytes.now) }
{
    let (samples, _) = bytes.as_chunks::<IN>();
    if before < after {
        doubled::<IN, OUT>(alloc, from, to, samples)
    } else if after < before {
        let (pairs, _) = samples.as_chunks::<2>();
        halved::<IN, OUT>(alloc, from, to, pairs)
    } else {
        kept::<IN, OUT>(alloc, from, to, samples)
    }
}

#[inline(always)]
/// Each sample once.
fn kept<const IN: usize, const OUT: usize>(
    alloc: Global,
    from: Sample,
    to: Sample,
    samples: &[[u8; IN]],
) -> Result<Vec<u8>, OutOfMemory>
    requires from { IsRaw from }
    requires to { IsRaw to }
    requires bytes_in { sample_width from ≡ IN }
    requires bytes_out { sample_width to ≡ OUT }
    requires small { length samples.now ≤ LARGEST_BODY }
    ensures { IfOk result (λ made. made.items ≡ flat_map (λ s. repacked from to (sample_value from s)) samples.now) }
{
    let mut made = Vec::with_capacity(alloc, OUT * samples.len())?;
    for sample in samples {
        let bytes = packed::<IN, OUT>(from, to, get(from, sample));
        append::<OUT>(&mut made, &bytes);
    }
    Ok(made)
}

#[inline(always)]
/// Each sample twice.
fn doubled<const IN: usize, const OUT: usize>(
    alloc: Global,
    from: Sample,
    to: Sample,
    samples: &[[u8; IN]],
) -> Result<Vec<u8>, OutOfMemory>
    requires from { IsRaw from }
    requires to { IsRaw to }
    requires bytes_in { sample_width from ≡ IN }
    requires bytes_out { sample_width to ≡ OUT }
    requires small { length samples.now ≤ LARGEST_BODY }
    ensures { IfOk result (λ made. made.items ≡ flat_map (λ s. repacked from to (sample_value from s) ++ repacked from to (sample_value from s)) samples.now) }
{
    let mut made = Vec::with_capacity(alloc, 2 * OUT * samples.len())?;
    for sample in samples {
        let bytes = packed::<IN, OUT>(from, to, get(from, sample));
        append::<OUT>(&mut made, &bytes);
        append::<OUT>(&mut made, &bytes);
    }
    Ok(made)
}

#[inline(always)]
/// One sample for two, with the floor of half their sum.
fn halved<const IN: usize, const OUT: usize>(
    alloc: Global,
    from: Sample,
    to: Sample,
    pairs: &[[[u8; IN]; 2]],
) -> Result<Vec<u8>, OutOfMemory>
    requires from { IsRaw from }
    requires to { IsRaw to }
    requires bytes_in { sample_width from ≡ IN }
    requires bytes_out { sample_width to ≡ OUT }
    requires small { length pairs.now ≤ LARGEST_BODY }
    ensures { IfOk result (λ made. made.items ≡ flat_map (λ p. repacked from to (half_sum_of (map (sample_value from) p))) pairs.now) }
{
    let mut made = Vec::with_capacity(alloc, OUT * pairs.len())?;
    for pair in pairs {
        let bytes = packed::<IN, OUT>(from, to, half::<IN>(from, pair));
        append::<OUT>(&mut made, &bytes);
    }
    Ok(made)
}

#[inline(always)]
/// The floor of half the sum of two samples.
fn half<const IN: usize>(from: Sample, pair: &[[u8; IN]; 2]) -> i32
    requires raw { IsRaw from }
    requires bytes_in { sample_width from ≡ IN }
    ensures value { result ≡ half_sum_of (map (sample_value from) pair.now) }
    ensures range { FitsBytes (sample_width from) result }
{
    half_sum(get(from, &pair[0]), get(from, &pair[1]))
}

#[inline(always)]
/// The floor of half the sum of two numbers.
fn half_sum(left: i32, right: i32) -> i32
    ensures { result ≡ int_shr (left +ℤ right) 1 }
{
    ((i64::from(left) + i64::from(right)) >> 1) as i32
}

#[inline(always)]
/// Puts the first `COUNT` bytes behind those of a vector that has memory for them.
fn append<const COUNT: usize>(made: &mut Vec<u8>, bytes: &[u8; 4])
    requires few { COUNT ≤ 4 }
    requires room { vec_len made.old + COUNT ≤ vec_capacity made.old }
    ensures items { made.new.items ≡ made.old.items ++ take COUNT bytes.now }
    ensures len { vec_len made.new ≡ vec_len made.old + COUNT }
    ensures capacity { vec_capacity made.new ≡ vec_capacity made.old }
{
    for place in 0..COUNT {
        made.push_reserved(bytes[place]);
    }
}

#[inline(always)]
/// The bytes of a sample of `IN` bytes in another format, whose samples have `OUT` bytes, and others behind them.
fn packed<const IN: usize, const OUT: usize>(from: Sample, to: Sample, value: i32) -> [u8; 4]
    requires raw { IsRaw to }
    requires bytes_in { sample_width from ≡ IN }
    requires bytes_out { sample_width to ≡ OUT }
    requires range { FitsBytes (sample_width from) value }
    ensures { take OUT result ≡ repacked from to value }
{
    bytes_of(to, rescaled(value, IN as u32, OUT as u32))
}

#[inline(always)]
/// The bytes of the sample of a value, and others behind them.
fn bytes_of(to: Sample, value: i32) -> [u8; 4]
    requires raw { IsRaw to }
    requires range { FitsBytes (sample_width to) value }
    ensures { take (sample_width to) result ≡ sample_bytes to value }
{
    match to {
        Sample::S8 => [(value as i8).cast_unsigned(), 0, 0, 0],
        Sample::U8 => [(value + 128) as u8, 0, 0, 0],
        Sample::S16LE => {
            let bytes = (value as i16).to_le_bytes();
            [bytes[0], bytes[1], 0, 0]
        }
        Sample::S16BE => {
            let bytes = (value as i16).to_be_bytes();
            [bytes[0], bytes[1], 0, 0]
        }
        Sample::S24LE => value.to_le_bytes(),
        Sample::S32LE => value.to_le_bytes(),
        Sample::MuLaw | Sample::ALaw => unreachable!(),
    }
}

#[inline(always)]
/// A number of `from` bytes as one of `to` bytes: bytes of zeros are put behind it, or its last bytes are left
/// out.
fn rescaled(value: i32, from: u32, to: u32) -> i32
    requires some { 1 ≤ from }
    requires few { from ≤ 4 }
    requires some_to { 1 ≤ to }
    requires few_to { to ≤ 4 }
    requires range { FitsBytes from value }
    ensures { result ≡ rescaled_value from to value }
{
    if from <= to {
        value * factor(to - from)
    } else {
        value >> (8 * (from - to))
    }
}

#[inline(always)]
/// 256 to the power of a number of bytes.
fn factor(bytes: u32) -> i32
    requires { bytes ≤ 3 }
    ensures { result ≡ pos (2 ^ (8 * bytes)) }
{
    match bytes {
        0 => 1,
        1 => 0x100,
        2 => 0x1_0000,
        _ => 0x100_0000,
    }
}
