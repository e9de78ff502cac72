//! Frames of all channels in turn.
ghost use Rattle.std.specs.Prelude.{◌≡◌, ◌<◌, ◌≤◌, ◌+◌, ◌++◌, ◌/◌, ◌^◌, None, map, replicate, IfOk, OnOk, length, IfSome};
ghost use Rattle.audio_info.specs.Packing.{sample_width};
ghost use Rattle.el_mix.specs.Mono.{silence};
ghost use Rattle.el_mix.specs.Taking.{settled, passes, left, lines};
ghost use Rattle.el_mix.specs.Turns.{next_cut as next_cut_of, least_of as least_of_both, sample, turn, turns, HasAhead, IsAhead};

use crate::channel::Channel;
use audio_info::Sample;
use gst_item::Body;
use gst_value::OutOfMemory;
use std::alloc::Global;

/// The bytes of each channel up to the next cut: the least number that is left of a first body. None where a channel has no body and
/// did not end, and where no channel has one.
pub(crate) fn next_cut(channels: &[Channel]) -> Option<usize>
    ensures cut { result ≡ next_cut_of None (lines channels.now) }
    ensures small { IfSome result (λ n. n < 2 ^ 31) }
{
    let mut least = None;
    for channel in channels.iter() {
        match channel.waiting.first() {
            Some(left) => least = least_of(least, left.len()),
            None if channel.progress.ended => {}
            None => return None,
        }
    }
    least
}

fn least_of(least: Option<usize>, length: usize) -> Option<usize>
    ensures { result ≡ least_of_both least length }
{
    match least {
        Some(before) if before < length => Some(before),
        _ => Some(length),
    }
}

/// Looks ahead past so many bytes of each channel.
pub(crate) fn pass_all(channels: &mut [Channel], bytes: usize)
    ensures { channels.new ≡ map (passes bytes) channels.old }
{
    for channel in channels.iter_mut() {
        channel.waiting.pass(bytes);
    }
}

/// Looks ahead from the first bodies again.
pub(crate) fn rewind_all(channels: &mut [Channel])
    ensures { channels.new ≡ map settled channels.old }
{
    for channel in channels.iter_mut() {
        channel.waiting.rewind();
    }
}

/// Lets go of what the look ahead has passed.
pub(crate) fn leave_all(channels: &mut [Channel])
    ensures { channels.new ≡ map left channels.old }
{
    for channel in channels.iter_mut() {
        channel.waiting.leave();
    }
}

/// The next bytes of each channel, a sample of each in turn, and silence of those where none wait.
pub(crate) fn interleave(
    alloc: Global,
    channels: &[Channel],
    format: Sample,
    bytes: usize,
) -> Result<Body, OutOfMemory>
    requires ahead { IsAhead bytes (lines channels.now) }
    requires few { length channels.now ≤ 64 }
    requires small { bytes < 2 ^ 31 }
    ensures { IfOk result (λ made. made ≡ turns format (lines channels.now) (bytes / sample_width format)) }
{
    let width = format.width() as usize;
    let frames = bytes / width;
    let mut made = Vec::with_capacity(alloc, frames * width * channels.len())?;
    for frame in 0..frames {
        push_turn(&mut made, channels, format, frame * width)?;
    }
    Body::from_vec(alloc, made)
}

/// A sample of each channel, from a byte of its first body on.
fn push_turn(
    into: &mut Vec<u8>,
    channels: &[Channel],
    format: Sample,
    from: usize,
) -> Result<(), OutOfMemory>
    requires ahead { IsAhead (from + sample_width format) (lines channels.now) }
    requires small { from < 2 ^ 31 }
    ensures { OnOk result (into.new.items ≡ into.old.items ++ turn format (lines channels.now) from) }
{
    for channel in channels.iter() {
        push_sample(into, channel, format, from)?;
    }
    Ok(())
}

fn push_sample(
    into: &mut Vec<u8>,
    channel: &Channel,
    format: Sample,
    from: usize,
) -> Result<(), OutOfMemory>
    requires ahead { HasAhead (from + sample_width format) channel.now.waiting.ahead }
    requires small { from < 2 ^ 31 }
    ensures { OnOk result (into.new.items ≡ into.old.items ++ sample format channel.now.waiting.ahead from) }
{
    match channel.waiting.first() {
        Some(left) => {
            let end = from + format.width() as usize;
            into.extend_from_slice(&left[from..end])?;
            Ok(())
        }
        None => push_silence(into, format),
    }
}

/// The sample of value 0.
fn push_silence(into: &mut Vec<u8>, format: Sample) -> Result<(), OutOfMemory>
    ensures { OnOk result (into.new.items ≡ into.old.items ++ replicate (sample_width format) (silence format)) }
{
    let silent = [silent_byte(format); 4];
    into.extend_from_slice(&silent[..format.width() as usize])?;
    Ok(())
}

fn silent_byte(format: Sample) -> u8
    ensures { result ≡ silence format }
{
    match format {
        Sample::U8 => 128,
        _ => 0,
    }
}
