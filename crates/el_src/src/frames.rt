//! Frames that count, as bytes.
ghost use Rattle.std.specs.Prelude.{◌≡◌, ◌≤◌, ◌<◌, ◌+◌, ◌^◌, ◌++◌, IfOk, OnOk};
ghost use Rattle.audio_info.specs.Packing.{sample_bytes};
ghost use Rattle.audio_info.specs.declared.sample.Sample.TheVariants.{S16LE};
ghost use Rattle.el_src.specs.Ramp.{frame_bytes, frame_sample, frames_bytes};

use std::alloc::{AllocError, Global};

/// The bytes of `count` frames from the frame `first` on: each has the low 16 bits of its number on every channel.
pub(crate) fn frames_bytes(
    alloc: Global,
    first: u64,
    count: u32,
    channels: u32,
) -> Result<Vec<u8>, AllocError>
    requires fits { first + count < 2 ^ 64 }
    requires small { count ≤ 65536 }
    requires few { channels ≤ 64 }
    ensures { IfOk result (λ made. made.items ≡ frames_bytes channels first count) }
{
    let mut bytes = Vec::with_capacity(alloc, 2 * channels as usize * count as usize)?;
    for frame in first..first + u64::from(count) {
        push_frame(&mut bytes, frame, channels)?;
    }
    Ok(bytes)
}

/// Puts the bytes of a frame behind others.
fn push_frame(bytes: &mut Vec<u8>, frame: u64, channels: u32) -> Result<(), AllocError>
    ensures { OnOk result (bytes.new.items ≡ bytes.old.items ++ frame_bytes channels frame) }
{
    let sample = frame_sample(frame);
    for _ in 0..channels {
        bytes.extend_from_slice(&sample)?;
    }
    Ok(())
}

/// The bytes of the sample of a frame, the lower one first.
fn frame_sample(frame: u64) -> [u8; 2]
    ensures { result ≡ sample_bytes S16LE (frame_sample frame) }
{
    ((frame % 65_536) as u16).to_le_bytes()
}
