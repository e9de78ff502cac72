//! What a converter can make of raw audio.
ghost use Rattle.std.specs.Prelude.{◌≡◌, ◌≤◌, ◌∷◌, [], IfOk};
ghost use Rattle.gst_value.specs.Values.{AreMembers};
ghost use Rattle.el_convert.specs.Raw.{channels_from as channels_of, options_from};

use audio_info::{Info, Sample, format_names, only_structure, raw_audio};
use gst_caps::{Caps, Value};
use gst_value::{List, One, OutOfMemory};
use std::alloc::Global;

/// What audio of this format can become.
pub(crate) fn options(alloc: Global, info: &Info) -> Result<Caps, OutOfMemory>
    ensures { IfOk result (λ made. made ≡ Caps.Of (options_from info.now.format info.now.rate info.now.channels ∷ [])) }
{
    let formats = format_names(
        alloc,
        &[
            info.format,
            Sample::S8,
            Sample::U8,
            Sample::S16LE,
            Sample::S16BE,
            Sample::S24LE,
            Sample::S32LE,
        ],
    )?;
    let structure = raw_audio(
        alloc,
        Value::Many(channels_from(alloc, info.channels)?),
        Value::Many(formats),
        Value::One(One::Int(info.rate as i32)),
    )?;
    only_structure(alloc, structure)
}

/// The numbers of channels that a number of them can become, its own first.
fn channels_from(alloc: Global, channels: u32) -> Result<List<One>, OutOfMemory>
    requires { channels ≤ 64 }
    ensures numbers { IfOk result (λ made. made ≡ channels_of channels) }
    ensures members { IfOk result AreMembers }
{
    let mut made = List::new(alloc);
    made.push(alloc, One::Int(channels as i32))?;
    if channels == 1 {
        made.push(alloc, One::Int(2))?;
    } else if channels == 2 {
        made.push(alloc, One::Int(1))?;
    }
    Ok(made)
}
