//! The template of a sink pad.
ghost use Rattle.std.specs.Prelude.{◌≡◌, IfOk};
ghost use Rattle.el_mix.specs.Mono.{mono_template as mono_template_of};

use audio_info::{LARGEST_RATE, only_structure, raw_audio, raw_formats};
use gst_caps::{Caps, Value};
use gst_value::{One, OutOfMemory};
use std::alloc::Global;

/// Raw audio of one channel, of all formats and all rates.
pub fn mono_template(alloc: Global) -> Result<Caps, OutOfMemory>
    ensures { IfOk result (λ made. made ≡ mono_template_of) }
{
    let formats = raw_formats(alloc)?;
    let rates = Value::One(One::IntRange(1, LARGEST_RATE as i32));
    let structure = raw_audio(alloc, Value::One(One::Int(1)), formats, rates)?;
    only_structure(alloc, structure)
}
