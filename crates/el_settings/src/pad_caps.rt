//! The caps of templates.
ghost use Rattle.std.specs.Prelude.{◌≡◌, IfOk};
ghost use Rattle.el_settings.specs.Templates.{read_audio as all_read, wav_file as a_wav_file};

use audio_info::{audio_template, only_structure, raw_formats};
use gst_caps::{Caps, Structure};
use gst_value::OutOfMemory;
use std::alloc::Global;

/// All that a WAV file can be read as.
pub(crate) fn read_audio(alloc: Global) -> Result<Caps, OutOfMemory>
    ensures { IfOk result (λ made. made ≡ all_read) }
{
    let formats = raw_formats(alloc)?;
    audio_template(alloc, formats)
}

/// A WAV file.
pub(crate) fn wav_file(alloc: Global) -> Result<Caps, OutOfMemory>
    ensures { IfOk result (λ made. made ≡ a_wav_file) }
{
    let structure = Structure::new(alloc, "audio/x-wav")?;
    only_structure(alloc, structure)
}
