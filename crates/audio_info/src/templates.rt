//! The caps of templates of audio.
ghost use Rattle.std.specs.Prelude.{◌≡◌, ◌<◌, ◌≤◌, ◌^◌, ◌∷◌, [], length, map, OnOk, IfOk};
ghost use Rattle.gst_caps.specs.declared.value.Value.TheVariants.{One as Single};
ghost use Rattle.gst_value.specs.Names.{fields_with};
ghost use Rattle.gst_caps.specs.Values.{IsValue};
ghost use Rattle.audio_info.specs.Templates.{audio_template as audio_template_of, format_name, law_structure as law_structure_of, raw as raw_of, raw_formats as raw_formats_of, raw_structure as raw_structure_of, raw_template as raw_template_of, sample_template as sample_template_of, structure_of, up_to_most, wav_template as wav_template_of};

use crate::info::{LARGEST_RATE, MOST_CHANNELS};
use crate::sample::{RAW, Sample};
use gst_caps::{Caps, Structure, Value};
use gst_value::{CapsFault, List, One, OutOfMemory, Text};
use std::alloc::Global;

/// Raw audio of all formats, all rates and all numbers of channels.
pub fn raw_template(alloc: Global) -> Result<Caps, OutOfMemory>
    ensures { IfOk result (λ made. made ≡ raw_template_of) }
{
    let formats = raw_formats(alloc)?;
    let structure = raw_structure(alloc, formats)?;
    only_structure(alloc, structure)
}

/// Samples of one format, of all rates and all numbers of channels.
pub fn sample_template(alloc: Global, format: Sample) -> Result<Caps, OutOfMemory>
    ensures { IfOk result (λ made. made ≡ sample_template_of format) }
{
    let structure = structure(alloc, format)?;
    only_structure(alloc, structure)
}

/// Raw audio of these formats, and the two laws of G.711, of all rates and all numbers of channels.
pub fn audio_template(alloc: Global, formats: Value) -> Result<Caps, OutOfMemory>
    requires { IsValue formats }
    ensures { IfOk result (λ made. made ≡ audio_template_of formats) }
{
    let raw = raw_structure(alloc, formats)?;
    let mulaw = law_structure(alloc, "audio/x-mulaw")?;
    let alaw = law_structure(alloc, "audio/x-alaw")?;
    let mut structures = List::new(alloc);
    structures.push(alloc, raw)?;
    structures.push(alloc, mulaw)?;
    structures.push(alloc, alaw)?;
    Ok(Caps::Of(structures))
}

/// All that a WAV file can be written of: raw audio of the formats that it can hold, and the two laws of G.711.
pub fn wav_template(alloc: Global) -> Result<Caps, OutOfMemory>
    ensures { IfOk result (λ made. made ≡ wav_template_of) }
{
    let formats = format_names(
        alloc,
        &[Sample::U8, Sample::S16LE, Sample::S24LE, Sample::S32LE],
    )?;
    audio_template(alloc, Value::Many(formats))
}

/// The caps of one structure.
pub fn only_structure(alloc: Global, structure: Structure) -> Result<Caps, OutOfMemory>
    ensures { IfOk result (λ made. made ≡ Caps.Of (structure ∷ [])) }
{
    let mut structures = List::new(alloc);
    structures.push(alloc, structure)?;
    Ok(Caps::Of(structures))
}

/// Raw audio with these values of its fields, interleaved.
pub fn raw_audio(
    alloc: Global,
    channels: Value,
    formats: Value,
    rate: Value,
) -> Result<Structure, OutOfMemory>
    requires channels { IsValue channels }
    requires formats { IsValue formats }
    requires rate { IsValue rate }
    ensures { IfOk result (λ made. made ≡ raw_of channels formats rate) }
{
    let mut made = Structure::new(alloc, "audio/x-raw")?;
    let layout = Text::from_str(alloc, "interleaved")?;
    set(&mut made, alloc, "channels", channels)?;
    set(&mut made, alloc, "format", formats)?;
    set(&mut made, alloc, "layout", Value::One(One::Text(layout)))?;
    set(&mut made, alloc, "rate", rate)?;
    Ok(made)
}

/// The names of formats.
pub fn format_names(alloc: Global, formats: &[Sample]) -> Result<List<One>, OutOfMemory>
    ensures { IfOk result (λ made. made ≡ map format_name formats.now) }
{
    let mut made = List::new(alloc);
    for format in formats {
        let name = Text::from_str(alloc, format.name())?;
        made.push(alloc, One::Text(name))?;
    }
    Ok(made)
}

/// The names of all formats of raw audio, as a field's value.
pub fn raw_formats(alloc: Global) -> Result<Value, OutOfMemory>
    ensures { IfOk result (λ made. made ≡ raw_formats_of) }
{
    Ok(Value::Many(format_names(alloc, &RAW)?))
}

// The structure of samples of one format.
fn structure(alloc: Global, format: Sample) -> Result<Structure, OutOfMemory>
    ensures { IfOk result (λ made. made ≡ structure_of format) }
{
    match format {
        Sample::MuLaw => law_structure(alloc, "audio/x-mulaw"),
        Sample::ALaw => law_structure(alloc, "audio/x-alaw"),
        raw => raw_of_one(alloc, raw),
    }
}

// Raw audio of one format.
fn raw_of_one(alloc: Global, format: Sample) -> Result<Structure, OutOfMemory>
    ensures { IfOk result (λ made. made ≡ raw_structure_of (Single (format_name format))) }
{
    let name = Text::from_str(alloc, format.name())?;
    raw_structure(alloc, Value::One(One::Text(name)))
}

// Raw audio of formats, of all rates and all numbers of channels.
fn raw_structure(alloc: Global, formats: Value) -> Result<Structure, OutOfMemory>
    requires { IsValue formats }
    ensures { IfOk result (λ made. made ≡ raw_structure_of formats) }
{
    raw_audio(alloc, up_to(MOST_CHANNELS), formats, up_to(LARGEST_RATE))
}

// A law of this media type, of all rates and all numbers of channels.
fn law_structure(alloc: Global, media: &str) -> Result<Structure, OutOfMemory>
    ensures { IfOk result (λ made. made ≡ law_structure_of media.now) }
{
    let mut made = Structure::new(alloc, media)?;
    set(&mut made, alloc, "channels", up_to(MOST_CHANNELS))?;
    set(&mut made, alloc, "rate", up_to(LARGEST_RATE))?;
    Ok(made)
}

// The whole numbers from 1 to `most`.
fn up_to(most: u32) -> Value
    requires some { 1 ≤ most }
    requires fits { most < 2 ^ 31 }
    ensures { result ≡ up_to_most most }
{
    Value::One(One::IntRange(1, most as i32))
}

// Sets the field of this name, where its value makes a structure of no more than 64 fields.
fn set(
    structure: &mut Structure,
    alloc: Global,
    name: &str,
    value: Value,
) -> Result<(), OutOfMemory>
    requires value { IsValue value }
    requires few { length (fields_with name.now value structure.old.fields) ≤ 64 }
    ensures { OnOk result (structure.new ≡ record structure.old { fields = fields_with name.now value structure.old.fields }) }
{
    match structure.set(alloc, name, value) {
        Ok(()) => Ok(()),
        Err(CapsFault::OutOfMemory) => Err(OutOfMemory),
        Err(CapsFault::TooMany { .. }) => unreachable!(),
    }
}
