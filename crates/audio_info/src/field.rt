//! The fields of fixed caps, by their names.
ghost use Rattle.std.specs.Prelude.{◌≡◌, ◌≤◌, length, OnOk, codes, option_and_then};
ghost use Rattle.std.specs.Option.{option_copied};
ghost use Rattle.gst_value.specs.Names.{fields_with};
ghost use Rattle.gst_value.specs.Values.{IsSingle};
ghost use Rattle.audio_info.specs.Media.{field_of, number_up_to, raw_sample, sample_of};

use crate::sample::Sample;
use gst_value::{CapsFault, Fixed, One, OutOfMemory};
use std::alloc::Global;

/// The value of the field of this name.
pub(crate) fn field_named<'a>(caps: &'a Fixed, name: &str) -> Option<&'a One>
    ensures { option_copied result ≡ field_of name.now caps.now.fields }
{
    for place in 0..caps.fields() {
        let (found, value) = caps.field(place)?;
        if found == name {
            return Some(value);
        }
    }
    None
}

/// The number of the field of this name, where it is one from 1 to `most`.
pub(crate) fn number_in(caps: &Fixed, name: &str, most: u32) -> Option<u32>
    ensures { result ≡ option_and_then (number_up_to most) (field_of name.now caps.now.fields) }
{
    let Some(One::Int(number)) = field_named(caps, name) else {
        return None;
    };
    u32::try_from(*number)
        .ok()
        .filter(|n| 1 <= *n && *n <= most)
}

/// The format of the samples.
pub(crate) fn sample_in(caps: &Fixed) -> Option<Sample>
    ensures { result ≡ sample_of caps.now }
{
    let media = caps.media();
    if media == "audio/x-raw" {
        raw_in(caps)
    } else if media == "audio/x-mulaw" {
        Some(Sample::MuLaw)
    } else if media == "audio/x-alaw" {
        Some(Sample::ALaw)
    } else {
        None
    }
}

// The format that the field `format` names.
fn raw_in(caps: &Fixed) -> Option<Sample>
    ensures { result ≡ option_and_then raw_sample (field_of (codes "format") caps.now.fields) }
{
    match field_named(caps, "format") {
        Some(One::Text(name)) => Sample::raw_named(name.as_str()),
        _ => None,
    }
}

/// Sets the field of this name, where its value makes caps of no more than 64 fields.
pub(crate) fn set(
    caps: &mut Fixed,
    alloc: Global,
    name: &str,
    value: One,
) -> Result<(), OutOfMemory>
    requires single { IsSingle value }
    requires few { length (fields_with name.now value caps.old.fields) ≤ 64 }
    ensures { OnOk result (caps.new ≡ record caps.old { fields = fields_with name.now value caps.old.fields }) }
{
    match caps.set(alloc, name, value) {
        Ok(()) => Ok(()),
        Err(CapsFault::OutOfMemory) => Err(OutOfMemory),
        Err(CapsFault::TooMany { .. }) => unreachable!(),
    }
}
