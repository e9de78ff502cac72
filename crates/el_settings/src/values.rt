//! The values of properties that count.
ghost use Rattle.std.specs.Prelude.{◌≡◌, ◌<◌, ◌^◌, ℕ, ⊤, Some, false, IfOk, MatchOption};
ghost use Rattle.std.specs.Option.{option_map};
ghost use Rattle.gst_caps.specs.declared.caps.Caps.{Caps as FilterCaps};
ghost use Rattle.caps_text.specs.Grammar.{IsCapsText};
ghost use Rattle.el_settings.specs.Numbers.{IsNumber};
ghost use Rattle.el_settings.specs.Rows.{find_row, formats, spells_true};
ghost use Rattle.audio_info.specs.declared.sample.Sample.{Sample as Format};
ghost use Rattle.el_settings.specs.Values.{last_value};

use crate::domain::{format_named, spells_true};
use crate::number::read_number;
use audio_info::Sample;
use caps_text::CapsTextFault;
use gst_caps::Caps;
use gst_value::{OutOfMemory, Prop};
use std::alloc::Global;

/// The last value that is given for the property of a name.
pub(crate) fn last_value<'a>(props: &'a [Prop], name: &str) -> Option<&'a str>
    ensures { option_map (λ text. text.now) result ≡ last_value name.now props.now }
{
    let mut found = None;
    for prop in props {
        if prop.name.as_str() == name {
            found = Some(prop.value.as_str());
        }
    }
    found
}

/// The number that is given for the property of a name, or the plain one. A number of more than 64 bits is given
/// as the largest of them.
pub(crate) fn number_or(props: &[Prop], name: &str, plain: u64) -> u64
    ensures { MatchOption (last_value name.now props.now) (result ≡ plain) (λ text. (n : ℕ) → IsNumber text n → n < 2 ^ 64 → result ≡ n) }
{
    let Some(text) = last_value(props, name) else {
        return plain;
    };
    match read_number(text) {
        Some(number) => number.min(u128::from(u64::MAX)) as u64,
        None => plain,
    }
}

/// The same for 32 bits.
pub(crate) fn short_number_or(props: &[Prop], name: &str, plain: u32) -> u32
    ensures { MatchOption (last_value name.now props.now) (result ≡ plain) (λ text. (n : ℕ) → IsNumber text n → n < 2 ^ 32 → result ≡ n) }
{
    number_or(props, name, u64::from(plain)).min(u64::from(u32::MAX)) as u32
}

/// The format of raw audio that is given for the property of a name, or the plain one.
pub(crate) fn format_or(props: &[Prop], name: &str, plain: Sample) -> Sample
    ensures { MatchOption (last_value name.now props.now) (result ≡ plain) (λ text. (format : Format) → find_row text formats ≡ Some format → result ≡ format) }
{
    let Some(text) = last_value(props, name) else {
        return plain;
    };
    format_named(text).unwrap_or(plain)
}

/// Whether a switch is on. It is off where no value is given.
pub(crate) fn is_switched_on(value: Option<&str>) -> bool
    ensures { MatchOption value.entry (result ≡ false) (λ text. result ≡ spells_true text.now) }
{
    match value {
        Some(text) => spells_true(text),
        None => false,
    }
}

/// The caps of a text that stands for some, or all caps where no text is given.
pub(crate) fn caps_or_any(alloc: Global, text: Option<&str>) -> Result<Caps, OutOfMemory>
    requires { MatchOption text ⊤ (λ text. (caps : FilterCaps) × IsCapsText text.now caps) }
    ensures { IfOk result (λ made. MatchOption text.entry (made ≡ Caps.Any) (λ text. IsCapsText text.now made)) }
{
    let Some(text) = text else {
        return Ok(Caps::Any);
    };
    match caps_text::parse(alloc, text) {
        Ok(caps) => Ok(caps),
        Err(CapsTextFault::BadCaps { .. }) => unreachable!(),
        Err(CapsTextFault::TooMany { .. }) => unreachable!(),
        Err(CapsTextFault::OutOfMemory) => Err(OutOfMemory),
    }
}
