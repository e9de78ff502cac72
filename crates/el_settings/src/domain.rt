//! Which properties an element takes, and which values.
ghost use Rattle.std.specs.Prelude.{◌≡◌, IfOk, MatchBool};
ghost use Rattle.std.specs.List.{list_all};
ghost use Rattle.el_settings.specs.Rows.{find_row, own_rows, domain_named, formats, InDomain, is_name_byte, is_name, spells_true, spells_false};

use crate::kind::Kind;
use crate::number::read_number;
use audio_info::Sample;
use caps_text::CapsTextFault;
use gst_value::OutOfMemory;
use std::alloc::Global;

/// The values of a property.
#[derive(Clone, Copy)]
pub(crate) enum Domain {
    /// The name of an element: one or more letters, digits, `-` and `_`.
    Name,
    /// Any text.
    Text,
    /// A number within limits, in 1 to 20 decimal digits.
    Number { least: u64, most: u64 },
    /// `true`, `yes` or `1`, and `false`, `no` or `0`.
    Switch,
    /// `false`, `no` or `0`.
    Off,
    /// `no` or `0`.
    NotLeaky,
    /// A format of raw audio, in small letters.
    Format,
    /// A text of caps.
    Caps,
}

/// The values of the property of this name, where an element of the kind takes it.
pub(crate) fn domain_named(kind: Kind, name: &str) -> Option<Domain>
    ensures { result ≡ domain_named kind name.now }
{
    if name == "name" {
        return Some(Domain::Name);
    }
    match kind {
        Kind::FileSrc => of_file_src(name),
        Kind::RampTestSrc => of_ramp_test_src(name),
        Kind::Identity => None,
        Kind::CapsFilter => of_caps_filter(name),
        Kind::Valve => of_valve(name),
        Kind::Queue => of_queue(name),
        Kind::Tee => None,
        Kind::AudioConvert => None,
        Kind::Law(_) => None,
        Kind::RawAudioParse => of_raw_audio_parse(name),
        Kind::AudioBufferSplit => of_audio_buffer_split(name),
        Kind::WavParse => None,
        Kind::WavEnc => None,
        Kind::Interleave => None,
        Kind::Concat => None,
        Kind::FileSink => of_file_sink(name),
        Kind::FakeSink => of_fake_sink(name),
    }
}

fn of_file_src(name: &str) -> Option<Domain>
    ensures { result ≡ find_row name.now (own_rows Kind.FileSrc) }
{
    match name {
        "location" => Some(Domain::Text),
        "blocksize" => Some(Domain::Number {
            least: 1,
            most: 1_048_576,
        }),
        _ => None,
    }
}

fn of_ramp_test_src(name: &str) -> Option<Domain>
    ensures { result ≡ find_row name.now (own_rows Kind.RampTestSrc) }
{
    match name {
        "num-buffers" => Some(Domain::Number {
            least: 0,
            most: 1_000_000,
        }),
        "samplesperbuffer" => Some(Domain::Number {
            least: 1,
            most: 65_536,
        }),
        "rate" => Some(Domain::Number {
            least: 1,
            most: 768_000,
        }),
        "channels" => Some(Domain::Number { least: 1, most: 64 }),
        "gap-every" => Some(Domain::Number {
            least: 0,
            most: 1_000_000,
        }),
        "title" => Some(Domain::Text),
        _ => None,
    }
}

fn of_caps_filter(name: &str) -> Option<Domain>
    ensures { result ≡ find_row name.now (own_rows Kind.CapsFilter) }
{
    match name {
        "caps" => Some(Domain::Caps),
        _ => None,
    }
}

fn of_valve(name: &str) -> Option<Domain>
    ensures { result ≡ find_row name.now (own_rows Kind.Valve) }
{
    match name {
        "drop" => Some(Domain::Switch),
        _ => None,
    }
}

fn of_queue(name: &str) -> Option<Domain>
    ensures { result ≡ find_row name.now (own_rows Kind.Queue) }
{
    match name {
        "max-size-buffers" | "max-size-bytes" => Some(Domain::Number {
            least: 0,
            most: 4_294_967_295,
        }),
        "max-size-time" => Some(Domain::Number {
            least: 0,
            most: 9_223_372_036_854_775_807,
        }),
        "leaky" => Some(Domain::NotLeaky),
        _ => None,
    }
}

fn of_raw_audio_parse(name: &str) -> Option<Domain>
    ensures { result ≡ find_row name.now (own_rows Kind.RawAudioParse) }
{
    match name {
        "pcm-format" => Some(Domain::Format),
        "sample-rate" => Some(Domain::Number {
            least: 1,
            most: 768_000,
        }),
        "num-channels" => Some(Domain::Number { least: 1, most: 64 }),
        _ => None,
    }
}

fn of_audio_buffer_split(name: &str) -> Option<Domain>
    ensures { result ≡ find_row name.now (own_rows Kind.AudioBufferSplit) }
{
    match name {
        "frames" => Some(Domain::Number {
            least: 1,
            most: 1_000_000,
        }),
        _ => None,
    }
}

fn of_file_sink(name: &str) -> Option<Domain>
    ensures { result ≡ find_row name.now (own_rows Kind.FileSink) }
{
    match name {
        "location" => Some(Domain::Text),
        "keep-flushed" => Some(Domain::Switch),
        "sync" => Some(Domain::Off),
        _ => None,
    }
}

fn of_fake_sink(name: &str) -> Option<Domain>
    ensures { result ≡ find_row name.now (own_rows Kind.FakeSink) }
{
    match name {
        "sync" => Some(Domain::Off),
        _ => None,
    }
}

impl Domain {
    /// Whether a text is one of these values.
    pub(crate) fn holds(self, alloc: Global, text: &str) -> Result<bool, OutOfMemory>
        ensures { IfOk result (λ held. MatchBool held (InDomain self text.now) (¬ InDomain self text.now)) }
    {
        match self {
            Domain::Name => Ok(is_name(text)),
            Domain::Text => Ok(true),
            Domain::Number { least, most } => Ok(is_number_within(text, least, most)),
            Domain::Switch => Ok(spells_true(text) || spells_false(text)),
            Domain::Off => Ok(spells_false(text)),
            Domain::NotLeaky => Ok(text == "no" || text == "0"),
            Domain::Format => Ok(format_named(text).is_some()),
            Domain::Caps => is_caps(alloc, text),
        }
    }
}

/// Whether a text may be the name of an element.
fn is_name(text: &str) -> bool
    ensures { result ≡ is_name text.now }
{
    !text.is_empty() && has_name_bytes(text)
}

/// Whether each byte may stand in the name of an element.
fn has_name_bytes(text: &str) -> bool
    ensures { result ≡ list_all is_name_byte text.now }
{
    text.bytes().all(|byte| is_name_byte(byte))
}

fn is_name_byte(byte: u8) -> bool
    ensures { result ≡ is_name_byte byte }
{
    matches!(byte, b'a'..=b'z' | b'A'..=b'Z' | b'0'..=b'9' | b'-' | b'_')
}

/// Whether a text is a number within limits.
fn is_number_within(text: &str, least: u64, most: u64) -> bool
    ensures { MatchBool result (InDomain (Domain.Number least most) text.now) (¬ InDomain (Domain.Number least most) text.now) }
{
    match read_number(text) {
        Some(number) => u128::from(least) <= number && number <= u128::from(most),
        None => false,
    }
}

/// Whether a text says yes.
pub(crate) fn spells_true(text: &str) -> bool
    ensures { result ≡ spells_true text.now }
{
    text == "true" || text == "yes" || text == "1"
}

/// Whether a text says no.
fn spells_false(text: &str) -> bool
    ensures { result ≡ spells_false text.now }
{
    text == "false" || text == "no" || text == "0"
}

/// The format of raw audio of this name.
pub(crate) fn format_named(name: &str) -> Option<Sample>
    ensures { result ≡ find_row name.now formats }
{
    match name {
        "s8" => Some(Sample::S8),
        "u8" => Some(Sample::U8),
        "s16le" => Some(Sample::S16LE),
        "s16be" => Some(Sample::S16BE),
        "s24le" => Some(Sample::S24LE),
        "s32le" => Some(Sample::S32LE),
        _ => None,
    }
}

/// Whether a text stands for caps.
fn is_caps(alloc: Global, text: &str) -> Result<bool, OutOfMemory>
    ensures { IfOk result (λ held. MatchBool held (InDomain Domain.Caps text.now) (¬ InDomain Domain.Caps text.now)) }
{
    match caps_text::parse(alloc, text) {
        Ok(_) => Ok(true),
        Err(CapsTextFault::BadCaps { .. }) => Ok(false),
        Err(CapsTextFault::TooMany { .. }) => Ok(false),
        Err(CapsTextFault::OutOfMemory) => Err(OutOfMemory),
    }
}
