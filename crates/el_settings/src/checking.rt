//! Reads the properties of an element.
ghost use Rattle.std.specs.Prelude.{◌≡◌, ◌≤◌, ◌<◌, ◌*◌, ◌/◌, ◌^◌, Some, IfOk, IfErr, OnOk, MatchBool, codes};
ghost use Rattle.el_settings.specs.declared.domain.Domain.{Domain};
ghost use Rattle.el_settings.specs.Rows.{domain_named};
ghost use Rattle.el_settings.specs.Values.{IsTaken, AllTaken, last_value, NumberOr, FormatOr};
ghost use Rattle.el_settings.specs.Checked.{IsSetTo, IsOwnFault, IsJudged, IsMissing, IsLateFault, IsSettled, IsKindAnswer, IsAnswer};

use crate::domain::domain_named;
use crate::fault::PropFault;
use crate::kind::{Kind, kind_named};
use crate::pads::MadePads;
use crate::settings::{
    AudioBufferSplitSettings, AudioConvertSettings, CapsFilterSettings, FileSinkSettings,
    FileSrcSettings, QueueSettings, RampTestSrcSettings, Settings, ValveSettings,
};
use crate::values::{
    caps_or_any, format_or, is_switched_on, last_value, number_or, short_number_or,
};
use audio_info::{Info, Sample};
use el_src::Ramp;
use gst_caps::Caps;
use gst_time::scale;
use gst_value::{List, OutOfMemory, Prop, Text};
use std::alloc::Global;

/// Nanoseconds in a second.
const SECOND: u64 = 1_000_000_000;

/// What an element of a kind is set to by properties. Of the faults the first in the order of the properties is
/// answered; a property that is needed and was not given is looked for behind them. A ramptestsrc whose end in
/// nanoseconds would be 2^63 or later has a bad value of `num-buffers`. Of a property that is given twice the last
/// value counts.
pub fn check(alloc: Global, kind: &str, props: &List<Prop>) -> Result<Settings, PropFault>
    ensures { IsAnswer kind.now props.now result }
{
    match kind_named(kind) {
        Some(kind) => check_kind(alloc, kind, props.as_slice()),
        None => Err(PropFault::NoSuchKind),
    }
}

/// The same for a kind that is there.
fn check_kind(alloc: Global, kind: Kind, props: &[Prop]) -> Result<Settings, PropFault>
    ensures { IsKindAnswer kind props.now result }
{
    match judge_all(alloc, kind, props) {
        Ok(()) => settings_of(alloc, kind, props),
        Err(fault) => Err(fault),
    }
}

/// Judges each property in order.
fn judge_all(alloc: Global, kind: Kind, props: &[Prop]) -> Result<(), PropFault>
    ensures { IsJudged kind props.now result }
{
    for prop in props {
        match judge(alloc, kind, prop) {
            Ok(()) => {}
            Err(fault) => return Err(fault),
        }
    }
    Ok(())
}

/// Whether the kind takes a property with this value.
fn judge(alloc: Global, kind: Kind, prop: &Prop) -> Result<(), PropFault>
    ensures taken { OnOk result (IsTaken kind prop.now) }
    ensures fault { IfErr result (IsOwnFault kind prop.now) }
{
    let Some(domain) = domain_named(kind, prop.name.as_str()) else {
        return Err(PropFault::NoSuchProperty {
            name: prop.name.copy(alloc)?,
        });
    };
    if domain.holds(alloc, prop.value.as_str())? {
        Ok(())
    } else {
        Err(PropFault::BadValue {
            name: prop.name.copy(alloc)?,
        })
    }
}

/// What properties that are all taken set an element to.
fn settings_of(alloc: Global, kind: Kind, props: &[Prop]) -> Result<Settings, PropFault>
    requires { AllTaken kind props.now }
    ensures { IsSettled kind props.now result }
{
    match kind {
        Kind::FileSrc => file_src(alloc, props),
        Kind::RampTestSrc => ramp_test_src(alloc, props),
        Kind::Identity => Ok(Settings::Identity),
        Kind::CapsFilter => caps_filter(alloc, props),
        Kind::Valve => Ok(valve(props)),
        Kind::Queue => Ok(queue(props)),
        Kind::Tee => Ok(Settings::Tee(MadePads::none())),
        Kind::AudioConvert => Ok(Settings::AudioConvert(AudioConvertSettings {
            allowed: Caps::Any,
        })),
        Kind::Law(kind) => Ok(Settings::Law(kind)),
        Kind::RawAudioParse => Ok(raw_audio_parse(props)),
        Kind::AudioBufferSplit => Ok(audio_buffer_split(props)),
        Kind::WavParse => Ok(Settings::WavParse),
        Kind::WavEnc => Ok(Settings::WavEnc),
        Kind::Interleave => Ok(Settings::Interleave(MadePads::none())),
        Kind::Concat => Ok(Settings::Concat(MadePads::none())),
        Kind::FileSink => file_sink(alloc, props),
        Kind::FakeSink => Ok(Settings::FakeSink),
    }
}

fn file_src(alloc: Global, props: &[Prop]) -> Result<Settings, PropFault>
    requires { AllTaken Kind.FileSrc props.now }
    ensures { IsSettled Kind.FileSrc props.now result }
{
    let location = needed_location(alloc, props)?;
    Ok(Settings::FileSrc(FileSrcSettings {
        location,
        blocksize: short_number_or(props, "blocksize", 4096),
    }))
}

fn ramp_test_src(alloc: Global, props: &[Prop]) -> Result<Settings, PropFault>
    requires { AllTaken Kind.RampTestSrc props.now }
    ensures { IsSettled Kind.RampTestSrc props.now result }
{
    let kind = Kind::RampTestSrc;
    let buffers = number_in(kind, props, "num-buffers", 0, 1_000_000, 16);
    let samples = number_in(kind, props, "samplesperbuffer", 1, 65_536, 1024);
    let rate = number_in(kind, props, "rate", 1, 768_000, 44_100);
    let channels = number_in(kind, props, "channels", 1, 64, 1);
    let gap_every = number_in(kind, props, "gap-every", 0, 1_000_000, 0);
    if ends_too_late(buffers, samples, rate) {
        return Err(too_late(alloc));
    }
    let title = title_in(alloc, props)?;
    Ok(Settings::RampTestSrc(RampTestSrcSettings {
        ramp: Ramp {
            buffers,
            samples,
            rate,
            channels,
            gap_every,
            title,
        },
    }))
}

/// The number that is given for a property of these limits, or the plain one. The kind is that of the element, whose
/// property has these limits.
fn number_in(kind: Kind, props: &[Prop], name: &str, least: u32, most: u32, plain: u32) -> u32
    requires row { domain_named kind name.now ≡ Some (Domain.Number least most) }
    requires some { least ≤ plain }
    requires few { plain ≤ most }
    requires fits { most < 4294967296 }
    requires taken { AllTaken kind props.now }
    ensures given { NumberOr name.now plain props.now result }
    ensures some { least ≤ result }
    ensures few { result ≤ most }
{
    short_number_or(props, name, plain)
}

/// Whether the time of the end of so many buffers of so many frames, in nanoseconds, is 2^63 or later.
fn ends_too_late(buffers: u32, samples: u32, rate: u32) -> bool
    requires { 1 ≤ rate }
    ensures { MatchBool result (2 ^ 63 ≤ buffers * samples * 1000000000 / rate) (buffers * samples * 1000000000 / rate < 2 ^ 63) }
{
    let frames = u64::from(buffers) * u64::from(samples);
    scale(frames, SECOND, u64::from(rate)).is_none()
}

/// The fault of a ramp that ends too late.
fn too_late(alloc: Global) -> PropFault
    ensures { IsLateFault result }
{
    match Text::from_str(alloc, "num-buffers") {
        Ok(name) => PropFault::BadValue { name },
        Err(OutOfMemory) => PropFault::OutOfMemory,
    }
}

/// A copy of the title that is given.
fn title_in(alloc: Global, props: &[Prop]) -> Result<Option<Text>, OutOfMemory>
    ensures { IfOk result (λ title. last_value (codes "title") props.now ≡ title) }
{
    match last_value(props, "title") {
        Some(title) => Ok(Some(Text::from_str(alloc, title)?)),
        None => Ok(None),
    }
}

fn caps_filter(alloc: Global, props: &[Prop]) -> Result<Settings, PropFault>
    requires { AllTaken Kind.CapsFilter props.now }
    ensures { IsSettled Kind.CapsFilter props.now result }
{
    let caps = caps_or_any(alloc, last_value(props, "caps"))?;
    Ok(Settings::CapsFilter(CapsFilterSettings { caps }))
}

fn valve(props: &[Prop]) -> Settings
    ensures { IsSetTo Kind.Valve props.now result }
{
    Settings::Valve(ValveSettings {
        drops: is_switched_on(last_value(props, "drop")),
    })
}

fn queue(props: &[Prop]) -> Settings
    requires { AllTaken Kind.Queue props.now }
    ensures { IsSetTo Kind.Queue props.now result }
{
    Settings::Queue(QueueSettings {
        buffers: short_number_or(props, "max-size-buffers", 200),
        bytes: short_number_or(props, "max-size-bytes", 10_485_760),
        time: number_or(props, "max-size-time", 1_000_000_000),
    })
}

fn raw_audio_parse(props: &[Prop]) -> Settings
    requires { AllTaken Kind.RawAudioParse props.now }
    ensures { IsSetTo Kind.RawAudioParse props.now result }
{
    let kind = Kind::RawAudioParse;
    let format = format_in(kind, props, "pcm-format", Sample::S16LE);
    let rate = number_in(kind, props, "sample-rate", 1, 768_000, 44_100);
    let channels = number_in(kind, props, "num-channels", 1, 64, 2);
    Settings::RawAudioParse(Info {
        format,
        rate,
        channels,
    })
}

/// The format of raw audio that is given for a property of an element of this kind, or the plain one.
fn format_in(kind: Kind, props: &[Prop], name: &str, plain: Sample) -> Sample
    requires row { domain_named kind name.now ≡ Some Domain.Format }
    requires taken { AllTaken kind props.now }
    ensures { FormatOr name.now plain props.now result }
{
    format_or(props, name, plain)
}

fn audio_buffer_split(props: &[Prop]) -> Settings
    requires { AllTaken Kind.AudioBufferSplit props.now }
    ensures { IsSetTo Kind.AudioBufferSplit props.now result }
{
    let frames = number_in(Kind::AudioBufferSplit, props, "frames", 1, 1_000_000, 1024);
    Settings::AudioBufferSplit(AudioBufferSplitSettings { frames })
}

fn file_sink(alloc: Global, props: &[Prop]) -> Result<Settings, PropFault>
    requires { AllTaken Kind.FileSink props.now }
    ensures { IsSettled Kind.FileSink props.now result }
{
    let location = needed_location(alloc, props)?;
    Ok(Settings::FileSink(FileSinkSettings {
        location,
        keep_flushed: is_switched_on(last_value(props, "keep-flushed")),
    }))
}

/// The location that is given.
fn needed_location(alloc: Global, props: &[Prop]) -> Result<Text, PropFault>
    ensures given { IfOk result (λ location. last_value (codes "location") props.now ≡ Some location) }
    ensures missing { IfErr result (IsMissing (codes "location") props.now) }
{
    match last_value(props, "location") {
        Some(location) => Ok(Text::from_str(alloc, location)?),
        None => Err(PropFault::BadValue {
            name: Text::from_str(alloc, "location")?,
        }),
    }
}
