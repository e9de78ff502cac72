//! Elements, made by what they are set to.
ghost use Rattle.std.specs.Prelude.{◌≡◌, IfOk};
ghost use Rattle.el_settings.specs.Asked.{title_of};
ghost use Rattle.el_set.specs.Made.{IsFilterFor, IsTeeFor, IsJoinFor, IsSourceFor, IsSinkFor};

use crate::filter::FilterElement;
use crate::join::JoinElement;
use crate::sink::SinkElement;
use crate::source::SourceElement;
use el_basic::{CapsFilter, Identity, Tee, Valve};
use el_convert::Convert;
use el_join::Concat;
use el_law::Law;
use el_mix::Mix;
use el_parse::{RawParse, Split};
use el_settings::Settings;
use el_sink::{FakeSink, FileSink};
use el_src::{FileSrc, Ramp, RampSrc};
use el_wav::WavParse;
use el_wavenc::WavEnc;
use gst_outside::{Sink, Source};
use gst_value::{OutOfMemory, Text};
use std::alloc::Global;

/// The element of these settings between one sink pad and one source pad, which was fed nothing yet. None where they
/// are those of a source, a queue, a tee, an element with several sink pads or a sink.
pub fn filter_of(alloc: Global, settings: &Settings) -> Result<Option<FilterElement>, OutOfMemory>
    ensures { IfOk result (IsFilterFor settings.now) }
{
    match settings {
        Settings::Identity => Ok(Some(FilterElement::Identity(Identity::new()))),
        Settings::CapsFilter(settings) => {
            let caps = settings.caps.copy(alloc)?;
            Ok(Some(FilterElement::CapsFilter(CapsFilter::new(caps))))
        }
        Settings::Valve(settings) => Ok(Some(FilterElement::Valve(Valve::new(settings.drops)))),
        Settings::AudioConvert(settings) => {
            let allowed = settings.allowed.copy(alloc)?;
            Ok(Some(FilterElement::Convert(Convert::new(allowed))))
        }
        Settings::Law(kind) => Ok(Some(FilterElement::Law(Law::new(*kind)))),
        Settings::RawAudioParse(info) => Ok(Some(FilterElement::RawParse(RawParse::new(*info)))),
        Settings::AudioBufferSplit(settings) => {
            Ok(Some(FilterElement::Split(Split::new(settings.frames))))
        }
        Settings::WavParse => Ok(Some(FilterElement::WavParse(WavParse::new()))),
        Settings::WavEnc => Ok(Some(FilterElement::WavEnc(WavEnc::new()))),
        Settings::FileSrc(_)
        | Settings::RampTestSrc(_)
        | Settings::Queue(_)
        | Settings::Tee(_)
        | Settings::Interleave(_)
        | Settings::Concat(_)
        | Settings::FileSink(_)
        | Settings::FakeSink => Ok(None),
    }
}

/// The tee of these settings, with all of its source pads, which was fed nothing yet. None where they are those of another
/// element. Takes no memory.
pub fn tee_of(settings: &Settings) -> Option<Tee>
    ensures { IsTeeFor settings.now result }
{
    match settings {
        Settings::Tee(pads) => Some(Tee::new(pads.count())),
        _ => None,
    }
}

/// The element of these settings with several sink pads, which was fed nothing yet. None where they are those of another
/// element.
pub fn join_of(alloc: Global, settings: &Settings) -> Result<Option<JoinElement>, OutOfMemory>
    ensures { IfOk result (IsJoinFor settings.now) }
{
    match settings {
        Settings::Interleave(pads) => {
            let mix = Mix::new(alloc, pads.count())?;
            Ok(Some(JoinElement::Mix(mix)))
        }
        Settings::Concat(pads) => {
            let concat = Concat::new(alloc, pads.count())?;
            Ok(Some(JoinElement::Concat(concat)))
        }
        _ => Ok(None),
    }
}

/// The source of these settings, of the number `id`, which was asked for nothing yet; `title` is a copy of
/// `settings.title()`, what they say that its stream is called, and `file` is what it reads. None where they are those
/// of no source, or of one that reads a file and none is given. Takes no memory.
pub fn source_of<S: Source>(
    settings: &Settings,
    title: Option<Text>,
    file: Option<S>,
    id: u32,
) -> Option<SourceElement<S>>
    requires { title ≡ title_of settings.now }
    ensures { IsSourceFor S.content settings.now file id result }
{
    match (settings, file) {
        (Settings::FileSrc(settings), Some(file)) => {
            Some(SourceElement::File(FileSrc::new(file, settings.blocksize, id)))
        }
        (Settings::RampTestSrc(settings), _) => {
            let ramp = Ramp {
                buffers: settings.ramp.buffers,
                samples: settings.ramp.samples,
                rate: settings.ramp.rate,
                channels: settings.ramp.channels,
                gap_every: settings.ramp.gap_every,
                title,
            };
            Some(SourceElement::Ramp(RampSrc::new(ramp, id)))
        }
        _ => None,
    }
}

/// The sink of these settings, which was given nothing yet; `file` is what it writes, empty at first. None where they
/// are those of no sink, or of one that writes a file and none is given.
pub fn sink_of<K: Sink>(settings: &Settings, file: Option<K>) -> Option<SinkElement<K>>
    ensures { IsSinkFor K.bytes settings.now file result }
{
    match (settings, file) {
        (Settings::FileSink(settings), Some(file)) => {
            Some(SinkElement::File(FileSink::new(file, settings.keep_flushed)))
        }
        (Settings::FakeSink, _) => Some(SinkElement::Fake(FakeSink::new())),
        _ => None,
    }
}
