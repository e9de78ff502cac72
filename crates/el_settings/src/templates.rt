//! The templates of pads.
ghost use Rattle.std.specs.Prelude.{◌≡◌, if◌then◌else◌, IfOk};
ghost use Rattle.audio_info.specs.Templates.{raw_template as raw_template_of, sample_template as caps_of, wav_template as all_written};
ghost use Rattle.el_law.specs.Laws.{format_in, format_out};
ghost use Rattle.el_mix.specs.Mono.{mono_template as a_mono_template};
ghost use Rattle.el_settings.specs.Asked.{HasPad, template_of};
ghost use Rattle.el_settings.specs.Templates.{read_audio as all_read, wav_file as a_wav_file};

use crate::pad_caps::{read_audio, wav_file};
use crate::settings::Settings;
use audio_info::{Sample, raw_template, sample_template, wav_template};
use el_law::LawKind;
use el_mix::mono_template;
use gst_caps::Caps;
use gst_value::OutOfMemory;
use std::alloc::Global;

/// The template of the sink pad, or else of the source pad, of this number: the caps that it may have.
pub fn template(
    alloc: Global,
    settings: &Settings,
    sink: bool,
    _pad: u32,
) -> Result<Caps, OutOfMemory>
    requires { HasPad settings.now sink _pad }
    ensures { IfOk result (λ made. made ≡ template_of settings.now sink) }
{
    match settings {
        Settings::CapsFilter(settings) => settings.caps.copy(alloc),
        Settings::RampTestSrc(_) => sample_template(alloc, Sample::S16LE),
        Settings::AudioConvert(_) => raw_template(alloc),
        Settings::Law(kind) => of_law(alloc, *kind, sink),
        Settings::RawAudioParse(_) => of_raw_audio_parse(alloc, sink),
        Settings::AudioBufferSplit(_) => raw_template(alloc),
        Settings::WavParse => of_wav_parse(alloc, sink),
        Settings::WavEnc => of_wav_enc(alloc, sink),
        Settings::Interleave(_) => of_interleave(alloc, sink),
        Settings::FileSrc(_)
        | Settings::Identity
        | Settings::Valve(_)
        | Settings::Queue(_)
        | Settings::Tee(_)
        | Settings::Concat(_)
        | Settings::FileSink(_)
        | Settings::FakeSink => Ok(Caps::Any),
    }
}

fn of_law(alloc: Global, kind: LawKind, sink: bool) -> Result<Caps, OutOfMemory>
    ensures { IfOk result (λ made. made ≡ (if sink then caps_of (format_in kind) else caps_of (format_out kind))) }
{
    match kind {
        LawKind::MulawEnc => either(alloc, sink, Sample::S16LE, Sample::MuLaw),
        LawKind::AlawEnc => either(alloc, sink, Sample::S16LE, Sample::ALaw),
        LawKind::MulawDec => either(alloc, sink, Sample::MuLaw, Sample::S16LE),
        LawKind::AlawDec => either(alloc, sink, Sample::ALaw, Sample::S16LE),
    }
}

/// The caps of the samples that an element takes, or else of those that it puts out.
fn either(alloc: Global, sink: bool, taken: Sample, put: Sample) -> Result<Caps, OutOfMemory>
    ensures { IfOk result (λ made. made ≡ (if sink then caps_of taken else caps_of put)) }
{
    if sink {
        sample_template(alloc, taken)
    } else {
        sample_template(alloc, put)
    }
}

fn of_raw_audio_parse(alloc: Global, sink: bool) -> Result<Caps, OutOfMemory>
    ensures { IfOk result (λ made. made ≡ (if sink then Caps.Any else raw_template_of)) }
{
    if sink {
        Ok(Caps::Any)
    } else {
        raw_template(alloc)
    }
}

fn of_wav_parse(alloc: Global, sink: bool) -> Result<Caps, OutOfMemory>
    ensures { IfOk result (λ made. made ≡ (if sink then Caps.Any else all_read)) }
{
    if sink {
        Ok(Caps::Any)
    } else {
        read_audio(alloc)
    }
}

fn of_interleave(alloc: Global, sink: bool) -> Result<Caps, OutOfMemory>
    ensures { IfOk result (λ made. made ≡ (if sink then a_mono_template else raw_template_of)) }
{
    if sink {
        mono_template(alloc)
    } else {
        raw_template(alloc)
    }
}

fn of_wav_enc(alloc: Global, sink: bool) -> Result<Caps, OutOfMemory>
    ensures { IfOk result (λ made. made ≡ (if sink then all_written else a_wav_file)) }
{
    if sink {
        wav_template(alloc)
    } else {
        wav_file(alloc)
    }
}
