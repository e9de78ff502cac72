//! Rows of properties and of templates.
use el_law::LawKind;
use el_settings::*;
use el_src::Ramp;
use gst_caps::Caps;
use gst_value::{List, Prop, Text};
use std::alloc::Global;
use std::fmt::Write;
use std::process::Abort;
use std::test::Fail;

/// A truth of a row.
pub(crate) fn holds(rt: &impl Abort, row: &str, truth: bool) {
    assert!(rt; truth, "{row}");
}

/// A property from a word such as `blocksize=16`.
fn prop_of(alloc: Global, word: &str) -> Result<Prop, Fail> {
    let (name, value) = word.split_once('=').unwrap_or((word, ""));
    Ok(Prop {
        name: Text::from_str(alloc, name)?,
        value: Text::from_str(alloc, value)?,
    })
}

/// What the words of an element set it to, or why they are refused.
pub(crate) fn checked(alloc: Global, words: &str) -> Result<Result<Settings, PropFault>, Fail> {
    let (kind, rest) = words.split_once(' ').unwrap_or((words, ""));
    let mut props = List::new(alloc);
    for word in rest.split(' ') {
        if !word.is_empty() {
            props.push(alloc, prop_of(alloc, word)?)?;
        }
    }
    Ok(check(alloc, kind, &props))
}

fn put_ramp(into: &mut String, ramp: &Ramp) -> Result<(), Fail> {
    let title = match &ramp.title {
        Some(title) => title.as_str(),
        None => "none",
    };
    write!(
        into,
        "ramp {} {} {} ",
        ramp.buffers, ramp.samples, ramp.rate
    )?;
    write!(into, "{} {} {title}", ramp.channels, ramp.gap_every)?;
    Ok(())
}

fn put_caps(alloc: Global, into: &mut String, kind: &str, caps: &Caps) -> Result<(), Fail> {
    write!(into, "{kind} {}", caps_text::print(alloc, caps)?.as_str())?;
    Ok(())
}

/// Puts what a source, a sink, a queue, a valve, or an element of several pads is set to.
fn put_end(into: &mut String, settings: &Settings) -> Result<(), Fail> {
    match settings {
        Settings::FileSrc(s) => write!(into, "filesrc {} {}", s.location.as_str(), s.blocksize)?,
        Settings::RampTestSrc(s) => put_ramp(into, &s.ramp)?,
        Settings::Queue(s) => write!(into, "queue {} {} {}", s.buffers, s.bytes, s.time)?,
        Settings::Tee(pads) => write!(into, "tee {}", pads.count())?,
        Settings::Interleave(pads) => write!(into, "interleave {}", pads.count())?,
        Settings::Concat(pads) => write!(into, "concat {}", pads.count())?,
        Settings::FileSink(s) => {
            write!(into, "filesink {} {}", s.location.as_str(), s.keep_flushed)?;
        }
        Settings::Valve(s) => write!(into, "valve {}", s.drops)?,
        Settings::FakeSink => into.push_str("fakesink")?,
        _ => into.push_str("?")?,
    }
    Ok(())
}

/// Puts what an element is set to.
fn put_settings(alloc: Global, into: &mut String, settings: &Settings) -> Result<(), Fail> {
    match settings {
        Settings::Identity => into.push_str("identity")?,
        Settings::CapsFilter(s) => put_caps(alloc, into, "capsfilter", &s.caps)?,
        Settings::AudioConvert(s) => put_caps(alloc, into, "audioconvert", &s.allowed)?,
        Settings::Law(kind) => into.push_str(law_of(*kind))?,
        Settings::RawAudioParse(info) => {
            write!(
                into,
                "{} {} {}",
                info.format.name(),
                info.rate,
                info.channels
            )?;
        }
        Settings::AudioBufferSplit(s) => write!(into, "audiobuffersplit {}", s.frames)?,
        Settings::WavParse => into.push_str("wavparse")?,
        Settings::WavEnc => into.push_str("wavenc")?,
        _ => put_end(into, settings)?,
    }
    Ok(())
}

fn law_of(kind: LawKind) -> &'static str {
    match kind {
        LawKind::MulawEnc => "mulawenc",
        LawKind::AlawEnc => "alawenc",
        LawKind::MulawDec => "mulawdec",
        LawKind::AlawDec => "alawdec",
    }
}

fn put_refusal(into: &mut String, fault: &PropFault) -> Result<(), Fail> {
    match fault {
        PropFault::NoSuchKind => into.push_str("NoSuchKind")?,
        PropFault::NoSuchProperty { name } => write!(into, "NoSuchProperty {}", name.as_str())?,
        PropFault::BadValue { name } => write!(into, "BadValue {}", name.as_str())?,
        PropFault::OutOfMemory => into.push_str("OutOfMemory")?,
    }
    Ok(())
}

fn answer_of(alloc: Global, words: &str) -> Result<String, Fail> {
    let mut text = String::new(alloc);
    match checked(alloc, words)? {
        Ok(settings) => put_settings(alloc, &mut text, &settings.copy(alloc)?)?,
        Err(fault) => put_refusal(&mut text, &fault)?,
    }
    Ok(text)
}

#[test]
fn rows_of_properties(rt: HostRuntime) -> Result<(), Fail> {
    let alloc = rt.alloc();
    let rows = "filesrc location=a: filesrc a 4096
filesrc location=a blocksize=16 name=f: filesrc a 16
filesrc location=a blocksize=0: BadValue blocksize
filesrc blocksize=1048576 location=a: filesrc a 1048576
filesrc blocksize=1048577 location=a: BadValue blocksize
filesrc blocksize=00000000000000000016 location=a: filesrc a 16
filesrc blocksize=000000000000000000016 location=a: BadValue blocksize
filesrc blocksize=+5 location=a: BadValue blocksize
filesrc blocksize= location=a: BadValue blocksize
filesrc: BadValue location
filesrc blocksize=x: BadValue blocksize
filesrc size=1 blocksize=x: NoSuchProperty size
filesrc location=a location=b: filesrc b 4096
filesrc blocksize=x blocksize=5 location=a: BadValue blocksize
filesrc location=: filesrc  4096
identity name=i-1_B: identity
identity name=a.b: BadValue name
identity name=: BadValue name
identity silent=true: NoSuchProperty silent
capsfilter: capsfilter ANY
capsfilter caps=EMPTY caps=audio/x-raw,rate=8000: capsfilter audio/x-raw, rate=(int)8000
capsfilter caps=audio: BadValue caps
valve: valve false
valve drop=yes name=v: valve true
valve drop=1 drop=false: valve false
valve drop=True: BadValue drop
valve drop: BadValue drop
valve caps=ANY: NoSuchProperty caps
queue: queue 200 10485760 1000000000
queue max-size-buffers=4294967295 max-size-bytes=0 max-size-time=9223372036854775807 leaky=no: queue 4294967295 0 9223372036854775807
queue max-size-buffers=4294967296: BadValue max-size-buffers
queue max-size-bytes=4294967296: BadValue max-size-bytes
queue max-size-time=9223372036854775808: BadValue max-size-time
queue leaky=0: queue 200 10485760 1000000000
queue leaky=upstream: BadValue leaky
queue leaky=false: BadValue leaky
filesink location=a: filesink a false
filesink location=a keep-flushed=yes sync=0: filesink a true
filesink location=a keep-flushed=true keep-flushed=no: filesink a false
filesink location=a keep-flushed=2: BadValue keep-flushed
filesink sync=true location=a: BadValue sync
filesink keep-flushed=1: BadValue location
fakesink sync=no: fakesink
fakesink location=a: NoSuchProperty location
ramptestsrc: ramp 16 1024 44100 1 0 none
ramptestsrc num-buffers=1000000 samplesperbuffer=65536 rate=768000 channels=64 gap-every=1000000 title=t: ramp 1000000 65536 768000 64 1000000 t
ramptestsrc num-buffers=0 samplesperbuffer=1 rate=1 title= name=r: ramp 0 1 1 1 0 
ramptestsrc num-buffers=1000001: BadValue num-buffers
ramptestsrc samplesperbuffer=0: BadValue samplesperbuffer
ramptestsrc samplesperbuffer=65537: BadValue samplesperbuffer
ramptestsrc rate=768001: BadValue rate
ramptestsrc rate=0: BadValue rate
ramptestsrc channels=65: BadValue channels
ramptestsrc gap-every=1000001: BadValue gap-every
ramptestsrc num-buffers=140738 samplesperbuffer=65536 rate=1: BadValue num-buffers
ramptestsrc num-buffers=140737 samplesperbuffer=65536 rate=1: ramp 140737 65536 1 1 0 none
ramptestsrc num-buffers=140738 samplesperbuffer=65536 rate=1 channels=0: BadValue channels
ramptestsrc location=a: NoSuchProperty location
audioconvert: audioconvert ANY
audioconvert channels=1: NoSuchProperty channels
mulawenc: mulawenc
alawenc name=a: alawenc
mulawdec: mulawdec
alawdec: alawdec
alawdec rate=8000: NoSuchProperty rate
rawaudioparse: S16LE 44100 2
rawaudioparse pcm-format=s8 sample-rate=768000 num-channels=64: S8 768000 64
rawaudioparse pcm-format=s24le pcm-format=s32le: S32LE 44100 2
rawaudioparse pcm-format=S16LE: BadValue pcm-format
rawaudioparse pcm-format=f32le: BadValue pcm-format
rawaudioparse sample-rate=0: BadValue sample-rate
rawaudioparse num-channels=65: BadValue num-channels
audiobuffersplit: audiobuffersplit 1024
audiobuffersplit frames=1000000: audiobuffersplit 1000000
audiobuffersplit frames=0: BadValue frames
audiobuffersplit frames=1000001: BadValue frames
wavparse: wavparse
wavparse location=a: NoSuchProperty location
wavenc: wavenc
nosuch location=a: NoSuchKind";
    for row in rows.lines() {
        let (words, wanted) = row.split_once(": ").unwrap_or((row, ""));
        assert_eq!(rt; answer_of(alloc, words)?.as_str(), wanted);
    }
    Ok(())
}

/// The pads of an element, and what may be done to it: the numbers of its pads, and letters for source, sink, queue,
/// replaced, settable caps, a settable drop, location, title and allowed caps.
fn asked(alloc: Global, settings: &Settings) -> Result<String, Fail> {
    let mut text = format!(in alloc; "{}{}", settings.sink_pads(), settings.source_pads())?;
    let answers = [
        (settings.is_source(), 's'),
        (settings.is_sink(), 'k'),
        (settings.is_queue(), 'q'),
        (settings.may_be_replaced(), 'r'),
        (settings.is_settable("caps"), 'c'),
        (settings.is_settable("drop"), 'd'),
        (settings.location().is_some(), 'l'),
        (settings.title().is_some(), 't'),
        (settings.is_converter(), 'a'),
    ];
    for (answer, letter) in answers {
        if answer {
            text.push(letter)?;
        }
    }
    Ok(text)
}

#[test]
fn rows_of_questions(rt: HostRuntime) -> Result<(), Fail> {
    let alloc = rt.alloc();
    let rows = "filesrc location=a: 01sl
ramptestsrc title=t: 01st
identity: 11r
audioconvert: 11ra
mulawenc: 11r
rawaudioparse: 11r
audiobuffersplit: 11r
wavparse: 11r
wavenc: 11r
capsfilter: 11rc
valve: 11rd
queue: 11q
filesink location=a: 10kl
fakesink: 10k";
    for row in rows.lines() {
        let (words, wanted) = row.split_once(": ").unwrap_or((row, ""));
        if let Ok(settings) = checked(alloc, words)? {
            assert_eq!(rt; asked(alloc, &settings)?.as_str(), wanted);
        }
    }
    Ok(())
}

/// The template of a filter of raw audio.
fn filter_template(alloc: Global) -> Result<Caps, Fail> {
    let settings = Settings::CapsFilter(CapsFilterSettings {
        caps: caps_text::parse(alloc, "audio/x-raw")?,
    });
    Ok(template(alloc, &settings, true, 0)?)
}

#[test]
fn a_template_is_the_filter(rt: HostRuntime) -> Result<(), Fail> {
    let alloc = rt.alloc();
    let text = caps_text::print(alloc, &filter_template(alloc)?)?;
    holds(&rt, text.as_str(), text.as_str() == "audio/x-raw");
    let whole = template(alloc, &Settings::Identity, false, 0)?;
    holds(&rt, "an identity", matches!(whole, Caps::Any));
    Ok(())
}

/// The text of a template.
fn template_text(alloc: Global, words: &str, sink: bool) -> Result<String, Fail> {
    let Ok(settings) = checked(alloc, words)? else {
        return Ok(String::new(alloc));
    };
    let pads = if sink {
        settings.sink_pads()
    } else {
        settings.source_pads()
    };
    if pads == 0 {
        return Ok(String::new(alloc));
    }
    let caps = template(alloc, &settings, sink, 0)?;
    let text = caps_text::print(alloc, &caps)?;
    Ok(String::from_str(alloc, text.as_str())?)
}

/// The templates that a row names: `r` raw audio, `s` samples of 16 bits, `m` and `a` the laws, `w` a WAV file, `i`
/// what one is read as, `o` what one is written of, and `*` all caps.
fn named(letter: &str) -> &'static str {
    match letter {
        "r" =>
            "audio/x-raw, channels=(int)[ 1, 64 ], format=(string){ S8, U8, S16LE, S16BE, S24LE, S32LE }, layout=(string)interleaved, rate=(int)[ 1, 768000 ]",
        "s" =>
            "audio/x-raw, channels=(int)[ 1, 64 ], format=(string)S16LE, layout=(string)interleaved, rate=(int)[ 1, 768000 ]",
        "m" => "audio/x-mulaw, channels=(int)[ 1, 64 ], rate=(int)[ 1, 768000 ]",
        "a" => "audio/x-alaw, channels=(int)[ 1, 64 ], rate=(int)[ 1, 768000 ]",
        "w" => "audio/x-wav",
        "i" =>
            "audio/x-raw, channels=(int)[ 1, 64 ], format=(string){ S8, U8, S16LE, S16BE, S24LE, S32LE }, layout=(string)interleaved, rate=(int)[ 1, 768000 ]; audio/x-mulaw, channels=(int)[ 1, 64 ], rate=(int)[ 1, 768000 ]; audio/x-alaw, channels=(int)[ 1, 64 ], rate=(int)[ 1, 768000 ]",
        "o" =>
            "audio/x-raw, channels=(int)[ 1, 64 ], format=(string){ U8, S16LE, S24LE, S32LE }, layout=(string)interleaved, rate=(int)[ 1, 768000 ]; audio/x-mulaw, channels=(int)[ 1, 64 ], rate=(int)[ 1, 768000 ]; audio/x-alaw, channels=(int)[ 1, 64 ], rate=(int)[ 1, 768000 ]",
        "*" => "ANY",
        _ => "",
    }
}

#[test]
fn rows_of_templates(rt: HostRuntime) -> Result<(), Fail> {
    let alloc = rt.alloc();
    let rows = "filesrc location=a:-:*
ramptestsrc:-:s
identity:*:*
queue:*:*
valve:*:*
audioconvert:r:r
mulawenc:s:m
alawenc:s:a
mulawdec:m:s
alawdec:a:s
rawaudioparse:*:r
audiobuffersplit:r:r
wavparse:*:i
wavenc:o:w
fakesink:*:-";
    for row in rows.lines() {
        let (words, pads) = row.split_once(":").unwrap_or((row, ""));
        let (sink, source) = pads.split_once(":").unwrap_or((pads, ""));
        let text = template_text(alloc, words, true)?;
        holds(&rt, row, text.as_str() == named(sink));
        let text = template_text(alloc, words, false)?;
        holds(&rt, row, text.as_str() == named(source));
    }
    Ok(())
}
