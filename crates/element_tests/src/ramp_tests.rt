//! Tests of the ramp source.
ghost use Rattle.std.specs.Prelude.{◌≡◌, ◌≤◌, ◌<◌, ◌+◌, ◌^◌};
ghost use Rattle.el_src.specs.RampGave.{ramp_items};

use crate::rows::{holds, same_text};
use audio_info::Info;
use el_src::{Next, Ramp, RampSrc};
use gst_item::{Buffer, Event, Item};
use gst_time::{Format, scale};
use gst_value::Text;
use std::alloc::Global;
use std::fmt::Write;
use std::process::Abort;
use std::test::Fail;

/// What ten calls give, with the end asked for before the call of a number. Long bodies show their length and ends.
const ROWS: &str =
    "samples=9 -> start=7 caps=8000,1 time=0 +0.0.1.0.2.0.3.0.4.0.5.0.6.0.7.0.8.0,0,0,1125000 eos . . . . .
samples=3 -> start=7 caps=8000,1 time=0 +0.0.1.0.2.0,0,0,375000 eos . . . . .
buffers=0 -> start=7 caps=8000,1 time=0 eos . . . . . .
buffers=4 gap=2 -> start=7 caps=8000,1 time=0 +0.0,0,0,125000 gap=125000,125000 +2.0,2,250000,125000 gap=375000,125000 eos . .
buffers=2 samples=2 gap=1 -> start=7 caps=8000,1 time=0 gap=0,250000 gap=250000,250000 eos . . . .
buffers=2 samples=2 channels=2 -> start=7 caps=8000,2 time=0 +0.0.0.0.1.0.1.0,0,0,250000 +2.0.2.0.3.0.3.0,2,250000,250000 eos . . . .
title=abc -> start=7 caps=8000,1 time=0 tag=abc +0.0,0,0,125000 eos . . . .
buffers=4 rate=44100 -> start=7 caps=44100,1 time=0 +0.0,0,0,22675 +1.0,1,22675,22676 +2.0,2,45351,22676 +3.0,3,68027,22675 eos . .
buffers=2 samples=1024 rate=44100 -> start=7 caps=44100,1 time=0 +2048:0.0.255.3,0,0,23219954 +2048:0.4.255.7,1024,23219954,23219955 eos . . . .
buffers=2 samples=40000 -> start=7 caps=8000,1 time=0 +80000:0.0.63.156,0,0,5000000000 +80000:64.156.127.56,40000,5000000000,5000000000 eos . . . .
buffers=2 end=0 -> eos . . . . . . . . .
buffers=2 end=4 -> start=7 caps=8000,1 time=0 +0.0,0,0,125000 eos . . . . .
buffers=2 end=7 -> start=7 caps=8000,1 time=0 +0.0,0,0,125000 +1.0,1,125000,125000 eos . . . .
";

fn set(alloc: Global, ramp: &mut Ramp, end: &mut u32, word: &str) -> Result<(), Fail> {
    let (name, value) = word.split_once('=').ok_or("no value")?;
    let number = value.parse().unwrap_or(0);
    match name {
        "buffers" => ramp.buffers = number,
        "samples" => ramp.samples = number,
        "rate" => ramp.rate = number,
        "channels" => ramp.channels = number,
        "gap" => ramp.gap_every = number,
        "title" => ramp.title = Some(Text::from_str(alloc, value)?),
        _ => *end = number,
    }
    Ok(())
}

fn source_of(rt: &impl Abort, ramp: Ramp) -> RampSrc
    ensures { ramp_items result ≡ 0 }
{
    assert!(rt; ramp.buffers <= 1_000_000 && ramp.gap_every <= 1_000_000);
    assert!(rt; 1 <= ramp.samples && ramp.samples <= 65_536);
    assert!(rt; 1 <= ramp.rate && ramp.rate <= 768_000);
    assert!(rt; 1 <= ramp.channels && ramp.channels <= 64);
    let frames = u64::from(ramp.buffers) * u64::from(ramp.samples);
    assert!(rt; scale(frames, 1_000_000_000, u64::from(ramp.rate)).is_some());
    RampSrc::new(ramp, 7)
}

fn tell_bytes(text: &mut String, bytes: &[u8]) -> Result<(), Fail> {
    for (place, byte) in bytes.iter().enumerate() {
        if place > 0 {
            text.push('.')?;
        }
        write!(text, "{byte}")?;
    }
    Ok(())
}

fn tell_buffer(text: &mut String, buffer: &Buffer) -> Result<(), Fail> {
    let bytes = buffer.body.as_slice();
    text.push('+')?;
    if bytes.len() <= 20 {
        tell_bytes(text, bytes)?;
    } else {
        write!(text, "{}:", bytes.len())?;
        tell_bytes(text, &bytes[..2])?;
        text.push('.')?;
        tell_bytes(text, &bytes[bytes.len() - 2..])?;
    }
    for number in [buffer.offset, buffer.pts, buffer.duration] {
        write!(text, ",{}", number.unwrap_or(9))?;
    }
    if buffer.discont {
        text.push('!')?;
    }
    Ok(())
}

fn tell_event(text: &mut String, event: &Event) -> Result<(), Fail> {
    match event {
        Event::StreamStart { id } => write!(text, "start={id}")?,
        Event::Caps(caps) => match Info::from_fixed(caps) {
            Ok(info) => write!(text, "caps={},{}", info.rate, info.channels)?,
            Err(_) => text.push_str("caps")?,
        },
        Event::Segment(segment) if segment.format == Format::Time => {
            write!(text, "time={}", segment.start)?;
        }
        Event::Tag { title } => write!(text, "tag={}", title.as_str())?,
        Event::Gap { pts, duration } => write!(text, "gap={pts},{duration}")?,
        Event::Eos => text.push_str("eos")?,
        _ => text.push_str("?")?,
    }
    Ok(())
}

fn tell_next(alloc: Global, ramp: &mut RampSrc, text: &mut String) -> Result<(), Fail>
    requires { ramp_items ramp.old < 2 ^ 41 }
    ensures { ramp_items ramp.new ≤ ramp_items ramp.old + 1 }
{
    match ramp.next(alloc)? {
        Next::Item(Item::Event(event)) => tell_event(text, &event)?,
        Next::Item(Item::Buffer(buffer)) => tell_buffer(text, &buffer)?,
        Next::Ended => text.push('.')?,
    }
    Ok(())
}

/// Asks ten times, and asks for the end before the call of a number.
fn tell_ten(alloc: Global, ramp: &mut RampSrc, end: u32, text: &mut String) -> Result<(), Fail>
    requires { ramp_items ramp.old ≡ 0 }
{
    for call in 0..10 {
        if call == end {
            ramp.end();
        }
        if call > 0 {
            text.push(' ')?;
        }
        tell_next(alloc, ramp, text)?;
    }
    Ok(())
}

/// What ten calls give, and how many items a source then counts, by the words of a row.
fn told(rt: &impl Abort, alloc: Global, words: &str) -> Result<(String, u64), Fail> {
    let mut ramp = Ramp {
        buffers: 1,
        samples: 1,
        rate: 8000,
        channels: 1,
        gap_every: 0,
        title: None,
    };
    let mut end = 10;
    for word in words.split(' ') {
        set(alloc, &mut ramp, &mut end, word)?;
    }
    let mut source = source_of(rt, ramp);
    let mut text = String::new(alloc);
    tell_ten(alloc, &mut source, end, &mut text)?;
    Ok((text, source.items()))
}

fn check_row(rt: &impl Abort, alloc: Global, line: &str) -> Result<(), Fail> {
    let (words, wanted) = line.split_once(" -> ").unwrap_or((line, ""));
    let (text, count) = told(rt, alloc, words)?;
    same_text(rt, words, text.as_str(), wanted);
    let items = wanted.split(' ').filter(|word| *word != ".").count();
    holds(rt, words, count == items as u64);
    Ok(())
}

#[test]
fn gives_ramps(rt: HostRuntime) -> Result<(), Fail> {
    for line in ROWS.lines() {
        check_row(&rt, rt.alloc(), line)?;
    }
    Ok(())
}
