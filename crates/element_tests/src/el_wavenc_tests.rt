//! Rows of calls, with what they answer and put out, and the files that this makes.

use crate::rows::same_text;
use audio_info::{Info, Sample};
use el_wavenc::{WavEnc, file_is_whole};
use flow_model::{ElementFault, StreamKind};
use gst_item::{Buffer, Event, Flow, Item, Outs};
use gst_time::{Format, Segment};
use gst_value::{Fixed, List};
use item_letters::{buffer_of, bytes_by, event_by, word_of};
use std::alloc::Global;
use std::fmt::Write;
use std::process::Abort;
use std::test::Fail;

/// `+` and hexadecimal digits are a buffer of these bytes; the name of a format stands for CAPS of one channel with
/// 8000 frames a second, and of two with `2` behind it. A head is told by the size of the file behind its first eight
/// bytes, the size of the data, and its place.
const ENCODED: &str =
    "start S16LE time=0 +01000200 eos -> + + + + + : start wav bytes=0 head=36,0@0 +01000200@44 bytes=0 head=40,4@0 eos
S16LE +0100 + +02000300 -> + + + + : wav bytes=0 head=36,0@0 +0100@44 +@46 +02000300@46
U8 +01 +0203 eos +04 -> + + + + . : wav bytes=0 head=36,0@0 +01@44 +0203@45 +00@47 bytes=0 head=40,3@0 eos
U8 tag gap bytes=7 eos -> + + + + + : wav tag bytes=0 head=36,0@0 bytes=0 head=36,0@0 eos
start eos S16LE -> + + . : start eos
+01 S16LE +01 +0100 -> none + bad:1 + : wav bytes=0 head=36,0@0 +0100@44
S16LE2 +01000200 +010002 -> + + bad:7 : wav bytes=0 head=36,0@0 +01000200@44
S16LE S16LE +0100 S16LE S16LE2 U8 +0200 -> + + + + other=1 other=1 + : wav bytes=0 head=36,0@0 +0100@44 +0200@46
S16BE S8 F32LE MULAW2 S16LE -> other=3 other=3 other=3 + other=1 : wav
U8 +01 drain drain +02 drain +03 eos -> + + - - + - + + : wav bytes=0 head=36,0@0 +01@44 +00@45 bytes=0 head=38,1@0 +00@45 bytes=0 head=38,1@0 +02@45 bytes=0 head=38,2@0 +03@46 +00@47 bytes=0 head=40,3@0 eos
drain U8 drain eos drain -> - + - + - : wav bytes=0 head=36,0@0 bytes=0 head=36,0@0 bytes=0 head=36,0@0 eos
U8 +01 flush +0203 U8 U8 S16LE eos -> + + - + + + other=1 + : wav bytes=0 head=36,0@0 +01@44 bytes=0 head=36,0@0 +0203@44 wav bytes=0 head=38,2@0 eos
U8 +01 eos flush S16LE U8 +0100 +01 -> + + + - + other=1 + bad:3 : wav bytes=0 head=36,0@0 +01@44 +00@45 bytes=0 head=38,1@0 eos wav bytes=0 head=36,0@0 +0100@44
U8 flush eos -> + - + : wav bytes=0 head=36,0@0 bytes=0 head=36,0@0 eos
";

/// What a sink writes for the calls, in hexadecimal digits.
const FILES: &str =
    "start S16LE time=0 +01000200 eos -> 524946462800000057415645666d74201000000001000100401f0000803e000002001000646174610400000001000200
U8 +010203 eos -> 524946462800000057415645666d74201000000001000100401f0000401f000001000800646174610300000001020300
S24LE2 +010203040506 eos -> 524946462a00000057415645666d74201000000001000200401f000080bb0000060018006461746106000000010203040506
S32LE +01020304 drain eos -> 524946462800000057415645666d74201000000001000100401f0000007d000004002000646174610400000001020304
MULAW eos -> 524946462400000057415645666d74201000000007000100401f0000401f0000010008006461746100000000
ALAW +d5d5 eos -> 524946462600000057415645666d74201000000006000100401f0000401f0000010008006461746102000000d5d5
";

/// CAPS of the format of this name.
fn caps_by(alloc: Global, name: &str) -> Result<Fixed, Fail> {
    let (name, channels) = match name.strip_suffix('2') {
        Some(name) => (name, 2),
        None => (name, 1),
    };
    let format = match name {
        "MULAW" => Sample::MuLaw,
        "ALAW" => Sample::ALaw,
        _ => Sample::raw_named(name).unwrap_or(Sample::S16BE),
    };
    let info = Info {
        format,
        rate: 8000,
        channels,
    };
    Ok(info.to_fixed(alloc)?)
}

fn item_by(alloc: Global, word: &str) -> Result<Item, Fail> {
    if let Some(digits) = word.strip_prefix('+') {
        return Ok(buffer_of(alloc, bytes_by(alloc, digits)?.as_slice())?);
    }
    Ok(Item::Event(match word {
        "start" | "tag" | "gap" | "eos" => event_by(alloc, word)?,
        "time=0" => Event::Segment(Segment::new(Format::Time)),
        "bytes=7" => Event::Segment(Segment {
            format: Format::Bytes,
            start: 7,
            stop: None,
            time: 7,
            base: 0,
            position: 7,
        }),
        name => Event::Caps(caps_by(alloc, name)?),
    }))
}

/// `+` for Ok, `.` for Eos, and what a fault says. Of wanted caps the number of structures is told.
fn tell_answer(text: &mut String, answer: &Result<Flow, ElementFault>) -> Result<(), Fail> {
    match answer {
        Ok(Flow::Ok) => text.push_str("+ ")?,
        Ok(Flow::Eos) => text.push_str(". ")?,
        Err(
            ElementFault::BadStream {
                place,
                kind: StreamKind::SplitFrame,
            },
        ) => write!(text, "bad:{place} ")?,
        Err(ElementFault::NotNegotiated { offered: None, .. }) => text.push_str("none ")?,
        Err(
            ElementFault::NotNegotiated {
                wanted: gst_caps::Caps::Of(structures),
                ..
            },
        ) => write!(text, "other={} ", structures.as_slice().len())?,
        _ => text.push_str("! ")?,
    }
    Ok(())
}

fn number_at(bytes: &[u8], place: usize) -> u32 {
    let mut number = 0;
    for byte in bytes.iter().skip(place).take(4).rev() {
        number = (number << 8) | u32::from(*byte);
    }
    number
}

fn tell_bytes(text: &mut String, bytes: &[u8]) -> Result<(), Fail> {
    for byte in bytes {
        write!(text, "{byte:02x}")?;
    }
    Ok(())
}

fn tell_buffer(text: &mut String, buffer: &Buffer) -> Result<(), Fail> {
    let bytes = buffer.body.as_slice();
    if bytes.starts_with(b"RIFF") && bytes.len() == 44 {
        write!(
            text,
            "head={},{}",
            number_at(bytes, 4),
            number_at(bytes, 40)
        )?;
    } else {
        text.push_str("+")?;
        tell_bytes(text, bytes)?;
    }
    if buffer.pts.is_some() || buffer.duration.is_some() || buffer.discont {
        text.push_str("!")?;
    }
    match buffer.offset {
        Some(offset) => write!(text, "@{offset}")?,
        None => text.push_str("@-")?,
    }
    Ok(())
}

fn tell_item(text: &mut String, item: &Item) -> Result<(), Fail> {
    match item {
        Item::Buffer(buffer) => tell_buffer(text, buffer)?,
        Item::Event(Event::Caps(caps)) => {
            let is_wav = caps.media() == "audio/x-wav" && caps.fields() == 0;
            text.push_str(if is_wav { "wav" } else { "caps" })?;
        }
        Item::Event(Event::Segment(segment)) => {
            let whole = segment.stop.is_none() && segment.position == 0;
            let bytes = segment.format == Format::Bytes && whole;
            write!(
                text,
                "{}={}",
                if bytes { "bytes" } else { "time" },
                segment.start
            )?;
        }
        Item::Event(event) => text.push_str(word_of(event))?,
    }
    Ok(())
}

fn call(
    alloc: Global,
    encoder: &mut WavEnc,
    word: &str,
    text: &mut String,
    out: &mut Outs,
) -> Result<(), Fail> {
    match word {
        "flush" => {
            encoder.flush();
            text.push_str("- ")?;
        }
        "drain" => {
            let drained = encoder.drain(alloc, out).is_ok();
            text.push_str(if drained { "- " } else { "! " })?;
        }
        _ => {
            let item = item_by(alloc, word)?;
            if !item.is_flush_stop() {
                let answer = encoder.feed(alloc, 0, item, out);
                tell_answer(text, &answer)?;
            }
        }
    }
    Ok(())
}

/// Makes the calls, of a copy each time, and tells the answers.
fn call_all(alloc: Global, calls: &str, text: &mut String, out: &mut Outs) -> Result<(), Fail> {
    let mut encoder = WavEnc::new();
    for word in calls.split(' ') {
        encoder = encoder.copy(alloc)?;
        call(alloc, &mut encoder, word, text, out)?;
    }
    Ok(())
}

fn tell_out(text: &mut String, out: &Outs) -> Result<(), Fail> {
    text.push_str(":")?;
    for one in out.as_slice() {
        text.push_str(" ")?;
        tell_item(text, &one.item)?;
    }
    Ok(())
}

fn check_calls(rt: &impl Abort, alloc: Global, line: &str) -> Result<(), Fail> {
    let (calls, wanted) = line.split_once(" -> ").unwrap_or((line, ""));
    let mut text = String::new(alloc);
    let mut out = List::new(alloc);
    call_all(alloc, calls, &mut text, &mut out)?;
    tell_out(&mut text, &out)?;
    same_text(rt, calls, text.as_str(), wanted);
    Ok(())
}

/// Writes bytes at a place of a file.
fn write_at(file: &mut Vec<u8>, place: usize, bytes: &[u8]) -> Result<(), Fail> {
    let mut place = place;
    for byte in bytes {
        if place < file.len() {
            file[place] = *byte;
        } else {
            file.push(*byte)?;
        }
        place = place.saturating_add(1);
    }
    Ok(())
}

/// The file that a sink writes, which goes to the start of each SEGMENT.
fn file_of(alloc: Global, out: &Outs) -> Result<Vec<u8>, Fail> {
    let mut file = Vec::new(alloc);
    let mut place = 0usize;
    for one in out.as_slice() {
        match &one.item {
            Item::Buffer(buffer) => {
                write_at(&mut file, place, buffer.body.as_slice())?;
                place = place.saturating_add(buffer.body.as_slice().len());
            }
            Item::Event(Event::Segment(segment)) => place = segment.start as usize,
            Item::Event(_) => {}
        }
    }
    Ok(file)
}

/// The file that the calls make, in digits.
fn file_text(alloc: Global, calls: &str) -> Result<String, Fail> {
    let mut text = String::new(alloc);
    let mut out = List::new(alloc);
    call_all(alloc, calls, &mut text, &mut out)?;
    text.clear();
    tell_bytes(&mut text, file_of(alloc, &out)?.as_slice())?;
    Ok(text)
}

fn check_file(rt: &impl Abort, alloc: Global, line: &str) -> Result<(), Fail> {
    let (calls, wanted) = line.split_once(" -> ").unwrap_or((line, ""));
    same_text(rt, calls, file_text(alloc, calls)?.as_str(), wanted);
    Ok(())
}

#[test]
fn rows_of_calls(rt: HostRuntime) -> Result<(), Fail> {
    let alloc = rt.alloc();
    for line in ENCODED.lines() {
        check_calls(&rt, alloc, line)?;
    }
    file_is_whole();
    for line in FILES.lines() {
        check_file(&rt, alloc, line)?;
    }
    Ok(())
}
