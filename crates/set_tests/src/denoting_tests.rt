//! Rows of whole lists, a kind each.
use crate::el_settings_tests::{checked, holds};
use audio_info::{Info, Sample};
use el_denote::denote;
use el_settings::{MadePads, Settings};
use flow_model::ElementFault;
use gst_caps::Caps;
use gst_item::{Event, Item};
use gst_time::{Format, Segment};
use gst_value::{Fixed, List};
use item_letters::{buffer_of, bytes_by, item_of, letter_of};
use std::alloc::Global;
use std::fmt::Write;
use std::test::Fail;

/// Each row: the words of an element, behind a `*` the number of pads that links made; the caps that a converter may put out; what is
/// given to each sink pad; and what is owed at each source pad, or the fault. `b` is a SEGMENT in bytes from 0, and other single letters are items as `item_of` takes them;
/// `wav` and the name of a format are CAPS, of one channel with 8000 frames a second, and `+` and hexadecimal digits
/// are a buffer of these bytes.
const ROWS: &str = "\
identity | ANY | s S16LE g +0100 e +02 => s S16LE g +0100 e
queue max-size-buffers=1 | ANY | s b +01 +02 f +03 e => s b +01 +02 f +03 e
tee*1 | ANY | s b +01 f +03 e => s b +01 f +03 e
tee*3 | ANY | s b +01 e => s b +01 e , s b +01 e , s b +01 e
tee*0 | ANY | s b +01 e => nothing
capsfilter caps=audio/x-mulaw | ANY | s MULAW g +01 e => s MULAW g +01 e
capsfilter caps=audio/x-mulaw | ANY | s S16LE g +0100 e => other
audioconvert | ANY | s S16LE g +0100 e => s S16LE g +0100 e
audioconvert | audio/x-raw,format=U8 | s S16LE g +00010080 e => s U8 g +8100 e
audioconvert | audio/x-raw,rate=44100 | s S16LE g +0100 e => other
audioconvert | ANY | s +0100 e => none
mulawenc | ANY | s S16LE g +0000FF7F0080FFFF0100 e => s MULAW g +FF80007FFF e
alawenc | ANY | s S16LE g +0000FFFFFF7F0080 e => s ALAW g +D555AA2A e
mulawdec | ANY | s MULAW g +00FF e => s S16LE g +84820000 e
alawdec | ANY | s ALAW g +D555 e => s S16LE g +0800F8FF e
alawdec | ANY | s MULAW g +D5 e => other
mulawenc | ANY | s S16LE g +0000 +00 e => bad 3
rawaudioparse num-channels=1 sample-rate=8000 | ANY | s b +010002 +0003 e => s S16LE g +0100 +0200 e
rawaudioparse num-channels=1 sample-rate=8000 pcm-format=u8 | ANY | s b +01 f b +02 e => s U8 g +01 f U8 g +02 e
audiobuffersplit frames=2 | ANY | s S16LE g +0100 +02000300 e => s S16LE g +01000200 +0300 e
audiobuffersplit frames=2 | ANY | s S16LE g +010002 e => bad 3
wavparse | ANY | s b +524946462800000057415645666D7420100000000100 +0100401F0000803E000002001000646174610300000001000200 e => s S16LE g +0100 e
wavparse | ANY | s b +52494646 e => bad 4
wavparse | ANY | s b +52494658 e => bad 3
wavenc | ANY | s S16LE g +01000200 e => s wav b +524946462400000057415645666D74201000000001000100401F0000803E0000020010006461746100000000 +01000200 b +524946462800000057415645666D74201000000001000100401F0000803E0000020010006461746104000000 e
wavenc | ANY | s S16LE g MULAW => other
filesink location=a | ANY | s b +01 e => nothing
fakesink | ANY | s b +01 e => nothing
concat*1 | ANY | s b +01 e => s b +01 e
concat*2 | ANY | s b +01 e , s b +02 e => s b +01 s b +02 e
concat*2 | ANY | s b +01 , s b +02 e => s b +01
concat*2 | ANY | s b +01 f b +03 e , s b +02 e f b +04 e => s b +01 f s b +03 s b +04 e
concat*2 | ANY | s b +01 e f b +03 e , s b +02 e => s b +01 s b +02 e f s b +03
concat*2 | ANY | s b +01 e , s b +02 e f b +04 e => s b +01 s b +02 e f
interleave*1 | ANY | s S16LE g +0100 e => s S16LE g +0100 e
interleave*2 | ANY | s S16LE g +0100 e , s S16LE g +0200 e => s S16LE*2 g +01000200 e
interleave*2 | ANY | s S16LE g +01000300 e , s S16LE g +0200 e => s S16LE*2 g +01000200 +03000000 e
interleave*2 | ANY | s S16LE g +0100 f g +0300 e , s S16LE g +0200 f g +0400 e => s S16LE*2 g +01000200 f s S16LE*2 g +03000400 e
interleave*2 | ANY | s S16LE g +0100 f g +0300 e , s S16LE g +0200 e => s S16LE*2 g +01000200 f
interleave*2 | ANY | s S16LE g +0100 e , s S16LE g +0200 f g +0400 e => s S16LE*2 g +01000200 f
interleave*2 | ANY | s g , s S16LE g +0200 e => s S16LE*2 g
interleave*2 | ANY | s , s S16LE g +0200 e =>
interleave*3 | ANY | s g , s S16LE g +0200 e , s g => s S16LE*3 g
interleave*3 | ANY | s g , s S16LE g +0200 e , s =>
interleave*2 | ANY | s g f S16LE g +0100 e , s S16LE g +0200 e f g +0300 e => s S16LE*2 g f s S16LE*2 g +01000300 e
interleave*2 | ANY | s g , s MULAW g e => other
interleave*2 | ANY | s S16LE g +0100 e , s U8 g +02 e => other
interleave*2 | ANY | s S16LE g +01 , s MULAW g => bad 1
interleave*2 | ANY | s S16LE g f g +01 , s MULAW g f g e => other
interleave*2 | ANY | s g +0100 , s S16LE g => none
interleave*2 | ANY | s g , s S16LE g +02 e => bad 1";

/// CAPS of the format of this name.
fn caps_by(alloc: Global, name: &str) -> Result<Fixed, Fail> {
    let format = match name {
        "wav" => return Ok(Fixed::new(alloc, "audio/x-wav")?),
        "MULAW" => Sample::MuLaw,
        "ALAW" => Sample::ALaw,
        _ => Sample::raw_named(name).unwrap_or(Sample::S16BE),
    };
    let info = Info {
        format,
        rate: 8000,
        channels: 1,
    };
    Ok(info.to_fixed(alloc)?)
}

pub(crate) fn item_by(alloc: Global, word: &str) -> Result<Item, Fail> {
    if let Some(digits) = word.strip_prefix('+') {
        return Ok(buffer_of(alloc, bytes_by(alloc, digits)?.as_slice())?);
    }
    match word.as_bytes() {
        [b'b'] => Ok(Item::Event(Event::Segment(Segment::new(Format::Bytes)))),
        [letter] => Ok(item_of(alloc, *letter)?),
        _ => Ok(Item::Event(Event::Caps(caps_by(alloc, word)?))),
    }
}

pub(crate) fn items_by(alloc: Global, words: &str) -> Result<List<Item>, Fail> {
    let mut items = List::new(alloc);
    for word in words.split(' ') {
        items.push(alloc, item_by(alloc, word)?)?;
    }
    Ok(items)
}

/// The name of a format, with the number of channels where it is not one.
fn tell_info(text: &mut String, info: Info) -> Result<(), Fail> {
    write!(text, " {}", info.format.name())?;
    if info.channels != 1 {
        write!(text, "*{}", info.channels)?;
    }
    Ok(())
}

fn tell_caps(text: &mut String, caps: &Fixed) -> Result<(), Fail> {
    match Info::from_fixed(caps) {
        Ok(info) => tell_info(text, info)?,
        Err(_) => text.push_str(" wav")?,
    }
    Ok(())
}

pub(crate) fn tell_item(text: &mut String, item: &Item) -> Result<(), Fail> {
    match item {
        Item::Buffer(buffer) => {
            text.push_str(" +")?;
            for byte in buffer.body.as_slice() {
                write!(text, "{byte:02X}")?;
            }
        }
        Item::Event(Event::Caps(caps)) => tell_caps(text, caps)?,
        Item::Event(Event::Segment(segment)) if segment.format == Format::Bytes => {
            text.push_str(" b")?;
        }
        _ => write!(text, " {}", char::from(letter_of(item)))?,
    }
    Ok(())
}

/// What is owed on each source pad.
fn tell_lists(text: &mut String, lists: &List<List<Item>>) -> Result<(), Fail> {
    let mut first = true;
    for items in lists.as_slice() {
        if !first {
            text.push_str(" ,")?;
        }
        first = false;
        tell_list(text, items)?;
    }
    if first {
        text.push_str(" nothing")?;
    }
    Ok(())
}

fn tell_list(text: &mut String, items: &List<Item>) -> Result<(), Fail> {
    for item in items.as_slice() {
        tell_item(text, item)?;
    }
    Ok(())
}

fn tell_fault(text: &mut String, fault: &ElementFault) -> Result<(), Fail> {
    match fault {
        ElementFault::NotNegotiated { offered: None, .. } => text.push_str(" none")?,
        ElementFault::NotNegotiated { .. } => text.push_str(" other")?,
        ElementFault::BadStream { place, .. } => write!(text, " bad {place}")?,
        _ => text.push_str(" ?")?,
    }
    Ok(())
}

/// What the words set an element to; behind a `*` stands the number of pads that links made.
pub(crate) fn settings_by(alloc: Global, words: &str) -> Result<Settings, Fail> {
    let (words, pads) = words.split_once('*').unwrap_or((words, "0"));
    let Ok(mut settings) = checked(alloc, words)? else {
        return Err("words of an element")?;
    };
    settings.set_pads(MadePads::of(pads.parse::<usize>().unwrap_or(0)));
    Ok(settings)
}

/// The items that are given to each sink pad.
fn inputs_by(alloc: Global, given: &str) -> Result<List<List<Item>>, Fail> {
    let mut inputs = List::new(alloc);
    for items in given.split(" , ") {
        inputs.push(alloc, items_by(alloc, items)?)?;
    }
    Ok(inputs)
}

/// What an element owes for lists of items, one for each sink pad.
fn owed(
    alloc: Global,
    settings: &Settings,
    allowed: &Caps,
    inputs: &List<List<Item>>,
) -> Result<String, Fail> {
    let mut text = String::new(alloc);
    let pads = settings.sink_pads();
    if pads == 0 || inputs.as_slice().len() != pads as usize {
        return Ok(text);
    }
    match denote(alloc, settings, settings.source_pads(), allowed, inputs) {
        Ok(outputs) => tell_lists(&mut text, &outputs)?,
        Err(fault) => tell_fault(&mut text, &fault)?,
    }
    Ok(text)
}

/// What is told of a row.
fn told(alloc: Global, row: &str) -> Result<String, Fail> {
    let (words, rest) = row.split_once(" | ").unwrap_or((row, ""));
    let (allowed, given) = rest.split_once(" | ").unwrap_or((rest, ""));
    let settings = settings_by(alloc, words)?;
    let allowed = caps_text::parse(alloc, allowed)?;
    owed(alloc, &settings, &allowed, &inputs_by(alloc, given)?)
}

#[test]
fn rows_of_kinds(rt: HostRuntime) -> Result<(), Fail> {
    let alloc = rt.alloc();
    for row in ROWS.lines() {
        let (left, wanted) = row.split_once(" =>").unwrap_or((row, ""));
        holds(&rt, row, told(alloc, left)?.as_str() == wanted);
    }
    Ok(())
}
