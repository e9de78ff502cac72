//! Words for what elements are fed, and for what they answer and put out.
use audio_info::{Info, LARGEST_RATE, Sample};
use flow_model::ElementFault;
use gst_item::{Body, Buffer, Event, Flow, Item, Outs};
use gst_time::Format;
use item_letters::{event_by, segment_by, word_of};
use std::alloc::Global;
use std::fmt::Write;
use std::test::Fail;

/// Letters are a buffer of these bytes, with `@N` behind them one of this time.
fn buffer_by(alloc: Global, letters: &str) -> Result<Item, Fail> {
    let (letters, pts) = letters.split_once('@').unwrap_or((letters, ""));
    let bytes = Vec::from_slice(alloc, letters.as_bytes())?;
    Ok(Item::Buffer(Buffer {
        body: Body::from_vec(alloc, bytes)?,
        pts: pts.parse().ok(),
        duration: None,
        offset: Some(7),
        discont: true,
    }))
}

fn caps_of(alloc: Global, info: Info) -> Result<Event, Fail> {
    Ok(Event::Caps(info.to_fixed(alloc)?))
}

/// `rate=N` are CAPS of this rate, and `mulaw` those of another format; others are as `event_by` takes them.
fn caps_by(alloc: Global, caps: &Info, word: &str) -> Result<Event, Fail> {
    if let Some(rate) = word.strip_prefix("rate=") {
        let rate = rate.parse().unwrap_or(1).clamp(1, LARGEST_RATE);
        let other = Info {
            format: caps.format,
            rate,
            channels: caps.channels,
        };
        return caps_of(alloc, other);
    }
    match word {
        "caps" => caps_of(alloc, *caps),
        "mulaw" => caps_of(
            alloc,
            Info {
                format: Sample::MuLaw,
                rate: caps.rate,
                channels: caps.channels,
            },
        ),
        _ => Ok(event_by(alloc, word)?),
    }
}

/// `+` is a buffer, `bytes=N` and `time=N` are segments, and others are as `caps_by` takes them.
pub(crate) fn item_by(alloc: Global, caps: &Info, word: &str) -> Result<Item, Fail> {
    if let Some(letters) = word.strip_prefix('+') {
        return buffer_by(alloc, letters);
    }
    if let Some(start) = word.strip_prefix("bytes=") {
        return Ok(Item::Event(segment_by(Format::Bytes, start)));
    }
    if let Some(start) = word.strip_prefix("time=") {
        return Ok(Item::Event(segment_by(Format::Time, start)));
    }
    Ok(Item::Event(caps_by(alloc, caps, word)?))
}

/// `+` for Ok, `.` for Eos, and the numbers of a fault.
pub(crate) fn tell_answer(
    text: &mut String,
    answer: &Result<Flow, ElementFault>,
) -> Result<(), Fail> {
    match answer {
        Ok(Flow::Ok) => text.push_str("+ ")?,
        Ok(Flow::Eos) => text.push_str(". ")?,
        Ok(_) => text.push_str("? ")?,
        Err(ElementFault::TooLong { a, b }) => write!(text, "long:{a},{b} ")?,
        Err(ElementFault::BadStream { place, .. }) => write!(text, "bad:{place} ")?,
        Err(ElementFault::NotNegotiated { offered: None, .. }) => text.push_str("none ")?,
        Err(ElementFault::NotNegotiated { .. }) => text.push_str("other ")?,
        Err(_) => text.push_str("! ")?,
    }
    Ok(())
}

/// A number, or `-`.
fn tell_number(text: &mut String, number: Option<u64>) -> Result<(), Fail> {
    match number {
        Some(number) => write!(text, ",{number}")?,
        None => text.push_str(",-")?,
    }
    Ok(())
}

/// The bytes, the offset, the time and the duration of a buffer.
fn tell_buffer(text: &mut String, buffer: &Buffer) -> Result<(), Fail> {
    text.push_str("+")?;
    for byte in buffer.body.as_slice() {
        text.push(char::from(*byte))?;
    }
    tell_number(text, buffer.offset)?;
    tell_number(text, buffer.pts)?;
    tell_number(text, buffer.duration)
}

fn tell_item(text: &mut String, item: &Item) -> Result<(), Fail> {
    match item {
        Item::Buffer(buffer) => tell_buffer(text, buffer)?,
        Item::Event(Event::Segment(segment)) => {
            write!(text, "{}={}", name_of(segment.format), segment.start)?;
        }
        Item::Event(event) => text.push_str(word_of(event))?,
    }
    Ok(())
}

fn name_of(format: Format) -> &'static str {
    match format {
        Format::Bytes => "bytes",
        Format::Time => "time",
    }
}

/// The items that were put out.
pub(crate) fn tell_out(text: &mut String, out: &Outs) -> Result<(), Fail> {
    text.push_str(":")?;
    for one in out.as_slice() {
        text.push_str(" ")?;
        tell_item(text, &one.item)?;
    }
    Ok(())
}
