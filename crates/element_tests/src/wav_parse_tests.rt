//! Rows of calls, with what they answer and put out.
ghost use Rattle.std.specs.Prelude.{◌≡◌, ◌≢◌, false, IfOk};
ghost use Rattle.flow_model.specs.Item.{is_flush_stop};

use crate::rows::same_text;
use audio_info::Info;
use el_wav::WavParse;
use flow_model::{ElementFault, StreamKind};
use gst_item::{Buffer, Event, Flow, Item, Outs};
use gst_time::Format;
use gst_value::{Fixed, List};
use item_letters::{buffer_of, bytes_by, event_by, segment_by, word_of};
use std::alloc::Global;
use std::fmt::Write;
use std::process::Abort;
use std::test::Fail;

/// The head of a file of frames of two bytes, 8000 in a second, up to the size of its data.
const FRONT: &str =
    "524946462800000057415645666d74201000000001000100401f0000803e00000200100064617461";

/// `+/x` is a buffer of the front and these bytes, `+/x:n` of the first n of them, `+x` one without the front, and
/// `*/x` such bytes one by one. `@` asks for the place of frame 3 and the start of the head.
const PARSED: &str =
    "start bytes=0 +/0400000001000200 eos -> + + + + : start caps=S16LE,8000,1 time=0 +01000200,0,0,250000 eos
*/0400000001000200 eos -> + + : caps=S16LE,8000,1 time=0 +0100,0,0,125000 +0200,1,125000,125000 eos
+/04000000:43 eos -> + short:43 :
+5249 +4658 -> + riff:3 :
+52494646280000005741564566 +6d74201000000001000100401f0000803e000003001000 -> + fmt:20 :
+524946462800000058 -> wave:8 :
+52494646280000005741564658 -> wave:11 :
+5249464628000000574156456461 +7461 -> + nofmt:12 :
+52494646280000005741564566 +6d7420100000000200 -> + tag:20 :
+52494646280000005741564566 +6d742010000000020000010000 -> + fmt:20 :
+5249464628000000574156454c495354ffffffff eos -> head:12 short:0 :
+/007d000001000200 eos -> + + : caps=S16LE,8000,1 time=0 +01000200,0,0,250000 eos
+/04000000010002 eos -> + + : caps=S16LE,8000,1 time=0 +0100,0,0,125000 eos
+/ffffffff01000200 +0300 eos -> + + + : caps=S16LE,8000,1 time=0 +01000200,0,0,250000 +0300,2,250000,125000 eos
+/0400000001 +00020003 +0400 eos -> + + + + : caps=S16LE,8000,1 time=0 +01000200,0,0,250000 eos
@ +/0400000001000200 @ bytes=46 +02000300 eos -> - + 50,44 + + + : caps=S16LE,8000,1 time=0 +01000200,0,0,250000 time=125000 +0200,1,125000,125000 eos
+/0400000001000200 bytes=10 @ +52 eos -> + + 50,44 + short:1 : caps=S16LE,8000,1 time=0 +01000200,0,0,250000
+/04000000010002 flush @ eos +00 flush bytes=44 +0100 -> + - 50,44 + . - + + : caps=S16LE,8000,1 time=0 +0100,0,0,125000 eos time=0 +0100,0,0,125000
eos caps tag gap -> short:0 + + + : tag gap
+/04000000010002 time=9 +52 flush +/04000000:40 drain -> + + + - + short:40 : caps=S16LE,8000,1 time=0 +0100,0,0,125000
+/000000000100 bytes=18446744073709551615 -> + long:125000,9223372036854650808 : caps=S16LE,8000,1 time=0 +0100,0,0,125000
+52494646280000005741564566 +6d74201000000007000200401f0000803e0000020008006461746100000000d5d5d5 drain -> + + - : caps=MULAW,8000,2 time=0 +d5d5,0,0,125000
";

/// Adds the bytes whose hexadecimal digits stand in a text.
fn push_bytes(alloc: Global, digits: &str, bytes: &mut Vec<u8>) -> Result<(), Fail> {
    bytes.extend_from_slice(bytes_by(alloc, digits)?.as_slice())?;
    Ok(())
}

/// The bytes of a word behind its first character.
fn file_by(alloc: Global, word: &str) -> Result<Vec<u8>, Fail> {
    let mut bytes = Vec::new(alloc);
    let (digits, most) = match word.split_once(':') {
        Some((digits, most)) => (digits, most.parse().unwrap_or(0)),
        None => (word, 1000),
    };
    match digits.strip_prefix('/') {
        Some(digits) => {
            push_bytes(alloc, FRONT, &mut bytes)?;
            push_bytes(alloc, digits, &mut bytes)?;
        }
        None => push_bytes(alloc, digits, &mut bytes)?,
    }
    bytes.truncate(most);
    Ok(bytes)
}

fn item_by(alloc: Global, word: &str) -> Result<Item, Fail>
    ensures { IfOk result (λ item. is_flush_stop item ≡ false) }
{
    if let Some(bytes) = word.strip_prefix('+') {
        return Ok(buffer_of(alloc, file_by(alloc, bytes)?.as_slice())?);
    }
    if let Some(start) = word.strip_prefix("bytes=") {
        return Ok(Item::Event(segment_by(Format::Bytes, start)));
    }
    if let Some(start) = word.strip_prefix("time=") {
        return Ok(Item::Event(segment_by(Format::Time, start)));
    }
    if word == "caps" {
        return Ok(Item::Event(Event::Caps(Fixed::new(alloc, "audio/x-wav")?)));
    }
    Ok(Item::Event(event_by(alloc, word)?))
}

fn tell_kind(kind: StreamKind) -> &'static str {
    match kind {
        StreamKind::NotRiff => "riff",
        StreamKind::NotWave => "wave",
        StreamKind::NoFmt => "nofmt",
        StreamKind::BadFmt => "fmt",
        StreamKind::TagUnknown => "tag",
        StreamKind::HeadTooLong => "head",
        StreamKind::Short => "short",
        _ => "other",
    }
}

fn tell_fault(text: &mut String, fault: &ElementFault) -> Result<(), Fail> {
    match fault {
        ElementFault::TooLong { a, b } => write!(text, "long:{a},{b} ")?,
        ElementFault::BadStream { place, kind } => write!(text, "{}:{place} ", tell_kind(*kind))?,
        _ => text.push_str("fault ")?,
    }
    Ok(())
}

fn tell_answer(text: &mut String, answer: &Result<Flow, ElementFault>) -> Result<(), Fail> {
    match answer {
        Ok(Flow::Ok) => text.push_str("+ ")?,
        Ok(_) => text.push_str(". ")?,
        Err(fault) => tell_fault(text, fault)?,
    }
    Ok(())
}

fn tell_number(text: &mut String, number: Option<u64>) -> Result<(), Fail> {
    match number {
        Some(number) => write!(text, ",{number}")?,
        None => text.push_str(",-")?,
    }
    Ok(())
}

fn tell_buffer(text: &mut String, buffer: &Buffer) -> Result<(), Fail> {
    text.push_str("+")?;
    for byte in buffer.body.as_slice() {
        write!(text, "{byte:02x}")?;
    }
    tell_number(text, buffer.offset)?;
    tell_number(text, buffer.pts)?;
    tell_number(text, buffer.duration)
}

fn tell_event(text: &mut String, event: &Event) -> Result<(), Fail> {
    match event {
        Event::Caps(caps) => match Info::from_fixed(caps) {
            Ok(info) => write!(
                text,
                "caps={},{},{}",
                info.format.name(),
                info.rate,
                info.channels
            )?,
            Err(_) => text.push_str("caps")?,
        },
        Event::Segment(segment) => write!(text, "time={}", segment.start)?,
        _ => text.push_str(word_of(event))?,
    }
    Ok(())
}

fn tell_out(text: &mut String, out: &Outs) -> Result<(), Fail> {
    text.push_str(":")?;
    for one in out.as_slice() {
        text.push_str(" ")?;
        match &one.item {
            Item::Buffer(buffer) => tell_buffer(text, buffer)?,
            Item::Event(event) => tell_event(text, event)?,
        }
    }
    Ok(())
}

fn tell_place(text: &mut String, parser: &WavParse) -> Result<(), Fail> {
    match (parser.place_of(3), parser.head()) {
        (Some(place), Some(head)) => write!(text, "{place},{} ", head.start)?,
        _ => text.push_str("- ")?,
    }
    Ok(())
}

fn feed_each(
    alloc: Global,
    parser: &mut WavParse,
    bytes: &[u8],
    out: &mut Outs,
) -> Result<(), Fail> {
    for byte in bytes {
        let one = buffer_of(alloc, &[*byte])?;
        if parser.feed(alloc, 0, one, out).is_err() {
            return Ok(());
        }
    }
    Ok(())
}

fn call_parser(
    alloc: Global,
    parser: &mut WavParse,
    word: &str,
    text: &mut String,
    out: &mut Outs,
) -> Result<(), Fail> {
    match word {
        "flush" => {
            parser.flush();
            text.push_str("- ")?;
        }
        "drain" => match parser.drain(alloc, out) {
            Ok(()) => text.push_str("- ")?,
            Err(fault) => tell_fault(text, &fault)?,
        },
        "@" => tell_place(text, parser)?,
        _ => feed_word(alloc, parser, word, text, out)?,
    }
    Ok(())
}

fn feed_word(
    alloc: Global,
    parser: &mut WavParse,
    word: &str,
    text: &mut String,
    out: &mut Outs,
) -> Result<(), Fail> {
    if let Some(bytes) = word.strip_prefix('*') {
        feed_each(alloc, parser, &file_by(alloc, bytes)?, out)?;
        text.push_str("+ ")?;
        return Ok(());
    }
    let item = item_by(alloc, word)?;
    let answer = parser.feed(alloc, 0, item, out);
    tell_answer(text, &answer)
}

/// Makes the calls, of a copy each time.
fn call_all(alloc: Global, calls: &str, out: &mut Outs) -> Result<String, Fail> {
    let mut parser = WavParse::new();
    let mut text = String::new(alloc);
    for word in calls.split(' ') {
        call_parser(alloc, &mut parser, word, &mut text, out)?;
        parser = parser.copy(alloc)?;
    }
    Ok(text)
}

fn check_parser(rt: &impl Abort, alloc: Global, line: &str) -> Result<(), Fail> {
    let (calls, wanted) = line.split_once(" -> ").unwrap_or((line, ""));
    let mut out = List::new(alloc);
    let mut text = call_all(alloc, calls, &mut out)?;
    tell_out(&mut text, &out)?;
    same_text(rt, calls, text.as_str(), wanted);
    Ok(())
}

#[test]
fn parses(rt: HostRuntime) -> Result<(), Fail> {
    let alloc = rt.alloc();
    for line in PARSED.lines() {
        check_parser(&rt, alloc, line)?;
    }
    Ok(())
}

/// Adds so many bytes.
fn add_bytes(bytes: &mut Vec<u8>, count: u32) -> Result<(), Fail> {
    for place in 0..count {
        bytes.push((place % 251) as u8)?;
    }
    Ok(())
}

/// A file of the front, a size of its data and so many bytes of data.
fn file_of(alloc: Global, size: u32, count: u32) -> Result<Vec<u8>, Fail> {
    let mut bytes = Vec::new(alloc);
    push_bytes(alloc, FRONT, &mut bytes)?;
    bytes.extend_from_slice(&size.to_le_bytes())?;
    add_bytes(&mut bytes, count)?;
    Ok(bytes)
}

/// A file of 8000 frames with a `LIST` chunk of 70,001 bytes before its data, which begins at 70,054.
fn file_with_list(alloc: Global) -> Result<Vec<u8>, Fail> {
    let mut bytes = Vec::new(alloc);
    push_bytes(alloc, FRONT, &mut bytes)?;
    bytes.truncate(36);
    bytes.extend_from_slice(b"LIST")?;
    bytes.extend_from_slice(&70_001u32.to_le_bytes())?;
    add_bytes(&mut bytes, 70_002)?;
    bytes.extend_from_slice(b"data")?;
    bytes.extend_from_slice(&16_000u32.to_le_bytes())?;
    add_bytes(&mut bytes, 16_000)?;
    Ok(bytes)
}

/// The bytes of the buffers that are put out for a file in blocks of a size.
fn data_of(rt: &impl Abort, alloc: Global, file: &[u8], block: usize) -> Result<Vec<u8>, Fail>
    requires { block ≢ 0 }
{
    let mut parser = WavParse::new();
    let mut out = List::new(alloc);
    for bytes in file.chunks(block) {
        let item = buffer_of(alloc, bytes)?;
        assert!(rt; parser.feed(alloc, 0, item, &mut out).is_ok());
    }
    let end = Item::Event(Event::Eos);
    assert!(rt; parser.feed(alloc, 0, end, &mut out).is_ok());
    let mut data = Vec::new(alloc);
    for one in out.as_slice() {
        if let Item::Buffer(buffer) = &one.item {
            data.extend_from_slice(buffer.body.as_slice())?;
        }
    }
    Ok(data)
}

/// A file in blocks of several sizes gives this data.
fn check_blocks(
    rt: &impl Abort,
    alloc: Global,
    file: &[u8],
    wanted: Option<&[u8]>,
) -> Result<(), Fail> {
    for block in [1, 7, 4096, 1_048_576] {
        assert!(rt; block != 0);
        let data = data_of(rt, alloc, file, block)?;
        assert!(rt;
            wanted == Some(data.as_slice()),
            "{} bytes in blocks of {block}",
            file.len()
        );
    }
    Ok(())
}

/// A file of 8000 frames gives the same bytes in blocks of any size, whatever its head says of the size of its data,
/// where it is cut or goes on behind the data, and where a long chunk comes before the data.
#[test]
fn blocks(rt: HostRuntime) -> Result<(), Fail> {
    let alloc = rt.alloc();
    let rows = [
        (16_000, 16_000, 16_044),
        (32_000, 16_000, 16_044),
        (u32::MAX, 16_000, 16_044),
        (0, 16_000, 16_044),
        (16_000, 15_001, 15_044),
        (16_000, 16_009, 16_044),
        (15_999, 16_000, 16_042),
    ];
    for (size, count, end) in rows {
        let file = file_of(alloc, size, count)?;
        check_blocks(&rt, alloc, &file, file.get(44..end))?;
    }
    let file = file_with_list(alloc)?;
    check_blocks(&rt, alloc, &file, file.get(70_054..))
}
