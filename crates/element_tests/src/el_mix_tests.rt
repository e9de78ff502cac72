//! Rows of calls of a mixing element, with what they answer and put out.
ghost use Rattle.std.specs.Prelude.{◌≡◌};
ghost use Rattle.flow_model.specs.Inherited.{is_inherited};

use crate::rows::same_text;
use audio_info::{Info, Sample};
use el_mix::Mix;
use flow_model::ElementFault;
use gst_caps::Caps;
use gst_item::{Body, Buffer, Event, Flow, Item, Outs};
use gst_time::{Format, Segment};
use gst_value::{Fixed, List, Text};
use std::alloc::Global;
use std::fmt::Write;
use std::process::Abort;
use std::test::Fail;

/// Two pads, 1000 frames a second. `P:word` is fed on pad P, `P>word` is laid there. A zero byte is written `.`, one of 128 `~`.
const ROWS: &str =
    "0:start=3 0:s16 0:time 0:+1a2a3a 1:start=2 1:s16 1:time 1:+vVwW 0:+4a5a 1:+xXyYzZ 0:eos 1:eos -> + + + + + + + + + + + + : start=2 s16,2 time=0 +1avV2awW,0,0,2 +3axX,2,2,1 +4ayY5azZ,3,3,2 eos
0:s16 0:time 0:+1a2a3a 1:s16 1:time 1:+vV 0:eos 1:eos -> + + + + + + + + : start=0 s16,2 time=0 +1avV,0,0,1 +2a..3a..,1,1,2 eos
0:u8 0:time 0:+abc 1:u8 1:time 1:+x 1:eos 0:eos -> + + + + + + + + : start=0 u8,2 time=0 +ax,0,0,1 +b~c~,1,1,2 eos
0:u8 0:time 1:u8 wants 1:time wants 0:+ab wants 1:+xyz wants 0:+cd wants 1:eos wants 0:eos wants -> + + + 0 + 0 + 1 + 0 + 1 + 0 + - : start=0 u8,2 time=0 +axby,0,0,2 +cz,2,2,1 +d~,3,3,1 eos
0:u8 0:+ab wants 1:u8 1:+xy wants 0:time wants 1:time -> + + 1 + + 0 + 1 + : start=0 u8,2 time=0 +axby,0,0,2
0:start=4 0:eos 1:eos -> + + + : start=4 eos
0:eos 1:start=7 1:u8 1:time 1:+x 1:eos -> + + + + + + : start=7 u8,2 time=0 +~x,0,0,1 eos
0:u8 1:s16 -> + other : 
0:u8 1:rate -> + other : 
0:u8 0:s16 0:u8 0:time -> + other + + : 
0:stereo 0:eos 1:stereo 1:u8 1:time -> outside + outside + + : start=0 u8,2 time=0
0:u8 1:stereo -> + other : 
0:+a 0:eos 1:+b -> none + none : 
0:s16 0:time 0:+ab 0:+abc 0:+cd 1:s16 1:time 1:+x 1:+xy -> + + + bad:5 + + + bad:1 + : start=0 s16,2 time=0 +abxy,0,0,1
0:u8 0:time 0:+ab 0:gap 0:tag 0:start=1 0:time 1:u8 1:tag 1:time 1:gap 1:+ 1:+xy 0:+ -> + + + + + + + + + + + + + + : start=0 u8,2 time=0 +axby,0,0,2
0:start=5 0:u8 0:time 0:+ab 0:eos 0:+c 1:u8 1:time 1:eos 1:time -> + + + + + . + + + . : start=5 u8,2 time=0 +a~b~,0,0,2 eos
0:start=5 0:u8 0:time 0:+ab 1:start=6 1:u8 1:time 1:+x flush wants 0:time wants 1:time 0:+cd 1:+y -> + + + + + + + + - 0 + 0 + + + : start=5 u8,2 time=0 +ax,0,0,1 start=5 u8,2 time=0 +cy,0,0,1
0:start=5 0:u8 0:time 0:start=9 1:u8 1:eos 0:+a flush 1:eos 0:+b 0:time 0:eos -> + + + + + + + - + + + + : start=5 u8,2 time=0 +a~,0,0,1 start=9 u8,2 time=0 +b~,0,0,1 eos
0:u8 0:time 1:u8 1:time 0>s16 1>s16 0>start=8 flush 0:time 0:+ab 1:time 1:+xy drain -> + + + + - - - - + + + + - : start=0 u8,2 time=0 start=8 s16,2 time=0 +abxy,0,0,1
0:u8 0:eos 1:eos 0>s16 flush 0:time 1:time -> + + + - - + + : start=0 u8,2 time=0 eos start=0 u8,2 time=0
0:u8 1:u8 1>s16 flush 0:time 1:time 1:eos -> + + - - + other other : 
0:eos 1:u8 1:eos flush 0:s16 0:time 1:eos -> + + + - + + other : start=0 u8,2 time=0 eos
0:u8 1:u8 0>stereo flush 0:eos 1:time -> + + - - outside other : 
";

fn mono(format: Sample) -> Info {
    Info {
        format,
        rate: 1000,
        channels: 1,
    }
}

fn fast() -> Info {
    Info {
        format: Sample::U8,
        rate: 8000,
        channels: 1,
    }
}

fn stereo() -> Info {
    Info {
        format: Sample::U8,
        rate: 1000,
        channels: 2,
    }
}

fn caps_by(alloc: Global, info: Info) -> Result<Event, Fail> {
    Ok(Event::Caps(info.to_fixed(alloc)?))
}

fn number(text: &str) -> u32 {
    text.parse().unwrap_or(0)
}

fn event_by(alloc: Global, word: &str) -> Result<Event, Fail> {
    if let Some(id) = word.strip_prefix("start=") {
        return Ok(Event::StreamStart { id: number(id) });
    }
    match word {
        "u8" => caps_by(alloc, mono(Sample::U8)),
        "s16" => caps_by(alloc, mono(Sample::S16LE)),
        "rate" => caps_by(alloc, fast()),
        "stereo" => caps_by(alloc, stereo()),
        "time" => Ok(Event::Segment(Segment::new(Format::Time))),
        "tag" => Ok(Event::Tag {
            title: Text::from_str(alloc, "title")?,
        }),
        "gap" => Ok(Event::Gap {
            pts: 0,
            duration: 1,
        }),
        _ => Ok(Event::Eos),
    }
}

fn item_by(alloc: Global, word: &str) -> Result<Item, Fail> {
    match word.strip_prefix('+') {
        Some(letters) => {
            let bytes = Vec::from_slice(alloc, letters.as_bytes())?;
            Ok(Item::Buffer(Buffer {
                body: Body::from_vec(alloc, bytes)?,
                pts: Some(9),
                duration: None,
                offset: None,
                discont: true,
            }))
        }
        None => Ok(Item::Event(event_by(alloc, word)?)),
    }
}

fn is_template(alloc: Global, wanted: &Caps) -> Result<bool, Fail> {
    let mut all = true;
    for format in [Sample::U8, Sample::S16LE, Sample::S32LE] {
        let info = Info {
            format,
            rate: 44100,
            channels: 1,
        };
        all = all && wanted.accepts(&info.to_fixed(alloc)?);
    }
    Ok(all)
}

fn tell_answer(
    alloc: Global,
    text: &mut String,
    answer: &Result<Flow, ElementFault>,
) -> Result<(), Fail> {
    match answer {
        Ok(Flow::Ok) => text.push_str("+ ")?,
        Ok(Flow::Eos) => text.push_str(". ")?,
        Ok(_) => text.push_str("? ")?,
        Err(ElementFault::TooLong { a, b }) => write!(text, "long:{a},{b} ")?,
        Err(ElementFault::BadStream { place, .. }) => write!(text, "bad:{place} ")?,
        Err(ElementFault::NotNegotiated { offered, wanted }) => {
            let outside = is_template(alloc, wanted)?;
            match offered {
                None => text.push_str(if outside { "none " } else { "?none " })?,
                Some(_) => text.push_str(if outside { "outside " } else { "other " })?,
            }
        }
        Err(_) => text.push_str("! ")?,
    }
    Ok(())
}

/// A question mark stands where the item may not be fed there.
fn feed(
    alloc: Global,
    mix: &mut Mix,
    pad: u32,
    item: Item,
    text: &mut String,
    out: &mut Outs,
) -> Result<(), Fail> {
    if pad < mix.pad_count() && mix.is_in_order(pad) && !item.is_flush_stop() {
        let answer = mix.feed(alloc, pad, item, out);
        return tell_answer(alloc, text, &answer);
    }
    text.push_str("? ")?;
    Ok(())
}

fn is_inherited(event: &Event) -> bool
    ensures { result ≡ is_inherited event.now }
{
    matches!(
        event,
        Event::StreamStart { .. } | Event::Caps(_) | Event::Tag { .. }
    )
}

fn lay(mix: &mut Mix, pad: u32, event: Event) {
    if pad < mix.pad_count() && is_inherited(&event) {
        mix.lay(pad, event);
    }
}

fn call(
    alloc: Global,
    mix: &mut Mix,
    word: &str,
    text: &mut String,
    out: &mut Outs,
) -> Result<(), Fail> {
    match word {
        "flush" => {
            mix.flush();
            text.push_str("- ")?;
        }
        "drain" => {
            let drained = mix.drain(alloc, out).is_ok();
            text.push_str(if drained { "- " } else { "! " })?;
        }
        "wants" => match mix.wants() {
            Some(pad) => write!(text, "{pad} ")?,
            None => text.push_str("- ")?,
        },
        _ => give(alloc, mix, word, text, out)?,
    }
    Ok(())
}

/// Lays what stands behind a `>`, and feeds what stands behind a `:`.
fn give(
    alloc: Global,
    mix: &mut Mix,
    word: &str,
    text: &mut String,
    out: &mut Outs,
) -> Result<(), Fail> {
    if let Some((pad, laid)) = word.split_once('>') {
        lay(mix, number(pad), event_by(alloc, laid)?);
        text.push_str("- ")?;
        return Ok(());
    }
    let (pad, item) = word.split_once(':').unwrap_or((word, ""));
    feed(alloc, mix, number(pad), item_by(alloc, item)?, text, out)
}

fn tell_buffer(text: &mut String, buffer: &Buffer) -> Result<(), Fail> {
    text.push_str("+")?;
    for byte in buffer.body.as_slice() {
        text.push(match *byte {
            0 => '.',
            128 => '~',
            byte => char::from(byte),
        })?;
    }
    let pts = buffer.pts.unwrap_or(99) / 1_000_000;
    let duration = buffer.duration.unwrap_or(99) / 1_000_000;
    write!(text, ",{},{pts},{duration}", buffer.offset.unwrap_or(99))?;
    Ok(())
}

fn tell_caps(text: &mut String, caps: &Fixed) -> Result<(), Fail> {
    match Info::from_fixed(caps) {
        Ok(info) if info.format == Sample::U8 => write!(text, "u8,{}", info.channels)?,
        Ok(info) => write!(text, "s16,{}", info.channels)?,
        Err(_) => text.push_str("caps")?,
    }
    Ok(())
}

fn tell_item(text: &mut String, item: &Item) -> Result<(), Fail> {
    match item {
        Item::Buffer(buffer) => tell_buffer(text, buffer)?,
        Item::Event(Event::StreamStart { id }) => write!(text, "start={id}")?,
        Item::Event(Event::Caps(caps)) => tell_caps(text, caps)?,
        Item::Event(Event::Segment(segment)) => write!(text, "time={}", segment.start)?,
        Item::Event(Event::Eos) => text.push_str("eos")?,
        Item::Event(_) => text.push_str("?")?,
    }
    Ok(())
}

fn tell_out(text: &mut String, out: &Outs) -> Result<(), Fail> {
    text.push_str(":")?;
    for one in out.as_slice() {
        text.push_str(" ")?;
        tell_item(text, &one.item)?;
    }
    if out.as_slice().is_empty() {
        text.push_str(" ")?;
    }
    Ok(())
}

/// Makes the calls, and tells the answers.
fn call_all(alloc: Global, calls: &str, out: &mut Outs) -> Result<String, Fail> {
    let mut mix = Mix::new(alloc, 2)?;
    let mut text = String::new(alloc);
    for word in calls.split(' ') {
        call(alloc, &mut mix, word, &mut text, out)?;
    }
    Ok(text)
}

fn check_row(rt: &impl Abort, alloc: Global, line: &str) -> Result<(), Fail> {
    let (calls, wanted) = line.split_once(" -> ").unwrap_or((line, ""));
    let mut out = List::new(alloc);
    let mut text = call_all(alloc, calls, &mut out)?;
    tell_out(&mut text, &out)?;
    same_text(rt, calls, text.as_str(), wanted);
    Ok(())
}

#[test]
fn mixes(rt: HostRuntime) -> Result<(), Fail> {
    let alloc = rt.alloc();
    for line in ROWS.lines() {
        check_row(&rt, alloc, line)?;
    }
    Ok(())
}
