//! Rows of calls. Two letters stand for a call: the number of a pad, and what it is given.
ghost use Rattle.std.specs.Prelude.{◌≡◌};
ghost use Rattle.flow_model.specs.Inherited.{is_inherited};

use crate::rows::{holds, same_bytes};
use el_join::Concat;
use flow_model::ElementFault;
use gst_item::{Event, Flow, Item, Outs};
use gst_time::{Format, LIMIT, Segment};
use gst_value::List;
use item_letters::{item_of, letter_of, letter_of_flow};
use std::alloc::Global;
use std::test::Fail;

/// A segment from 0 on, with a base.
fn segment(format: Format, base: u64) -> Item {
    let mut segment = Segment::new(format);
    segment.base = base;
    Item::Event(Event::Segment(segment))
}

/// A buffer without bytes that ends right before `LIMIT`.
fn late(alloc: Global) -> Result<Item, Fail> {
    match item_of(alloc, b'N')? {
        Item::Buffer(mut buffer) => {
            buffer.pts = Some(LIMIT - 1);
            buffer.duration = None;
            Ok(Item::Buffer(buffer))
        }
        other => Ok(other),
    }
}

/// `T` and `U` are SEGMENTs in time, of base 0 and 2, and `O` is one in bytes; `L` ends so late that nothing fits behind it.
fn item_by(alloc: Global, letter: u8) -> Result<Item, Fail> {
    match letter {
        b'T' => Ok(segment(Format::Time, 0)),
        b'U' => Ok(segment(Format::Time, 2)),
        b'O' => Ok(segment(Format::Bytes, 0)),
        b'L' => late(alloc),
        _ => Ok(item_of(alloc, letter)?),
    }
}

/// The base of a segment in time, and the start of one in bytes, as a digit.
fn digit(segment: &Segment) -> u8 {
    let number = match segment.format {
        Format::Time => segment.base,
        Format::Bytes => segment.start,
    };
    if number < 10 {
        b'0' + number as u8
    } else {
        b'?'
    }
}

fn letter(item: &Item) -> u8 {
    match item {
        Item::Event(Event::Segment(segment)) => digit(segment),
        _ => letter_of(item),
    }
}

/// `!` where nothing fits behind what is late.
fn answer(flow: &Result<Flow, ElementFault>) -> u8 {
    match flow {
        Ok(flow) => letter_of_flow(*flow),
        Err(ElementFault::TooLong { a, b }) => {
            if *a == 2 && *b == LIMIT - 1 {
                b'!'
            } else {
                b'?'
            }
        }
        Err(_) => b'?',
    }
}

fn is_inherited(event: &Event) -> bool
    ensures { result ≡ is_inherited event.now }
{
    matches!(
        event,
        Event::StreamStart { .. } | Event::Caps(_) | Event::Tag { .. }
    )
}

fn lay(concat: &mut Concat, pad: u32, item: Item) {
    if let Item::Event(event) = item {
        if pad < concat.pad_count() && is_inherited(&event) {
            concat.lay(pad, event);
        }
    }
}

/// Makes a call: `f` is a flush, and where a small letter stands for the pad the event is laid.
fn call(
    alloc: Global,
    concat: &mut Concat,
    place: u8,
    what: u8,
    out: &mut Outs,
) -> Result<u8, Fail> {
    let pad = u32::from(place & 1);
    let item = item_by(alloc, what)?;
    if item.is_flush_stop() {
        concat.flush();
        return Ok(b'-');
    }
    if place >= b'a' {
        lay(concat, pad, item);
        return Ok(b'-');
    }
    if pad < concat.pad_count() {
        return Ok(answer(&concat.feed(alloc, pad, item, out)));
    }
    Ok(b'?')
}

fn trace(alloc: Global, calls: &[u8]) -> Result<Vec<u8>, Fail> {
    let mut concat = Concat::new(alloc, 2)?;
    let mut out = List::new(alloc);
    let mut trace = Vec::new(alloc);
    for pair in calls.chunks_exact(2) {
        let made = call(alloc, &mut concat, pair[0], pair[1], &mut out)?;
        trace.push(made)?;
    }
    trace.push(b':')?;
    for one in out.as_slice() {
        trace.push(letter(&one.item))?;
    }
    Ok(trace)
}

/// Feeds an item on a pad that is there.
fn feed(
    alloc: Global,
    concat: &mut Concat,
    pad: u32,
    item: Item,
    out: &mut Outs,
) -> Result<(), Fail> {
    if pad < concat.pad_count() && !item.is_flush_stop() {
        concat.feed(alloc, pad, item, out)?;
    }
    Ok(())
}

/// A buffer without bytes from time 0 on, of this duration in nanoseconds.
fn lasting(alloc: Global, duration: u64) -> Result<Item, Fail> {
    match item_of(alloc, b'N')? {
        Item::Buffer(mut buffer) => {
            buffer.pts = Some(0);
            buffer.duration = Some(duration);
            Ok(Item::Buffer(buffer))
        }
        other => Ok(other),
    }
}

/// The base of the last SEGMENT that was put out.
fn last_base(out: &Outs) -> Option<u64> {
    let mut base = None;
    for one in out.as_slice() {
        if let Item::Event(Event::Segment(segment)) = &one.item {
            base = Some(segment.base);
        }
    }
    base
}

/// The base of the second stream in time, behind a first one whose buffer lasts so long, or that has none.
fn base_behind(alloc: Global, lasts: Option<u64>) -> Result<Option<u64>, Fail> {
    let mut concat = Concat::new(alloc, 2)?;
    let mut out = List::new(alloc);
    feed(alloc, &mut concat, 0, segment(Format::Time, 0), &mut out)?;
    if let Some(duration) = lasts {
        let buffer = lasting(alloc, duration)?;
        feed(alloc, &mut concat, 0, buffer, &mut out)?;
    }
    feed(alloc, &mut concat, 0, Item::Event(Event::Eos), &mut out)?;
    feed(alloc, &mut concat, 1, segment(Format::Time, 0), &mut out)?;
    Ok(last_base(&out))
}

#[test]
fn second_stream_begins_behind_the_first(rt: HostRuntime) -> Result<(), Fail> {
    let alloc = rt.alloc();
    let second = Some(1_000_000_000);
    holds(
        &rt,
        "behind a buffer",
        base_behind(alloc, second)? == second,
    );
    holds(
        &rt,
        "behind no buffer",
        base_behind(alloc, None)? == Some(0),
    );
    Ok(())
}

#[test]
fn joins(rt: HostRuntime) -> Result<(), Fail> {
    let alloc = rt.alloc();
    let rows: [(&'static [u8], &'static [u8]); 12] = [
        // in their order, with times and bytes
        (b"0s0T0C0e1s1T1C1e", b"++++++++:s0Cs3Ce"),
        (b"0s0T0e1s1T1e", b"++++++:s0s0e"),
        (b"0O0C0e1O1C1e", b"++++++:0C3Ce"),
        (b"0T0C0e1O1C1e", b"++++++:0C3Ce"),
        (b"0O0C0e1T1C1e", b"++++++:0C0Ce"),
        // early items
        (b"1T1C0T0C1e0C0e", b"+++++++:0CC3Ce"),
        // behind EOS
        (b"0e0C1e1e1s", b"+.+..:e"),
        // the sum is too long, at once and for an early item
        (b"0T0L0e1s1U", b"++++!:0Ns"),
        (b"0T0L1U1C0e0C", b"++++!+:0NC"),
        // sections
        (b"0s0r0t0T0C0f0T0C0e1e", b"+++++-++++:srt0Csrt0Ce"),
        (b"0s0fas0fbr1f1T0C0e1e", b"+-----++++:ssrCs0e"),
        (b"", b":"),
    ];
    for (calls, wanted) in rows {
        same_bytes(&rt, trace(alloc, calls)?.as_slice(), wanted);
    }
    Ok(())
}
