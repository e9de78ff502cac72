//! Rows of a valve. The first letter says how it begins: `o` open, and `x` closed. Then `o` opens it, `x` closes it, `d` drains
//! it, `f` flushes it, and others are items.
use crate::rows::same_text;
use el_basic::Valve;
use gst_item::Outs;
use gst_value::List;
use item_letters::{item_of, letter_of_answer, letters_of};
use std::alloc::Global;
use std::test::Fail;

/// Feeds an item, or flushes.
fn feed(alloc: Global, valve: &mut Valve, letter: u8, out: &mut Outs) -> Result<u8, Fail> {
    let item = item_of(alloc, letter)?;
    if item.is_flush_stop() {
        valve.flush();
        return Ok(b'-');
    }
    let answer = valve.feed(alloc, 0, item, out);
    Ok(letter_of_answer(&answer))
}

/// Makes one call. What is no item is answered by `-`.
fn call(alloc: Global, valve: &mut Valve, letter: u8, out: &mut Outs) -> Result<u8, Fail> {
    match letter {
        b'o' => valve.set_drop(false),
        b'x' => valve.set_drop(true),
        b'd' => valve.drain(alloc, out)?,
        _ => return feed(alloc, valve, letter, out),
    }
    Ok(b'-')
}

/// The answers to calls.
fn answers(alloc: Global, valve: &mut Valve, calls: &str, out: &mut Outs) -> Result<String, Fail> {
    let mut trace = String::new(alloc);
    for letter in calls.bytes() {
        trace.push(char::from(call(alloc, valve, letter, out)?))?;
    }
    trace.push(':')?;
    Ok(trace)
}

/// The answers, a `:`, and what was put out.
fn trace_of(alloc: Global, closed: bool, calls: &str) -> Result<String, Fail> {
    let mut valve = Valve::new(closed).copy(alloc)?;
    let mut out = List::new(alloc);
    let mut trace = answers(alloc, &mut valve, calls, &mut out)?;
    for letter in letters_of(alloc, &out)?.as_slice() {
        trace.push(char::from(*letter))?;
    }
    Ok(trace)
}

#[test]
fn rows_of_a_valve(rt: HostRuntime) -> Result<(), Fail> {
    let alloc = rt.alloc();
    let rows = "o srgABe ++++++:srgABe
x srgABe ++++++:e
o srgAxBoCe ++++-+-++:srgAsrgCe
o sAxoBe ++--++:sAsBe
o sAoBe ++-++:sABe
x srgofgA +++--++:srgA
x sodA +--+:sA
x soA +-+:sA
x eA +.:e
x tsreofA ++++--+:esrtA
o sxgpNofpA +-+++--++:sspA";
    for row in rows.lines() {
        let (first, rest) = row.split_once(' ').unwrap_or((row, ""));
        let (calls, wanted) = rest.split_once(' ').unwrap_or((rest, ""));
        same_text(
            &rt,
            row,
            trace_of(alloc, first == "x", calls)?.as_str(),
            wanted,
        );
    }
    Ok(())
}
