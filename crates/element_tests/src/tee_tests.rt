//! Rows of calls of a tee. A letter stands for a call, and for what it answers and puts out.
ghost use Rattle.std.specs.Prelude.{◌≤◌};

use crate::rows::same_bytes;
use el_basic::*;
use gst_item::Outs;
use gst_value::List;
use item_letters::{item_of, letter_of, letter_of_flow};
use std::alloc::Global;
use std::test::Fail;

fn digit_of(number: u32) -> u8 {
    match number {
        0 => b'0',
        1 => b'1',
        2 => b'2',
        3 => b'3',
        _ => b'?',
    }
}

/// Makes one call: `f` is a flush, `d` a drain, `n` makes a source pad and answers its number, and all others feed.
fn call_tee(alloc: Global, tee: &mut Tee, letter: u8, out: &mut Outs) -> Result<u8, Fail> {
    match letter {
        b'f' => tee.flush(),
        b'd' => tee.drain(alloc, out)?,
        b'n' => {
            if tee.pad_count() < 64 {
                return Ok(digit_of(tee.add_pad(alloc, out)?));
            }
        }
        _ => {
            let item = item_of(alloc, letter)?;
            if !item.is_flush_stop() {
                return Ok(letter_of_flow(tee.feed(alloc, 0, item, out)?));
            }
        }
    }
    Ok(b'-')
}

/// The answers to calls.
fn answers(alloc: Global, tee: &mut Tee, calls: &[u8], out: &mut Outs) -> Result<Vec<u8>, Fail> {
    let mut trace = Vec::new(alloc);
    for letter in calls {
        trace.push(call_tee(alloc, tee, *letter, out)?)?;
    }
    Ok(trace)
}

/// Adds a `:`, and what was put out, each item behind the number of its source pad.
fn add_outs(trace: &mut Vec<u8>, out: &Outs) -> Result<(), Fail> {
    trace.push(b':')?;
    for one in out.as_slice() {
        trace.push(digit_of(one.pad))?;
        trace.push(letter_of(&one.item))?;
    }
    Ok(())
}

/// The answers of a tee with these pads, and what it put out.
fn tee_trace(alloc: Global, pads: u32, calls: &[u8]) -> Result<Vec<u8>, Fail>
    requires few { pads ≤ 64 }
{
    let mut tee = Tee::new(pads).copy(alloc)?;
    let mut out = List::new(alloc);
    let mut trace = answers(alloc, &mut tee, calls, &mut out)?;
    add_outs(&mut trace, &out)?;
    Ok(trace)
}

#[test]
fn rows_of_tees(rt: HostRuntime) -> Result<(), Fail> {
    let alloc = rt.alloc();
    let rows: [(u32, &'static [u8], &'static [u8]); 8] = [
        (0, b"sEe", b"+++:"),
        (1, b"sEdpe", b"++-++:0s0E0p0e"),
        (2, b"sEeEfE", b"+++.-+:0s1s0E1E0e1e0E1E"),
        (3, b"r", b"+:0r1r2r"),
        (0, b"nE", b"0+:0E"),
        (1, b"tgrspEnE", b"++++++1+:0t0g0r0s0p0E1s1r1g1t0E1E"),
        (1, b"sgengfng", b"+++1.-2+:0s0g0e1s1g1e2s0g1g2g"),
        (0, b"setn", b"++.0:0s0e"),
    ];
    for (pads, calls, wanted) in rows {
        same_bytes(
            &rt,
            tee_trace(alloc, pads.min(64), calls)?.as_slice(),
            wanted,
        );
    }
    Ok(())
}
