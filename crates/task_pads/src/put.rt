//! What an element put out goes to its source pads.
ghost use Rattle.std.specs.Prelude.{◌≡◌, ◌≢◌, ◌++◌, [], map, length, OnOk};
ghost use Rattle.flow_model.specs.Takes.{on_port, AreWithin};
ghost use Rattle.task_pads.specs.Pads.{rest_of, waiting_of, HasRoom};
ghost use Rattle.task_pads.specs.Put.{FirstNoFlush, MovesFirst, Spread};

use crate::pad::Pad;
use gst_item::{Out, Outs};
use gst_value::{List, OutOfMemory};
use std::alloc::Global;
use std::collections::VecDeque;
use std::mem;

/// For an element with one pad: where nothing waits at the pad, all that was put out waits there. No item is moved and
/// no memory is taken. Where something waits all stays.
#[inline(always)]
pub fn fill<O>(alloc: Global, pad: &mut Pad<O>, out: &mut Outs)
    requires { AreWithin 1 out.old }
    ensures rest { rest_of pad.new ≡ rest_of pad.old }
    ensures waiting { waiting_of pad.new ++ on_port 0 out.new ≡ waiting_of pad.old ++ on_port 0 out.old }
    ensures filled { waiting_of pad.old ≡ [] → out.new ≡ [] }
    ensures stays { waiting_of pad.old ≢ [] → (out.new ≡ out.old) × (waiting_of pad.new ≡ waiting_of pad.old) }
    ensures within { AreWithin 1 out.new }
{
    if !pad.waiting.is_empty() {
        return;
    }
    let outs = mem::replace(out, List::new(alloc)).into_vec();
    let empty = mem::replace(&mut pad.waiting, VecDeque::from_vec(outs));
    *out = List::from_vec(empty.into_vec());
}

/// For an element with several pads: each item that was put out waits at its pad, behind those that wait there. Where
/// there is no memory for one, it and those behind it stay.
pub fn spread<O>(alloc: Global, pads: &mut Vec<Pad<O>>, out: &mut Outs) -> Result<(), OutOfMemory>
    requires { AreWithin (length pads.old.items) out.old }
    ensures rest { map rest_of pads.new.items ≡ map rest_of pads.old.items }
    ensures spread { Spread out.old out.new pads.old.items pads.new.items }
    ensures all { OnOk result (out.new ≡ []) }
    ensures within { AreWithin (length pads.new.items) out.new }
{
    let outs = mem::replace(out, List::new(alloc)).into_vec();
    let mut outs = VecDeque::from_vec(outs);
    let spread = spread_all(pads, &mut outs);
    *out = List::from_vec(outs.into_vec());
    spread
}

/// Takes items off the front as long as there is memory at their pads.
fn spread_all<O>(pads: &mut Vec<Pad<O>>, outs: &mut VecDeque<Out>) -> Result<(), OutOfMemory>
    requires { AreWithin (length pads.old.items) outs.old.items }
    ensures rest { map rest_of pads.new.items ≡ map rest_of pads.old.items }
    ensures spread { Spread outs.old.items outs.new.items pads.old.items pads.new.items }
    ensures all { OnOk result (outs.new.items ≡ []) }
    ensures within { AreWithin (length pads.new.items) outs.new.items }
{
    while let Some(first) = outs.front() {
        let port = first.pad as usize;
        pads[port].waiting.reserve(1)?;
        spread_one(&mut pads[port], outs);
    }
    Ok(())
}

/// The first item goes behind those that wait at a pad, into room that was made before.
fn spread_one<O>(pad: &mut Pad<O>, outs: &mut VecDeque<Out>)
    requires room { HasRoom pad.old }
    requires some { outs.old.items ≢ [] }
    requires no_flush { FirstNoFlush outs.old.items }
    ensures rest { rest_of pad.new ≡ rest_of pad.old }
    ensures moved { MovesFirst outs.old.items outs.new.items (waiting_of pad.old) (waiting_of pad.new) }
{
    if let Some(out) = outs.pop_front() {
        pad.waiting.push_back_reserved(out);
    }
}
