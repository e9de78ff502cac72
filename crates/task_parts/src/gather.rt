//! What an element put out goes to its pads.
ghost use Rattle.std.specs.Prelude.{◌≡◌, ◌≢◌, ◌≤◌, ◌&&◌, not, true, vec_len, map, [], Some, length, slice_get, OnOk};
ghost use Rattle.task_pads.specs.Behind.{leads_on};
ghost use Rattle.flow_model.specs.Takes.{on_port};
ghost use Rattle.task_pads.specs.Pads.{first_is_buffer, rest_of, waiting_of};
ghost use Rattle.task_pads.specs.Put.{Spread};
ghost use Rattle.task_parts.specs.Gathered.{AreFilled, AreIdleBelow, are_within, linked_else, pads_idle_below};

use gst_item::{Item, Out, Outs};
use gst_value::OutOfMemory;
use lane_core::Outlet;
use std::alloc::Global;
use task_pads::{Behind, Pad, fill, spread};

/// What was put out goes to the pads, behind what waits there. Where memory is wanting some of it stays, in its order.
/// `first` is a port below which nothing waits.
#[inline(always)]
pub(crate) fn gather<O>(
    alloc: Global,
    pads: &mut Vec<Pad<O>>,
    out: &mut Outs,
    first: &mut usize,
) -> Result<(), OutOfMemory>
    requires within { are_within (vec_len pads.old) out.old ≡ true }
    ensures rest { map rest_of pads.new.items ≡ map rest_of pads.old.items }
    ensures spread { Spread out.old out.new pads.old.items pads.new.items }
    ensures within { are_within (vec_len pads.new) out.new ≡ true }
    ensures number { vec_len pads.new ≡ vec_len pads.old }
    ensures all { OnOk result (AreFilled pads.new.items out.new) }
    ensures first { pads_idle_below first.old pads.old.items ≡ true → pads_idle_below first.new pads.new.items ≡ true }
{
    if out.as_slice().is_empty() {
        return Ok(());
    }
    *first = 0;
    if pads.len() == 1 {
        fill(alloc, &mut pads[0], out);
        return Ok(());
    }
    spread(alloc, pads, out)
}

/// The port of the first pad at which an item waits; the number of pads where none waits at any. None waits below `from`.
#[inline(always)]
pub(crate) fn first_waiting<O: Outlet>(pads: &[Pad<O>], from: usize) -> usize
    requires from { pads_idle_below from pads.now ≡ true }
    ensures within { result ≤ length pads.now }
    ensures idle { AreIdleBelow result pads.now }
    ensures waits { (pad : _) → slice_get pads.now result ≡ Some pad → waiting_of pad ≢ [] }
{
    for port in from..pads.len() {
        if !pads[port].is_idle() {
            return port;
        }
    }
    pads.len()
}

/// Whether the first that was put out for a port is a buffer. None where there is nothing.
pub(crate) fn first_out_is_buffer(outs: &[Out], port: usize) -> Option<bool>
    ensures { result ≡ first_is_buffer (on_port port outs.now) }
{
    for place in 0..outs.len() {
        let out = &outs[place];
        if out.pad as usize == port {
            return Some(matches!(out.item, Item::Buffer(_)));
        }
    }
    None
}

/// Whether a pad other than that of a port is linked.
#[inline(always)]
pub(crate) fn is_linked_else<O: Outlet>(pads: &[Pad<O>], port: usize) -> bool
    ensures { result ≡ linked_else port pads.now }
{
    for other in 0..pads.len() {
        if leads_on_else(&pads[other], other == port) {
            return true;
        }
    }
    false
}

/// Whether a pad is another one, and leads on.
#[inline(always)]
fn leads_on_else<O: Outlet>(pad: &Pad<O>, same: bool) -> bool
    ensures { result ≡ (not same && leads_on (rest_of pad.now).behind) }
{
    if same {
        return false;
    }
    !matches!(pad.behind(), Behind::Nothing)
}
