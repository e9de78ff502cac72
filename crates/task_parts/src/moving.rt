//! An item that crossed a pad goes to an element of the task.
ghost use Rattle.std.specs.Prelude.{◌≡◌, ◌<◌, ◌≢◌, [], map, vec_len, OnOk, IfErr};
ghost use Rattle.task_pads.specs.Pads.{CanTakeBack, pad_shape, waiting_of};
ghost use Rattle.task_parts.specs.Moved.{CanGive, HandedOn, HandedBack, HandedIn, HandedOut};
ghost use Rattle.task_parts.specs.Shape.{part_shape};

use crate::part::Part;
use flow_model::{Refused, TaskElement};
use lane_core::Outlet;
use std::alloc::Global;
use task_pads::Pad;

/// The item that crossed the pad of a port of the element at one place goes to a sink pad of the element at another. Where
/// that refuses it the item is given up, and has not crossed.
#[inline(always)]
pub(crate) fn hand_on<E: TaskElement, O: Outlet>(
    alloc: Global,
    parts: &mut Vec<Part<E, O>>,
    from: usize,
    port: usize,
    to: usize,
    pad: u32,
) -> Result<(), Refused>
    requires to { to < vec_len parts.old }
    requires gives { CanGive parts.old.items from port }
    ensures handed { OnOk result (HandedOn parts.old.items parts.new.items from port to pad) }
    ensures back { IfErr result (HandedBack parts.old.items parts.new.items from port to pad) }
    ensures shape { map part_shape parts.new.items ≡ map part_shape parts.old.items }
{
    let Some(item) = parts[from].take(port) else {
        unreachable!()
    };
    match parts[to].feed(alloc, pad, item) {
        Ok(()) => Ok(()),
        Err(refusal) => {
            parts[from].take_back(port);
            Err(refusal)
        }
    }
}

/// The item that crossed a pad, which is no element's of these, goes to a sink pad of the element at a place. Where that
/// refuses it the item is given up, and has not crossed.
#[inline(always)]
pub(crate) fn hand_in<E: TaskElement, O: Outlet>(
    alloc: Global,
    pad: &mut Pad<O>,
    parts: &mut Vec<Part<E, O>>,
    to: usize,
    sink: u32,
) -> Result<(), Refused>
    requires to { to < vec_len parts.old }
    requires waits { waiting_of pad.old ≢ [] }
    requires back { CanTakeBack pad.old }
    ensures handed { OnOk result (HandedIn pad.old pad.new parts.old.items parts.new.items to sink) }
    ensures out { IfErr result (HandedOut pad.old pad.new parts.old.items parts.new.items to sink) }
    ensures pad { pad_shape pad.new ≡ pad_shape pad.old }
    ensures shape { map part_shape parts.new.items ≡ map part_shape parts.old.items }
{
    let Some(item) = pad.take() else {
        unreachable!()
    };
    match parts[to].feed(alloc, sink, item) {
        Ok(()) => Ok(()),
        Err(refusal) => {
            pad.take_back();
            Err(refusal)
        }
    }
}
