//! The sticky events of what crossed the source pads of a task.
ghost use Rattle.std.specs.Prelude.{◌≡◌, ◌<◌, false, map, Some, IfOk, OnOk};
ghost use Rattle.flow_model.specs.Item.{Ev};
ghost use Rattle.gst_item.specs.Sticky.{has_flush_stop, stickies};
ghost use Rattle.flow_model.specs.Moment.{Moment};
ghost use Rattle.net_task.specs.Ties.{Ties};
ghost use Rattle.pad_core.specs.Counts.{AreSticky};
ghost use Rattle.task_edits.specs.Places.{HasPad};
ghost use Rattle.task_edits.specs.Stickies.{AreStickiesOf, HeadStickies, with_sticky};

use crate::places::{PadAt, find};
use flow_model::{TaskElement, TaskSource};
use gst_item::{Event, Item};
use gst_value::{List, OutOfMemory};
use lane_core::{Inlet, Outlet};
use net_task::Task;
use std::alloc::Global;
use std::collections::VecDeque;
use task_pads::Pad;
use task_parts::Head;

/// The sticky events of what crossed the source pad of a number, which a new link of it gives first. None where the task has no such
/// pad.
pub fn sticky_items<S: TaskSource, E: TaskElement, I: Inlet<Out = O>, O: Outlet<Lanes = I::Lanes>>(
    alloc: Global,
    task: &Task<S, E, I, O>,
    pad: u32,
) -> Result<List<Item>, OutOfMemory>
    ensures calm { IfOk result (λ items. has_flush_stop items ≡ false) }
    ensures all { IfOk result (λ items. (m : Moment) → Ties task.now m → HasPad task.now.head task.now.parts.items pad → items ≡ stickies (m.history pad)) }
{
    match find(task.head(), task.parts(), pad) {
        Some(PadAt::Source) => of_head(alloc, task.head()),
        Some(PadAt::Part { place, port }) => of_pad(alloc, &task.parts()[place].pads()[port]),
        None => Ok(List::new(alloc)),
    }
}

/// Those of the pad of a source.
fn of_head<S: TaskSource, I, O: Outlet>(
    alloc: Global,
    head: &Head<S, I, O>,
) -> Result<List<Item>, OutOfMemory>
    ensures calm { IfOk result (λ items. has_flush_stop items ≡ false) }
    ensures all { IfOk result (HeadStickies head.now) }
{
    match head {
        Head::Source(source) => of_pad(alloc, source.pad()),
        Head::Inlets(_) => Ok(List::new(alloc)),
    }
}

/// Those of a pad.
fn of_pad<O: Outlet>(alloc: Global, pad: &Pad<O>) -> Result<List<Item>, OutOfMemory>
    ensures calm { IfOk result (λ items. has_flush_stop items ≡ false) }
    ensures all { IfOk result (AreStickiesOf pad.now) }
{
    match pad.stickies(alloc) {
        Ok(events) => as_items(alloc, events),
        Err(wanting) => Err(wanting),
    }
}

/// Those of the events that are sticky, as items.
fn as_items(alloc: Global, events: List<Event>) -> Result<List<Item>, OutOfMemory>
    ensures calm { IfOk result (λ items. has_flush_stop items ≡ false) }
    ensures all { IfOk result (λ items. AreSticky events → items ≡ map Ev events) }
{
    let mut rest = VecDeque::from_vec(events.into_vec());
    let mut items = List::new(alloc);
    while let Some(event) = rest.pop_front() {
        push_sticky(alloc, &mut items, event)?;
    }
    Ok(items)
}

/// An event goes behind the items, if it is sticky.
fn push_sticky(alloc: Global, items: &mut List<Item>, event: Event) -> Result<(), OutOfMemory>
    ensures { OnOk result (items.new ≡ with_sticky event items.old) }
{
    if event.is_sticky() {
        return items.push(alloc, Item::Event(event));
    }
    Ok(())
}
