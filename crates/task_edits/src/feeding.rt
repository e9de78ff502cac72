//! Items that an element of a task takes from control.
ghost use Rattle.std.specs.Prelude.{◌≡◌, true, false, map, IfErr, OnOk};
ghost use Rattle.gst_item.specs.Sticky.{has_flush_stop};
ghost use Rattle.flow_model.specs.Moment.{Moment};
ghost use Rattle.net_task.specs.Frame.{frame_of};
ghost use Rattle.net_task.specs.Fuel.{moves_left};
ghost use Rattle.net_task.specs.Ready.{IsReady};
ghost use Rattle.net_task.specs.Ties.{Ties};
ghost use Rattle.task_edits.specs.Feeding.{HasFed, HasFedShort, PartStopped, PartTook, StoppedIn, TookIn};
ghost use Rattle.task_edits.specs.Inside.{HasNoRow};
ghost use Rattle.task_parts.specs.Shape.{has_number, part_shape};

use crate::places::find_element;
use flow_model::{Refused, TaskElement, TaskSource};
use gst_item::Item;
use gst_value::List;
use lane_core::{Inlet, Outlet};
use net_task::Task;
use std::alloc::Global;
use std::collections::VecDeque;
use task_parts::{Failure, Part};

/// An element of the task takes these items on a sink pad, one after the other, and what it puts out waits at its pads. Where it
/// refuses one, those behind it are given up.
pub fn feed<S: TaskSource, E: TaskElement, I: Inlet<Out = O>, O: Outlet<Lanes = I::Lanes>>(
    alloc: Global,
    task: Task<S, E, I, O>,
    element: u32,
    pad: u32,
    items: List<Item>,
) -> (Task<S, E, I, O>, Result<(), Failure>)
    requires there { has_number element (map part_shape task.parts.items) ≡ true }
    requires calm { has_flush_stop items ≡ false }
    ensures head { result.0.head ≡ task.head }
    ensures took { OnOk result.1 (TookIn task.parts.items result.0.parts.items element pad items) }
    ensures stopped { IfErr result.1 (StoppedIn task.parts.items result.0.parts.items element pad items) }
    ensures fed { OnOk result.1 ((m : Moment) → Ties task m → HasNoRow task.head element pad → HasFed result.0 m element pad items) }
    ensures faults { IfErr result.1 (λ fault. (m : Moment) → Ties task m → HasNoRow task.head element pad → HasFedShort result.0 m element pad items fault) }
    ensures frame { frame_of result.0 ≡ frame_of task }
    ensures ready { (tells : _) → IsReady tells task → IsReady tells result.0 }
    ensures moves { moves_left result.0 ≡ moves_left task }
{
    let (head, mut parts) = task.into_parts();
    let fed = feed_in(alloc, &mut parts, element, pad, items);
    (Task::new(head, parts), fed)
}

/// The element of a number of these parts takes items, up to the first that it refuses.
fn feed_in<E: TaskElement, O: Outlet>(
    alloc: Global,
    parts: &mut Vec<Part<E, O>>,
    element: u32,
    pad: u32,
    items: List<Item>,
) -> Result<(), Failure>
    requires there { has_number element (map part_shape parts.old.items) ≡ true }
    requires calm { has_flush_stop items ≡ false }
    ensures took { OnOk result (TookIn parts.old.items parts.new.items element pad items) }
    ensures stopped { IfErr result (StoppedIn parts.old.items parts.new.items element pad items) }
{
    let Some(place) = find_element(parts.as_slice(), element) else {
        unreachable!()
    };
    match feed_part(alloc, &mut parts[place], pad, items) {
        Ok(()) => Ok(()),
        Err(refusal) => Err(Failure::refused(element, refusal)),
    }
}

/// An element takes items, up to the first that it refuses.
fn feed_part<E: TaskElement, O: Outlet>(
    alloc: Global,
    part: &mut Part<E, O>,
    pad: u32,
    items: List<Item>,
) -> Result<(), Refused>
    requires calm { has_flush_stop items ≡ false }
    ensures took { OnOk result (PartTook part.old part.new pad items) }
    ensures stopped { IfErr result (PartStopped part.old part.new pad items) }
{
    let mut rest = VecDeque::from_vec(items.into_vec());
    while let Some(item) = rest.pop_front() {
        match part.feed(alloc, pad, item) {
            Ok(()) => {}
            Err(refusal) => return Err(refusal),
        }
    }
    Ok(())
}
