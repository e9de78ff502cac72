//! Links inside of a task.
ghost use Rattle.std.specs.Prelude.{◌≡◌, ℕ, true, map, None, IfSome};
ghost use Rattle.flow_model.specs.Edit.{linked};
ghost use Rattle.flow_model.specs.Moment.{Moment};
ghost use Rattle.flow_model.specs.Step.{planned};
ghost use Rattle.net_task.specs.Fuel.{moves_left};
ghost use Rattle.net_task.specs.Ready.{IsReady};
ghost use Rattle.net_task.specs.Ties.{Ties};
ghost use Rattle.task_edits.specs.Changes.{Changed, LedBy};
ghost use Rattle.task_edits.specs.Inside.{CanLinkInside, HeadLeadsTo, LeadsInside, NotInside, PadLeadsTo, inside_behind};
ghost use Rattle.task_parts.specs.Shape.{has_number, part_shape};

use crate::leading::lead_in;
use crate::places::{PadAt, find};
use flow_model::{TaskElement, TaskSource};
use lane_core::{Inlet, Outlet};
use net_task::Task;
use task_pads::{Behind, Pad};
use task_parts::Head;

/// A sink pad of an element of the same task.
#[derive(Clone, Copy, Debug, PartialEq, Eq)]
pub struct Inside {
    pub element: u32,
    pub pad: u32,
}

/// Links the source pad of a number to a sink pad of an element of the same task, and gives where it led before. What waits at
/// the pad goes that way. A task that has no such pad stays as it is.
pub fn link_inside<S: TaskSource, E: TaskElement, I: Inlet<Out = O>, O: Outlet<Lanes = I::Lanes>>(
    task: Task<S, E, I, O>,
    pad: u32,
    to: Inside,
) -> (Task<S, E, I, O>, Behind<O>)
    requires there { has_number to.element (map part_shape task.parts.items) ≡ true }
    ensures changed { Changed (LedBy (inside_behind to) result.1) (result.1 ≡ inside_behind to) pad task.head task.parts.items
        result.0.head result.0.parts.items }
    ensures ties { (m : Moment) (from : ℕ) → Ties task m → CanLinkInside m task.head pad to
        → Ties result.0 (planned (linked pad from to.element to.pad m.plan) m) }
    ensures ready { (tells : _) → IsReady tells task → IsReady tells result.0 }
    ensures moves { moves_left result.0 ≡ moves_left task }
{
    let (mut head, mut parts) = task.into_parts();
    let back = lead_in(&mut head, &mut parts, pad, behind_of(to));
    (Task::new(head, parts), back)
}

/// Where a pad leads that is linked inside of its task.
fn behind_of<O>(to: Inside) -> Behind<O>
    ensures { result ≡ inside_behind to }
{
    let Inside { element, pad } = to;
    Behind::Element {
        number: element,
        hint: 0,
        pad,
    }
}

/// The sink pad of an element of the same task to which the source pad of a number leads. None where the task has no such pad, or that
/// leads elsewhere.
pub fn inside_of<S: TaskSource, E: TaskElement, I: Inlet<Out = O>, O: Outlet<Lanes = I::Lanes>>(
    task: &Task<S, E, I, O>,
    pad: u32,
) -> Option<Inside>
    ensures leads { IfSome result (LeadsInside task.now.head task.now.parts.items pad) }
    ensures none { result ≡ None → NotInside task.now.head task.now.parts.items pad }
{
    match find(task.head(), task.parts(), pad) {
        Some(PadAt::Source) => head_inside(task.head()),
        Some(PadAt::Part { place, port }) => pad_inside(&task.parts()[place].pads()[port]),
        None => None,
    }
}

/// Where the pad of a source leads, if that is an element of its task.
fn head_inside<S: TaskSource, I, O: Outlet>(head: &Head<S, I, O>) -> Option<Inside>
    ensures leads { IfSome result (HeadLeadsTo head.now) }
    ensures none { result ≡ None → (to : Inside) → HeadLeadsTo head.now to → ⊥ }
{
    match head {
        Head::Source(source) => pad_inside(source.pad()),
        Head::Inlets(_) => None,
    }
}

/// Where a pad leads, if that is an element of its task.
fn pad_inside<O: Outlet>(pad: &Pad<O>) -> Option<Inside>
    ensures leads { IfSome result (PadLeadsTo pad.now) }
    ensures none { result ≡ None → (to : Inside) → PadLeadsTo pad.now to → ⊥ }
{
    match pad.behind() {
        Behind::Element { number, pad, .. } => Some(Inside {
            element: *number,
            pad: *pad,
        }),
        Behind::Nothing | Behind::Lane { .. } => None,
    }
}
