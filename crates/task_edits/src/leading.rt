//! Links of the source pads of a task, undone and made.
ghost use Rattle.std.specs.Prelude.{◌≡◌, ◌<◌, ℕ, Bool, None, Some, IfSome, vec_len};
ghost use Rattle.flow_model.specs.Edit.{linked, undone};
ghost use Rattle.flow_model.specs.Moment.{Moment};
ghost use Rattle.flow_model.specs.Step.{planned};
ghost use Rattle.net_task.specs.Fuel.{moves_left};
ghost use Rattle.net_task.specs.Ready.{IsReady};
ghost use Rattle.net_task.specs.Ties.{Ties};
ghost use Rattle.task_edits.specs.Changes.{Changed, HeadChanged, LedBy, PartChanged};
ghost use Rattle.task_edits.specs.Leads.{CanLink, HeadLeadsOver, IsApart, LeadsOver, NotOver, PadLeadsOver, lane_behind};
ghost use Rattle.task_edits.specs.Places.{first_pad};
ghost use Rattle.task_pads.specs.declared.pad.Behind.TheVariants.{Nothing};

use crate::places::{PadAt, find};
use flow_model::{TaskElement, TaskSource};
use lane_core::{Inlet, Outlet};
use net_task::Task;
use task_pads::{Behind, Pad};
use task_parts::{Head, Part};

/// A lane into which nothing was put yet, to a sink pad of an element of another task. It is made when so many items have
/// crossed the source pad that is to be linked over it.
#[derive(Drop)]
pub struct NewLane<O> {
    pub lane: u32,
    pub element: u32,
    pub pad: u32,
    pub from: u64,
    pub outlet: O,
}

/// A sink pad of an element of another task.
#[derive(Clone, Copy, Debug, PartialEq, Eq)]
pub struct Beyond {
    pub element: u32,
    pub pad: u32,
}

/// Undoes the link of the source pad of a number, and gives where it led. What waits at the pad stays, and goes the way that the
/// pad is given next. A task that has no such pad stays as it is.
pub fn unlink<S: TaskSource, E: TaskElement, I: Inlet<Out = O>, O: Outlet<Lanes = I::Lanes>>(
    task: Task<S, E, I, O>,
    pad: u32,
) -> (Task<S, E, I, O>, Behind<O>)
    ensures changed { Changed (LedBy Nothing result.1) (result.1 ≡ Nothing) pad task.head task.parts.items result.0.head result.0.parts.items }
    ensures ties { (m : Moment) (place : ℕ) (eos : Bool) → Ties task m → Ties result.0 (planned (undone pad place eos m.plan) m) }
    ensures ready { (tells : _) → IsReady tells task → IsReady tells result.0 }
    ensures moves { moves_left result.0 ≡ moves_left task }
    ensures back { (one : _) → first_pad task.head task.parts.items pad ≡ Some one → result.1 ≡ one.behind }
{
    let (mut head, mut parts) = task.into_parts();
    let back = lead_in(&mut head, &mut parts, pad, Behind::Nothing);
    (Task::new(head, parts), back)
}

/// Links the source pad of a number over a new lane, and gives where it led before. What waits at the pad goes over the lane. Where the
/// task has no such pad the lane itself is given back.
pub fn link_over<S: TaskSource, E: TaskElement, I: Inlet<Out = O>, O: Outlet<Lanes = I::Lanes>>(
    task: Task<S, E, I, O>,
    pad: u32,
    to: NewLane<O>,
) -> (Task<S, E, I, O>, Behind<O>)
    ensures changed { Changed (LedBy (lane_behind to) result.1) (result.1 ≡ lane_behind to) pad task.head task.parts.items result.0.head result.0.parts.items }
    ensures ties { (m : Moment) → Ties task m → CanLink O.Outlet m pad to → Ties result.0 (planned (linked pad to.from to.element to.pad m.plan) m) }
    ensures ready { (tells : _) → IsReady tells task → IsApart I.Inlet O.Outlet tells task.head task.parts.items to → IsReady tells result.0 }
    ensures moves { moves_left result.0 ≡ moves_left task }
{
    let (mut head, mut parts) = task.into_parts();
    let back = lead_in(&mut head, &mut parts, pad, behind_of(to));
    (Task::new(head, parts), back)
}

/// Where a pad leads that is linked over a lane.
fn behind_of<O>(to: NewLane<O>) -> Behind<O>
    ensures { result ≡ lane_behind to }
{
    let NewLane {
        lane,
        element,
        pad,
        from,
        outlet,
    } = to;
    Behind::Lane {
        lane,
        element,
        pad,
        from,
        outlet,
    }
}

/// The pad of a number of these parts leads there now. Where it led is given; where there is no such pad, where it was to lead.
pub(crate) fn lead_in<
    S: TaskSource,
    E: TaskElement,
    I: Inlet<Out = O>,
    O: Outlet<Lanes = I::Lanes>,
>(head: &mut Head<S, I, O>, parts: &mut Vec<Part<E, O>>, pad: u32, behind: Behind<O>) -> Behind<O>
    ensures changed { Changed (LedBy behind result) (result ≡ behind) pad head.old parts.old.items head.new parts.new.items }
    ensures back { (one : _) → first_pad head.old parts.old.items pad ≡ Some one → result ≡ one.behind }
{
    match find(head, parts.as_slice(), pad) {
        Some(PadAt::Source) => lead_head(head, behind),
        Some(PadAt::Part { place, port }) => lead_part(&mut parts[place], port, behind),
        None => behind,
    }
}

/// The pad of a source leads there now. Where it led is given.
fn lead_head<S: TaskSource, I, O: Outlet>(head: &mut Head<S, I, O>, behind: Behind<O>) -> Behind<O>
    ensures { HeadChanged (LedBy behind result) head.old head.new }
{
    match head {
        Head::Source(source) => source.lead(behind),
        Head::Inlets(_) => behind,
    }
}

/// The pad of a port of an element leads there now. Where it led is given.
fn lead_part<E: TaskElement, O: Outlet>(
    part: &mut Part<E, O>,
    port: usize,
    behind: Behind<O>,
) -> Behind<O>
    requires { port < vec_len part.old.pads }
    ensures { PartChanged (LedBy behind result) port part.old part.new }
{
    part.lead(port, behind)
}

/// The sink pad to which the source pad of a number leads over a lane. None where the task has no such pad, or that leads elsewhere.
pub fn over_of<S: TaskSource, E: TaskElement, I: Inlet<Out = O>, O: Outlet<Lanes = I::Lanes>>(
    task: &Task<S, E, I, O>,
    pad: u32,
) -> Option<Beyond>
    ensures leads { IfSome result (LeadsOver task.now.head task.now.parts.items pad) }
    ensures none { result ≡ None → NotOver task.now.head task.now.parts.items pad }
{
    match find(task.head(), task.parts(), pad) {
        Some(PadAt::Source) => head_over(task.head()),
        Some(PadAt::Part { place, port }) => pad_over(&task.parts()[place].pads()[port]),
        None => None,
    }
}

/// Where the pad of a source leads, if that is over a lane.
fn head_over<S: TaskSource, I, O: Outlet>(head: &Head<S, I, O>) -> Option<Beyond>
    ensures leads { IfSome result (HeadLeadsOver head.now) }
    ensures none { result ≡ None → (to : Beyond) → HeadLeadsOver head.now to → ⊥ }
{
    match head {
        Head::Source(source) => pad_over(source.pad()),
        Head::Inlets(_) => None,
    }
}

/// Where a pad leads, if that is over a lane.
fn pad_over<O: Outlet>(pad: &Pad<O>) -> Option<Beyond>
    ensures leads { IfSome result (PadLeadsOver pad.now) }
    ensures none { result ≡ None → (to : Beyond) → PadLeadsOver pad.now to → ⊥ }
{
    match pad.behind() {
        Behind::Lane { element, pad, .. } => Some(Beyond {
            element: *element,
            pad: *pad,
        }),
        Behind::Nothing | Behind::Element { .. } => None,
    }
}
