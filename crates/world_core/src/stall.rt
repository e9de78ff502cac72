//! Whether a run that can't go on is over or stalled, and why.
ghost use Rattle.std.specs.Prelude.{◌≡◌, ◌<◌, ◌↔◌, ◌⊎◌, IfOk, IsTrue, List as Lists, Some, length, slice_get};
ghost use Rattle.lane_core.specs.Lane.{Lane};
ghost use Rattle.task_parts.specs.declared.step.Step.TheVariants.{Ended as HasEnded};
ghost use Rattle.world_core.specs.Left.{HeadHoldsNothing, HoldNothing, RowsHoldNothing};
ghost use Rattle.std.specs.Option.{unwrap_or};
ghost use Rattle.graph_core.specs.Elements.{all_made, has};
ghost use Rattle.graph_order.specs.Marks.{is_marked};
ghost use Rattle.el_settings.specs.Asked.{makes_sinks};
ghost use Rattle.graph_core.specs.GraphPlan.{pad_id, sink_count};
ghost use Rattle.net_task.specs.Counted.{received_by};
ghost use Rattle.net_task.specs.Frame.{frame_of};
ghost use Rattle.net_turns.specs.Ends.{TellsOver, head_number};
ghost use Rattle.world_core.specs.Stalled.{TellsTasks, lane_pad as lane_place, place_told, places_of, stall_reason, stalled_task as task_told};
ghost use Rattle.world_core.specs.Stopped.{step_over};

use crate::pads::{lane_into, name_of, place_of, sink_named};
use flow_model::{TaskElement, TaskSource};
use graph_core::{Elements, PadPlace};
use gst_value::{List, OutOfMemory};
use inlet_row::InletRow;
use lane_core::{Inlet, Outlet};
use net_task::Task;
use run_report::{StallReason, StalledTask};
use script_text::Place;
use std::alloc::Global;
use task_parts::{Head, Step};

/// The number of the element with which a task begins.
fn head_of<S: TaskSource, E: TaskElement, I: Inlet<Out = O>, O: Outlet<Lanes = I::Lanes>>(
    task: &Task<S, E, I, O>,
) -> u32
    ensures { result ≡ head_number (frame_of task.now).head }
{
    match task.head() {
        Head::Source(head) => head.number(),
        Head::Inlets(head) => head.number(),
    }
}

/// Whether an element brings streams together.
fn joins(elements: &Elements, element: u32) -> bool
    ensures { result ≡ has makes_sinks (all_made elements.now) element }
{
    element < elements.count() && elements.settings(element).makes_sinks()
}

/// Whether a step that a task answered lets the run be over: nothing waits in the task, and where its first element is live and brings
/// streams together it has ended.
fn lets_over(elements: &Elements, live: &[bool], head: u32, step: Step) -> bool
    ensures { result ≡ step_over (is_marked live.now) (has makes_sinks (all_made elements.now)) head step }
{
    match step {
        Step::Ended => true,
        Step::NeedsItem(_) => !(is_live(live, head) && joins(elements, head)),
        Step::Moved | Step::NeedsRoom(_) | Step::AtProbe(_) => false,
    }
}

/// Whether an element is marked as live.
fn is_live(live: &[bool], element: u32) -> bool
    ensures { result ≡ is_marked live.now element }
{
    matches!(live.get(element as usize), Some(true))
}

/// Whether the run of tasks that can't move is over, by the steps that they answered and by which elements are live.
pub(crate) fn is_over<
    S: TaskSource,
    E: TaskElement,
    I: Inlet<Out = O>,
    O: Outlet<Lanes = I::Lanes>,
>(elements: &Elements, live: &[bool], tasks: &[Task<S, E, I, O>], steps: &[Step]) -> bool
    requires { length steps.now ≡ length tasks.now }
    ensures { IsTrue result ↔ TellsOver (is_marked live.now) (has makes_sinks (all_made elements.now)) tasks.now steps.now }
{
    for place in 0..tasks.len() {
        if !lets_over(elements, live, head_of(&tasks[place]), steps[place]) {
            return false;
        }
    }
    true
}

/// Whether nothing stands in rows.
fn rows_hold_nothing<I: Inlet>(rows: &[InletRow<I>], lanes: &I::Lanes) -> bool
    ensures { (t : Lists Lane) → I.Out.tells lanes.now ≡ Some t → IsTrue result ↔ RowsHoldNothing I.Inlet t rows.now }
{
    for port in 0..rows.len() {
        if !rows[port].is_empty(lanes) {
            return false;
        }
    }
    true
}

/// Whether a task has ended, or nothing stands in the inlets with which it begins.
fn holds_nothing<S: TaskSource, I: Inlet<Out = O>, O: Outlet<Lanes = I::Lanes>>(
    head: &Head<S, I, O>,
    step: Step,
    lanes: &I::Lanes,
) -> bool
    ensures { (t : Lists Lane) → O.tells lanes.now ≡ Some t → IsTrue result ↔ ((step ≡ HasEnded) ⊎ HeadHoldsNothing I.Inlet t head.now) }
{
    match (step, head) {
        (Step::Ended, _) => true,
        (_, Head::Source(_)) => true,
        (_, Head::Inlets(head)) => rows_hold_nothing(head.rows(), lanes),
    }
}

/// Whether nothing stands in the inlets of each task that has not ended, by the steps that they answered.
pub(crate) fn hold_nothing<
    S: TaskSource,
    E: TaskElement,
    I: Inlet<Out = O>,
    O: Outlet<Lanes = I::Lanes>,
>(tasks: &[Task<S, E, I, O>], steps: &[Step], lanes: &I::Lanes) -> bool
    requires { length steps.now ≡ length tasks.now }
    ensures { (t : Lists Lane) → O.tells lanes.now ≡ Some t → IsTrue result ↔ HoldNothing I.Inlet t tasks.now steps.now }
{
    for place in 0..tasks.len() {
        if !holds_nothing(tasks[place].head(), steps[place], lanes) {
            return false;
        }
    }
    true
}

/// The sink pad into which the lane of a number leads; where it is none of the line, the first of an element.
fn lane_pad(elements: &Elements, head: u32, lane: u32) -> PadPlace
    ensures { result ≡ lane_place (all_made elements.now) head lane }
{
    let place = place_of(lane);
    if place.element < elements.count() {
        return place;
    }
    PadPlace {
        element: head,
        pad: 0,
    }
}

/// Why a task with this first element can't move, by the step that it answered.
fn reason_of(
    alloc: Global,
    elements: &Elements,
    head: u32,
    step: Step,
) -> Result<StallReason, OutOfMemory>
    ensures { IfOk result (λ reason. reason ≡ stall_reason (all_made elements.now) head step) }
{
    match step {
        Step::NeedsItem(lane) => {
            let pad = sink_named(alloc, elements, lane_pad(elements, head, lane))?;
            Ok(StallReason::NeedsItem(pad))
        }
        Step::NeedsRoom(lane) => {
            let pad = sink_named(alloc, elements, lane_pad(elements, head, lane))?;
            Ok(StallReason::NeedsRoom(pad))
        }
        Step::AtProbe(command) => Ok(StallReason::AtProbe(command)),
        Step::Moved | Step::Ended => Ok(StallReason::Ended),
    }
}

/// How many items a task took at a sink pad of its first element, none where that is not linked.
fn place_at_pad<S: TaskSource, E: TaskElement, I: Inlet<Out = O>, O: Outlet<Lanes = I::Lanes>>(
    alloc: Global,
    elements: &Elements,
    task: &Task<S, E, I, O>,
    sink: PadPlace,
) -> Result<Place, OutOfMemory>
    requires { sink.pad < sink_count (slice_get (all_made elements.now) sink.element) }
    ensures { IfOk result (λ place. place ≡ place_told (all_made elements.now) (λ s. unwrap_or (received_by I.Inlet (pad_id s) task.now.head) 0) sink) }
{
    Ok(Place {
        pad: sink_named(alloc, elements, sink)?,
        items: task.received(lane_into(sink)).unwrap_or(0),
    })
}

/// How many items a task took at each sink pad of its first element.
fn taken_by<S: TaskSource, E: TaskElement, I: Inlet<Out = O>, O: Outlet<Lanes = I::Lanes>>(
    alloc: Global,
    elements: &Elements,
    task: &Task<S, E, I, O>,
    head: u32,
) -> Result<List<Place>, OutOfMemory>
    ensures { IfOk result (λ places. places ≡ places_of (all_made elements.now) (λ s. unwrap_or (received_by I.Inlet (pad_id s) task.now.head) 0) head) }
{
    let mut places = List::new(alloc);
    for pad in 0..elements.sink_pads(head) {
        let sink = PadPlace { element: head, pad };
        places.push(alloc, place_at_pad(alloc, elements, task, sink)?)?;
    }
    Ok(places)
}

/// What is told of a task that can't move, by the step that it answered.
fn stalled_task<S: TaskSource, E: TaskElement, I: Inlet<Out = O>, O: Outlet<Lanes = I::Lanes>>(
    alloc: Global,
    elements: &Elements,
    task: &Task<S, E, I, O>,
    step: Step,
) -> Result<StalledTask, OutOfMemory>
    ensures { IfOk result (λ told. told ≡ task_told (all_made elements.now) task.now step) }
{
    let head = head_of(task);
    Ok(StalledTask {
        head: name_of(alloc, elements, head)?,
        reason: reason_of(alloc, elements, head, step)?,
        taken: taken_by(alloc, elements, task, head)?,
    })
}

/// Why each of the tasks can't move, in their order.
pub(crate) fn stalled_tasks<
    S: TaskSource,
    E: TaskElement,
    I: Inlet<Out = O>,
    O: Outlet<Lanes = I::Lanes>,
>(
    alloc: Global,
    elements: &Elements,
    tasks: &[Task<S, E, I, O>],
    steps: &[Step],
) -> Result<List<StalledTask>, OutOfMemory>
    requires { length steps.now ≡ length tasks.now }
    ensures { IfOk result (TellsTasks (all_made elements.now) tasks.now steps.now) }
{
    let mut stalled = List::new(alloc);
    for place in 0..tasks.len() {
        let told = stalled_task(alloc, elements, &tasks[place], steps[place])?;
        stalled.push(alloc, told)?;
    }
    Ok(stalled)
}
