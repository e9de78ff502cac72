//! Whether pads lead over lanes to a sink pad.
ghost use Rattle.std.specs.Prelude.{◌≡◌, ◌≢◌, ℕ, true, false};
ghost use Rattle.task_pads.specs.Behind.{goes, over};
ghost use Rattle.net_task.specs.Frame.{frame_of};
ghost use Rattle.net_edits.specs.Over.{NoneSends};
ghost use Rattle.edit_acts.specs.Sent.{HeadSends, PadSends, PartSends, SendsAt, TaskSends};

use flow_model::{TaskElement, TaskSource};
use lane_core::{Inlet, Outlet};
use net_task::Task;
use task_pads::{Behind, Pad};
use task_parts::{Head, Part};

/// Whether a pad of one of these tasks leads over a lane to a sink pad of the element of a number.
pub(crate) fn is_pad_sent_to<
    S: TaskSource,
    E: TaskElement,
    I: Inlet<Out = O>,
    O: Outlet<Lanes = I::Lanes>,
>(tasks: &[Task<S, E, I, O>], element: u32, pad: u32) -> bool
    ensures sends { result ≡ true → (k : ℕ) × SendsAt tasks.now k element pad }
    ensures none { result ≡ false → NoneSends tasks.now element pad }
{
    for place in 0..tasks.len() {
        if sends(&tasks[place], element, pad) {
            return true;
        }
    }
    false
}

/// Whether a pad of a task leads over a lane to the sink pad.
fn sends<S: TaskSource, E: TaskElement, I: Inlet<Out = O>, O: Outlet<Lanes = I::Lanes>>(
    task: &Task<S, E, I, O>,
    element: u32,
    pad: u32,
) -> bool
    ensures sends { result ≡ true → TaskSends (frame_of task.now) element pad }
    ensures none { result ≡ false → TaskSends (frame_of task.now) element pad → ⊥ }
{
    if head_sends(task.head(), element, pad) {
        return true;
    }
    parts_send(task.parts(), element, pad)
}

/// Whether a head is a source whose pad leads over a lane to the sink pad.
fn head_sends<S: TaskSource, I, O: Outlet>(head: &Head<S, I, O>, element: u32, pad: u32) -> bool
    ensures sends { result ≡ true → HeadSends head.now element pad }
    ensures none { result ≡ false → HeadSends head.now element pad → ⊥ }
{
    match head {
        Head::Source(source) => leads_over(source.pad().behind(), element, pad),
        Head::Inlets(_) => false,
    }
}

/// Whether a pad of one of these elements leads over a lane to the sink pad.
fn parts_send<E: TaskElement, O: Outlet>(parts: &[Part<E, O>], element: u32, pad: u32) -> bool
    ensures sends { result ≡ true → (place : ℕ) × PartSends parts.now element pad place }
    ensures none { result ≡ false → (place : ℕ) → PartSends parts.now element pad place → ⊥ }
{
    for place in 0..parts.len() {
        if pads_send(parts[place].pads(), element, pad) {
            return true;
        }
    }
    false
}

/// Whether one of these pads leads over a lane to the sink pad.
fn pads_send<O: Outlet>(pads: &[Pad<O>], element: u32, pad: u32) -> bool
    ensures sends { result ≡ true → (port : ℕ) × PadSends pads.now element pad port }
    ensures none { result ≡ false → (port : ℕ) → PadSends pads.now element pad port → ⊥ }
{
    for port in 0..pads.len() {
        if leads_over(pads[port].behind(), element, pad) {
            return true;
        }
    }
    false
}

/// Whether a pad leads over a lane to the sink pad.
fn leads_over<O>(behind: &Behind<O>, element: u32, pad: u32) -> bool
    ensures led { result ≡ true → (lane : ℕ) × (from : ℕ) × (goes behind.now ≡ over lane element pad from) }
    ensures none { result ≡ false → (lane from : ℕ) → goes behind.now ≢ over lane element pad from }
{
    match behind {
        Behind::Lane {
            element: number,
            pad: sink,
            ..
        } => *number == element && *sink == pad,
        Behind::Nothing => false,
        Behind::Element { .. } => false,
    }
}
