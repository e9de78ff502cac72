//! Whether pads lead over lanes to an element.
ghost use Rattle.std.specs.Prelude.{◌≡◌, ◌≢◌, ℕ, true, false};
ghost use Rattle.task_pads.specs.Behind.{goes, over};
ghost use Rattle.net_task.specs.Frame.{frame_of};
ghost use Rattle.net_groups.specs.Lanes.{HeadSends, LeadOver, PartSends, Sends, SendsAt, SendsToHead};

use flow_model::{TaskElement, TaskSource};
use lane_core::{Inlet, Outlet};
use net_task::Task;
use task_pads::{Behind, Pad};
use task_parts::{Head, Part};

/// Whether a pad of one of these tasks leads over a lane to the element of a number.
pub fn is_sent_to<S: TaskSource, E: TaskElement, I: Inlet<Out = O>, O: Outlet<Lanes = I::Lanes>>(
    tasks: &[Task<S, E, I, O>],
    number: u32,
) -> bool
    ensures sends { result ≡ true → (k : ℕ) × SendsAt tasks.now k number }
    ensures none { result ≡ false → (k : ℕ) → SendsAt tasks.now k number → ⊥ }
{
    for place in 0..tasks.len() {
        if sends(&tasks[place], number) {
            return true;
        }
    }
    false
}

/// Whether a pad of a task leads over a lane to the element that a head feeds from inlets.
pub(crate) fn sends_to_head<
    S: TaskSource,
    E: TaskElement,
    I: Inlet<Out = O>,
    O: Outlet<Lanes = I::Lanes>,
>(task: &Task<S, E, I, O>, head: &Head<S, I, O>) -> bool
    ensures sends { result ≡ true → SendsToHead (frame_of task.now) head.now }
    ensures none { result ≡ false → SendsToHead (frame_of task.now) head.now → ⊥ }
{
    match head {
        Head::Source(_) => false,
        Head::Inlets(fed) => sends(task, fed.number()),
    }
}

/// Whether a pad of a task leads over a lane to the element of a number.
fn sends<S: TaskSource, E: TaskElement, I: Inlet<Out = O>, O: Outlet<Lanes = I::Lanes>>(
    task: &Task<S, E, I, O>,
    number: u32,
) -> bool
    ensures sends { result ≡ true → Sends (frame_of task.now) number }
    ensures none { result ≡ false → Sends (frame_of task.now) number → ⊥ }
{
    if head_sends(task.head(), number) {
        return true;
    }
    parts_send(task.parts(), number)
}

/// Whether a head is a source whose pad leads over a lane to the element of a number.
fn head_sends<S: TaskSource, I, O: Outlet>(head: &Head<S, I, O>, number: u32) -> bool
    ensures sends { result ≡ true → HeadSends head.now number }
    ensures none { result ≡ false → HeadSends head.now number → ⊥ }
{
    match head {
        Head::Source(source) => leads_over(source.pad().behind(), number),
        Head::Inlets(_) => false,
    }
}

/// Whether a pad of one of these elements leads over a lane to the element of a number.
fn parts_send<E: TaskElement, O: Outlet>(parts: &[Part<E, O>], number: u32) -> bool
    ensures sends { result ≡ true → (place : ℕ) × PartSends parts.now number place }
    ensures none { result ≡ false → (place : ℕ) → PartSends parts.now number place → ⊥ }
{
    for place in 0..parts.len() {
        if lead_over(parts[place].pads(), number) {
            return true;
        }
    }
    false
}

/// Whether one of these pads leads over a lane to the element of a number.
fn lead_over<O: Outlet>(pads: &[Pad<O>], number: u32) -> bool
    ensures led { result ≡ true → (port : ℕ) × LeadOver pads.now number port }
    ensures none { result ≡ false → (port : ℕ) → LeadOver pads.now number port → ⊥ }
{
    for port in 0..pads.len() {
        if leads_over(pads[port].behind(), number) {
            return true;
        }
    }
    false
}

/// Whether a pad leads over a lane to the element of a number.
fn leads_over<O>(behind: &Behind<O>, number: u32) -> bool
    ensures led { result ≡ true → (lane : ℕ) × (sink : ℕ) × (from : ℕ) × (goes behind.now ≡ over lane number sink from) }
    ensures none { result ≡ false → (lane sink from : ℕ) → goes behind.now ≢ over lane number sink from }
{
    match behind {
        Behind::Lane { element, .. } => *element == number,
        Behind::Nothing => false,
        Behind::Element { .. } => false,
    }
}
