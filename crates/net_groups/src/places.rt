//! Where the source pads of tasks stand, and which task has a head that feeds an element.
ghost use Rattle.std.specs.Prelude.{◌≡◌, ◌<◌, true, false, None, IfSome};
ghost use Rattle.net_task.specs.Frame.{frame_of};
ghost use Rattle.net_groups.specs.Places.{FedAt, FeedsIt, HasNoPad, HasPad, IsOfHead, IsPartOf, PadOf, PartHas, PartIs, PortIs};

use flow_model::{TaskElement, TaskSource};
use lane_core::{Inlet, Outlet};
use net_task::Task;
use task_pads::Pad;
use task_parts::{Head, Part};

/// The place of the task that has the source pad of a number.
pub(crate) fn find_pad<
    S: TaskSource,
    E: TaskElement,
    I: Inlet<Out = O>,
    O: Outlet<Lanes = I::Lanes>,
>(tasks: &[Task<S, E, I, O>], pad: u32) -> Option<usize>
    ensures there { IfSome result (λ place. PadOf tasks.now place pad) }
    ensures none { result ≡ None → (k : _) → PadOf tasks.now k pad → ⊥ }
{
    for place in 0..tasks.len() {
        if has_pad(&tasks[place], pad) {
            return Some(place);
        }
    }
    None
}

/// The place of the task whose head feeds the element of a number from inlets.
pub(crate) fn find_fed<
    S: TaskSource,
    E: TaskElement,
    I: Inlet<Out = O>,
    O: Outlet<Lanes = I::Lanes>,
>(tasks: &[Task<S, E, I, O>], element: u32) -> Option<usize>
    ensures there { IfSome result (λ place. FedAt tasks.now place element) }
    ensures none { result ≡ None → (k : _) → FedAt tasks.now k element → ⊥ }
{
    for place in 0..tasks.len() {
        if feeds(tasks[place].head(), element) {
            return Some(place);
        }
    }
    None
}

/// The place of the task of which the element of a number is one.
pub(crate) fn find_part<
    S: TaskSource,
    E: TaskElement,
    I: Inlet<Out = O>,
    O: Outlet<Lanes = I::Lanes>,
>(tasks: &[Task<S, E, I, O>], element: u32) -> Option<usize>
    ensures there { IfSome result (λ place. IsPartOf tasks.now place element) }
    ensures none { result ≡ None → (k : _) → IsPartOf tasks.now k element → ⊥ }
{
    for place in 0..tasks.len() {
        if has_part(tasks[place].parts(), element) {
            return Some(place);
        }
    }
    None
}

/// Whether one of these elements has this number.
pub(crate) fn has_part<E: TaskElement, O: Outlet>(parts: &[Part<E, O>], number: u32) -> bool
    ensures there { result ≡ true → (place : _) × PartIs parts.now number place }
    ensures none { result ≡ false → (place : _) → PartIs parts.now number place → ⊥ }
{
    for place in 0..parts.len() {
        if parts[place].number() == number {
            return true;
        }
    }
    false
}

/// Whether one of the source pads of a task has this number.
pub(crate) fn has_pad<
    S: TaskSource,
    E: TaskElement,
    I: Inlet<Out = O>,
    O: Outlet<Lanes = I::Lanes>,
>(task: &Task<S, E, I, O>, pad: u32) -> bool
    ensures there { result ≡ true → HasPad (frame_of task.now) pad }
    ensures none { result ≡ false → HasNoPad (frame_of task.now) pad }
{
    if is_of_head(task.head(), pad) {
        return true;
    }
    have_pad(task.parts(), pad)
}

/// Whether a head feeds the element of a number from inlets.
pub(crate) fn feeds<S: TaskSource, I, O: Outlet>(head: &Head<S, I, O>, element: u32) -> bool
    ensures is { result ≡ true → FeedsIt head.now element }
    ensures not { result ≡ false → FeedsIt head.now element → ⊥ }
{
    match head {
        Head::Source(_) => false,
        Head::Inlets(fed) => fed.number() == element,
    }
}

/// Whether the head is a source whose pad has this number.
fn is_of_head<S: TaskSource, I, O: Outlet>(head: &Head<S, I, O>, pad: u32) -> bool
    ensures is { result ≡ true → IsOfHead head.now pad }
    ensures not { result ≡ false → IsOfHead head.now pad → ⊥ }
{
    match head {
        Head::Source(source) => source.pad().number() == pad,
        Head::Inlets(_) => false,
    }
}

/// Whether one of these elements has the pad of a number.
fn have_pad<E: TaskElement, O: Outlet>(parts: &[Part<E, O>], pad: u32) -> bool
    ensures there { result ≡ true → (place : _) × PartHas parts.now pad place }
    ensures none { result ≡ false → (place : _) → PartHas parts.now pad place → ⊥ }
{
    for place in 0..parts.len() {
        if has_port(parts[place].pads(), pad) {
            return true;
        }
    }
    false
}

/// Whether one of these pads has this number.
fn has_port<O: Outlet>(pads: &[Pad<O>], pad: u32) -> bool
    ensures there { result ≡ true → (port : _) × PortIs pads.now pad port }
    ensures none { result ≡ false → (port : _) → PortIs pads.now pad port → ⊥ }
{
    for port in 0..pads.len() {
        if pads[port].number() == pad {
            return true;
        }
    }
    false
}
