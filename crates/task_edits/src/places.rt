//! Where the source pads of a task stand.
ghost use Rattle.std.specs.Prelude.{◌≡◌, true, false, None, IfSome, map};
ghost use Rattle.task_edits.specs.Places.{FirstAt, FirstPart, FirstPort, HasNoPad, HasPad, HeadHasNot, IsOfHead, NoPart, NoPort, PartPadIs, PortIs, StandsAt};
ghost use Rattle.task_parts.specs.Found.{IsAt};
ghost use Rattle.task_parts.specs.Shape.{has_number, part_shape};

use flow_model::{TaskElement, TaskSource};
use lane_core::{Inlet, Outlet};
use net_task::Task;
use task_pads::Pad;
use task_parts::{Head, Part};

/// Where a source pad of a task stands.
#[derive(Clone, Copy)]
pub(crate) enum PadAt {
    /// At its source.
    Source,
    /// At a port of the element at a place.
    Part { place: usize, port: usize },
}

/// Whether one of the source pads of a task has this number.
pub fn has_pad<S: TaskSource, E: TaskElement, I: Inlet<Out = O>, O: Outlet<Lanes = I::Lanes>>(
    task: &Task<S, E, I, O>,
    pad: u32,
) -> bool
    ensures there { result ≡ true → HasPad task.now.head task.now.parts.items pad }
    ensures none { result ≡ false → HasNoPad task.now.head task.now.parts.items pad }
{
    find(task.head(), task.parts(), pad).is_some()
}

/// Where the source pad of a number stands in a task of these parts: the first, if several have the number.
pub(crate) fn find<S: TaskSource, E: TaskElement, I: Inlet<Out = O>, O: Outlet<Lanes = I::Lanes>>(
    head: &Head<S, I, O>,
    parts: &[Part<E, O>],
    pad: u32,
) -> Option<PadAt>
    ensures there { IfSome result (StandsAt head.now parts.now pad) }
    ensures first { IfSome result (FirstAt head.now parts.now pad) }
    ensures none { result ≡ None → HasNoPad head.now parts.now pad }
{
    if is_of_head(head, pad) {
        return Some(PadAt::Source);
    }
    find_part(parts, pad)
}

/// Whether the head is a source whose pad has this number.
fn is_of_head<S: TaskSource, I, O: Outlet>(head: &Head<S, I, O>, pad: u32) -> bool
    ensures is { result ≡ true → IsOfHead head.now pad }
    ensures not { result ≡ false → HeadHasNot head.now pad }
{
    match head {
        Head::Source(source) => source.pad().number() == pad,
        Head::Inlets(_) => false,
    }
}

/// The place of the element that has the pad of a number, and its port.
fn find_part<E: TaskElement, O: Outlet>(parts: &[Part<E, O>], pad: u32) -> Option<PadAt>
    ensures there { IfSome result (PartPadIs parts.now pad) }
    ensures first { IfSome result (FirstPart parts.now pad) }
    ensures none { result ≡ None → NoPart parts.now pad }
{
    for place in 0..parts.len() {
        if let Some(port) = find_port(parts[place].pads(), pad) {
            return Some(PadAt::Part { place, port });
        }
    }
    None
}

/// The port of the pad of a number.
fn find_port<O: Outlet>(pads: &[Pad<O>], pad: u32) -> Option<usize>
    ensures there { IfSome result (PortIs pads.now pad) }
    ensures first { IfSome result (FirstPort pads.now pad) }
    ensures none { result ≡ None → NoPort pads.now pad }
{
    for port in 0..pads.len() {
        if pads[port].number() == pad {
            return Some(port);
        }
    }
    None
}

/// Whether one of the elements of a task has this number.
pub fn has_element<S: TaskSource, E: TaskElement, I: Inlet<Out = O>, O: Outlet<Lanes = I::Lanes>>(
    task: &Task<S, E, I, O>,
    element: u32,
) -> bool
    ensures { result ≡ has_number element (map part_shape task.now.parts.items) }
{
    find_element(task.parts(), element).is_some()
}

/// The place of the element of a number among these parts.
pub(crate) fn find_element<E: TaskElement, O: Outlet>(
    parts: &[Part<E, O>],
    number: u32,
) -> Option<usize>
    ensures there { IfSome result (IsAt parts.now number) }
    ensures none { result ≡ None → has_number number (map part_shape parts.now) ≡ false }
{
    for place in 0..parts.len() {
        if parts[place].number() == number {
            return Some(place);
        }
    }
    None
}
