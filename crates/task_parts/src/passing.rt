//! What one try of a pad, or of a head, moves.
ghost use Rattle.std.specs.Prelude.{◌≡◌, ◌≤◌, ◌<◌, true, length, map, vec_len, Some, slice_get, OnOk};
ghost use Rattle.inlet_row.specs.Taken.{GoesInto, taken_of};
ghost use Rattle.task_parts.specs.Idle.{part_idle};
ghost use Rattle.task_parts.specs.Moved.{KeepsFront};
ghost use Rattle.task_parts.specs.Part.{PartReady, IsSettled};
ghost use Rattle.task_parts.specs.Passing.{CrossesPart, CrossesSource, GivesAs, TakesNext, Settles, HasPort, InletsReady, RowAsked, RowFed};
ghost use Rattle.task_pads.specs.Pads.{PadReady, crossed_count, goes_of, number_of, pad_shape, rest_of};
ghost use Rattle.gst_outside.specs.Causes.{NeverFalls};
ghost use Rattle.task_parts.specs.Shape.{goes_within, has_number, pads_within, part_shape};
ghost use Rattle.task_parts.specs.declared.fault.TaskFault.TheVariants.{NotLinked as NotLinkedFault};
ghost use Rattle.task_parts.specs.declared.step.Tried.TheVariants.{Moved as MovedOn};

use crate::fault::Failure;
use crate::find::find;
use crate::head::{Given, InletHead, SourceHead};
use crate::moving::{hand_in, hand_on};
use crate::part::Part;
use crate::step::{Step, Tried};
use flow_model::{TaskElement, TaskSource};
use gst_item::Item;
use gst_value::OutOfMemory;
use inlet_row::{Answer, UNLINKED};
use lane_core::{Inlet, Outlet};
use std::alloc::Global;
use task_pads::Crossing;

/// What the element at a place put out goes to its pads.
#[inline(always)]
pub fn settle<E: TaskElement, O: Outlet>(
    alloc: Global,
    parts: &mut Vec<Part<E, O>>,
    place: usize,
) -> Result<(), OutOfMemory>
    requires place { place < vec_len parts.old }
    ensures settled { Settles parts.old.items parts.new.items place }
    ensures all { OnOk result ((part : _) → slice_get parts.new.items place ≡ Some part → IsSettled part) }
    ensures shape { map part_shape parts.new.items ≡ map part_shape parts.old.items }
{
    parts[place].settle(alloc)
}

/// The oldest item that waits at the pad of a port of the element at a place crosses it, if it can. Where it goes to an
/// element of the task, that takes it. `from` is a place up to which no element changes but one at which nothing waits then:
/// it becomes a lower one where an element before it takes the item and puts something out.
#[inline(always)]
pub fn cross_part<E: TaskElement, O: Outlet>(
    alloc: Global,
    parts: &mut Vec<Part<E, O>>,
    lanes: &mut O::Lanes,
    place: usize,
    port: usize,
    from: &mut usize,
) -> Result<Tried, Failure>
    requires from { from.old ≤ place }
    requires closed { (part : _) → slice_get parts.old.items place ≡ Some part
        → pads_within (map part_shape parts.old.items) (map pad_shape part.pads.items) ≡ true }
    requires at { HasPort parts.old.items place port }
    requires ready { (part : _) → slice_get parts.old.items place ≡ Some part → PartReady O.Outlet (O.tells lanes.old) part }
    ensures crosses { CrossesPart O.Outlet parts.old.items parts.new.items place port (O.tells lanes.old) (O.tells lanes.new) result }
    ensures front { KeepsFront from.old from.new parts.old.items parts.new.items }
    ensures shape { map part_shape parts.new.items ≡ map part_shape parts.old.items }
{
    match parts[place].cross(alloc, lanes, port) {
        Crossing::Idle => Ok(Tried::Idle),
        Crossing::Gone => Ok(Tried::Moved),
        Crossing::BehindEos => Ok(Tried::Stuck(Step::Ended)),
        Crossing::Full { lane } => Ok(Tried::Stuck(Step::NeedsRoom(lane))),
        Crossing::AtProbe { command } => Ok(Tried::Stuck(Step::AtProbe(command))),
        Crossing::NotLinked => Err(not_linked(&parts[place], port)),
        Crossing::AtLimit => Err(Failure::too_long(parts[place].number())),
        Crossing::OutOfMemory => Err(Failure::out_of_memory()),
        Crossing::To { number, hint, pad } => {
            let to = find(parts.as_slice(), number, hint);
            let handed = hand_on(alloc, parts, place, port, to, pad);
            lower(parts.as_slice(), from, to);
            match handed {
                Ok(()) => Ok(Tried::Moved),
                Err(refusal) => Err(Failure::refused(number, refusal)),
            }
        }
    }
}

/// Where something waits at the element at a place `to` before `from`, that place becomes `from`.
#[inline(always)]
fn lower<E: TaskElement, O: Outlet>(parts: &[Part<E, O>], from: &mut usize, to: usize)
    requires to { to < length parts.now }
    ensures lower { from.new ≤ from.old }
    ensures idle { (part : _) → slice_get parts.now to ≡ Some part → to < from.new → part_idle part ≡ true }
{
    if to >= *from {
        return;
    }
    if parts[to].is_idle() {
        return;
    }
    *from = to;
}

/// The fault of a buffer at the pad of a port, which is not linked.
fn not_linked<E: TaskElement, O: Outlet>(part: &Part<E, O>, port: usize) -> Failure
    requires port { port < vec_len part.now.pads }
    ensures { (pad : _) → slice_get part.now.pads.items port ≡ Some pad → result ≡ NotLinkedFault (number_of pad) (crossed_count pad) }
{
    let pad = &part.pads()[port];
    Failure::not_linked(pad.number(), pad.crossed())
}

/// The oldest item that waits at the pad of a source crosses it, if it can. Where it goes to an element of the task, that
/// takes it.
#[inline(always)]
pub fn cross_source<S: TaskSource, E: TaskElement, O: Outlet>(
    alloc: Global,
    head: &mut SourceHead<S, O>,
    parts: &mut Vec<Part<E, O>>,
    lanes: &mut O::Lanes,
    from: &mut usize,
) -> Result<Tried, Failure>
    requires closed { goes_within (map part_shape parts.old.items) (goes_of head.old.pad) ≡ true }
    requires ready { PadReady O.Outlet (O.tells lanes.old) head.old.pad }
    ensures crosses { CrossesSource O.Outlet head.old head.new parts.old.items parts.new.items (O.tells lanes.old) (O.tells lanes.new) result }
    ensures front { KeepsFront from.old from.new parts.old.items parts.new.items }
    ensures shape { map part_shape parts.new.items ≡ map part_shape parts.old.items }
{
    match head.pad.cross(alloc, lanes, false) {
        Crossing::Idle => Ok(Tried::Idle),
        Crossing::Gone => Ok(Tried::Moved),
        Crossing::BehindEos => Ok(Tried::Stuck(Step::Ended)),
        Crossing::Full { lane } => Ok(Tried::Stuck(Step::NeedsRoom(lane))),
        Crossing::AtProbe { command } => Ok(Tried::Stuck(Step::AtProbe(command))),
        Crossing::NotLinked => Err(Failure::not_linked(head.pad.number(), head.pad.crossed())),
        Crossing::AtLimit => Err(Failure::too_long(head.number)),
        Crossing::OutOfMemory => Err(Failure::out_of_memory()),
        Crossing::To { number, hint, pad } => {
            let to = find(parts.as_slice(), number, hint);
            let handed = hand_in(alloc, &mut head.pad, parts, to, pad);
            lower(parts.as_slice(), from, to);
            match handed {
                Ok(()) => Ok(Tried::Moved),
                Err(refusal) => Err(Failure::refused(number, refusal)),
            }
        }
    }
}

/// The source gives its next item, which waits at its pad. `Tried::Idle`: it has given all.
#[inline(always)]
pub fn give<S: TaskSource, O: Outlet>(
    alloc: Global,
    head: &mut SourceHead<S, O>,
) -> Result<Tried, Failure>
    ensures gives { GivesAs head.old head.new result }
    ensures never_falls { NeverFalls (S.failures head.old.source) (S.failures head.new.source) }
    ensures file { S.file head.new.source ≡ S.file head.old.source }
    ensures number { head.new.number ≡ head.old.number }
    ensures rest { rest_of head.new.pad ≡ rest_of head.old.pad }
{
    match head.give(alloc) {
        Ok(Given::Item) => Ok(Tried::Moved),
        Ok(Given::FlushStop) => Ok(Tried::Moved),
        Ok(Given::Ended) => Ok(Tried::Idle),
        Ok(Given::AtLimit) => Err(Failure::too_long(head.number)),
        Err(unread) => Err(Failure::unread(head.number, unread)),
    }
}

/// The element that a head feeds takes the next item that it wants, if there is one now. `Tried::Idle`: it wants no more.
#[inline(always)]
pub fn take<E: TaskElement, I: Inlet<Out = O>, O: Outlet<Lanes = I::Lanes>>(
    alloc: Global,
    head: &mut InletHead<I>,
    parts: &mut Vec<Part<E, O>>,
    lanes: &mut I::Lanes,
    from: &mut usize,
) -> Result<Tried, Failure>
    requires named { has_number head.old.number (map part_shape parts.old.items) ≡ true }
    requires ready { InletsReady I.Inlet (O.tells lanes.old) head.old }
    ensures takes { TakesNext I.Inlet head.old head.new parts.old.items parts.new.items (O.tells lanes.old) (O.tells lanes.new) result }
    ensures front { KeepsFront from.old from.new parts.old.items parts.new.items }
    ensures shape { map part_shape parts.new.items ≡ map part_shape parts.old.items }
{
    let to = find(parts.as_slice(), head.number, head.hint);
    head.hint = to;
    let Some(port) = parts[to].element().wants() else {
        return Ok(Tried::Idle);
    };
    let mut next = None;
    match take_row(head, lanes, port, &mut next) {
        Answer::Empty(lane) => Ok(Tried::Stuck(Step::NeedsItem(lane))),
        Answer::Item => {
            let Some(item) = next else { unreachable!() };
            let fed = feed_row(alloc, parts, to, port, item);
            lower(parts.as_slice(), from, to);
            fed
        }
    }
}

/// The element at a place takes an item that came from the row of a sink pad. A FLUSH_STOP is given up.
#[inline(always)]
fn feed_row<E: TaskElement, O: Outlet>(
    alloc: Global,
    parts: &mut Vec<Part<E, O>>,
    to: usize,
    port: u32,
    item: Item,
) -> Result<Tried, Failure>
    requires to { to < vec_len parts.old }
    ensures feeds { RowFed parts.old.items parts.new.items to port item result }
    ensures shape { map part_shape parts.new.items ≡ map part_shape parts.old.items }
{
    if item.is_flush_stop() {
        return Ok(give_up(item));
    }
    let number = parts[to].number();
    match parts[to].feed(alloc, port, item) {
        Ok(()) => Ok(Tried::Moved),
        Err(refusal) => Err(Failure::refused(number, refusal)),
    }
}

/// Takes the next item of the row of a sink pad, if there is one now, and puts it there.
#[inline(always)]
fn take_row<I: Inlet>(
    head: &mut InletHead<I>,
    lanes: &mut I::Lanes,
    port: u32,
    into: &mut Option<Item>,
) -> Answer
    requires ready { InletsReady I.Inlet (I.Out.tells lanes.old) head.old }
    ensures asked { RowAsked I.Inlet head.old head.new port (I.Out.tells lanes.old) (I.Out.tells lanes.new) (taken_of result into.new) }
    ensures into { GoesInto result into.old into.new }
{
    let port = port as usize;
    if port >= head.rows.len() {
        return Answer::Empty(UNLINKED);
    }
    head.rows[port].take(lanes, into)
}

/// An item is given up.
fn give_up(item: Item) -> Tried
    ensures { result ≡ MovedOn }
{
    drop(item);
    Tried::Moved
}
