//! Links over lanes, made, and undone with EOS.
ghost use Rattle.std.specs.Prelude.{◌≡◌, ◌≢◌, ◌<◌, ◌≤◌, ◌+◌, ◌++◌, [], ℕ, true, false, None, Ok, Some, IfOk, IfSome, OnErr, OnOk, length, vec_len, vec_capacity, slice_get, map};
ghost use Rattle.std.specs.VecDeque.{deque_len};
ghost use Rattle.flow_model.specs.Item.{Ev};
ghost use Rattle.inlet_row.specs.Row.{feeds_of, room_of};
ghost use Rattle.inlet_row.specs.declared.row.InletRow.{InletRow as InletRows};
ghost use Rattle.inlet_row.specs.declared.feeding.Feeding.TheVariants.{Given};
ghost use Rattle.flow_model.specs.Edit.{IsFree, linked_over};
ghost use Rattle.flow_model.specs.Moment.{Moment};
ghost use Rattle.flow_model.specs.Step.{LeadsNowhere};
ghost use Rattle.net_turns.specs.Net.{NetReady, NetStands};
ghost use Rattle.net_turns.specs.Turns.{net_left};
ghost use Rattle.net_edits.specs.Ending.{CannotEnd, IsEndedOver, StandEndedOver};
ghost use Rattle.net_edits.specs.Nets.{TaskHas};
ghost use Rattle.net_edits.specs.Over.{AreEnds, AreKept, CannotJoin, FeedsPad, HasRoomAt, HasRoomOver, HasRowOf, HeadExchanged, InletsExchanged, InletsFeed, IsExchangedAt, IsGrownAt, IsLedAt, IsLinkedOver, IsNewLane, NoneFeeds, NoneSends, OpensNow, TaskExchanged, TaskFeeds, eos_given, opened_by, opening_in, when_ok};

use crate::net::{find_task, unlink_at};
use flow_model::{TaskElement, TaskSource};
use gst_item::{Event, Item};
use gst_value::{List, OutOfMemory};
use inlet_row::InletRow;
use lane_core::{Inlet, Outlet};
use net_task::Task;
use std::alloc::Global;
use std::collections::VecDeque;
use std::mem;
use task_edits::{NewLane, Opening, opening_at, over_of};
use task_parts::{Head, InletHead};

/// A lane that is new, with both its ends, to a sink pad of an element that is fed from inlets.
#[derive(Drop)]
pub struct NewLink<I, O> {
    pub lane: u32,
    pub element: u32,
    pub pad: u32,
    pub outlet: O,
    pub inlet: I,
}

/// What it takes to link a source pad over a lane: what the link gives first, read at the pad, and a row of a task with room for that and for
/// the lane. It is taken before anything changes.
#[derive(Drop)]
pub struct OverRoom {
    /// The place of the task that has the row.
    receiver: usize,
    opening: Opening,
}

impl OverRoom {
    ghost use Rattle.gst_item.specs.Item.{has_item};
    ghost use Rattle.net_edits.specs.Over.{given_first};

    /// Whether the link gives sticky events first.
    pub fn opens(&self) -> bool
        ensures { result ≡ has_item (given_first self.now) }
    {
        !self.opening.events.as_slice().is_empty()
    }
}

/// The places of two tasks that a lane is to join.
#[derive(Clone, Copy)]
pub(crate) struct Ends {
    pub(crate) sender: usize,
    pub(crate) receiver: usize,
}

/// Takes all the memory for a link of the source pad of a number over a lane to a sink pad of an element of another task, which is fed from inlets, and
/// reads what the link gives first: so [`link_over`] needs none. None where no task has the source pad and another one the inlets of the sink pad.
///
/// Nothing changes but how much room the inlets of the sink pad have.
pub fn room_to_link_over<
    S: TaskSource,
    E: TaskElement,
    I: Inlet<Out = O>,
    O: Outlet<Lanes = I::Lanes>,
>(
    alloc: Global,
    tasks: &mut Vec<Task<S, E, I, O>>,
    pad: u32,
    element: u32,
    port: u32,
) -> Result<Option<OverRoom>, OutOfMemory>
    ensures there { IfOk result (λ found. IfSome found (HasRoomOver tasks.new.items element port)) }
    ensures opening { IfOk result (λ found. IfSome found (λ room. (m : Moment) (tells : _) → NetStands m tasks.old.items tells
        → OpensNow m pad (opening_in room))) }
    ensures none { IfOk result (λ found. found ≡ None → CannotJoin tasks.old.items pad element port) }
    ensures kept { AreKept tasks.old.items tasks.new.items }
    ensures stays { (m : Moment) (tells : _) → NetStands m tasks.old.items tells → NetStands m tasks.new.items tells }
    ensures stays_ready { (tells : _) → NetReady tasks.old.items tells → NetReady tasks.new.items tells }
    ensures room { vec_capacity tasks.new ≡ vec_capacity tasks.old }
{
    let Some(ends) = find_ends(tasks.as_slice(), pad, element, port) else {
        return Ok(None);
    };
    let opening = match opening_at(alloc, &tasks[ends.sender], pad) {
        Ok(opening) => opening,
        Err(wanting) => return Err(wanting),
    };
    let more = opening.events.as_slice().len() + 1;
    match room_at(tasks, ends.receiver, port, more) {
        Ok(()) => Ok(Some(OverRoom {
            receiver: ends.receiver,
            opening,
        })),
        Err(wanting) => Err(wanting),
    }
}

/// Links the source pad of a number over a new lane to a sink pad of an element of another task, which is fed from inlets, in room that was taken
/// before. What is fed there first are the sticky events of what crossed the source pad, and what waits at that goes over the lane. It takes no
/// memory. Tells whether a task has the source pad, and not the one with the inlets; where not, all tasks stay, and the lane is given up.
pub fn link_over<S: TaskSource, E: TaskElement, I: Inlet<Out = O>, O: Outlet<Lanes = I::Lanes>>(
    tasks: &mut Vec<Task<S, E, I, O>>,
    pad: u32,
    to: NewLink<I, O>,
    room: OverRoom,
) -> bool
    requires room { HasRoomOver tasks.old.items to.element to.pad room }
    ensures linked { result ≡ true → IsLinkedOver tasks.old.items tasks.new.items pad to (opening_in room) }
    ensures none { result ≡ false → CannotJoin tasks.old.items pad to.element to.pad × (tasks.new ≡ tasks.old) }
    ensures stands { result ≡ true → (m : Moment) (tells : _) → NetStands m tasks.old.items tells → IsNewLane tells tasks.old.items to
        → LeadsNowhere m.plan pad → IsFree to.pad (m.plan.sinks to.element) → OpensNow m pad (opening_in room)
        → NetStands (linked_over pad to.element to.pad m) tasks.new.items tells }
    ensures ready { result ≡ true → (tells : _) → NetReady tasks.old.items tells → IsNewLane tells tasks.old.items to
        → NoneSends tasks.old.items to.element to.pad → NetReady tasks.new.items tells }
    ensures count { length tasks.new.items ≡ length tasks.old.items }
    ensures room { vec_capacity tasks.new ≡ vec_capacity tasks.old }
{
    let Some(sender) = find_task(tasks.as_slice(), pad) else {
        return false;
    };
    if sender == room.receiver {
        return false;
    }
    link_between(tasks, sender, pad, to, room);
    true
}

/// Undoes the link of the source pad of a number that leads over a lane, and puts EOS into the row of the sink pad to which it leads, behind
/// all that stands there. What was sent into the lane stays for the row, and what waits at the pad stays there. Tells whether a task has the
/// pad, it leads over a lane, and a task has a row of that sink pad; where not, all tasks stay.
///
/// All memory is taken before anything changes.
pub fn end_over<S: TaskSource, E: TaskElement, I: Inlet<Out = O>, O: Outlet<Lanes = I::Lanes>>(
    tasks: &mut Vec<Task<S, E, I, O>>,
    pad: u32,
) -> Result<bool, OutOfMemory>
    ensures ended { result ≡ Ok true → IsEndedOver tasks.old.items tasks.new.items pad }
    ensures none { result ≡ Ok false → CannotEnd tasks.old.items pad × (tasks.new ≡ tasks.old) }
    ensures stands { result ≡ Ok true → (m : Moment) (tells : _) → NetStands m tasks.old.items tells → StandEndedOver m tasks.new.items tells pad }
    ensures ready { result ≡ Ok true → (tells : _) → NetReady tasks.old.items tells → NetReady tasks.new.items tells }
    ensures moves { result ≡ Ok true → net_left tasks.new.items ≡ net_left tasks.old.items + 1 }
    ensures kept { OnErr result (AreKept tasks.old.items tasks.new.items) }
    ensures stays { OnErr result ((m : Moment) (tells : _) → NetStands m tasks.old.items tells → NetStands m tasks.new.items tells) }
    ensures stays_ready { OnErr result ((tells : _) → NetReady tasks.old.items tells → NetReady tasks.new.items tells) }
    ensures count { length tasks.new.items ≡ length tasks.old.items }
    ensures room { vec_capacity tasks.new ≡ vec_capacity tasks.old }
{
    let Some(sender) = find_task(tasks.as_slice(), pad) else {
        return Ok(false);
    };
    let Some(to) = over_of(&tasks[sender], pad) else {
        return Ok(false);
    };
    let Some(receiver) = find_row(tasks.as_slice(), to.element, to.pad) else {
        return Ok(false);
    };
    match end_at(tasks, receiver, to.pad) {
        Ok(()) => {
            drop(unlink_at(tasks, sender, pad));
            Ok(true)
        }
        Err(wanting) => Err(wanting),
    }
}

/// The places of the task that has a source pad, and of another one that has the inlets of a sink pad.
fn find_ends<S: TaskSource, E: TaskElement, I: Inlet<Out = O>, O: Outlet<Lanes = I::Lanes>>(
    tasks: &[Task<S, E, I, O>],
    pad: u32,
    element: u32,
    port: u32,
) -> Option<Ends>
    ensures there { IfSome result (λ ends. AreEnds tasks.now pad element port ends.sender ends.receiver) }
    ensures none { result ≡ None → CannotJoin tasks.now pad element port }
{
    let Some(sender) = find_task(tasks, pad) else {
        return None;
    };
    let Some(receiver) = find_row(tasks, element, port) else {
        return None;
    };
    if sender == receiver {
        return None;
    }
    Some(Ends { sender, receiver })
}

/// The place of the task that has the inlets of a sink pad.
fn find_row<S: TaskSource, E: TaskElement, I: Inlet<Out = O>, O: Outlet<Lanes = I::Lanes>>(
    tasks: &[Task<S, E, I, O>],
    element: u32,
    port: u32,
) -> Option<usize>
    ensures there { IfSome result (TaskFeeds tasks.now element port) }
    ensures none { result ≡ None → NoneFeeds tasks.now element port }
{
    for place in 0..tasks.len() {
        if feeds(tasks[place].head(), element, port) {
            return Some(place);
        }
    }
    None
}

/// Whether a head has the inlets of a sink pad.
fn feeds<S: TaskSource, I, O: Outlet>(head: &Head<S, I, O>, element: u32, port: u32) -> bool
    ensures there { result ≡ true → FeedsPad head.now element port }
    ensures none { result ≡ false → FeedsPad head.now element port → ⊥ }
{
    match head {
        Head::Source(_) => false,
        Head::Inlets(inlets) => inlets_feed(inlets, element, port),
    }
}

/// Whether inlets are those of an element, and one of a sink pad is among them.
fn inlets_feed<I>(inlets: &InletHead<I>, element: u32, port: u32) -> bool
    ensures there { result ≡ true → InletsFeed inlets.now element port }
    ensures none { result ≡ false → InletsFeed inlets.now element port → ⊥ }
{
    if inlets.number() != element {
        return false;
    }
    (port as usize) < inlets.rows().len()
}

/// Links a source pad of the task at a place over a new lane to a sink pad that another one feeds.
fn link_between<S: TaskSource, E: TaskElement, I: Inlet<Out = O>, O: Outlet<Lanes = I::Lanes>>(
    tasks: &mut Vec<Task<S, E, I, O>>,
    sender: usize,
    pad: u32,
    to: NewLink<I, O>,
    room: OverRoom,
)
    requires sends { TaskHas tasks.old.items pad sender }
    requires room { HasRoomOver tasks.old.items to.element to.pad room }
    requires other { sender ≢ room.receiver }
    ensures linked { IsLinkedOver tasks.old.items tasks.new.items pad to (opening_in room) }
    ensures room { vec_capacity tasks.new ≡ vec_capacity tasks.old }
{
    let NewLink {
        lane,
        element,
        pad: port,
        outlet,
        inlet,
    } = to;
    let OverRoom { receiver, opening } = room;
    let Opening { events, from } = opening;
    open_at(tasks, receiver, port, events, lane, inlet);
    let to = NewLane {
        lane,
        element,
        pad: port,
        from,
        outlet,
    };
    lead_at(tasks, sender, pad, to);
}

/// Makes room in a row of the task at a place for so many things more.
fn room_at<S: TaskSource, E: TaskElement, I: Inlet<Out = O>, O: Outlet<Lanes = I::Lanes>>(
    tasks: &mut Vec<Task<S, E, I, O>>,
    place: usize,
    port: u32,
    more: usize,
) -> Result<(), OutOfMemory>
    requires place { place < vec_len tasks.old }
    requires row { (task : _) → slice_get tasks.old.items place ≡ Some task → HasRowOf task.head port }
    ensures kept { IsGrownAt tasks.old.items tasks.new.items place port [] }
    ensures enough { OnOk result ((element : ℕ) → TaskFeeds tasks.old.items element port place → HasRoomAt tasks.new.items place element port more) }
    ensures room { vec_capacity tasks.new ≡ vec_capacity tasks.old }
{
    let mut row = take_row(tasks, place, port);
    let made = row.make_room(more);
    drop(exchange_at(tasks, place, port, row));
    made
}

/// Puts sticky events and a lane behind what stands in a row of the task at a place.
fn open_at<S: TaskSource, E: TaskElement, I: Inlet<Out = O>, O: Outlet<Lanes = I::Lanes>>(
    tasks: &mut Vec<Task<S, E, I, O>>,
    place: usize,
    port: u32,
    events: List<Event>,
    lane: u32,
    inlet: I,
)
    requires room { (element : ℕ) × HasRoomAt tasks.old.items place element port (length events + 1) }
    ensures grown { IsGrownAt tasks.old.items tasks.new.items place port (opened_by events lane inlet) }
    ensures room { vec_capacity tasks.new ≡ vec_capacity tasks.old }
{
    let mut row = take_row(tasks, place, port);
    open_row(&mut row, events, lane, inlet);
    drop(exchange_at(tasks, place, port, row));
}

/// Puts EOS behind what stands in a row of the task at a place.
fn end_at<S: TaskSource, E: TaskElement, I: Inlet<Out = O>, O: Outlet<Lanes = I::Lanes>>(
    tasks: &mut Vec<Task<S, E, I, O>>,
    place: usize,
    port: u32,
) -> Result<(), OutOfMemory>
    requires place { place < vec_len tasks.old }
    requires row { (task : _) → slice_get tasks.old.items place ≡ Some task → HasRowOf task.head port }
    ensures grown { IsGrownAt tasks.old.items tasks.new.items place port (when_ok result eos_given) }
    ensures room { vec_capacity tasks.new ≡ vec_capacity tasks.old }
{
    let mut row = take_row(tasks, place, port);
    let ended = end_row(&mut row);
    drop(exchange_at(tasks, place, port, row));
    ended
}

/// Takes a row of the task at a place out. An empty one stands there until it is put back.
fn take_row<S: TaskSource, E: TaskElement, I: Inlet<Out = O>, O: Outlet<Lanes = I::Lanes>>(
    tasks: &mut Vec<Task<S, E, I, O>>,
    place: usize,
    port: u32,
) -> InletRow<I>
    requires place { place < vec_len tasks.old }
    requires row { (task : _) → slice_get tasks.old.items place ≡ Some task → HasRowOf task.head port }
    ensures taken { (empty : InletRows _) × IsExchangedAt tasks.old.items tasks.new.items place port empty result }
    ensures room { vec_capacity tasks.new ≡ vec_capacity tasks.old }
{
    let alloc = *tasks.allocator();
    exchange_at(tasks, place, port, InletRow::new(alloc))
}

/// Puts a row in the place of one of the task at a place, and gives that back.
fn exchange_at<S: TaskSource, E: TaskElement, I: Inlet<Out = O>, O: Outlet<Lanes = I::Lanes>>(
    tasks: &mut Vec<Task<S, E, I, O>>,
    place: usize,
    port: u32,
    row: InletRow<I>,
) -> InletRow<I>
    requires place { place < vec_len tasks.old }
    requires row { (task : _) → slice_get tasks.old.items place ≡ Some task → HasRowOf task.head port }
    ensures exchanged { IsExchangedAt tasks.old.items tasks.new.items place port row result }
    ensures room { vec_capacity tasks.new ≡ vec_capacity tasks.old }
{
    let last = tasks.len() - 1;
    let task = tasks.swap_remove(place);
    let (task, back) = exchange(task, port, row);
    tasks.push_reserved(task);
    tasks.swap(place, last);
    back
}

/// Puts a row in the place of one of a task.
fn exchange<S: TaskSource, E: TaskElement, I: Inlet<Out = O>, O: Outlet<Lanes = I::Lanes>>(
    task: Task<S, E, I, O>,
    port: u32,
    row: InletRow<I>,
) -> (Task<S, E, I, O>, InletRow<I>)
    requires row { HasRowOf task.head port }
    ensures { TaskExchanged task result.0 port row result.1 }
{
    let (head, parts) = task.into_parts();
    let (head, back) = exchange_of_head(head, port, row);
    (Task::new(head, parts), back)
}

/// Puts a row in the place of one of a head.
fn exchange_of_head<S: TaskSource, I: Inlet, O: Outlet>(
    head: Head<S, I, O>,
    port: u32,
    row: InletRow<I>,
) -> (Head<S, I, O>, InletRow<I>)
    requires row { HasRowOf head port }
    ensures { HeadExchanged head result.0 port row result.1 }
{
    match head {
        Head::Source(_) => unreachable!(),
        Head::Inlets(inlets) => {
            let (inlets, back) = exchange_of_inlets(inlets, port, row);
            (Head::Inlets(inlets), back)
        }
    }
}

/// Puts a row in the place of one of an element.
fn exchange_of_inlets<I: Inlet>(
    inlets: InletHead<I>,
    port: u32,
    row: InletRow<I>,
) -> (InletHead<I>, InletRow<I>)
    requires row { port < length inlets.rows.items }
    ensures { InletsExchanged inlets result.0 port row result.1 }
{
    let (number, hint, mut rows) = inlets.into_parts();
    let back = mem::replace(&mut rows[port as usize], row);
    (InletHead::new(number, hint, rows), back)
}

/// Puts sticky events and a lane behind what stands in a row.
fn open_row<I: Inlet>(row: &mut InletRow<I>, events: List<Event>, lane: u32, inlet: I)
    requires room { length events + 1 ≤ room_of row.old }
    ensures { feeds_of row.new ≡ feeds_of row.old ++ opened_by events lane inlet }
{
    let mut events = VecDeque::from(events.into_vec());
    give_all(row, &mut events);
    row.link(lane, inlet);
}

/// Puts EOS behind what stands in a row.
fn end_row<I: Inlet>(row: &mut InletRow<I>) -> Result<(), OutOfMemory>
    ensures { feeds_of row.new ≡ feeds_of row.old ++ when_ok result eos_given }
{
    match row.make_room(1) {
        Ok(()) => {
            row.give(Item::Event(Event::Eos));
            Ok(())
        }
        Err(wanting) => Err(wanting),
    }
}

/// Puts events behind what stands in a row, in their order.
fn give_all<I: Inlet>(row: &mut InletRow<I>, events: &mut VecDeque<Event>)
    requires room { deque_len events.old < room_of row.old }
    ensures feeds { feeds_of row.new ≡ feeds_of row.old ++ map (λ event. Given (Ev event)) events.old.items }
    ensures room { room_of row.new + deque_len events.old ≡ room_of row.old }
{
    while let Some(event) = events.pop_front() {
        row.give(Item::Event(event));
    }
}

/// A pad of the task at a place leads over a lane from now on.
fn lead_at<S: TaskSource, E: TaskElement, I: Inlet<Out = O>, O: Outlet<Lanes = I::Lanes>>(
    tasks: &mut Vec<Task<S, E, I, O>>,
    place: usize,
    pad: u32,
    to: NewLane<O>,
)
    requires place { place < vec_len tasks.old }
    ensures led { IsLedAt tasks.old.items tasks.new.items place pad to }
    ensures room { vec_capacity tasks.new ≡ vec_capacity tasks.old }
{
    let last = tasks.len() - 1;
    let task = tasks.swap_remove(place);
    let (task, back) = task_edits::link_over(task, pad, to);
    drop(back);
    tasks.push_reserved(task);
    tasks.swap(place, last);
}
