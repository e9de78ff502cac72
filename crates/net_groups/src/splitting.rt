//! A task becomes two.
ghost use Rattle.std.specs.Prelude.{◌≡◌, ◌≤◌, ◌<◌, ◌⊎◌, Ok, None, true, false, IfOk, IfSome, OnOk, OnErr, [], length, vec_len, vec_capacity};
ghost use Rattle.flow_model.specs.Moment.{Moment};
ghost use Rattle.net_turns.specs.Net.{NetReady, NetStands};
ghost use Rattle.net_task.specs.Frame.{frame_of};
ghost use Rattle.net_groups.specs.Behind.{IsBehind, IsEntered, SourceLeads, TellBehind};
ghost use Rattle.net_groups.specs.Places.{AreBare, IsPartOf};
ghost use Rattle.net_groups.specs.Splits.{AreParting, CanPart, CanPartAt, CannotSplit, HasRoomAt, HasRoomBeside, HasRoomToSplit, IsParted, IsPartedAt, IsRoom, IsSplit, IsSplitRoom, TakesApart, TookItems, number_in, pads_of};

use crate::behind::{behind, deal, flagged_lead, has_flag, leads_flagged, others_lead};
use crate::places::find_part;
use crate::sizes::most_beside;
use flow_model::{TaskElement, TaskSource};
use gst_value::OutOfMemory;
use inlet_row::InletRow;
use lane_core::{Inlet, Outlet};
use net_task::Task;
use std::alloc::Global;
use task_parts::{Head, InletHead, Part};

/// Room for the elements of two tasks that one is split into, and rows for the sink pads of an element.
#[derive(Drop)]
struct Room<E: TaskElement, I, O> {
    kept: Vec<Part<E, O>>,
    gone: Vec<Part<E, O>>,
    rows: Vec<InletRow<I>>,
}

/// All the room that it takes to split a task at an element of it, but for that of the task more. It is taken before anything changes.
#[derive(Drop)]
pub struct SplitRoom<E: TaskElement, I, O> {
    flags: Vec<bool>,
    halves: Room<E, I, O>,
}

/// What goes out of the task at a place: the flags tell which of its elements.
#[derive(Drop)]
struct Parting<E: TaskElement, I, O> {
    place: usize,
    flags: Vec<bool>,
    halves: Room<E, I, O>,
}

/// Takes an element to which no pad of its task leads, and all that stand behind it inside of the task, out of the task: they become a
/// task of their own, behind all others. Its head is that element with an empty row for each of its `pads` sink pads: nothing feeds it.
/// Tells whether that was done. It is not where no task has the element, where its head feeds it already, or where a pad of the task still
/// leads to what would go out of it, from what stays or back to the element itself; all tasks stay then.
pub fn split<S: TaskSource, E: TaskElement, I: Inlet<Out = O>, O: Outlet<Lanes = I::Lanes>>(
    alloc: Global,
    tasks: &mut Vec<Task<S, E, I, O>>,
    element: u32,
    pads: usize,
) -> Result<bool, OutOfMemory>
    ensures stands { result ≡ Ok true → (m : Moment) (tells : _) → NetStands m tasks.old.items tells → TookItems m element pads
        → NetStands m tasks.new.items tells }
    ensures ready { result ≡ Ok true → (tells : _) → NetReady tasks.old.items tells → NetReady tasks.new.items tells }
    ensures split { result ≡ Ok true → IsSplit tasks.old.items tasks.new.items element pads }
    ensures none { result ≡ Ok false → CannotSplit tasks.old.items element × (tasks.new ≡ tasks.old) }
    ensures kept { OnErr result (tasks.new.items ≡ tasks.old.items) }
{
    let room = room_beside(alloc, tasks.as_slice(), element, pads)?;
    match to_part(tasks.as_slice(), element, room) {
        Some(parting) => split_by(tasks, element, parting),
        None => Ok(false),
    }
}

/// Takes all the memory that it takes to split the task that has an element: so [`split_reserved`] needs none.
pub fn room_to_split<S: TaskSource, E: TaskElement, I: Inlet<Out = O>, O: Outlet<Lanes = I::Lanes>>(
    alloc: Global,
    tasks: &mut Vec<Task<S, E, I, O>>,
    element: u32,
    pads: usize,
) -> Result<SplitRoom<E, I, O>, OutOfMemory>
    ensures room { IfOk result (λ room. HasRoomToSplit tasks.new element room) }
    ensures pads { IfOk result (λ room. pads_of room ≡ pads) }
    ensures items { tasks.new.items ≡ tasks.old.items }
{
    let room = room_beside(alloc, tasks.as_slice(), element, pads)?;
    tasks.reserve(1)?;
    Ok(room)
}

/// Does what [`split`] does, in room that was taken before. It takes no memory.
pub fn split_reserved<
    S: TaskSource,
    E: TaskElement,
    I: Inlet<Out = O>,
    O: Outlet<Lanes = I::Lanes>,
>(tasks: &mut Vec<Task<S, E, I, O>>, element: u32, room: SplitRoom<E, I, O>) -> bool
    requires room { HasRoomToSplit tasks.old element room }
    ensures stands { result ≡ true → (m : Moment) (tells : _) → NetStands m tasks.old.items tells → TookItems m element (pads_of room)
        → NetStands m tasks.new.items tells }
    ensures ready { result ≡ true → (tells : _) → NetReady tasks.old.items tells → NetReady tasks.new.items tells }
    ensures split { result ≡ true → IsSplit tasks.old.items tasks.new.items element (pads_of room) }
    ensures none { result ≡ false → CannotSplit tasks.old.items element × (tasks.new ≡ tasks.old) }
    ensures room { vec_capacity tasks.new ≡ vec_capacity tasks.old }
{
    match to_part(tasks.as_slice(), element, room) {
        Some(parting) => {
            part_off(tasks, element, parting);
            true
        }
        None => false,
    }
}

/// Takes room to split the task that has an element, but for that of the task more.
fn room_beside<S: TaskSource, E: TaskElement, I: Inlet<Out = O>, O: Outlet<Lanes = I::Lanes>>(
    alloc: Global,
    tasks: &[Task<S, E, I, O>],
    element: u32,
    pads: usize,
) -> Result<SplitRoom<E, I, O>, OutOfMemory>
    ensures room { IfOk result (HasRoomBeside tasks.now element) }
    ensures pads { IfOk result (λ room. pads_of room ≡ pads) }
{
    split_room(alloc, most_beside(tasks, element), pads)
}

/// Takes room for so many flags, and for so many elements, twice, and rows for so many sink pads.
fn split_room<E: TaskElement, I: Inlet, O: Outlet>(
    alloc: Global,
    count: usize,
    pads: usize,
) -> Result<SplitRoom<E, I, O>, OutOfMemory>
    ensures room { IfOk result (λ room. IsSplitRoom room count) }
    ensures pads { IfOk result (λ room. pads_of room ≡ pads) }
{
    let flags = Vec::with_capacity(alloc, count)?;
    let halves = room_for(alloc, count, pads)?;
    Ok(SplitRoom { flags, halves })
}

/// What goes out of the task that has an element. None where no task has it, what the head of its task names is behind it, or what is
/// behind it is led to from elsewhere in the task.
fn to_part<S: TaskSource, E: TaskElement, I: Inlet<Out = O>, O: Outlet<Lanes = I::Lanes>>(
    tasks: &[Task<S, E, I, O>],
    element: u32,
    room: SplitRoom<E, I, O>,
) -> Option<Parting<E, I, O>>
    requires room { HasRoomBeside tasks.now element room }
    ensures parting { IfSome result (AreParting tasks.now element) }
    ensures pads { IfSome result (λ parting. vec_len parting.halves.rows ≡ pads_of room) }
    ensures none { result ≡ None → CannotSplit tasks.now element }
{
    match find_part(tasks, element) {
        Some(place) => to_part_at(tasks, place, element, room),
        None => None,
    }
}

/// What goes out of the task at a place. None where what its head names is behind the element, or what is behind it is led to from elsewhere.
fn to_part_at<S: TaskSource, E: TaskElement, I: Inlet<Out = O>, O: Outlet<Lanes = I::Lanes>>(
    tasks: &[Task<S, E, I, O>],
    place: usize,
    element: u32,
    room: SplitRoom<E, I, O>,
) -> Option<Parting<E, I, O>>
    requires part { IsPartOf tasks.now place element }
    requires room { HasRoomBeside tasks.now element room }
    ensures parting { IfSome result (AreParting tasks.now element) }
    ensures pads { IfSome result (λ parting. vec_len parting.halves.rows ≡ pads_of room) }
    ensures none { result ≡ None → CannotSplit tasks.now element }
{
    let SplitRoom { flags, halves } = room;
    match flags_of(&tasks[place], element, flags) {
        Some(flags) => Some(Parting {
            place,
            flags,
            halves,
        }),
        None => None,
    }
}

/// Flags that tell what of a task is behind an element. None where what its head names is, or a pad leads there from elsewhere.
fn flags_of<S: TaskSource, E: TaskElement, I: Inlet<Out = O>, O: Outlet<Lanes = I::Lanes>>(
    task: &Task<S, E, I, O>,
    element: u32,
    flags: Vec<bool>,
) -> Option<Vec<bool>>
    requires empty { flags.items ≡ [] }
    requires room { length task.now.parts.items ≤ vec_capacity flags }
    ensures apart { IfSome result (λ flags. TakesApart task.now element flags.items) }
    ensures none { result ≡ None → IsBehind task.now.parts.items element (number_in task.now.head)
        ⊎ IsEntered (frame_of task.now) task.now.parts.items element }
{
    let flags = behind(task.parts(), element, flags);
    if has_flag(task.parts(), flags.as_slice(), head_number(task.head())) {
        return None;
    }
    if is_entered(task, element, flags.as_slice()) {
        return None;
    }
    Some(flags)
}

/// Whether a pad of the source or of an element without a flag leads inside of a task to one with a flag, or any pad to the element itself.
fn is_entered<S: TaskSource, E: TaskElement, I: Inlet<Out = O>, O: Outlet<Lanes = I::Lanes>>(
    task: &Task<S, E, I, O>,
    element: u32,
    flags: &[bool],
) -> bool
    requires size { length flags.now ≡ length task.now.parts.items }
    requires tell { TellBehind task.now.parts.items element flags.now }
    ensures entered { result ≡ true → IsEntered (frame_of task.now) task.now.parts.items element }
    ensures free { result ≡ false → IsEntered (frame_of task.now) task.now.parts.items element → ⊥ }
{
    if source_leads(task.head(), task.parts(), flags) {
        return true;
    }
    if others_lead(task.parts(), flags) {
        return true;
    }
    flagged_lead(task.parts(), flags, element)
}

/// Whether a head is a source whose pad leads inside of the task to an element with a flag.
fn source_leads<S: TaskSource, E: TaskElement, I, O: Outlet>(
    head: &Head<S, I, O>,
    parts: &[Part<E, O>],
    flags: &[bool],
) -> bool
    requires len { length flags.now ≡ length parts.now }
    ensures led { result ≡ true → SourceLeads parts.now flags.now head.now }
    ensures none { result ≡ false → SourceLeads parts.now flags.now head.now → ⊥ }
{
    match head {
        Head::Source(source) => leads_flagged(parts, flags, source.pad().behind()),
        Head::Inlets(_) => false,
    }
}

/// Takes room for so many elements, twice, and rows for so many sink pads.
fn room_for<E: TaskElement, I: Inlet, O: Outlet>(
    alloc: Global,
    count: usize,
    pads: usize,
) -> Result<Room<E, I, O>, OutOfMemory>
    ensures { IfOk result (λ room. IsRoom room count pads) }
{
    Ok(Room {
        kept: Vec::with_capacity(alloc, count)?,
        gone: Vec::with_capacity(alloc, count)?,
        rows: empty_rows(alloc, pads)?,
    })
}

/// So many rows of nothing.
fn empty_rows<I: Inlet>(alloc: Global, pads: usize) -> Result<Vec<InletRow<I>>, OutOfMemory>
    ensures size { IfOk result (λ rows. vec_len rows ≡ pads) }
    ensures bare { IfOk result (λ rows. AreBare rows.items) }
{
    let mut rows = Vec::with_capacity(alloc, pads)?;
    for _ in 0..pads {
        rows.push_reserved(InletRow::new(alloc));
    }
    Ok(rows)
}

/// Takes room for a task more, in which what goes out of the task at a place is.
fn split_by<S: TaskSource, E: TaskElement, I: Inlet<Out = O>, O: Outlet<Lanes = I::Lanes>>(
    tasks: &mut Vec<Task<S, E, I, O>>,
    element: u32,
    parting: Parting<E, I, O>,
) -> Result<bool, OutOfMemory>
    requires place { parting.place < vec_len tasks.old }
    requires closed { CanPartAt tasks.old.items parting.place parting.flags.items element }
    requires rooms { HasRoomAt tasks.old.items parting.place parting.halves }
    ensures told { IfOk result (λ done. done ≡ true) }
    ensures parted { OnOk result (IsPartedAt tasks.old.items tasks.new.items parting.place parting.flags.items element (vec_len parting.halves.rows)) }
    ensures kept { OnErr result (tasks.new.items ≡ tasks.old.items) }
{
    tasks.reserve(1)?;
    part_off(tasks, element, parting);
    Ok(true)
}

/// What goes out of the task at a place becomes a task behind all others.
fn part_off<S: TaskSource, E: TaskElement, I: Inlet<Out = O>, O: Outlet<Lanes = I::Lanes>>(
    tasks: &mut Vec<Task<S, E, I, O>>,
    element: u32,
    parting: Parting<E, I, O>,
)
    requires place { parting.place < vec_len tasks.old }
    requires closed { CanPartAt tasks.old.items parting.place parting.flags.items element }
    requires room { vec_len tasks.old < vec_capacity tasks.old }
    requires rooms { HasRoomAt tasks.old.items parting.place parting.halves }
    ensures parted { IsPartedAt tasks.old.items tasks.new.items parting.place parting.flags.items element (vec_len parting.halves.rows) }
    ensures room { vec_capacity tasks.new ≡ vec_capacity tasks.old }
{
    let Parting {
        place,
        flags,
        halves,
    } = parting;
    take_out(tasks, place, element, flags.as_slice(), halves);
}

/// The flagged elements of the task at a place become a task behind all others.
fn take_out<S: TaskSource, E: TaskElement, I: Inlet<Out = O>, O: Outlet<Lanes = I::Lanes>>(
    tasks: &mut Vec<Task<S, E, I, O>>,
    place: usize,
    element: u32,
    flags: &[bool],
    room: Room<E, I, O>,
)
    requires place { place < vec_len tasks.old }
    requires closed { CanPartAt tasks.old.items place flags.now element }
    requires room { vec_len tasks.old < vec_capacity tasks.old }
    requires rooms { HasRoomAt tasks.old.items place room }
    ensures parted { IsPartedAt tasks.old.items tasks.new.items place flags.now element (vec_len room.rows) }
    ensures room { vec_capacity tasks.new ≡ vec_capacity tasks.old }
{
    let last = tasks.len() - 1;
    let was = tasks.swap_remove(place);
    let (is, fresh) = part(was, element, flags, room);
    tasks.push_reserved(is);
    tasks.swap(place, last);
    tasks.push_reserved(fresh);
}

/// The elements of a task without a flag, and those with one as a task of their own, which nothing feeds.
fn part<S: TaskSource, E: TaskElement, I: Inlet<Out = O>, O: Outlet<Lanes = I::Lanes>>(
    was: Task<S, E, I, O>,
    element: u32,
    flags: &[bool],
    room: Room<E, I, O>,
) -> (Task<S, E, I, O>, Task<S, E, I, O>)
    requires closed { CanPart was.head was.parts.items flags.now element }
    requires room { IsRoom room (length was.parts.items) (vec_len room.rows) }
    ensures { IsParted was result.0 result.1 flags.now element (vec_len room.rows) }
{
    let (head, parts) = was.into_parts();
    let Room {
        mut kept,
        mut gone,
        rows,
    } = room;
    deal(parts, flags, &mut kept, &mut gone);
    let fed = InletHead::new(element, gone.len().saturating_sub(1), rows);
    (Task::new(head, kept), Task::new(Head::Inlets(fed), gone))
}

/// The number of a source, or of the element that a head feeds.
fn head_number<S: TaskSource, I, O: Outlet>(head: &Head<S, I, O>) -> u32
    ensures { result ≡ number_in head.now }
{
    match head {
        Head::Source(source) => source.number(),
        Head::Inlets(fed) => fed.number(),
    }
}
