//! Two tasks become one.
ghost use Rattle.std.specs.Prelude.{◌≡◌, ◌≢◌, ◌≤◌, ◌<◌, ◌+◌, ◌++◌, [], Ok, None, true, false, IfOk, IfSome, OnErr, vec_len, vec_capacity};
ghost use Rattle.flow_model.specs.Moment.{Moment};
ghost use Rattle.net_turns.specs.Net.{NetReady, NetStands};
ghost use Rattle.net_groups.specs.Joined.{CanJoinAt, CannotJoin, HasRoomFor, HasRoomToJoin, IsJoined, IsMerged, IsUnfed, MovesUp};
ghost use Rattle.net_groups.specs.Places.{FedAt, PadOf};

use crate::lanes::{is_sent_to, sends_to_head};
use crate::places::{find_fed, find_pad};
use crate::sizes::{most_fed, most_with};
use flow_model::{TaskElement, TaskSource};
use gst_value::OutOfMemory;
use lane_core::{Inlet, Outlet};
use net_task::Task;
use std::alloc::Global;
use task_parts::Part;

/// All the room that it takes to join two tasks. It is taken before anything changes.
#[derive(Drop)]
pub struct JoinRoom<E: TaskElement, O> {
    parts: Vec<Part<E, O>>,
}

/// The places of a task that gives its elements, and of that into which they come.
#[derive(Drop)]
struct TwoTasks {
    from: usize,
    to: usize,
}

/// The elements of the task whose head feeds `element` from inlets come into the task that has the source pad of a number, before its own.
/// The task that gave them is no more, nor is anything that stood in its inlets; those behind it move up. Tells whether that was done. It
/// is not where there are no two such tasks, where a lane leads from the first one to the element that the head of the other feeds, or where
/// one leads to `element`; all tasks stay then.
pub fn join<S: TaskSource, E: TaskElement, I: Inlet<Out = O>, O: Outlet<Lanes = I::Lanes>>(
    tasks: &mut Vec<Task<S, E, I, O>>,
    pad: u32,
    element: u32,
) -> Result<bool, OutOfMemory>
    ensures stands { result ≡ Ok true → (m : Moment) (tells : _) → NetStands m tasks.old.items tells → IsUnfed tasks.old.items element
        → NetStands m tasks.new.items tells }
    ensures ready { result ≡ Ok true → (tells : _) → NetReady tasks.old.items tells → NetReady tasks.new.items tells }
    ensures joined { result ≡ Ok true → IsJoined tasks.old.items tasks.new.items pad element }
    ensures none { result ≡ Ok false → CannotJoin tasks.old.items pad element × (tasks.new ≡ tasks.old) }
    ensures kept { OnErr result (tasks.new.items ≡ tasks.old.items) }
{
    let alloc = *tasks.allocator();
    let room = room_to_join(alloc, tasks.as_slice(), pad, element)?;
    Ok(join_reserved(tasks, pad, element, room))
}

/// Takes all the memory that it takes to join two tasks: so [`join_reserved`] needs none.
pub fn room_to_join<S: TaskSource, E: TaskElement, I: Inlet<Out = O>, O: Outlet<Lanes = I::Lanes>>(
    alloc: Global,
    tasks: &[Task<S, E, I, O>],
    pad: u32,
    element: u32,
) -> Result<JoinRoom<E, O>, OutOfMemory>
    ensures { IfOk result (HasRoomToJoin tasks.now pad element) }
{
    let parts = room(alloc, most_fed(tasks, element), most_with(tasks, pad))?;
    Ok(JoinRoom { parts })
}

/// Does what [`join`] does, in room that was taken before. It takes no memory.
pub fn join_reserved<S: TaskSource, E: TaskElement, I: Inlet<Out = O>, O: Outlet<Lanes = I::Lanes>>(
    tasks: &mut Vec<Task<S, E, I, O>>,
    pad: u32,
    element: u32,
    room: JoinRoom<E, O>,
) -> bool
    requires room { HasRoomToJoin tasks.old.items pad element room }
    ensures stands { result ≡ true → (m : Moment) (tells : _) → NetStands m tasks.old.items tells → IsUnfed tasks.old.items element
        → NetStands m tasks.new.items tells }
    ensures ready { result ≡ true → (tells : _) → NetReady tasks.old.items tells → NetReady tasks.new.items tells }
    ensures joined { result ≡ true → IsJoined tasks.old.items tasks.new.items pad element }
    ensures none { result ≡ false → CannotJoin tasks.old.items pad element × (tasks.new ≡ tasks.old) }
    ensures room { vec_capacity tasks.new ≡ vec_capacity tasks.old }
{
    match to_join(tasks.as_slice(), pad, element) {
        Some(two) => {
            merge(tasks, two.from, two.to, room.parts);
            true
        }
        None => false,
    }
}

/// The places of the two tasks that can become one. None where something speaks against it.
fn to_join<S: TaskSource, E: TaskElement, I: Inlet<Out = O>, O: Outlet<Lanes = I::Lanes>>(
    tasks: &[Task<S, E, I, O>],
    pad: u32,
    element: u32,
) -> Option<TwoTasks>
    ensures two { IfSome result (λ two. CanJoinAt tasks.now pad element two.from two.to) }
    ensures none { result ≡ None → CannotJoin tasks.now pad element }
{
    match find_fed(tasks, element) {
        Some(from) => match find_pad(tasks, pad) {
            Some(to) => to_join_at(tasks, from, to, pad, element),
            None => None,
        },
        None => None,
    }
}

/// The places, where two tasks stand there and no lane speaks against it.
fn to_join_at<S: TaskSource, E: TaskElement, I: Inlet<Out = O>, O: Outlet<Lanes = I::Lanes>>(
    tasks: &[Task<S, E, I, O>],
    from: usize,
    to: usize,
    pad: u32,
    element: u32,
) -> Option<TwoTasks>
    requires fed { FedAt tasks.now from element }
    requires has { PadOf tasks.now to pad }
    ensures two { IfSome result (λ two. CanJoinAt tasks.now pad element two.from two.to) }
    ensures none { result ≡ None → CannotJoin tasks.now pad element }
{
    if from == to {
        return None;
    }
    if sends_to_head(&tasks[from], tasks[to].head()) {
        return None;
    }
    if is_sent_to(tasks, element) {
        return None;
    }
    Some(TwoTasks { from, to })
}

/// Room for two numbers of things.
fn room<T>(alloc: Global, first: usize, second: usize) -> Result<Vec<T>, OutOfMemory>
    ensures empty { IfOk result (λ items. items.items ≡ []) }
    ensures room { IfOk result (λ items. first + second ≤ vec_capacity items) }
{
    match first.checked_add(second) {
        Some(count) => Ok(Vec::with_capacity(alloc, count)?),
        None => Err(OutOfMemory),
    }
}

/// The elements of the task at one place come into that at another, before its own.
fn merge<S: TaskSource, E: TaskElement, I: Inlet<Out = O>, O: Outlet<Lanes = I::Lanes>>(
    tasks: &mut Vec<Task<S, E, I, O>>,
    from: usize,
    to: usize,
    parts: Vec<Part<E, O>>,
)
    requires from { from < vec_len tasks.old }
    requires to { to < vec_len tasks.old }
    requires apart { from ≢ to }
    requires empty { parts.items ≡ [] }
    requires room { HasRoomFor tasks.old.items from to (vec_capacity parts) }
    ensures merged { IsMerged tasks.old.items tasks.new.items from to }
    ensures room { vec_capacity tasks.new ≡ vec_capacity tasks.old }
{
    let gave = tasks.remove(from);
    let to = place_without(from, to);
    let last = tasks.len() - 1;
    let was = tasks.swap_remove(to);
    tasks.push_reserved(join_into(gave, was, parts));
    tasks.swap(to, last);
}

/// The place of a thing once another one is taken out.
fn place_without(from: usize, to: usize) -> usize
    requires apart { from ≢ to }
    ensures { MovesUp from result to }
{
    if from < to {
        return to - 1;
    }
    to
}

/// The elements of one task and then those of another, with its head.
fn join_into<S: TaskSource, E: TaskElement, I: Inlet<Out = O>, O: Outlet<Lanes = I::Lanes>>(
    gave: Task<S, E, I, O>,
    was: Task<S, E, I, O>,
    mut parts: Vec<Part<E, O>>,
) -> Task<S, E, I, O>
    requires empty { parts.items ≡ [] }
    requires room { vec_len gave.parts + vec_len was.parts ≤ vec_capacity parts }
    ensures head { result.head ≡ was.head }
    ensures parts { result.parts.items ≡ gave.parts.items ++ was.parts.items }
{
    let (_, mut first) = gave.into_parts();
    let (head, mut second) = was.into_parts();
    append(&mut parts, &mut first);
    append(&mut parts, &mut second);
    Task::new(head, parts)
}

/// Moves all of `more` behind what is there, where there is room for it.
fn append<T: Drop>(items: &mut Vec<T>, more: &mut Vec<T>)
    requires room { vec_len items.old + vec_len more.old ≤ vec_capacity items.old }
    ensures items { items.new.items ≡ items.old.items ++ more.old.items }
    ensures len { vec_len items.new ≡ vec_len items.old + vec_len more.old }
    ensures capacity { vec_capacity items.old ≤ vec_capacity items.new }
{
    if items.append(more).is_err() {}
}
