//! Links inside of tasks that lanes join, made, and undone with EOS.
ghost use Rattle.std.specs.Prelude.{◌≡◌, ◌<◌, true, false, None, Some, map, length, slice_get, vec_len, vec_capacity, IfOk, IfErr, IfSome, OnOk};
ghost use Rattle.gst_item.specs.Sticky.{has_flush_stop, stickies};
ghost use Rattle.flow_model.specs.Moment.{Moment};
ghost use Rattle.net_turns.specs.Net.{NetReady, NetStands};
ghost use Rattle.net_turns.specs.Turns.{net_left};
ghost use Rattle.task_parts.specs.Shape.{has_number, part_shape};
ghost use Rattle.task_edits.specs.Inside.{inside_behind};
ghost use Rattle.task_edits.specs.Places.{HasPad};
ghost use Rattle.task_pads.specs.declared.pad.Behind.TheVariants.{Nothing};
ghost use Rattle.net_edits.specs.Inside.{CanLinkIn, FedAll, FedShort, HasBoth, IsEndedInside, IsLinkedInside, IsLinkedOpened, IsOpeningOf, IsTurned, LacksOne, NoneHasBoth, NoneInside, NotEnded, NotLinked, NotLinkedOpened, StandEnded, StandLinked, TiesLinked, TiesUndone, eos_alone};
ghost use Rattle.net_edits.specs.Nets.{NoneHas};

use crate::net::find_task;
use flow_model::{TaskElement, TaskSource};
use gst_item::{Event, Item};
use gst_value::{List, OutOfMemory};
use lane_core::{Inlet, Outlet};
use net_task::Task;
use net_turns::net::Stopped;
use std::alloc::Global;
use task_edits::{Inside, feed, has_element, has_pad, inside_of, sticky_items};
use task_parts::Failure;

/// Why an act of control on the tasks of a net was not done whole.
#[derive(Drop)]
pub enum EditFault {
    /// No memory was left. All is as it was.
    OutOfMemory,
    /// The act was done up to an item that an element of the task at a place refused.
    Failed(Stopped),
}

/// Links the source pad of a number to a sink pad of an element of its task, which takes the sticky events of what crossed the source
/// pad at once, before any other item. What waits at the pad goes that way. Tells whether a task has the pad and the element; where
/// none has, all tasks stay.
pub fn link_inside<S: TaskSource, E: TaskElement, I: Inlet<Out = O>, O: Outlet<Lanes = I::Lanes>>(
    alloc: Global,
    tasks: &mut Vec<Task<S, E, I, O>>,
    pad: u32,
    to: Inside,
) -> Result<bool, EditFault>
    ensures linked { IfOk result (λ done. done ≡ true → IsLinkedInside tasks.old.items tasks.new.items pad to) }
    ensures none { IfOk result (λ done. done ≡ false → NoneHasBoth tasks.old.items pad to.element × (tasks.new ≡ tasks.old)) }
    ensures faults { IfErr result (NotLinked tasks.old.items tasks.new.items pad to) }
    ensures stands { IfOk result (λ done. done ≡ true → (m : Moment) (tells : _) → NetStands m tasks.old.items tells
        → CanLinkIn m tasks.old.items pad to → StandLinked m tasks.new.items tells pad to) }
    ensures ready { (tells : _) → NetReady tasks.old.items tells → NetReady tasks.new.items tells }
    ensures moves { net_left tasks.new.items ≡ net_left tasks.old.items }
    ensures count { length tasks.new.items ≡ length tasks.old.items }
{
    let Some(place) = find_both(tasks.as_slice(), pad, to.element) else {
        return Ok(false);
    };
    let items = match sticky_items(alloc, &tasks[place], pad) {
        Ok(items) => items,
        Err(_) => return Err(EditFault::OutOfMemory),
    };
    match link_at(alloc, tasks, place, pad, to, items) {
        Ok(()) => Ok(true),
        Err(fault) => Err(EditFault::Failed(Stopped { task: place, fault })),
    }
}

/// The sticky events of what crossed the source pad of a number, as items: what a link of the pad inside of its task gives first, taken before that is
/// made. None where no task has the pad.
pub fn opening_items<S: TaskSource, E: TaskElement, I: Inlet<Out = O>, O: Outlet<Lanes = I::Lanes>>(
    alloc: Global,
    tasks: &[Task<S, E, I, O>],
    pad: u32,
) -> Result<Option<List<Item>>, OutOfMemory>
    ensures calm { IfOk result (λ found. IfSome found (λ items. has_flush_stop items ≡ false)) }
    ensures opening { IfOk result (λ found. IfSome found (IsOpeningOf tasks.now pad)) }
    ensures at { IfOk result (λ found. IfSome found (λ items. (m : Moment) (tells : _) → NetStands m tasks.now tells → items ≡ stickies (m.history pad))) }
    ensures none { IfOk result (λ found. found ≡ None → NoneHas tasks.now pad) }
{
    let Some(place) = find_task(tasks, pad) else {
        return Ok(None);
    };
    match sticky_items(alloc, &tasks[place], pad) {
        Ok(items) => Ok(Some(items)),
        Err(wanting) => Err(wanting),
    }
}

/// Links the source pad of a number to a sink pad of an element of its task, which takes the items at once, before any other: those are to be the
/// sticky events of what crossed the source pad, as `opening_items` tells them. What waits at the pad goes that way. Tells whether a task has the
/// pad and the element; where none has, all tasks stay, and the items are given up.
pub fn link_opened<S: TaskSource, E: TaskElement, I: Inlet<Out = O>, O: Outlet<Lanes = I::Lanes>>(
    alloc: Global,
    tasks: &mut Vec<Task<S, E, I, O>>,
    pad: u32,
    to: Inside,
    items: List<Item>,
) -> Result<bool, Stopped>
    requires calm { has_flush_stop items ≡ false }
    ensures linked { IfOk result (λ done. done ≡ true → IsLinkedOpened tasks.old.items tasks.new.items pad to items) }
    ensures none { IfOk result (λ done. done ≡ false → NoneHasBoth tasks.old.items pad to.element × (tasks.new ≡ tasks.old)) }
    ensures faults { IfErr result (NotLinkedOpened tasks.old.items tasks.new.items pad to items) }
    ensures stands { IfOk result (λ done. done ≡ true → (m : Moment) (tells : _) → NetStands m tasks.old.items tells
        → CanLinkIn m tasks.old.items pad to → items ≡ stickies (m.history pad) → StandLinked m tasks.new.items tells pad to) }
    ensures ready { (tells : _) → NetReady tasks.old.items tells → NetReady tasks.new.items tells }
    ensures moves { net_left tasks.new.items ≡ net_left tasks.old.items }
    ensures count { length tasks.new.items ≡ length tasks.old.items }
    ensures room { vec_capacity tasks.new ≡ vec_capacity tasks.old }
{
    let Some(place) = find_both(tasks.as_slice(), pad, to.element) else {
        return Ok(false);
    };
    match link_at(alloc, tasks, place, pad, to, items) {
        Ok(()) => Ok(true),
        Err(fault) => Err(Stopped { task: place, fault }),
    }
}

/// Undoes the link of the source pad of a number that leads to an element of the pad's task, which takes EOS. What waits at the pad
/// stays. Tells whether a task has the pad and it leads inside; else all tasks stay.
pub fn end_inside<S: TaskSource, E: TaskElement, I: Inlet<Out = O>, O: Outlet<Lanes = I::Lanes>>(
    alloc: Global,
    tasks: &mut Vec<Task<S, E, I, O>>,
    pad: u32,
) -> Result<bool, EditFault>
    ensures ended { IfOk result (λ done. done ≡ true → IsEndedInside tasks.old.items tasks.new.items pad) }
    ensures none { IfOk result (λ done. done ≡ false → NoneInside tasks.old.items pad × (tasks.new ≡ tasks.old)) }
    ensures faults { IfErr result (NotEnded tasks.old.items tasks.new.items pad) }
    ensures stands { IfOk result (λ done. done ≡ true → (m : Moment) (tells : _) → NetStands m tasks.old.items tells → StandEnded m tasks.new.items tells pad) }
    ensures ready { (tells : _) → NetReady tasks.old.items tells → NetReady tasks.new.items tells }
    ensures moves { net_left tasks.new.items ≡ net_left tasks.old.items }
    ensures count { length tasks.new.items ≡ length tasks.old.items }
    ensures room { vec_capacity tasks.new ≡ vec_capacity tasks.old }
{
    let Some(place) = find_task(tasks.as_slice(), pad) else {
        return Ok(false);
    };
    let Some(to) = inside_of(&tasks[place], pad) else {
        return Ok(false);
    };
    let items = match only_eos(alloc) {
        Ok(items) => items,
        Err(_) => return Err(EditFault::OutOfMemory),
    };
    match end_at(alloc, tasks, place, pad, to, items) {
        Ok(()) => Ok(true),
        Err(fault) => Err(EditFault::Failed(Stopped { task: place, fault })),
    }
}

/// EOS alone.
fn only_eos(alloc: Global) -> Result<List<Item>, OutOfMemory>
    ensures { IfOk result (λ items. items ≡ eos_alone) }
{
    let mut items = List::new(alloc);
    items.push(alloc, Item::Event(Event::Eos))?;
    Ok(items)
}

/// The place of the task that has the source pad and the element of these numbers.
fn find_both<S: TaskSource, E: TaskElement, I: Inlet<Out = O>, O: Outlet<Lanes = I::Lanes>>(
    tasks: &[Task<S, E, I, O>],
    pad: u32,
    element: u32,
) -> Option<usize>
    ensures there { IfSome result (HasBoth tasks.now pad element) }
    ensures none { result ≡ None → NoneHasBoth tasks.now pad element }
{
    for place in 0..tasks.len() {
        if has_both(&tasks[place], pad, element) {
            return Some(place);
        }
    }
    None
}

/// Whether a task has the source pad and the element of these numbers.
fn has_both<S: TaskSource, E: TaskElement, I: Inlet<Out = O>, O: Outlet<Lanes = I::Lanes>>(
    task: &Task<S, E, I, O>,
    pad: u32,
    element: u32,
) -> bool
    ensures there { result ≡ true → HasPad task.now.head task.now.parts.items pad × (has_number element (map part_shape task.now.parts.items) ≡ true) }
    ensures none { result ≡ false → LacksOne task.now pad element }
{
    if !has_pad(task, pad) {
        return false;
    }
    has_element(task, element)
}

/// Links a pad of the task at a place to an element of the task, which takes the items.
fn link_at<S: TaskSource, E: TaskElement, I: Inlet<Out = O>, O: Outlet<Lanes = I::Lanes>>(
    alloc: Global,
    tasks: &mut Vec<Task<S, E, I, O>>,
    place: usize,
    pad: u32,
    to: Inside,
    items: List<Item>,
) -> Result<(), Failure>
    requires place { place < vec_len tasks.old }
    requires there { (task : _) → slice_get tasks.old.items place ≡ Some task → has_number to.element (map part_shape task.parts.items) ≡ true }
    requires calm { has_flush_stop items ≡ false }
    ensures linked { OnOk result (IsTurned tasks.old.items tasks.new.items place pad (inside_behind to) (TiesLinked pad to) (FedAll to items)) }
    ensures faults { IfErr result (λ fault. IsTurned tasks.old.items tasks.new.items place pad (inside_behind to) (TiesLinked
        pad to) (FedShort to items fault)) }
    ensures room { vec_capacity tasks.new ≡ vec_capacity tasks.old }
{
    let last = tasks.len() - 1;
    let task = tasks.swap_remove(place);
    let (task, _) = task_edits::link_inside(task, pad, to);
    let (task, fed) = feed(alloc, task, to.element, to.pad, items);
    tasks.push_reserved(task);
    tasks.swap(place, last);
    fed
}

/// Undoes the link of a pad of the task at a place, and an element of the task takes the items.
fn end_at<S: TaskSource, E: TaskElement, I: Inlet<Out = O>, O: Outlet<Lanes = I::Lanes>>(
    alloc: Global,
    tasks: &mut Vec<Task<S, E, I, O>>,
    place: usize,
    pad: u32,
    to: Inside,
    items: List<Item>,
) -> Result<(), Failure>
    requires place { place < vec_len tasks.old }
    requires there { (task : _) → slice_get tasks.old.items place ≡ Some task → has_number to.element (map part_shape task.parts.items) ≡ true }
    requires calm { has_flush_stop items ≡ false }
    ensures ended { OnOk result (IsTurned tasks.old.items tasks.new.items place pad Nothing (TiesUndone pad) (FedAll to items)) }
    ensures faults { IfErr result (λ fault. IsTurned tasks.old.items tasks.new.items place pad Nothing (TiesUndone pad) (FedShort to items fault)) }
    ensures room { vec_capacity tasks.new ≡ vec_capacity tasks.old }
{
    let last = tasks.len() - 1;
    let task = tasks.swap_remove(place);
    let (task, _) = task_edits::unlink(task, pad);
    let (task, fed) = feed(alloc, task, to.element, to.pad, items);
    tasks.push_reserved(task);
    tasks.swap(place, last);
    fed
}
