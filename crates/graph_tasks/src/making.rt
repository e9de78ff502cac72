//! The tasks of a graph, made of their wired tasks and of elements. All the memory is taken before the elements are there.
ghost use Rattle.std.specs.Prelude.{◌≡◌, ◌≤◌, [], ◌∷◌, List, IfOk, length, map, vec_len, vec_capacity, Some};
ghost use Rattle.std.specs.List.{AllZip};
ghost use Rattle.std.specs.VecDeque.{deque_len};
ghost use Rattle.graph_parts.specs.Bags.{Once};
ghost use Rattle.graph_tasks.specs.Making.{IsHeadFrom, IsPartFrom, IsTaskFrom};
ghost use Rattle.graph_tasks.specs.Plan.{AreAt, ElementAt, HeadAt, IsThere, without};
ghost use Rattle.graph_tasks.specs.Wired.{number_in, source_in};

use crate::taking::take_there;
use crate::wired_task::{WiredHead, WiredPart, WiredTask};
use flow_model::{TaskElement, TaskSource};
use gst_value::OutOfMemory;
use lane_core::{Inlet, Outlet};
use net_task::Task;
use std::alloc::Global;
use std::collections::VecDeque;
use task_parts::{Head, InletHead, Part, SourceHead};

/// A wired task, with room for its elements.
#[derive(Drop)]
pub struct Slot<E: TaskElement, I, O> {
    pub wired: WiredTask<I, O>,
    pub parts: Vec<Part<E, O>>,
    ghost empty: { vec_len parts ≡ 0 },
    ghost room: { deque_len wired.parts ≤ vec_capacity parts },
}

/// The wired tasks of a graph, with room for the tasks that are made of them.
#[derive(Drop)]
pub struct Plan<S: TaskSource, E: TaskElement, I: Inlet<Out = O>, O: Outlet<Lanes = I::Lanes>> {
    alloc: Global,
    slots: VecDeque<Slot<E, I, O>>,
    tasks: Vec<Task<S, E, I, O>>,
    ghost empty: { vec_len tasks ≡ 0 },
    ghost room: { deque_len slots ≤ vec_capacity tasks },
}

impl<S: TaskSource, E: TaskElement, I: Inlet<Out = O>, O: Outlet<Lanes = I::Lanes>> Plan<
    S,
    E,
    I,
    O,
> {
    ghost use Rattle.graph_core.specs.Elements.{Made};
    ghost use Rattle.graph_pads.specs.declared.pad.PadLink.{PadLink};
    ghost use Rattle.graph_parts.specs.declared.bag.Bag.{Bag};
    ghost use Rattle.lane_core.specs.Lane.{Lane};
    ghost use Rattle.graph_tasks.specs.Plan.{AreThere};
    ghost use Rattle.graph_tasks.specs.Planned.{planned};
    ghost use Rattle.graph_tasks.specs.Tasks.{AreTasks};
    ghost use Rattle.graph_tasks.specs.Wired.{AreWired, part_numbers, source_numbers};

    /// Takes the memory for the tasks that are made of these.
    pub fn new(
        alloc: Global,
        tasks: VecDeque<WiredTask<I, O>>,
    ) -> Result<Plan<S, E, I, O>, OutOfMemory>
        ensures { IfOk result (λ plan. planned plan ≡ tasks.items) }
    {
        let room = Vec::with_capacity(alloc, tasks.len())?;
        let slots = slots_of(alloc, tasks)?;
        Ok(Plan {
            alloc,
            slots,
            tasks: room,
        })
    }

    /// The tasks, in their order. Each element and each source is taken from under its number. It takes no memory.
    pub fn into_tasks(
        self,
        elements: &mut Vec<Option<E>>,
        sources: &mut Vec<Option<S>>,
    ) -> Vec<Task<S, E, I, O>>
        requires there { AreThere S.TaskSource E.TaskElement (planned self) elements.old.items sources.old.items }
        ensures tasks { (made : List Made) (links : List PadLink) (bags : List Bag) (table : List Lane)
            → AreWired I.Inlet O.Outlet made links bags (planned self) table
            → AreTasks I.Inlet O.Outlet made links elements.old.items sources.old.items bags result.items table }
        ensures elements_left { elements.new.items ≡ without (part_numbers (planned self)) elements.old.items }
        ensures sources_left { sources.new.items ≡ without (source_numbers (planned self)) sources.old.items }
    {
        let Plan {
            alloc,
            mut slots,
            mut tasks,
        } = self;
        while let Some(slot) = slots.pop_front() {
            tasks.push_reserved(task_from(alloc, slot, elements, sources));
        }
        tasks
    }
}

/// Each wired task with room for its elements.
fn slots_of<E: TaskElement, I: Drop, O: Drop>(
    alloc: Global,
    tasks: VecDeque<WiredTask<I, O>>,
) -> Result<VecDeque<Slot<E, I, O>>, OutOfMemory>
    ensures tasks { IfOk result (λ slots. map (λ slot. slot.wired) slots.items ≡ tasks.items) }
    ensures count { IfOk result (λ slots. deque_len slots ≡ deque_len tasks) }
{
    let mut slots = VecDeque::with_capacity(alloc, tasks.len())?;
    let mut rest = tasks;
    while let Some(wired) = rest.pop_front() {
        let slot = slot_of(alloc, wired)?;
        slots.push_back_reserved(slot);
    }
    Ok(slots)
}

/// A wired task with room for its elements.
fn slot_of<E: TaskElement, I: Drop, O: Drop>(
    alloc: Global,
    wired: WiredTask<I, O>,
) -> Result<Slot<E, I, O>, OutOfMemory>
    ensures { IfOk result (λ slot. slot.wired ≡ wired) }
{
    let parts = Vec::with_capacity(alloc, wired.parts.len())?;
    Ok(Slot { wired, parts })
}

/// The task of a wired task, with its elements or its source from under their numbers.
fn task_from<S: TaskSource, E: TaskElement, I: Inlet<Out = O>, O: Outlet<Lanes = I::Lanes>>(
    alloc: Global,
    slot: Slot<E, I, O>,
    elements: &mut Vec<Option<E>>,
    sources: &mut Vec<Option<S>>,
) -> Task<S, E, I, O>
    requires there { IsThere S.TaskSource E.TaskElement elements.old.items sources.old.items slot.wired }
    requires once { Once (map number_in slot.wired.parts.items) }
    ensures task { IsTaskFrom elements.old.items sources.old.items slot.wired result }
    ensures elements_left { elements.new.items ≡ without (map number_in slot.wired.parts.items) elements.old.items }
    ensures sources_left { sources.new.items ≡ without (source_in slot.wired.head) sources.old.items }
{
    let Slot { wired, parts: room } = slot;
    let WiredTask { head, parts } = wired;
    let parts = parts_from(alloc, parts, room, elements);
    let head = head_from(head, sources);
    Task::new(head, parts)
}

/// The elements of a task with their pads, in their order, for which there is room.
fn parts_from<E: TaskElement, O: Outlet>(
    alloc: Global,
    wired: VecDeque<WiredPart<O>>,
    room: Vec<Part<E, O>>,
    elements: &mut Vec<Option<E>>,
) -> Vec<Part<E, O>>
    requires empty { vec_len room ≡ 0 }
    requires room { deque_len wired ≤ vec_capacity room }
    requires there { AreAt E.TaskElement elements.old.items wired.items }
    requires once { Once (map number_in wired.items) }
    ensures parts { AllZip (IsPartFrom elements.old.items) wired.items result.items }
    ensures left { elements.new.items ≡ without (map number_in wired.items) elements.old.items }
{
    let mut rest = wired;
    let mut parts = room;
    while let Some(part) = rest.pop_front() {
        parts.push_reserved(part_from(alloc, part, elements));
    }
    parts
}

/// An element with its pads.
fn part_from<E: TaskElement, O: Outlet>(
    alloc: Global,
    wired: WiredPart<O>,
    elements: &mut Vec<Option<E>>,
) -> Part<E, O>
    requires there { ElementAt E.TaskElement elements.old.items wired.number (length wired.pads.items) }
    ensures part { IsPartFrom elements.old.items wired result }
    ensures left { elements.new.items ≡ without (wired.number ∷ []) elements.old.items }
{
    let WiredPart { number, pads } = wired;
    let element = take_there(elements, number);
    Part::new(alloc, number, element, pads)
}

/// The head of a task: its source, or the rows of its element.
fn head_from<S: TaskSource, I, O: Outlet>(
    wired: WiredHead<I, O>,
    sources: &mut Vec<Option<S>>,
) -> Head<S, I, O>
    requires there { HeadAt S.TaskSource sources.old.items wired }
    ensures head { IsHeadFrom sources.old.items wired result }
    ensures left { sources.new.items ≡ without (source_in wired) sources.old.items }
{
    match wired {
        WiredHead::Source { number, pad } => {
            let source = take_there(sources, number);
            Head::Source(SourceHead::new(number, source, pad))
        }
        WiredHead::Inlets { number, hint, rows } => {
            Head::Inlets(InletHead::new(number, hint, rows))
        }
    }
}
