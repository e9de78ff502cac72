//! An element that no link touches is taken away.
ghost use Rattle.std.specs.Prelude.{◌≡◌, ◌≢◌, ◌≤◌, ◌<◌, ◌↔◌, ◌++◌, ℕ, List, true, false, None, Some, IfSome, IsTrue, length, slice_get};
ghost use Rattle.flow_model.specs.Item.{Item};
ghost use Rattle.edit_core.specs.declared.feeds.Feeds.{Feeds};
ghost use Rattle.graph_edits.specs.Edited.{Edited, without_element};
ghost use Rattle.graph_edits.specs.Graph.{IsEdited, made};
ghost use Rattle.net_edits.specs.Adding.{CanTake, IsCut, IsOnly, NoneOwns, frozen};
ghost use Rattle.flow_model.specs.Moment.{Moment};
ghost use Rattle.net_task.specs.Frame.{frame_of};
ghost use Rattle.net_turns.specs.Net.{HasElement, NetReady, NetStands, Owns};
ghost use Rattle.edit_acts.specs.Files.{KeepFiles, taken_task};
ghost use Rattle.edit_acts.specs.Removed.{HasOther, IsFree, IsRemoved, IsShared, IsSourceOf, IsToRemove, TakesOut, UnlinkedIsAlone};

use flow_model::{TaskElement, TaskSource};
use graph_edits::EditedGraph;
use lane_core::{Inlet, Outlet};
use net_edits::take_task;
use net_groups::is_sent_to;
use net_task::Task;
use task_edits::has_element;
use task_parts::{Head, Part};

/// A task that was taken out of the tasks of a run, with all that it still holds: its file is still open.
#[derive(Drop)]
pub struct TakenOut<S: TaskSource, E: TaskElement, I: Inlet<Out = O>, O: Outlet<Lanes = I::Lanes>> {
    /// The place at which it stood among the tasks.
    pub place: usize,
    pub task: Task<S, E, I, O>,
}

/// An element that no link touches is alone in its task, and can be taken out of a run with it.
pub fn unlinked_is_alone<
    S: TaskSource,
    E: TaskElement,
    I: Inlet<Out = O>,
    O: Outlet<Lanes = I::Lanes>,
>()
    ensures { UnlinkedIsAlone S.TaskSource E.TaskElement I.Inlet O.Outlet }
{}

/// Whether an element can be taken out of tasks: a task that has it has no other, and no pad leads to it over a lane.
pub fn is_free<S: TaskSource, E: TaskElement, I: Inlet<Out = O>, O: Outlet<Lanes = I::Lanes>>(
    tasks: &[Task<S, E, I, O>],
    element: u32,
) -> bool
    ensures { IsTrue result ↔ IsFree tasks.now element }
{
    if is_sent_to(tasks, element) {
        return false;
    }
    for place in 0..tasks.len() {
        if is_shared(&tasks[place], element) {
            return false;
        }
    }
    true
}

/// Takes an element away, in the tasks and in the graph; what control keeps of it stays. Tells its task, which is taken out of the tasks with all
/// that it still holds: its file is still open then. None where no task has the element, as with a source that is asleep. The other tasks stay in
/// their order. A graph that never had the element stays. It takes no memory.
pub fn remove<S: TaskSource, E: TaskElement, I: Inlet<Out = O>, O: Outlet<Lanes = I::Lanes>>(
    graph: &mut EditedGraph,
    tasks: &mut Vec<Task<S, E, I, O>>,
    element: u32,
) -> Option<TakenOut<S, E, I, O>>
    ensures taken { TakesOut tasks.old.items tasks.new.items element result }
    ensures files { KeepFiles tasks.old.items (tasks.new.items ++ taken_task result) }
    ensures graph { (g : Edited) → element < length (made graph.old) → IsEdited graph.old g → IsEdited graph.new (without_element element g) }
    ensures outside { length (made graph.old) ≤ element → graph.new ≡ graph.old }
    ensures made { made graph.new ≡ made graph.old }
    ensures run { (feeds : Feeds) (g : Edited) (m : Moment) (tells : _) → IsToRemove graph.old feeds tasks.old.items g m tells element
        → IsRemoved graph.new feeds tasks.new.items g m tells element result }
    ensures ready { (tells : _) → NetReady tasks.old.items tells → IsFree tasks.old.items element → NetReady tasks.new.items tells }
{
    if element >= graph.count() {
        return take_out(tasks, element);
    }
    graph.remove(element);
    take_out(tasks, element)
}

/// Takes the task that has an element out of the tasks. None where no task has it.
fn take_out<S: TaskSource, E: TaskElement, I: Inlet<Out = O>, O: Outlet<Lanes = I::Lanes>>(
    tasks: &mut Vec<Task<S, E, I, O>>,
    element: u32,
) -> Option<TakenOut<S, E, I, O>>
    ensures taken { TakesOut tasks.old.items tasks.new.items element result }
    ensures files { KeepFiles tasks.old.items (tasks.new.items ++ taken_task result) }
    ensures stands { IfSome result (λ taken. (m : Moment) (tells : _) (cut : ℕ → List Item) → NetStands m tasks.old.items tells
        → CanTake m element (frame_of taken.task) → IsCut m element cut → NetStands (frozen element cut m) tasks.new.items tells) }
    ensures ready { (tells : _) → NetReady tasks.old.items tells → IsFree tasks.old.items element → NetReady tasks.new.items tells }
{
    match place_of(tasks.as_slice(), element) {
        Some(place) => {
            let task = take_task(tasks, place);
            Some(TakenOut { place, task })
        }
        None => None,
    }
}

/// The place of the task that has an element.
fn place_of<S: TaskSource, E: TaskElement, I: Inlet<Out = O>, O: Outlet<Lanes = I::Lanes>>(
    tasks: &[Task<S, E, I, O>],
    element: u32,
) -> Option<usize>
    ensures there { IfSome result (λ place. Owns tasks.now place element) }
    ensures within { IfSome result (λ place. place < length tasks.now) }
    ensures none { result ≡ None → NoneOwns tasks.now element }
{
    for place in 0..tasks.len() {
        if is_of_task(&tasks[place], element) {
            return Some(place);
        }
    }
    None
}

/// Whether an element is one of a task, or its source.
fn is_of_task<S: TaskSource, E: TaskElement, I: Inlet<Out = O>, O: Outlet<Lanes = I::Lanes>>(
    task: &Task<S, E, I, O>,
    element: u32,
) -> bool
    ensures there { result ≡ true → HasElement (frame_of task.now) element }
    ensures none { result ≡ false → HasElement (frame_of task.now) element → ⊥ }
{
    if is_source(task.head(), element) {
        return true;
    }
    has_element(task, element)
}

/// Whether a head is the source of a number.
fn is_source<S: TaskSource, I, O: Outlet>(head: &Head<S, I, O>, element: u32) -> bool
    ensures is { result ≡ true → IsSourceOf head.now element }
    ensures not { result ≡ false → IsSourceOf head.now element → ⊥ }
{
    match head {
        Head::Source(source) => source.number() == element,
        Head::Inlets(_) => false,
    }
}

/// Whether a task has an element together with another one.
fn is_shared<S: TaskSource, E: TaskElement, I: Inlet<Out = O>, O: Outlet<Lanes = I::Lanes>>(
    task: &Task<S, E, I, O>,
    element: u32,
) -> bool
    ensures shared { result ≡ true → IsShared (frame_of task.now) element }
    ensures alone { result ≡ false → HasElement (frame_of task.now) element → IsOnly (frame_of task.now) element }
{
    if !is_of_task(task, element) {
        return false;
    }
    if has_other_source(task.head(), element) {
        return true;
    }
    has_other(task.parts(), element)
}

/// Whether a head is a source of another number.
fn has_other_source<S: TaskSource, I, O: Outlet>(head: &Head<S, I, O>, element: u32) -> bool
    ensures other { result ≡ true → (n : ℕ) × IsSourceOf head.now n × (n ≢ element) }
    ensures none { result ≡ false → (n : ℕ) → IsSourceOf head.now n → n ≡ element }
{
    match head {
        Head::Source(source) => source.number() != element,
        Head::Inlets(_) => false,
    }
}

/// Whether one of these elements has another number.
fn has_other<E: TaskElement, O: Outlet>(parts: &[Part<E, O>], element: u32) -> bool
    ensures other { result ≡ true → HasOther parts.now element }
    ensures none { result ≡ false → (j : ℕ) (part : Part E O E.TaskElement) → slice_get parts.now j ≡ Some part → part.number ≡ element }
{
    for place in 0..parts.len() {
        if parts[place].number() != element {
            return true;
        }
    }
    false
}
