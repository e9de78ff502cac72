//! A task more and a task less among tasks that lanes join.
ghost use Rattle.std.specs.List.{insert, remove};
ghost use Rattle.std.specs.Prelude.{◌≡◌, ◌≤◌, ◌<◌, ◌+◌, ℕ, List, Some, slice_get, vec_len, vec_capacity};
ghost use Rattle.flow_model.specs.Item.{Item};
ghost use Rattle.flow_model.specs.Moment.{CellStands, Moment};
ghost use Rattle.net_task.specs.Frame.{frame_of};
ghost use Rattle.net_task.specs.Fuel.{moves_left};
ghost use Rattle.net_task.specs.Ready.{IsReady};
ghost use Rattle.net_task.specs.Ties.{Ties};
ghost use Rattle.net_turns.specs.Net.{IsPlain, NetReady, NetStands, SendsInto};
ghost use Rattle.net_turns.specs.Turns.{net_left};
ghost use Rattle.net_edits.specs.Adding.{CanTake, HoldsNothingNew, IsAdded, IsCut, IsFresh, IsOnly, NoneOwns, frozen};

use flow_model::{TaskElement, TaskSource};
use lane_core::{Inlet, Outlet};
use net_task::Task;

/// A task of one element that took nothing, or of a source that gave nothing, and that no link touches, comes to the tasks of a
/// net, at a place among them. Room for it was taken before, so it takes no memory.
pub fn add_task<S: TaskSource, E: TaskElement, I: Inlet<Out = O>, O: Outlet<Lanes = I::Lanes>>(
    tasks: &mut Vec<Task<S, E, I, O>>,
    place: usize,
    task: Task<S, E, I, O>,
)
    requires place { place ≤ vec_len tasks.old }
    requires room { vec_len tasks.old < vec_capacity tasks.old }
    ensures added { tasks.new.items ≡ insert tasks.old.items place task }
    ensures room { vec_capacity tasks.new ≡ vec_capacity tasks.old }
    ensures moves { net_left tasks.new.items ≡ net_left tasks.old.items + moves_left task }
    ensures stands { (m m' : Moment) (tells : _) (n : ℕ) → NetStands m tasks.old.items tells → IsAdded m m' n task.head
        → NoneOwns tasks.old.items n → IsFresh task n
        → IsPlain m'.plan → Ties task m' → IsReady tells task → CellStands m' n → NetStands m' tasks.new.items tells }
    ensures ready { (tells : _) (n : ℕ) → NetReady tasks.old.items tells → NoneOwns tasks.old.items n → IsFresh task n
        → IsReady tells task → NetReady tasks.new.items tells }
{
    insert_reserved(tasks, place, task)
}

/// Puts an item at a place of a vector that has room for it.
fn insert_reserved<T: Drop>(items: &mut Vec<T>, place: usize, item: T)
    requires place { place ≤ vec_len items.old }
    requires room { vec_len items.old < vec_capacity items.old }
    ensures items { items.new.items ≡ insert items.old.items place item }
    ensures room { vec_capacity items.new ≡ vec_capacity items.old }
{
    if items.insert(place, item).is_err() {
        unreachable!()
    }
}

/// The task at a place, whose only element no link touches, is taken out of a net. What it still holds is given up. The
/// others stay in their order.
pub fn take_task<S: TaskSource, E: TaskElement, I: Inlet<Out = O>, O: Outlet<Lanes = I::Lanes>>(
    tasks: &mut Vec<Task<S, E, I, O>>,
    place: usize,
) -> Task<S, E, I, O>
    requires place { place < vec_len tasks.old }
    ensures task { slice_get tasks.old.items place ≡ Some result }
    ensures taken { tasks.new.items ≡ remove tasks.old.items place }
    ensures room { vec_capacity tasks.new ≡ vec_capacity tasks.old }
    ensures moves { net_left tasks.new.items + moves_left result ≡ net_left tasks.old.items }
    ensures stands { (m : Moment) (tells : _) (n : ℕ) (cut : ℕ → List Item) → NetStands m tasks.old.items tells → CanTake m n (frame_of result) → IsCut m n cut
        → NetStands (frozen n cut m) tasks.new.items tells }
    ensures ready { (tells : _) (n : ℕ) → NetReady tasks.old.items tells → IsOnly (frame_of result) n
        → ((k p lane from port : ℕ) → SendsInto tasks.old.items k p lane from n port → ⊥) → NetReady tasks.new.items tells }
{
    tasks.remove(place)
}

/// Where nothing stands in a row of a net, nothing does behind a step, and where no lane stands in it none comes.
pub fn holds_nothing_new<
    S: TaskSource,
    E: TaskElement,
    I: Inlet<Out = O>,
    O: Outlet<Lanes = I::Lanes>,
>()
    ensures { HoldsNothingNew S.TaskSource E.TaskElement I.Inlet O.Outlet }
{}
