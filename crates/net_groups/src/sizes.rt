//! How many elements tasks have.
ghost use Rattle.std.specs.Prelude.{◌≤◌, ℕ, length};
ghost use Rattle.net_task.specs.Frame.{frame_of};
ghost use Rattle.net_groups.specs.Places.{FedAt, FeedsIt, HasPad, IsPartOf, PadOf, PartIs};

use crate::places::{feeds, has_pad, has_part};
use flow_model::{TaskElement, TaskSource};
use lane_core::{Inlet, Outlet};
use net_task::Task;

/// How many elements there are at the most in a task of which that of a number is one.
pub(crate) fn most_beside<
    S: TaskSource,
    E: TaskElement,
    I: Inlet<Out = O>,
    O: Outlet<Lanes = I::Lanes>,
>(tasks: &[Task<S, E, I, O>], element: u32) -> usize
    ensures { (k : ℕ) (p : IsPartOf tasks.now k element) → length p.task.parts.items ≤ result }
{
    let mut most = 0;
    for place in 0..tasks.len() {
        most = larger(most, count_beside(&tasks[place], element));
    }
    most
}

/// How many elements there are at the most in a task whose head feeds that of a number from inlets.
pub(crate) fn most_fed<
    S: TaskSource,
    E: TaskElement,
    I: Inlet<Out = O>,
    O: Outlet<Lanes = I::Lanes>,
>(tasks: &[Task<S, E, I, O>], element: u32) -> usize
    ensures { (k : ℕ) (f : FedAt tasks.now k element) → length f.fed.task.parts.items ≤ result }
{
    let mut most = 0;
    for place in 0..tasks.len() {
        most = larger(most, count_fed(&tasks[place], element));
    }
    most
}

/// How many elements there are at the most in a task that has the source pad of a number.
pub(crate) fn most_with<
    S: TaskSource,
    E: TaskElement,
    I: Inlet<Out = O>,
    O: Outlet<Lanes = I::Lanes>,
>(tasks: &[Task<S, E, I, O>], pad: u32) -> usize
    ensures { (k : ℕ) (p : PadOf tasks.now k pad) → length p.task.parts.items ≤ result }
{
    let mut most = 0;
    for place in 0..tasks.len() {
        most = larger(most, count_with(&tasks[place], pad));
    }
    most
}

/// How many elements a task has, if that of a number is one of them.
fn count_beside<S: TaskSource, E: TaskElement, I: Inlet<Out = O>, O: Outlet<Lanes = I::Lanes>>(
    task: &Task<S, E, I, O>,
    element: u32,
) -> usize
    ensures { (place : ℕ) → PartIs task.now.parts.items element place → length task.now.parts.items ≤ result }
{
    if has_part(task.parts(), element) {
        return task.parts().len();
    }
    0
}

/// How many elements a task has, if its head feeds that of a number from inlets.
fn count_fed<S: TaskSource, E: TaskElement, I: Inlet<Out = O>, O: Outlet<Lanes = I::Lanes>>(
    task: &Task<S, E, I, O>,
    element: u32,
) -> usize
    ensures { FeedsIt task.now.head element → length task.now.parts.items ≤ result }
{
    if feeds(task.head(), element) {
        return task.parts().len();
    }
    0
}

/// How many elements a task has, if it has the source pad of a number.
fn count_with<S: TaskSource, E: TaskElement, I: Inlet<Out = O>, O: Outlet<Lanes = I::Lanes>>(
    task: &Task<S, E, I, O>,
    pad: u32,
) -> usize
    ensures { HasPad (frame_of task.now) pad → length task.now.parts.items ≤ result }
{
    if has_pad(task, pad) {
        return task.parts().len();
    }
    0
}

/// The larger one of two numbers.
fn larger(one: usize, other: usize) -> usize
    ensures one { one ≤ result }
    ensures other { other ≤ result }
{
    if one < other {
        return other;
    }
    one
}
