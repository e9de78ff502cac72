//! What the source pads of tasks have counted.
ghost use Rattle.graph_parts.specs.Counts.{HeadCounted, IsCountOf, PadCounted, PartCounted, TaskCounted, TasksCounted};
ghost use Rattle.graph_parts.specs.Put.{Among, PutBack};

use crate::placing::put_some;
use flow_model::{TaskElement, TaskSource};
use lane_core::{Inlet, Outlet};
use net_task::Task;
use task_pads::Pad;
use task_parts::{Head, Part};

/// How many items crossed a source pad, events counted, and how many of them were buffers.
#[derive(Clone, Copy, Debug, PartialEq, Eq)]
pub struct Count {
    pub items: u64,
    pub buffers: u64,
}

/// What a pad has counted.
fn count_of<O: Outlet>(pad: &Pad<O>) -> Count
    ensures { IsCountOf pad.now result }
{
    Count {
        items: pad.crossed(),
        buffers: pad.buffers(),
    }
}

/// Puts what a pad has counted at its number.
fn count_pad<O: Outlet>(pad: &Pad<O>, counts: &mut Vec<Count>)
    ensures { PutBack (PadCounted pad.now) counts.old.items counts.new.items }
{
    put_some(counts, pad.number() as usize, Some(count_of(pad)));
}

/// Puts what the source pads of an element have counted at their numbers.
fn count_part<E: TaskElement, O: Outlet>(part: &Part<E, O>, counts: &mut Vec<Count>)
    ensures { PutBack (PartCounted part.now) counts.old.items counts.new.items }
{
    let pads = part.pads();
    for place in 0..pads.len() {
        count_pad(&pads[place], counts);
    }
}

/// Puts what the source pads of elements have counted at their numbers.
fn count_parts<E: TaskElement, O: Outlet>(parts: &[Part<E, O>], counts: &mut Vec<Count>)
    ensures { PutBack (Among PartCounted parts.now) counts.old.items counts.new.items }
{
    for place in 0..parts.len() {
        count_part(&parts[place], counts);
    }
}

/// Puts what the pad of a source has counted at its number.
fn count_head<S: TaskSource, I: Inlet, O: Outlet>(head: &Head<S, I, O>, counts: &mut Vec<Count>)
    ensures { PutBack (HeadCounted head.now) counts.old.items counts.new.items }
{
    if let Head::Source(head) = head {
        count_pad(head.pad(), counts);
    }
}

/// Puts what the source pads of a task have counted at their numbers.
fn count_task<S: TaskSource, E: TaskElement, I: Inlet<Out = O>, O: Outlet<Lanes = I::Lanes>>(
    task: &Task<S, E, I, O>,
    counts: &mut Vec<Count>,
)
    ensures { PutBack (TaskCounted task.now) counts.old.items counts.new.items }
{
    count_head(task.head(), counts);
    count_parts(task.parts(), counts);
}

/// Puts what the source pads of tasks have counted at their numbers. That of a pad is its place in its element behind 64
/// places for each element before that, so that a list with 64 places for each element has room for all.
pub fn count_pads<S: TaskSource, E: TaskElement, I: Inlet<Out = O>, O: Outlet<Lanes = I::Lanes>>(
    tasks: &[Task<S, E, I, O>],
    counts: &mut Vec<Count>,
)
    ensures { PutBack (TasksCounted tasks.now) counts.old.items counts.new.items }
{
    for place in 0..tasks.len() {
        count_task(&tasks[place], counts);
    }
}
