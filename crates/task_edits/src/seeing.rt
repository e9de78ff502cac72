//! What control sees of the source pads of a task between its steps.
ghost use Rattle.std.specs.Prelude.{◌≡◌, ◌<◌, List, None, Option, Some, IfSome, slice_get, vec_len};
ghost use Rattle.flow_model.specs.Item.{Item};
ghost use Rattle.flow_model.specs.Moment.{Moment};
ghost use Rattle.net_task.specs.Ties.{Ties};
ghost use Rattle.task_pads.specs.Pads.{first_is_buffer};
ghost use Rattle.task_parts.specs.Part.{waits_at};
ghost use Rattle.task_edits.specs.Places.{HasNoPad};
ghost use Rattle.task_edits.specs.Seeing.{HasCounted, HeadSeen, IsSeen, SeenAt};

use crate::places::{PadAt, find};
use flow_model::{TaskElement, TaskSource};
use lane_core::{Inlet, Outlet};
use net_task::Task;
use task_pads::Pad;
use task_parts::{Head, Part};

/// A source pad between two steps of its task.
#[derive(Clone, Copy)]
pub struct SeenPad {
    /// How many items crossed it, events counted.
    pub items: u64,
    /// How many of them were buffers.
    pub buffers: u64,
    /// Whether EOS crossed it since the last FLUSH_STOP.
    pub has_ended: bool,
    /// Whether what waits first at it is a buffer. None where nothing waits.
    pub first_is_buffer: Option<bool>,
}

/// What is seen of the source pad of a number. None where the task has no such pad.
pub fn see_pad<S: TaskSource, E: TaskElement, I: Inlet<Out = O>, O: Outlet<Lanes = I::Lanes>>(
    task: &Task<S, E, I, O>,
    pad: u32,
) -> Option<SeenPad>
    ensures seen { IfSome result (IsSeen task.now.head task.now.parts.items pad) }
    ensures at { IfSome result (λ seen. (m : Moment) → Ties task.now m → SeenAt m pad seen) }
    ensures none { result ≡ None → HasNoPad task.now.head task.now.parts.items pad }
{
    match find(task.head(), task.parts(), pad) {
        Some(PadAt::Source) => see_source(task.head()),
        Some(PadAt::Part { place, port }) => Some(see_port(&task.parts()[place], port)),
        None => None,
    }
}

/// What is seen of the pad of a source. None where the head is no source.
fn see_source<S: TaskSource, I, O: Outlet>(head: &Head<S, I, O>) -> Option<SeenPad>
    ensures { HeadSeen head.now result }
{
    match head {
        Head::Source(source) => {
            let pad = source.pad();
            Some(see(pad, pad.first_is_buffer()))
        }
        Head::Inlets(_) => None,
    }
}

/// What is seen of the pad of a port of an element.
fn see_port<E: TaskElement, O: Outlet>(part: &Part<E, O>, port: usize) -> SeenPad
    requires { port < vec_len part.now.pads }
    ensures { (pad : _) → slice_get part.now.pads.items port ≡ Some pad → HasCounted pad (waits_at part.now port pad) result }
{
    see(&part.pads()[port], part.first_is_buffer(port))
}

/// What is seen of a pad, where this is told of what waits first at it.
fn see<O: Outlet>(pad: &Pad<O>, first: Option<bool>) -> SeenPad
    ensures { (waits : List Item) → first ≡ first_is_buffer waits → HasCounted pad.now waits result }
{
    SeenPad {
        items: pad.crossed(),
        buffers: pad.buffers(),
        has_ended: pad.has_ended(),
        first_is_buffer: first,
    }
}
