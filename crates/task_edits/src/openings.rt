//! What a sink pad is given first to which a source pad of a task is linked anew.
ghost use Rattle.std.specs.Prelude.{IfOk};
ghost use Rattle.task_edits.specs.Openings.{HeadOpens, IsOpening, IsSource, OpensAt};
ghost use Rattle.task_edits.specs.Places.{HasPad};

use crate::places::{PadAt, find};
use flow_model::{TaskElement, TaskSource};
use gst_item::Event;
use gst_value::{List, OutOfMemory};
use lane_core::{Inlet, Outlet};
use net_task::Task;
use std::alloc::Global;
use task_pads::Pad;
use task_parts::Head;

/// What a sink pad is given first to which a source pad is linked anew: the sticky events of what crossed the source pad, in the order STREAM_START, CAPS,
/// SEGMENT, TAG, EOS. And the place that the source pad has reached: how many items crossed it.
#[derive(Drop)]
pub struct Opening {
    pub events: List<Event>,
    pub from: u64,
}

/// The opening at the source pad of a number.
pub fn opening_at<S: TaskSource, E: TaskElement, I: Inlet<Out = O>, O: Outlet<Lanes = I::Lanes>>(
    alloc: Global,
    task: &Task<S, E, I, O>,
    pad: u32,
) -> Result<Opening, OutOfMemory>
    requires there { HasPad task.now.head task.now.parts.items pad }
    ensures { IfOk result (OpensAt task.now.head task.now.parts.items pad) }
{
    match find(task.head(), task.parts(), pad) {
        Some(PadAt::Source) => opening_of_head(alloc, task.head()),
        Some(PadAt::Part { place, port }) => opening_of(alloc, &task.parts()[place].pads()[port]),
        None => unreachable!(),
    }
}

/// The opening at the pad of a source.
fn opening_of_head<S: TaskSource, I, O: Outlet>(
    alloc: Global,
    head: &Head<S, I, O>,
) -> Result<Opening, OutOfMemory>
    requires source { IsSource head.now }
    ensures { IfOk result (HeadOpens head.now) }
{
    match head {
        Head::Source(source) => opening_of(alloc, source.pad()),
        Head::Inlets(_) => unreachable!(),
    }
}

/// The opening at a pad.
fn opening_of<O: Outlet>(alloc: Global, pad: &Pad<O>) -> Result<Opening, OutOfMemory>
    ensures { IfOk result (IsOpening pad.now) }
{
    match pad.stickies(alloc) {
        Ok(events) => Ok(Opening {
            events,
            from: pad.crossed(),
        }),
        Err(wanting) => Err(wanting),
    }
}
