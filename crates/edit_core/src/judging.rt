//! When the next command can be answered.
ghost use Rattle.std.specs.Prelude.{◌≡◌, ◌<◌, IfOk};
ghost use Rattle.graph_edits.specs.Edited.{Edited};
ghost use Rattle.graph_edits.specs.Graph.{IsEdited};
ghost use Rattle.flow_model.specs.Moment.{Moment};
ghost use Rattle.net_turns.specs.Net.{NetStands};
ghost use Rattle.edit_core.specs.Judging.{AreFresh, IsVerdict, verdict_of};

use flow_model::{TaskElement, TaskSource};
use graph_core::PadPlace;
use graph_edits::EditedGraph;
use gst_value::OutOfMemory;
use lane_core::{Inlet, Outlet};
use net_edits::see_pad;
use net_task::Task;
use script_text::{Command, When};
use std::alloc::Global;
use task_edits::SeenPad;

/// Whether the next command can be answered now.
#[derive(Clone, Copy)]
pub enum Verdict {
    /// It cannot: its buffer does not stand at its pad, and the stream there has not ended before it.
    Waits,
    /// Something that it names is not there.
    Missing,
    /// The stream ended before its place.
    Unreached,
    /// It can be done, or refused for what the graph tells, when so many items have crossed the source pad that it names.
    Reached { items: u64 },
}

/// Whether the next command can be answered now, by the graph as the commands before it left it, and by what stands at the source pads
/// of the tasks.
pub fn judge<S: TaskSource, E: TaskElement, I: Inlet<Out = O>, O: Outlet<Lanes = I::Lanes>>(
    alloc: Global,
    graph: &EditedGraph,
    tasks: &[Task<S, E, I, O>],
    command: &Command,
) -> Result<Verdict, OutOfMemory>
    ensures { IfOk result (λ verdict. (g : Edited) (m : Moment) (tells : _) → IsEdited graph.now g → NetStands m tasks.now tells → AreFresh g m tasks.now
        → IsVerdict g m tasks.now command.now verdict) }
{
    if !graph.has_all(alloc, command)? {
        return Ok(Verdict::Missing);
    }
    match graph.source(alloc, &command.when)? {
        Some(source) => {
            let Some(pad) = graph.source_number(source) else {
                unreachable!()
            };
            Ok(by_pad(&command.when, see_pad(tasks, pad)))
        }
        None => Ok(Verdict::Reached { items: 0 }),
    }
}

/// Whether a command can be answered now, by what is seen of the source pad that it names.
fn by_pad(when: &When, seen: SeenPad) -> Verdict
    ensures { result ≡ verdict_of when.now seen }
{
    match when {
        When::At { buffers, .. } => {
            if seen.has_ended && seen.buffers <= *buffers {
                return Verdict::Unreached;
            }
            if seen.buffers == *buffers && seen.first_is_buffer == Some(true) {
                return Verdict::Reached { items: seen.items };
            }
            Verdict::Waits
        }
        When::NowPad { .. } => {
            if seen.has_ended {
                return Verdict::Unreached;
            }
            Verdict::Reached { items: seen.items }
        }
        When::Now => Verdict::Reached { items: 0 },
    }
}
