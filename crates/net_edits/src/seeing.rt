//! What control sees of the source pads of tasks that lanes join.
ghost use Rattle.std.specs.Prelude.{◌≡◌, []};
ghost use Rattle.flow_model.specs.Moment.{Moment};
ghost use Rattle.net_turns.specs.Net.{NetStands};
ghost use Rattle.net_edits.specs.Nets.{NoneHas};
ghost use Rattle.net_edits.specs.Seeing.{SeesPad, fresh_pad};
ghost use Rattle.task_edits.specs.Seeing.{SeenAt};

use flow_model::{TaskElement, TaskSource};
use lane_core::{Inlet, Outlet};
use net_task::Task;
use task_edits::SeenPad;

/// What is seen of the source pad of a number. A pad that no task has has counted nothing, and nothing waits there.
pub fn see_pad<S: TaskSource, E: TaskElement, I: Inlet<Out = O>, O: Outlet<Lanes = I::Lanes>>(
    tasks: &[Task<S, E, I, O>],
    pad: u32,
) -> SeenPad
    ensures sees { SeesPad tasks.now pad result }
    ensures at { (m : Moment) (tells : _) → NetStands m tasks.now tells → (NoneHas tasks.now pad → m.history pad ≡ []) → SeenAt m pad result }
{
    for place in 0..tasks.len() {
        if let Some(seen) = task_edits::see_pad(&tasks[place], pad) {
            return seen;
        }
    }
    fresh()
}

/// A pad that counted nothing.
fn fresh() -> SeenPad
    ensures { result ≡ fresh_pad }
{
    SeenPad {
        items: 0,
        buffers: 0,
        has_ended: false,
        first_is_buffer: None,
    }
}
