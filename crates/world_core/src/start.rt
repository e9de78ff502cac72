//! How a run of a script begins. The function's contract is the law.
ghost use Rattle.world_core.specs.Begins.{RunsBegin};

use flow_model::{TaskElement, TaskSource};
use graph_tasks::laws::tasks_start;
use lane_core::{Inlet, Outlet};

/// Where the run of a launch line begins, each of whose elements is of a task, control has it as the run of a script all of whose commands
/// are still to come.
pub fn runs_begin<S: TaskSource, E: TaskElement, I: Inlet<Out = O>, O: Outlet<Lanes = I::Lanes>>()
    ensures { RunsBegin S.TaskSource E.TaskElement I.Inlet O.Outlet }
{
    tasks_start::<S, E, I, O>();
}
