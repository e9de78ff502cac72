//! That a probe at a source pad changes nothing of what control has of a run.
ghost use Rattle.edit_acts.specs.Probed.{ProbesKeepControl, ProbesKeepFiles};

use flow_model::{TaskElement, TaskSource};
use lane_core::{Inlet, Outlet};

/// Where a pad got another probe, or lost it, control has the run as it was, at the same moment.
pub fn probes_keep_control<
    S: TaskSource,
    E: TaskElement,
    I: Inlet<Out = O>,
    O: Outlet<Lanes = I::Lanes>,
>()
    ensures { ProbesKeepControl S.TaskSource E.TaskElement I.Inlet O.Outlet }
{}

/// And the elements and sources of the tasks keep their files.
pub fn probes_keep_files<
    S: TaskSource,
    E: TaskElement,
    I: Inlet<Out = O>,
    O: Outlet<Lanes = I::Lanes>,
>()
    ensures { ProbesKeepFiles S.TaskSource E.TaskElement I.Inlet O.Outlet }
{}
