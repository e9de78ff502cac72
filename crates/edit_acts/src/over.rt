//! A source pad of a run is linked over a new lane.
ghost use Rattle.edit_acts.specs.Over.{LinkingOverKeepsRun, RunsLinkOver};

use flow_model::{TaskElement, TaskSource};
use lane_core::{Inlet, Outlet};

/// In a run in which pads may be linked over a lane, a task has the source pad and another one the row of the sink pad, and what `link_over`
/// asks of the moment and of the tasks is so.
pub fn runs_link_over<
    S: TaskSource,
    E: TaskElement,
    I: Inlet<Out = O>,
    O: Outlet<Lanes = I::Lanes>,
>()
    ensures { RunsLinkOver S.TaskSource E.TaskElement I.Inlet O.Outlet }
{}

/// A run in which a source pad was linked over a new lane goes on with the edited graph that has the link.
pub fn linking_over_keeps_run<
    S: TaskSource,
    E: TaskElement,
    I: Inlet<Out = O>,
    O: Outlet<Lanes = I::Lanes>,
>()
    ensures { LinkingOverKeepsRun S.TaskSource E.TaskElement I.Inlet O.Outlet }
{}
