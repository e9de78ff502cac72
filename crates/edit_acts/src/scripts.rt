//! What stays of a run that the commands of a script edit. Each function's contract is the law.
ghost use Rattle.edit_acts.specs.Evaluated.{ActsKeepEvaluated, RunsAreEvaluated, TurnsKeepEvaluated};
ghost use Rattle.edit_acts.specs.Scripted.{ActsKeepScripts, TurnsKeepScripts};

use crate::laws::{steps_keep_control, trials_keep_control};
use edit_core::edited_is_eval;
use edit_core::laws::feeds_stay;
use flow_model::{TaskElement, TaskSource};
use lane_core::{Inlet, Outlet};

/// Where the next command is answered the entries stay lawful, and no place that they name falls.
pub fn acts_keep_scripts<
    S: TaskSource,
    E: TaskElement,
    I: Inlet<Out = O>,
    O: Outlet<Lanes = I::Lanes>,
>()
    ensures { ActsKeepScripts S.TaskSource E.TaskElement I.Inlet O.Outlet }
{}

/// So it is in each turn of a task, and where all are tried.
pub fn turns_keep_scripts<
    S: TaskSource,
    E: TaskElement,
    I: Inlet<Out = O>,
    O: Outlet<Lanes = I::Lanes>,
>()
    ensures { TurnsKeepScripts S.TaskSource E.TaskElement I.Inlet O.Outlet }
{
    steps_keep_control::<S, E, I, O>();
    trials_keep_control::<S, E, I, O>();
}

/// Where the next command is answered a run fits the evaluation of its graph, if it did so before and its elements owe in order.
pub fn acts_keep_evaluated<
    S: TaskSource,
    E: TaskElement,
    I: Inlet<Out = O>,
    O: Outlet<Lanes = I::Lanes>,
>()
    ensures { ActsKeepEvaluated S.TaskSource E.TaskElement I.Inlet O.Outlet }
{}

/// So it is in each turn of a task, and where all are tried. Where none can move it is so at the moment at which they rest.
pub fn turns_keep_evaluated<
    S: TaskSource,
    E: TaskElement,
    I: Inlet<Out = O>,
    O: Outlet<Lanes = I::Lanes>,
>()
    ensures { TurnsKeepEvaluated S.TaskSource E.TaskElement I.Inlet O.Outlet }
{
    steps_keep_control::<S, E, I, O>();
    trials_keep_control::<S, E, I, O>();
    feeds_stay();
}

/// What crossed the pads of a run that fits the evaluation of its graph is what that gives, cut at these counts.
pub fn runs_are_evaluated<
    S: TaskSource,
    E: TaskElement,
    I: Inlet<Out = O>,
    O: Outlet<Lanes = I::Lanes>,
>()
    ensures { RunsAreEvaluated S.TaskSource E.TaskElement I.Inlet O.Outlet }
{
    edited_is_eval();
}
