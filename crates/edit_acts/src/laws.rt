//! Steps of tasks keep what control has of their run.
ghost use Rattle.edit_acts.specs.Stepping.{FaultsKeepControl, StepsKeepControl, TrialFaultsKeepControl, TrialsKeepControl};

use edit_core::laws::feeds_stay;
use flow_model::{TaskElement, TaskSource};
use lane_core::{Inlet, Outlet};
use net_turns::laws::steps_keep_net;

/// Where one of the tasks was stepped control has the run at the moment to which it has gone on: with the same graph and the same feeders, while
/// more has crossed the pads and more is owed to them.
pub fn steps_keep_control<
    S: TaskSource,
    E: TaskElement,
    I: Inlet<Out = O>,
    O: Outlet<Lanes = I::Lanes>,
>()
    ensures { StepsKeepControl S.TaskSource E.TaskElement I.Inlet O.Outlet }
{
    steps_keep_net::<S, E, I, O>();
    feeds_stay();
}

/// So it is where tasks were stepped one after the other.
pub fn trials_keep_control<
    S: TaskSource,
    E: TaskElement,
    I: Inlet<Out = O>,
    O: Outlet<Lanes = I::Lanes>,
>()
    ensures { TrialsKeepControl S.TaskSource E.TaskElement I.Inlet O.Outlet }
{
    steps_keep_control::<S, E, I, O>();
}

/// Where one of the tasks met a fault control had the run before, with the same graph and the same feeders.
pub fn faults_keep_control<
    S: TaskSource,
    E: TaskElement,
    I: Inlet<Out = O>,
    O: Outlet<Lanes = I::Lanes>,
>()
    ensures { FaultsKeepControl S.TaskSource E.TaskElement I.Inlet O.Outlet }
{}

/// So it is where tasks were stepped one after the other, up to one that met a fault.
pub fn trial_faults_keep_control<
    S: TaskSource,
    E: TaskElement,
    I: Inlet<Out = O>,
    O: Outlet<Lanes = I::Lanes>,
>()
    ensures { TrialFaultsKeepControl S.TaskSource E.TaskElement I.Inlet O.Outlet }
{
    trials_keep_control::<S, E, I, O>();
}
