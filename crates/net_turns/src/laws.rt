//! Laws of nets.
ghost use Rattle.net_turns.specs.Alone.{LanesStay};
ghost use Rattle.net_turns.specs.Ends.{LinesEnd, StepsTellOver};
ghost use Rattle.net_turns.specs.Turns.{StepsKeepNet};

use flow_model::{TaskElement, TaskSource};
use lane_core::{Inlet, Outlet};

/// Where one of the tasks of a net was stepped, the net stands at a moment to which it has gone on: more has crossed the pads, and more was put
/// out there.
pub fn steps_keep_net<
    S: TaskSource,
    E: TaskElement,
    I: Inlet<Out = O>,
    O: Outlet<Lanes = I::Lanes>,
>()
    ensures { StepsKeepNet S.TaskSource E.TaskElement I.Inlet O.Outlet }
{}

/// Where tasks of lines cannot move, nothing waits at their pads.
///
/// A task that waits for room has its lane full, so the task behind that lane could take from it if nothing held that up in
/// turn; ranks that rise along the lanes exclude that all of them wait for room.
pub fn lines_end<S: TaskSource, E: TaskElement, I: Inlet<Out = O>, O: Outlet<Lanes = I::Lanes>>()
    ensures { LinesEnd S.TaskSource E.TaskElement I.Inlet O.Outlet }
{}

/// Whether the run of a net that cannot move is over or stalled is told by what its tasks answered, and by which of its
/// elements are live and join streams.
pub fn steps_tell_over<
    S: TaskSource,
    E: TaskElement,
    I: Inlet<Out = O>,
    O: Outlet<Lanes = I::Lanes>,
>()
    ensures { StepsTellOver S.TaskSource E.TaskElement I.Inlet O.Outlet }
{}

/// Where each row of the heads of tasks holds one lane or nothing, it holds that lane, or nothing, behind a run that ends without a
/// fault.
pub fn lanes_stay<S: TaskSource, E: TaskElement, I: Inlet<Out = O>, O: Outlet<Lanes = I::Lanes>>()
    ensures { LanesStay S.TaskSource E.TaskElement I.Inlet O.Outlet }
{}
