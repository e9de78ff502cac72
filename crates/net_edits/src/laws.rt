//! Laws of nets to whose table a lane is added. Each function does nothing: its contract is the law.
ghost use Rattle.net_edits.specs.NewLanes.{LaneIsNew, LaneMoreReady, LaneMoreStands};

use flow_model::{TaskElement, TaskSource};
use lane_core::{Inlet, Outlet};

/// Tasks that stand do so with a lane more, which none of them uses.
pub fn lane_more_stands<
    S: TaskSource,
    E: TaskElement,
    I: Inlet<Out = O>,
    O: Outlet<Lanes = I::Lanes>,
>()
    ensures { LaneMoreStands S.TaskSource E.TaskElement I.Inlet O.Outlet }
{}

/// Tasks that are ready are so with a lane more.
pub fn lane_more_ready<
    S: TaskSource,
    E: TaskElement,
    I: Inlet<Out = O>,
    O: Outlet<Lanes = I::Lanes>,
>()
    ensures { LaneMoreReady S.TaskSource E.TaskElement I.Inlet O.Outlet }
{}

/// The ends of a lane that was added to the table of tasks are a new lane to them: the lanes of the tasks stand at earlier places.
pub fn lane_is_new<S: TaskSource, E: TaskElement, I: Inlet<Out = O>, O: Outlet<Lanes = I::Lanes>>()
    ensures { LaneIsNew S.TaskSource E.TaskElement I.Inlet O.Outlet }
{}
