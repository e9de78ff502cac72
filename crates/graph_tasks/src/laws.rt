//! Laws of the tasks of a graph. Each function does nothing: its contract is the law.
ghost use Rattle.graph_tasks.specs.Plan.{ElementsAreThere};
ghost use Rattle.graph_tasks.specs.Readied.{TasksAreReady};
ghost use Rattle.graph_tasks.specs.Start.{TasksStart};

use flow_model::{TaskElement, TaskSource};
use lane_core::{Inlet, Outlet};

/// Where the run of a graph begins its tasks stand as a net.
pub fn tasks_start<S: TaskSource, E: TaskElement, I: Inlet<Out = O>, O: Outlet<Lanes = I::Lanes>>()
    ensures { TasksStart S.TaskSource E.TaskElement I.Inlet O.Outlet }
{}

/// What the wired tasks of a graph are made of is there, where each element of the graph is.
pub fn elements_are_there<
    S: TaskSource,
    E: TaskElement,
    I: Inlet<Out = O>,
    O: Outlet<Lanes = I::Lanes>,
>()
    ensures { ElementsAreThere S.TaskSource E.TaskElement I.Inlet O.Outlet }
{}

/// The tasks of a graph are ready to be stepped.
pub fn tasks_are_ready<
    S: TaskSource,
    E: TaskElement,
    I: Inlet<Out = O>,
    O: Outlet<Lanes = I::Lanes>,
>()
    ensures { TasksAreReady S.TaskSource E.TaskElement I.Inlet O.Outlet }
{}
