//! Whether the run of a graph that cannot move is over, and why its tasks cannot go on. Each function does nothing: its contract is
//! the law.
ghost use Rattle.graph_tasks.specs.Over.{LinesTellOver, RunsTellOver};
ghost use Rattle.graph_tasks.specs.Stalled.{TasksAreStuck};

use flow_model::{TaskElement, TaskSource};
use gst_outside::Sink;
use lane_core::{Inlet, Outlet};
use net_turns::laws::{lines_end, steps_tell_over};
use task_elements::StreamElement;

/// Where no task of a graph can move, the steps that they answered tell whether the run is over, and EOS came to each live sink, or
/// it is stalled.
pub fn runs_tell_over<S: TaskSource, K: Sink, I: Inlet<Out = O>, O: Outlet<Lanes = I::Lanes>>()
    ensures { RunsTellOver K.Sink S.TaskSource ⟦<StreamElement<K> as TaskElement>⟧ I.Inlet O.Outlet }
{
    steps_tell_over::<S, StreamElement<K>, I, O>();
}

/// Where no task of a graph can move that joins no streams, its run is over.
pub fn lines_tell_over<S: TaskSource, K: Sink, I: Inlet<Out = O>, O: Outlet<Lanes = I::Lanes>>()
    ensures { LinesTellOver K.Sink S.TaskSource ⟦<StreamElement<K> as TaskElement>⟧ I.Inlet O.Outlet }
{
    lines_end::<S, StreamElement<K>, I, O>();
}

/// Where no task of a graph can move, the reason that each answered is true of what crossed the pads of the graph, and of what was
/// taken of that.
pub fn tasks_are_stuck<S: TaskSource, K: Sink, I: Inlet<Out = O>, O: Outlet<Lanes = I::Lanes>>()
    ensures { TasksAreStuck K.Sink S.TaskSource ⟦<StreamElement<K> as TaskElement>⟧ I.Inlet O.Outlet }
{}
