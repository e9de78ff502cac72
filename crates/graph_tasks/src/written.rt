//! Laws of the files of a graph's sinks.
ghost use Rattle.graph_tasks.specs.Written.{TasksStandBehind, TasksStandWhole};

use flow_model::{TaskElement, TaskSource};
use gst_outside::Sink;
use lane_core::{Inlet, Outlet};
use task_elements::StreamElement;

/// At any moment of a graph's run the pads of its tasks counted what crossed them, and the file of each sink holds all that came
/// to it.
///
/// A sink is no head of a task, so nothing stands in an inlet of it, and what it took is all that crossed the pad before it.
pub fn tasks_stand_whole<S: TaskSource, K: Sink, I: Inlet<Out = O>, O: Outlet<Lanes = I::Lanes>>()
    ensures { TasksStandWhole K.Sink S.TaskSource ⟦<StreamElement<K> as TaskElement>⟧ I.Inlet O.Outlet }
{}

/// And so it is behind a fault. The one sink of which a write failed holds all that came to it and a part of the next item.
pub fn tasks_stand_behind<S: TaskSource, K: Sink, I: Inlet<Out = O>, O: Outlet<Lanes = I::Lanes>>()
    ensures { TasksStandBehind K.Sink S.TaskSource ⟦<StreamElement<K> as TaskElement>⟧ I.Inlet O.Outlet }
{}
