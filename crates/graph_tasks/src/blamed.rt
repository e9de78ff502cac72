//! Why the run of a graph met a fault. Each function does nothing: its contract is the law.
ghost use Rattle.graph_tasks.specs.Blamed.{CausesAreTold, FaultsAreBlamed};
ghost use Rattle.graph_tasks.specs.Written.{AreStreams};

use flow_model::{TaskElement, TaskSource};
use gst_outside::Sink;
use lane_core::{Inlet, Outlet};
use task_elements::StreamElement;

/// The elements of a stream are such as the laws of files and of faults speak of.
pub fn elements_are_streams<K: Sink>()
    ensures { AreStreams K.Sink ⟦<StreamElement<K> as TaskElement>⟧ }
{}

/// Where a task of a graph met a fault, the graph alone tells why: the rule of an element has that fault at its next item, which is
/// owed to the pad before it or came to it over a lane, a write of that item failed, a source could not be read, a buffer is owed to a
/// pad of an element of which none is linked, 2^40 items crossed a pad, or memory was wanting.
pub fn faults_are_blamed<K: Sink, S: TaskSource, I: Inlet<Out = O>, O: Outlet<Lanes = I::Lanes>>()
    ensures { FaultsAreBlamed K.Sink S.TaskSource ⟦<StreamElement<K> as TaskElement>⟧ I.Inlet O.Outlet }
{}

/// Of each fault it is known which element or pad of the graph met it, whatever the contents of files are: the task has an element
/// of that number and of the failures that are told, or a source of that number, or a pad of that number that is not linked.
pub fn causes_are_told<
    S: TaskSource,
    E: TaskElement,
    I: Inlet<Out = O>,
    O: Outlet<Lanes = I::Lanes>,
>()
    ensures { CausesAreTold S.TaskSource E.TaskElement I.Inlet O.Outlet }
{}
