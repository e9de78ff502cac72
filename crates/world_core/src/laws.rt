//! What is known of the runs of graphs, for the proofs of runs.
ghost use Rattle.world_core.specs.Laws.{Laws};

use flow_model::{TaskElement, TaskSource};
use graph_tasks::blamed::{causes_are_told, elements_are_streams, faults_are_blamed};
use graph_tasks::ended::{
    ends_are_whole, histories_are_evaluated, loose_are_quiet, pads_are_limited, runs_stand,
};
use graph_tasks::over::{lines_tell_over, runs_tell_over, tasks_are_stuck};
use graph_tasks::written::{tasks_stand_behind, tasks_stand_whole};
use gst_outside::{Sink, Source};
use lane_core::{Inlet, Outlet};
use net_turns::laws::lanes_stay;
use task_elements::{StreamElement, StreamSource};

/// The laws of a graph's run, its end and its faults, together. It does nothing.
pub(crate) fn runs_are_known<S: Source, K: Sink, I: Inlet<Out = O>, O: Outlet<Lanes = I::Lanes>>()
    ensures { Laws ⟦<StreamSource<S> as TaskSource>⟧ ⟦<StreamElement<K> as TaskElement>⟧ I.Inlet O.Outlet K.Sink }
{
    runs_stand::<StreamSource<S>, K, I, O>();
    histories_are_evaluated();
    ends_are_whole();
    runs_tell_over::<StreamSource<S>, K, I, O>();
    lines_tell_over::<StreamSource<S>, K, I, O>();
    tasks_are_stuck::<StreamSource<S>, K, I, O>();
    lanes_stay::<StreamSource<S>, StreamElement<K>, I, O>();
    loose_are_quiet::<StreamSource<S>, StreamElement<K>, I, O>();
    pads_are_limited::<StreamSource<S>, StreamElement<K>, I, O>();
    tasks_stand_whole::<StreamSource<S>, K, I, O>();
    tasks_stand_behind::<StreamSource<S>, K, I, O>();
    faults_are_blamed::<K, StreamSource<S>, I, O>();
    causes_are_told::<StreamSource<S>, StreamElement<K>, I, O>();
    elements_are_streams::<K>();
}
