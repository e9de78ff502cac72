//! Laws of a graph at a moment of its run, and where the run has ended. Each function does nothing: its contract is the law.
ghost use Rattle.graph_tasks.specs.Ended.{HistoriesAreEvaluated, EndsAreWhole, LiveHandEosOn, RunsStand};
ghost use Rattle.graph_tasks.specs.Ended.{LooseAreQuiet, PadsAreLimited};

use flow_model::{TaskElement, TaskSource};
use gst_outside::Sink;
use lane_core::{Inlet, Outlet};
use task_elements::StreamElement;

/// At any moment of the run of a graph's tasks each of its elements stands, and took in order: for what it took it owes a beginning of
/// what it owes for more.
pub fn runs_stand<S: TaskSource, K: Sink, I: Inlet<Out = O>, O: Outlet<Lanes = I::Lanes>>()
    ensures { RunsStand K.Sink S.TaskSource ⟦<StreamElement<K> as TaskElement>⟧ I.Inlet O.Outlet }
{}

/// At any moment what crossed the pads is what the evaluation of the graph gives, cut at these counts.
pub fn histories_are_evaluated()
    ensures { HistoriesAreEvaluated }
{}

/// Where nothing is left, every pad is whole.
pub fn ends_are_whole()
    ensures { EndsAreWhole }
{}

/// Each live element hands EOS on: where it took EOS at each of its sink pads, it owes EOS to each of its source pads.
pub fn live_hand_eos_on<S: TaskSource, K: Sink, I: Inlet<Out = O>, O: Outlet<Lanes = I::Lanes>>()
    ensures { LiveHandEosOn K.Sink S.TaskSource ⟦<StreamElement<K> as TaskElement>⟧ I.Inlet O.Outlet }
{}

/// An element that no head reaches is quiet.
pub fn loose_are_quiet<
    S: TaskSource,
    E: TaskElement,
    I: Inlet<Out = O>,
    O: Outlet<Lanes = I::Lanes>,
>()
    ensures { LooseAreQuiet S.TaskSource E.TaskElement I.Inlet O.Outlet }
{}

/// At most 2^40 items crossed a pad.
pub fn pads_are_limited<
    S: TaskSource,
    E: TaskElement,
    I: Inlet<Out = O>,
    O: Outlet<Lanes = I::Lanes>,
>()
    ensures { PadsAreLimited S.TaskSource E.TaskElement I.Inlet O.Outlet }
{}
