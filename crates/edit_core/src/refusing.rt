//! Why a source pad is not linked to a sink pad.
ghost use Rattle.std.specs.Prelude.{◌≡◌, IfOk};
ghost use Rattle.graph_edits.specs.Edited.{Edited};
ghost use Rattle.graph_edits.specs.Ended.{had_eos};
ghost use Rattle.graph_edits.specs.Graph.{IsPad};
ghost use Rattle.flow_model.specs.Moment.{Moment};
ghost use Rattle.edit_core.specs.Notes.{IsCurrent};
ghost use Rattle.edit_core.specs.Refusing.{IsRefusedSo};
ghost use Rattle.edit_core.specs.declared.feeds.Feeds.{Feeds as KeptFeeds};

use crate::fed::is_fed_elsewhere;
use crate::feeds::Feeds;
use flow_model::{TaskElement, TaskSource};
use graph_core::PadPlace;
use graph_edits::EditedGraph;
use graph_pads::Direction;
use gst_value::OutOfMemory;
use lane_core::{Inlet, Outlet};
use net_edits::see_pad;
use net_task::Task;
use std::alloc::Global;

/// Why a source pad is not linked to a sink pad.
#[derive(Clone, Copy, Debug, PartialEq, Eq)]
pub enum LinkReason {
    /// The sink pad has had EOS.
    AfterEos,
    /// The sink pad is linked.
    WasLinked,
    /// Elements would feed themselves by links that ever were made.
    WouldLoop,
    /// An element that would come into the task of the source pad has had an item from another one.
    FedElsewhere,
    /// The static caps of the two pads have no common fixed caps.
    NoFormat,
}

/// The first reason for which a source pad is not linked to a sink pad, by the graph as commands left it and by what crossed the pads;
/// none where nothing speaks against the link.
pub fn link_refusal<S: TaskSource, E: TaskElement, I: Inlet<Out = O>, O: Outlet<Lanes = I::Lanes>>(
    alloc: Global,
    graph: &EditedGraph,
    feeds: &Feeds,
    tasks: &[Task<S, E, I, O>],
    source: PadPlace,
    sink: PadPlace,
) -> Result<Option<LinkReason>, OutOfMemory>
    requires source { IsPad graph.now Direction.Source source }
    requires sink { IsPad graph.now Direction.Sink sink }
    ensures { IfOk result (λ reason. (g : Edited) (m : Moment) (tells : _) → IsCurrent graph.now feeds.now tasks.now g m tells
        → IsRefusedSo g m.history source sink reason) }
{
    if has_had_eos(graph, tasks, sink) {
        return Ok(Some(LinkReason::AfterEos));
    }
    if graph.is_taken(sink) {
        return Ok(Some(LinkReason::WasLinked));
    }
    if graph.loops(alloc, source, sink)? {
        return Ok(Some(LinkReason::WouldLoop));
    }
    if is_fed_elsewhere(alloc, graph, feeds, tasks, source, sink)? {
        return Ok(Some(LinkReason::FedElsewhere));
    }
    if graph.have_format(alloc, source, sink)? {
        return Ok(None);
    }
    Ok(Some(LinkReason::NoFormat))
}

/// Whether a sink pad has had EOS.
fn has_had_eos<S: TaskSource, E: TaskElement, I: Inlet<Out = O>, O: Outlet<Lanes = I::Lanes>>(
    graph: &EditedGraph,
    tasks: &[Task<S, E, I, O>],
    sink: PadPlace,
) -> bool
    ensures { (feeds : KeptFeeds) (g : Edited) (m : Moment) (tells : _) → IsCurrent graph.now feeds tasks.now g m tells → result ≡ had_eos g m.history sink }
{
    let Some(source) = graph.source_before(sink) else {
        return graph.is_ended(sink);
    };
    let Some(pad) = graph.source_number(source) else {
        return false;
    };
    see_pad(tasks, pad).has_ended
}
