//! Whether a link would bring elements together that different tasks have fed.
ghost use Rattle.std.specs.Prelude.{◌≡◌, ◌↔◌, IfOk, IsTrue};
ghost use Rattle.std.specs.List.{list_any};
ghost use Rattle.graph_edits.specs.Edited.{Edited};
ghost use Rattle.graph_edits.specs.Refused.{IsFedElsewhere};
ghost use Rattle.graph_edits.specs.Graph.{IsPad};
ghost use Rattle.flow_model.specs.Moment.{Moment};
ghost use Rattle.edit_core.specs.Notes.{IsCurrent, is_foreign};

use crate::feeds::Feeds;
use crate::notes::{Note, note_all, note_of};
use flow_model::{TaskElement, TaskSource};
use graph_core::PadPlace;
use graph_edits::EditedGraph;
use graph_pads::Direction;
use gst_value::OutOfMemory;
use lane_core::{Inlet, Outlet};
use net_task::Task;
use std::alloc::Global;

/// Whether an element that would come into the task of a source pad, were that linked to a sink pad, has had an item from another task.
pub(crate) fn is_fed_elsewhere<
    S: TaskSource,
    E: TaskElement,
    I: Inlet<Out = O>,
    O: Outlet<Lanes = I::Lanes>,
>(
    alloc: Global,
    graph: &EditedGraph,
    feeds: &Feeds,
    tasks: &[Task<S, E, I, O>],
    source: PadPlace,
    sink: PadPlace,
) -> Result<bool, OutOfMemory>
    requires source { IsPad graph.now Direction.Source source }
    requires sink { IsPad graph.now Direction.Sink sink }
    ensures { IfOk result (λ fed. (g : Edited) (m : Moment) (tells : _) → IsCurrent graph.now feeds.now tasks.now g m tells
        → IsTrue fed ↔ IsFedElsewhere g m.history source sink) }
{
    let notes = note_all(alloc, graph, feeds, tasks, sink.element)?;
    let Some(own) = note_of(&notes, source.element).task_feeder() else {
        return Ok(false);
    };
    Ok(some_foreign(&notes, own))
}

/// Whether one of the elements is reached and has another feeder.
fn some_foreign(notes: &[Note], own: u32) -> bool
    ensures { result ≡ list_any (is_foreign own) notes.now }
{
    notes.iter().any(|note| note.is_foreign(own))
}
