//! What commands do to a run and to all that control keeps of it.
ghost use Rattle.std.specs.Prelude.{◌≡◌, ℕ, List, true, false, length, IfOk, IfErr, OnErr};
ghost use Rattle.flow_model.specs.Item.{Item};
ghost use Rattle.graph_edits.specs.Edited.{Edited, unlinked_at};
ghost use Rattle.graph_edits.specs.Growing.{IsKept};
ghost use Rattle.edit_core.specs.Feeds.{AreFeeds, IsTheLink};
ghost use Rattle.graph_core.specs.GraphPlan.{pad_id};
ghost use Rattle.graph_edits.specs.Graph.{IsEdited, made};
ghost use Rattle.flow_model.specs.Moment.{Moment};
ghost use Rattle.net_turns.specs.Net.{NetReady};
ghost use Rattle.edit_acts.specs.Controlled.{IsControlled, IsToUnlink, IsUnlinked};
ghost use Rattle.edit_acts.specs.Files.{KeepFiles};
ghost use Rattle.edit_acts.specs.Unlinked.{EndFails, IsEnded};

use crate::ending::end;
use crate::undoing::{room_to_undo, undo};
use edit_core::Feeds;
use flow_model::{TaskElement, TaskSource};
use graph_core::PadPlace;
use graph_edits::EditedGraph;
use gst_value::OutOfMemory;
use lane_core::{Inlet, Outlet};
use net_edits::EditFault;
use net_task::Task;
use std::alloc::Global;

/// Undoes the link of a source pad to a sink pad, without EOS, when so many items have crossed the source pad: in the tasks, in the graph, and
/// in what control keeps. Memory is found before anything changes. Tells whether it was done; where the link is to be undone it is.
pub fn unlink<S: TaskSource, E: TaskElement, I: Inlet<Out = O>, O: Outlet<Lanes = I::Lanes>>(
    alloc: Global,
    graph: &mut EditedGraph,
    feeds: &mut Feeds,
    tasks: &mut Vec<Task<S, E, I, O>>,
    source: PadPlace,
    sink: PadPlace,
    items: u64,
) -> Result<bool, OutOfMemory>
    ensures run { IfOk result (λ done. (g : Edited) (m : Moment) (tells : _) → IsToUnlink graph.old feeds.old tasks.old.items g m tells source sink false items
        → (done ≡ true) × IsUnlinked graph.new feeds.new tasks.new.items g m tells source items) }
    ensures graph { IfOk result (λ done. done ≡ true → (g : Edited) → IsEdited graph.old g → IsEdited graph.new (unlinked_at source items false g)) }
    ensures none { IfOk result (λ done. done ≡ false → (graph.new ≡ graph.old) × (feeds.new ≡ feeds.old) × (tasks.new ≡ tasks.old)) }
    ensures stays { OnErr result ((g : Edited) (m : Moment) (tells : _) → IsControlled graph.old feeds.old tasks.old.items g m tells
        → IsControlled graph.new feeds.new tasks.new.items g m tells) }
    ensures ready { (tells : _) → NetReady tasks.old.items tells → NetReady tasks.new.items tells }
    ensures files { KeepFiles tasks.old.items tasks.new.items }
    ensures made { made graph.new ≡ made graph.old }
{
    let Some(pad) = graph.source_number(source) else {
        return Ok(false);
    };
    let room = room_to_undo(alloc, tasks, pad)?;
    undo(tasks, pad, room);
    undo_kept(graph, feeds, source, sink, pad, items, false);
    Ok(true)
}

/// Undoes the link of a source pad to a sink pad with EOS, when so many items have crossed the source pad: in the tasks, in the graph, and in
/// what control keeps. The element behind it takes EOS at once where the pad leads inside of its task, and else EOS stands behind all that was
/// sent over the lane. Memory, but what that element takes, is found before anything changes. Tells whether it was done; where the link is to be
/// undone it is. Where nothing was done all stays.
///
/// Where the element refuses EOS the link is undone in all three.
pub fn unlink_eos<S: TaskSource, E: TaskElement, I: Inlet<Out = O>, O: Outlet<Lanes = I::Lanes>>(
    alloc: Global,
    graph: &mut EditedGraph,
    feeds: &mut Feeds,
    tasks: &mut Vec<Task<S, E, I, O>>,
    source: PadPlace,
    sink: PadPlace,
    items: u64,
) -> Result<bool, EditFault>
    ensures run { IfOk result (λ done. (g : Edited) (m : Moment) (tells : _) → IsToUnlink graph.old feeds.old tasks.old.items g m tells source sink true items
        → (done ≡ true) × IsEnded graph.new feeds.new tasks.new.items g m tells source items) }
    ensures graph { IfOk result (λ done. done ≡ true → (g : Edited) → IsEdited graph.old g → IsEdited graph.new (unlinked_at source items true g)) }
    ensures none { IfOk result (λ done. done ≡ false → (graph.new ≡ graph.old) × (feeds.new ≡ feeds.old) × (tasks.new.items ≡ tasks.old.items)) }
    ensures ready { (tells : _) → NetReady tasks.old.items tells → NetReady tasks.new.items tells }
    ensures files { KeepFiles tasks.old.items tasks.new.items }
    ensures made { made graph.new ≡ made graph.old }
    ensures faults { IfErr result (EndFails graph.old feeds.old tasks.old.items graph.new feeds.new tasks.new.items source sink items) }
{
    let Some(pad) = graph.source_number(source) else {
        return Ok(false);
    };
    let room = match room_to_undo(alloc, tasks, pad) {
        Ok(room) => room,
        Err(_) => return Err(EditFault::OutOfMemory),
    };
    match end(alloc, tasks, pad, room) {
        Ok(true) => {
            undo_kept(graph, feeds, source, sink, pad, items, true);
            Ok(true)
        }
        Ok(false) => Ok(false),
        Err(EditFault::Failed(stopped)) => {
            undo_kept(graph, feeds, source, sink, pad, items, true);
            Err(EditFault::Failed(stopped))
        }
        Err(EditFault::OutOfMemory) => Err(EditFault::OutOfMemory),
    }
}

/// Undoes the link of a source pad to a sink pad in the graph and in what control keeps.
fn undo_kept(
    graph: &mut EditedGraph,
    feeds: &mut Feeds,
    source: PadPlace,
    sink: PadPlace,
    pad: u32,
    items: u64,
    eos: bool,
)
    ensures graph { (g : Edited) → IsEdited graph.old g → IsEdited graph.new (unlinked_at source items eos g) }
    ensures made { made graph.new ≡ made graph.old }
    ensures feeds { (g : Edited) (h : ℕ → List Item) → AreFeeds feeds.old g h → IsKept h g → pad ≡ pad_id source → items ≡ length (h pad)
        → IsTheLink g source sink → AreFeeds feeds.new (unlinked_at source items eos g) h }
{
    graph.unlink(source, eos);
    feeds.undone(sink, pad, items, eos);
}
