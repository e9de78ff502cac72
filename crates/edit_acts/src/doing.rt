//! What control does for a command.
ghost use Rattle.std.specs.Prelude.{◌≡◌, ◌++◌, ℕ, true, false, IfOk, IfErr, OnErr};
ghost use Rattle.graph_edits.specs.Edited.{Edited};
ghost use Rattle.graph_edits.specs.Graph.{made};
ghost use Rattle.flow_model.specs.Moment.{Moment};
ghost use Rattle.net_turns.specs.Net.{NetReady};
ghost use Rattle.edit_core.specs.declared.deciding.Deed.TheVariants.{Remove, Unlink};
ghost use Rattle.edit_core.specs.declared.feeds.Feeds.{Feeds as KeptFeeds};
ghost use Rattle.edit_acts.specs.Deeds.{DeedFails, IsDone, IsDue, StaysFor, StaysUndone, TakesFor, TakesFrom, WasDone, outcome_of};
ghost use Rattle.edit_acts.specs.Files.{KeepFiles, taken_by};

use crate::relinking::relink;
use crate::removing::{TakenOut, is_free, remove};
use crate::unlinking::{unlink, unlink_eos};
use edit_core::{Deed, Feeds};
use flow_model::{TaskElement, TaskSource};
use graph_core::PadPlace;
use graph_edits::EditedGraph;
use lane_core::{Inlet, Outlet};
use net_edits::EditFault;
use net_task::Task;
use std::alloc::Global;

/// What a deed came to.
#[derive(Drop)]
pub enum Outcome<S: TaskSource, E: TaskElement, I: Inlet<Out = O>, O: Outlet<Lanes = I::Lanes>> {
    /// It was done, and no task was taken out.
    Done,
    /// It was done, and the task of an element that was taken away is none of the tasks any more.
    TakenOut { taken: TakenOut<S, E, I, O> },
    /// It was not done.
    Undone,
}

/// Does what a command asks for, where so many items have crossed its source pad. Tells what it came to; where it is to be done, and
/// control can do it, it is.
///
/// The tasks, with the one that was taken out, have the elements and sources that they had, each with its file. Where a deed that makes no link
/// was not done all stays; of a link that can't be made the one before it may be undone.
pub fn do_deed<S: TaskSource, E: TaskElement, I: Inlet<Out = O>, O: Outlet<Lanes = I::Lanes>>(
    alloc: Global,
    graph: &mut EditedGraph,
    feeds: &mut Feeds,
    tasks: &mut Vec<Task<S, E, I, O>>,
    deed: Deed,
    items: u64,
) -> Result<Outcome<S, E, I, O>, EditFault>
    ensures done { IfOk result (λ outcome. (g : Edited) (m : Moment) (tells : _) → IsDue graph.old feeds.old tasks.old.items g m tells deed items
        → WasDone outcome × IsDone graph.new feeds.new tasks.new.items g m tells deed items) }
    ensures taken { IfOk result (TakesFor tasks.old.items tasks.new.items deed) }
    ensures failed { IfErr result (DeedFails graph.old feeds.old tasks.old.items graph.new feeds.new tasks.new.items deed items) }
    ensures ready { (tells : _) → NetReady tasks.old.items tells → NetReady tasks.new.items tells }
    ensures files { IfOk result (λ outcome. KeepFiles tasks.old.items (tasks.new.items ++ taken_by outcome)) }
    ensures files_failed { OnErr result (KeepFiles tasks.old.items tasks.new.items) }
    ensures made { made graph.new ≡ made graph.old }
    ensures stays { IfOk result (StaysFor graph.old feeds.old tasks.old.items graph.new feeds.new tasks.new.items deed) }
{
    match deed {
        Deed::Relink { source, sink } => told(relink(
            alloc, graph, feeds, tasks, source, sink, items,
        )),
        Deed::Unlink { source, sink, eos } => told(undo_link(
            alloc, graph, feeds, tasks, source, sink, eos, items,
        )),
        Deed::Add => Ok(Outcome::Undone),
        Deed::Remove { element } => Ok(take_away(graph, tasks, element)),
    }
}

/// What a deed that takes no task out came to.
fn told<S: TaskSource, E: TaskElement, I: Inlet<Out = O>, O: Outlet<Lanes = I::Lanes>>(
    done: Result<bool, EditFault>,
) -> Result<Outcome<S, E, I, O>, EditFault>
    ensures { result ≡ outcome_of done }
{
    match done {
        Ok(true) => Ok(Outcome::Done),
        Ok(false) => Ok(Outcome::Undone),
        Err(fault) => Err(fault),
    }
}

/// Takes an element away, where it is alone in its task and no lane leads to it.
fn take_away<S: TaskSource, E: TaskElement, I: Inlet<Out = O>, O: Outlet<Lanes = I::Lanes>>(
    graph: &mut EditedGraph,
    tasks: &mut Vec<Task<S, E, I, O>>,
    element: u32,
) -> Outcome<S, E, I, O>
    ensures done { (feeds : KeptFeeds) (g : Edited) (m : Moment) (tells : _) (items : ℕ)
        → IsDue graph.old feeds tasks.old.items g m tells (Remove element) items
        → WasDone result × IsDone graph.new feeds tasks.new.items g m tells (Remove element) items }
    ensures taken { TakesFrom tasks.old.items tasks.new.items element result }
    ensures ready { (tells : _) → NetReady tasks.old.items tells → NetReady tasks.new.items tells }
    ensures files { KeepFiles tasks.old.items (tasks.new.items ++ taken_by result) }
    ensures made { made graph.new ≡ made graph.old }
    ensures stays { (feeds : KeptFeeds) → StaysUndone graph.old feeds tasks.old.items graph.new feeds tasks.new.items result }
{
    if !is_free(tasks.as_slice(), element) {
        return Outcome::Undone;
    }
    match remove(graph, tasks, element) {
        Some(taken) => Outcome::TakenOut { taken },
        None => Outcome::Done,
    }
}

/// Undoes the link of a source pad, with EOS or without.
fn undo_link<S: TaskSource, E: TaskElement, I: Inlet<Out = O>, O: Outlet<Lanes = I::Lanes>>(
    alloc: Global,
    graph: &mut EditedGraph,
    feeds: &mut Feeds,
    tasks: &mut Vec<Task<S, E, I, O>>,
    source: PadPlace,
    sink: PadPlace,
    eos: bool,
    items: u64,
) -> Result<bool, EditFault>
    ensures done { IfOk result (λ done. (g : Edited) (m : Moment) (tells : _)
        → IsDue graph.old feeds.old tasks.old.items g m tells (Unlink source sink eos) items
        → (done ≡ true) × IsDone graph.new feeds.new tasks.new.items g m tells (Unlink source sink eos) items) }
    ensures failed { IfErr result (DeedFails graph.old feeds.old tasks.old.items graph.new feeds.new tasks.new.items
        (Unlink source sink eos) items) }
    ensures ready { (tells : _) → NetReady tasks.old.items tells → NetReady tasks.new.items tells }
    ensures files { KeepFiles tasks.old.items tasks.new.items }
    ensures made { made graph.new ≡ made graph.old }
    ensures none { IfOk result (λ done. done ≡ false → (graph.new ≡ graph.old) × (feeds.new ≡ feeds.old) × (tasks.new.items ≡ tasks.old.items)) }
{
    if eos {
        return unlink_eos(alloc, graph, feeds, tasks, source, sink, items);
    }
    match unlink(alloc, graph, feeds, tasks, source, sink, items) {
        Ok(done) => Ok(done),
        Err(_) => Err(EditFault::OutOfMemory),
    }
}
