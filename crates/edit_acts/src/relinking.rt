//! Control links a source pad of a run elsewhere, inside of its task or over a lane.
ghost use Rattle.std.specs.Prelude.{◌≡◌, ◌≢◌, ◌<◌, ◌↔◌, ℕ, Bool, List, true, false, length, IfOk, IfErr, IfSome, None, Ok, OnErr, IsTrue};
ghost use Rattle.flow_model.specs.Item.{Item};
ghost use Rattle.graph_core.specs.GraphPlan.{pad_id};
ghost use Rattle.graph_edits.specs.Graph.{IsEdited, made};
ghost use Rattle.graph_edits.specs.declared.graph.EditedGraph.{EditedGraph as Graphs};
ghost use Rattle.graph_pads.specs.Links.{sink_behind};
ghost use Rattle.graph_pads.specs.declared.pad.PadPlace.{PadPlace as Places};
ghost use Rattle.net_edits.specs.Over.{HasRoomOver, IsNewLane, opening_in};
ghost use Rattle.flow_model.specs.Moment.{Moment};
ghost use Rattle.net_turns.specs.Net.{NetReady};
ghost use Rattle.graph_edits.specs.Edited.{Edited, relinked_at};
ghost use Rattle.edit_core.specs.Feeds.{AreFeeds};
ghost use Rattle.edit_core.specs.declared.deciding.Deed.TheVariants.{Relink};
ghost use Rattle.edit_core.specs.declared.feeds.Feeds.{Feeds as KeptFeeds};
ghost use Rattle.edit_acts.specs.Controlled.{IsControlled};
ghost use Rattle.edit_acts.specs.Deeds.{IsDone};
ghost use Rattle.edit_acts.specs.Files.{KeepFiles};
ghost use Rattle.edit_acts.specs.Over.{LeadsTo};
ghost use Rattle.edit_acts.specs.Relinked.{HasLane, HasNewLink, IsPrepared, IsRelinked, IsRelinkedShort, IsToKeep, IsToLink, IsToRelink, RelinkFails, RunsRelinked, RunsRelinkedOver, relinked_over};
ghost use Rattle.edit_acts.specs.Undoing.{SplitsNot};

use crate::linking::{LinkRoom, link, room_to_link};
use crate::sent::is_pad_sent_to;
use crate::undoing::{UndoRoom, room_to_undo, undo};
use edit_core::Feeds;
use flow_model::{TaskElement, TaskSource};
use graph_core::PadPlace;
use graph_edits::{EditedGraph, Linking};
use gst_value::OutOfMemory;
use lane_core::{Inlet, Outlet};
use net_edits::{EditFault, NewLink, OverRoom, link_over, room_to_link_over};
use net_task::Task;
use net_turns::net::Stopped;
use std::alloc::Global;
use task_edits::Inside;

/// What is there before the tasks change.
#[derive(Drop)]
pub(crate) struct Prepared<E: TaskElement, I, O> {
    /// The number of the source pad.
    pad: u32,
    /// The sink pad to which it was linked.
    before: Option<PadPlace>,
    undo: UndoRoom<E, I, O>,
}

/// Undoes the link of a source pad, where it has one, and links the pad inside of its task to a sink pad of an element that no lanes
/// feed, when so many items have crossed the source pad: in the tasks, in the graph, and in what control keeps. The element takes the
/// sticky events at once. All memory but what it takes for these is found before anything changes. Tells whether it was done; where the pad
/// is to be linked so it is.
pub fn relink<S: TaskSource, E: TaskElement, I: Inlet<Out = O>, O: Outlet<Lanes = I::Lanes>>(
    alloc: Global,
    graph: &mut EditedGraph,
    feeds: &mut Feeds,
    tasks: &mut Vec<Task<S, E, I, O>>,
    source: PadPlace,
    sink: PadPlace,
    items: u64,
) -> Result<bool, EditFault>
    ensures run { IfOk result (λ done. (g : Edited) (m : Moment) (tells : _) → IsToRelink graph.old feeds.old tasks.old.items g m tells source sink items false
        → (done ≡ true) × IsRelinked graph.new feeds.new tasks.new.items g m tells source sink items) }
    ensures faults { IfErr result (RelinkFails graph.old feeds.old tasks.old.items graph.new feeds.new tasks.new.items source sink items) }
    ensures ready { (tells : _) → NetReady tasks.old.items tells → NetReady tasks.new.items tells }
    ensures files { KeepFiles tasks.old.items tasks.new.items }
    ensures made { made graph.new ≡ made graph.old }
{
    let count = graph.count();
    if source.element >= count {
        return Ok(false);
    }
    if sink.element >= count {
        return Ok(false);
    }
    let Some(pad) = graph.source_number(source) else {
        return Ok(false);
    };
    let link = match room_to_link(alloc, tasks.as_slice(), pad, sink.element) {
        Ok(link) => link,
        Err(_) => return Err(EditFault::OutOfMemory),
    };
    match prepare(alloc, graph, tasks, pad, source, sink) {
        Ok(Some(prepared)) => match carry_out(alloc, feeds, tasks, prepared, link, sink, items) {
            Ok(done) => Ok(done),
            Err(stopped) => Err(EditFault::Failed(stopped)),
        },
        Ok(None) => Ok(false),
        Err(_) => Err(EditFault::OutOfMemory),
    }
}

/// Undoes the link of a source pad, where it has one, and links the pad over a new lane to a sink pad of an element that lanes feed, when so many
/// items have crossed the source pad: in the tasks, in the graph, and in what control keeps. The sticky events stand before the lane then, and no
/// element takes an item at that. All memory is found before anything changes. Tells whether it was done; where the pad is to be linked so it is.
/// Where it is not done the lane is given up.
pub fn relink_over<S: TaskSource, E: TaskElement, I: Inlet<Out = O>, O: Outlet<Lanes = I::Lanes>>(
    alloc: Global,
    graph: &mut EditedGraph,
    feeds: &mut Feeds,
    tasks: &mut Vec<Task<S, E, I, O>>,
    source: PadPlace,
    sink: PadPlace,
    items: u64,
    to: NewLink<I, O>,
) -> Result<bool, OutOfMemory>
    requires leads { LeadsTo to sink }
    ensures run { IfOk result (λ done. (g : Edited) (m : Moment) (tells : _) → IsToRelink graph.old feeds.old tasks.old.items g m tells source sink items true
        → IsNewLane tells tasks.old.items to → (done ≡ true)
        × IsControlled graph.new feeds.new tasks.new.items (relinked_at source items sink g) (relinked_over source sink m) tells) }
    ensures done { IfOk result (λ done. (g : Edited) (m : Moment) (tells : _) → IsToRelink graph.old feeds.old tasks.old.items g m tells source sink items true
        → IsNewLane tells tasks.old.items to → IsDone graph.new feeds.new tasks.new.items g m tells (Relink source sink) items) }
    ensures stays { OnErr result ((g : Edited) (m : Moment) (tells : _) → IsControlled graph.old feeds.old tasks.old.items g m tells
        → IsControlled graph.new feeds.new tasks.new.items g m tells) }
    ensures ready { (tells : _) → NetReady tasks.old.items tells → IsNewLane tells tasks.old.items to → NetReady tasks.new.items tells }
    ensures stays_ready { result ≢ Ok true → (tells : _) → NetReady tasks.old.items tells → NetReady tasks.new.items tells }
    ensures files { KeepFiles tasks.old.items tasks.new.items }
    ensures made { made graph.new ≡ made graph.old }
{
    let count = graph.count();
    if source.element >= count {
        return Ok(false);
    }
    if sink.element >= count {
        return Ok(false);
    }
    let Some(pad) = graph.source_number(source) else {
        return Ok(false);
    };
    let Some(room) = room_to_link_over(alloc, tasks, pad, sink.element, sink.pad)? else {
        return Ok(false);
    };
    match prepare(alloc, graph, tasks, pad, source, sink)? {
        Some(prepared) => Ok(carry_over(feeds, tasks, prepared, room, sink, items, to)),
        None => Ok(false),
    }
}

/// Takes the room to undo the link of a source pad, and makes its new link in the graph. None where nothing can be done: all stays then.
fn prepare<S: TaskSource, E: TaskElement, I: Inlet<Out = O>, O: Outlet<Lanes = I::Lanes>>(
    alloc: Global,
    graph: &mut EditedGraph,
    tasks: &mut Vec<Task<S, E, I, O>>,
    pad: u32,
    source: PadPlace,
    sink: PadPlace,
) -> Result<Option<Prepared<E, I, O>>, OutOfMemory>
    requires source { source.element < length (made graph.old) }
    requires sink { sink.element < length (made graph.old) }
    requires number { pad ≡ pad_id source }
    ensures prepared { IfOk result (λ found. IfSome found (IsPrepared tasks.new source sink)) }
    ensures pad { IfOk result (λ found. IfSome found (λ p. p.pad ≡ pad)) }
    ensures link { IfOk result (λ found. IfSome found (λ p. HasNewLink graph.old graph.new source sink p.before)) }
    ensures none { IfOk result (λ found. found ≡ None → (feeds : KeptFeeds) (g : Edited) (m : Moment) (tells : _) (items : ℕ) (fed : Bool)
        → IsToRelink graph.old feeds tasks.old.items g m tells source sink items fed → ⊥) }
    ensures left { IfOk result (λ found. found ≡ None → (g : Edited) → IsEdited graph.old g → IsEdited graph.new g) }
    ensures tasks { tasks.new.items ≡ tasks.old.items }
    ensures stays { OnErr result ((g : Edited) → IsEdited graph.old g → IsEdited graph.new g) }
    ensures made { made graph.new ≡ made graph.old }
{
    let undo = room_to_undo(alloc, tasks, pad)?;
    if !is_apart(&undo, sink.element) {
        return Ok(None);
    }
    let before = graph.sink_behind(source);
    match graph.relink(alloc, source, sink)? {
        Linking::Linked => Ok(Some(Prepared { pad, before, undo })),
        Linking::Loops => Ok(None),
    }
}

/// Whether the task is not split at an element.
fn is_apart<E: TaskElement, I, O>(room: &UndoRoom<E, I, O>, element: u32) -> bool
    ensures { IsTrue result ↔ SplitsNot room.now element }
{
    match room {
        UndoRoom::Split { element: at, .. } => *at != element,
        UndoRoom::Whole => true,
    }
}

/// Undoes the link of the source pad and links it to a sink pad of an element, in the tasks and in what control keeps.
fn carry_out<S: TaskSource, E: TaskElement, I: Inlet<Out = O>, O: Outlet<Lanes = I::Lanes>>(
    alloc: Global,
    feeds: &mut Feeds,
    tasks: &mut Vec<Task<S, E, I, O>>,
    prepared: Prepared<E, I, O>,
    room: LinkRoom<E, O>,
    sink: PadPlace,
    items: u64,
) -> Result<bool, Stopped>
    requires prepared { (source : Places) × IsPrepared tasks.old source sink prepared }
    requires room { IsToLink tasks.old.items prepared.pad sink.element room }
    ensures run { IfOk result (λ done. (graph : Graphs) (g : Edited) (m : Moment) (tells : _) (source : Places) → IsPrepared tasks.old source sink prepared
        → prepared.before ≡ sink_behind g.links source → IsToRelink graph feeds.old tasks.old.items g m tells source sink items false
        → (done ≡ true) × RunsRelinked feeds.new tasks.new.items g m tells source sink items) }
    ensures kept { (graph : Graphs) (g : Edited) (m : Moment) (tells : _) (source : Places) → IsPrepared tasks.old source sink prepared
        → prepared.before ≡ sink_behind g.links source → IsToRelink graph feeds.old tasks.old.items g m tells source sink items false
        → AreFeeds feeds.new (relinked_at source items sink g) m.history }
    ensures faults { IfErr result (λ stopped. (graph : Graphs) (g : Edited) (m : Moment) (tells : _) (source : Places)
        → IsPrepared tasks.old source sink prepared → IsToRelink graph feeds.old tasks.old.items g m tells source sink items false
        → IsRelinkedShort tasks.new.items g m tells source sink items stopped) }
    ensures ready { (tells : _) → NetReady tasks.old.items tells → NetReady tasks.new.items tells }
    ensures files { KeepFiles tasks.old.items tasks.new.items }
{
    let to = Inside {
        element: sink.element,
        pad: sink.pad,
    };
    let opened = room.opens();
    undo(tasks, prepared.pad, prepared.undo);
    keep(feeds, prepared.before, sink, prepared.pad, items, opened);
    link(alloc, tasks, prepared.pad, to, room)
}

/// Undoes the link of the source pad and links it over a new lane to a sink pad of an element, in the tasks and in what control keeps. Where another
/// pad leads over a lane to that sink pad the old link is undone alone, and the lane is given up.
fn carry_over<S: TaskSource, E: TaskElement, I: Inlet<Out = O>, O: Outlet<Lanes = I::Lanes>>(
    feeds: &mut Feeds,
    tasks: &mut Vec<Task<S, E, I, O>>,
    prepared: Prepared<E, I, O>,
    room: OverRoom,
    sink: PadPlace,
    items: u64,
    to: NewLink<I, O>,
) -> bool
    requires prepared { (source : Places) × IsPrepared tasks.old source sink prepared }
    requires room { HasRoomOver tasks.old.items to.element to.pad room }
    ensures run { (graph : Graphs) (g : Edited) (m : Moment) (tells : _) (source : Places) → IsPrepared tasks.old source sink prepared
        → prepared.before ≡ sink_behind g.links source → IsToRelink graph feeds.old tasks.old.items g m tells source sink items true
        → HasLane m tasks.old.items tells prepared.pad sink to (opening_in room)
        → (result ≡ true) × RunsRelinkedOver feeds.new tasks.new.items g m tells source sink items }
    ensures ready { (tells : _) → NetReady tasks.old.items tells → IsNewLane tells tasks.old.items to → NetReady tasks.new.items tells }
    ensures stays_ready { result ≡ false → (tells : _) → NetReady tasks.old.items tells → NetReady tasks.new.items tells }
    ensures files { KeepFiles tasks.old.items tasks.new.items }
{
    let opened = room.opens();
    undo(tasks, prepared.pad, prepared.undo);
    keep(feeds, prepared.before, sink, prepared.pad, items, opened);
    if is_pad_sent_to(tasks.as_slice(), to.element, to.pad) {
        return false;
    }
    link_over(tasks, prepared.pad, to, room)
}

/// What control keeps of the elements, once the link of a source pad to the one sink pad was undone and one to another was made.
fn keep(
    feeds: &mut Feeds,
    before: Option<PadPlace>,
    sink: PadPlace,
    pad: u32,
    items: u64,
    opened: bool,
)
    ensures { (g : Edited) (h : ℕ → List Item) (source : Places) → AreFeeds feeds.old g h → IsToKeep g h source sink before pad items opened
        → AreFeeds feeds.new (relinked_at source items sink g) h }
{
    if let Some(before) = before {
        feeds.undone(before, pad, items, false);
    }
    feeds.linked(sink, items, opened);
}
