//! Links that are undone. What an element of a task led to becomes a task of its own, which nothing feeds.
ghost use Rattle.std.specs.Prelude.{◌≡◌, ◌<◌, ℕ, false, None, IfOk, IfSome, length};
ghost use Rattle.edit_core.specs.Ways.{InnerTookItems, IsRun};
ghost use Rattle.graph_edits.specs.Edited.{Edited, unlinked_at};
ghost use Rattle.graph_pads.specs.declared.pad.PadPlace.{PadPlace};
ghost use Rattle.net_edits.specs.Inside.{HasInside};
ghost use Rattle.net_edits.specs.Over.{HasRoomAt, IsNewLane};
ghost use Rattle.net_edits.specs.declared.over.NewLink.{NewLink as Links};
ghost use Rattle.net_groups.specs.Joined.{HasRoomToJoin};
ghost use Rattle.net_groups.specs.declared.joining.JoinRoom.{JoinRoom};
ghost use Rattle.flow_model.specs.Edit.{unlinked};
ghost use Rattle.flow_model.specs.Moment.{Moment};
ghost use Rattle.net_turns.specs.Net.{NetReady, NetStands};
ghost use Rattle.edit_acts.specs.Files.{KeepFiles};
ghost use Rattle.edit_acts.specs.Undoing.{HasRoomToUndo, IsRunWith, LeadsNoneInside, SplitsNot};

use flow_model::{TaskElement, TaskSource};
use gst_value::OutOfMemory;
use lane_core::{Inlet, Outlet};
use net_edits::unlink;
use net_groups::{SplitRoom, room_to_split, split_reserved};
use net_task::Task;
use std::alloc::Global;
use task_edits::{Inside, inside_of};

/// All the room that it takes to undo the link of a source pad.
#[derive(Drop)]
pub enum UndoRoom<E: TaskElement, I, O> {
    /// The pad leads to no element of its task, which stays whole.
    Whole,
    /// It leads to this one: what stands behind it is split off.
    Split {
        element: u32,
        room: SplitRoom<E, I, O>,
    },
}

/// Takes all the memory that it takes to undo the link of the source pad of a number: so [`undo`] needs none.
pub fn room_to_undo<S: TaskSource, E: TaskElement, I: Inlet<Out = O>, O: Outlet<Lanes = I::Lanes>>(
    alloc: Global,
    tasks: &mut Vec<Task<S, E, I, O>>,
    pad: u32,
) -> Result<UndoRoom<E, I, O>, OutOfMemory>
    ensures room { IfOk result (HasRoomToUndo tasks.new pad) }
    ensures items { tasks.new.items ≡ tasks.old.items }
{
    match leads_inside(tasks.as_slice(), pad) {
        Some(to) => Ok(UndoRoom::Split {
            element: to.element,
            room: room_to_split(alloc, tasks, to.element, 1)?,
        }),
        None => Ok(UndoRoom::Whole),
    }
}

/// Undoes the link of the source pad of a number, without EOS, in room that was taken before. Where it led to an element of the pad's
/// task, that element and what stands behind it become a task of their own, which nothing feeds. It takes no memory. Room that was taken before
/// to join the task of another element to that of the pad is still enough then, and so is room in a row of a task; a lane that is new stays so.
pub fn undo<S: TaskSource, E: TaskElement, I: Inlet<Out = O>, O: Outlet<Lanes = I::Lanes>>(
    tasks: &mut Vec<Task<S, E, I, O>>,
    pad: u32,
    room: UndoRoom<E, I, O>,
)
    requires room { HasRoomToUndo tasks.old pad room }
    ensures run { (g : Edited) (m : Moment) (tells : _) (source : PadPlace) → IsRunWith g m tasks.old.items tells pad source
        → IsRun (unlinked_at source (length (m.history pad)) false g) (unlinked pad m) tasks.new.items tells }
    ensures stands { (m : Moment) (tells : _) → NetStands m tasks.old.items tells → InnerTookItems m tasks.old.items
        → NetStands (unlinked pad m) tasks.new.items tells }
    ensures ready { (tells : _) → NetReady tasks.old.items tells → NetReady tasks.new.items tells }
    ensures files { KeepFiles tasks.old.items tasks.new.items }
    ensures join { (element : ℕ) (join : JoinRoom _ _ _) → SplitsNot room element → HasRoomToJoin tasks.old.items pad element join
        → HasRoomToJoin tasks.new.items pad element join }
    ensures row { (place element port more : ℕ) → HasRoomAt tasks.old.items place element port more → HasRoomAt tasks.new.items place element port more }
    ensures lane { (tells : _) (to : Links _ _) → IsNewLane tells tasks.old.items to → IsNewLane tells tasks.new.items to }
{
    unlink(tasks, pad);
    if let UndoRoom::Split { element, room } = room {
        split_reserved(tasks, element, room);
    }
}

/// The sink pad of an element of the same task to which the source pad of a number leads. None where no task has the pad, or it leads to
/// no element of its task.
fn leads_inside<S: TaskSource, E: TaskElement, I: Inlet<Out = O>, O: Outlet<Lanes = I::Lanes>>(
    tasks: &[Task<S, E, I, O>],
    pad: u32,
) -> Option<Inside>
    ensures leads { IfSome result (λ to. (place : _) × HasInside tasks.now pad place to) }
    ensures none { result ≡ None → LeadsNoneInside tasks.now pad }
{
    for place in 0..tasks.len() {
        if let Some(to) = inside_of(&tasks[place], pad) {
            return Some(to);
        }
    }
    None
}
