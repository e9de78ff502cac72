//! Links that are undone with EOS.
ghost use Rattle.std.specs.Prelude.{◌≡◌, true, false, Err, IfOk, IfErr};
ghost use Rattle.edit_acts.specs.Ending.{HasNoLink, NotEndedWhole, RunsEnd};
ghost use Rattle.edit_acts.specs.Files.{KeepFiles};
ghost use Rattle.edit_acts.specs.Undoing.{HasRoomBehind, HasRoomToUndo, LeadsNoneInside};
ghost use Rattle.net_edits.specs.declared.inside.EditFault.TheVariants.{OutOfMemory as Wanting};
ghost use Rattle.flow_model.specs.Moment.{Moment};
ghost use Rattle.net_turns.specs.Net.{NetReady, NetStands};

use crate::undoing::UndoRoom;
use flow_model::{TaskElement, TaskSource};
use lane_core::{Inlet, Outlet};
use net_edits::{EditFault, end_inside, end_over};
use net_groups::{SplitRoom, split_reserved};
use net_task::Task;
use std::alloc::Global;

/// Undoes the link of the source pad of a number with EOS, in room that was taken before: the element behind it takes EOS at once where
/// the pad leads inside of its task, and else EOS stands behind all that was sent over the lane. An element of the pad's task to which it
/// led becomes, with what stands behind it, a task of its own then, which nothing feeds.
///
/// Tells whether the pad has a link; where not, all tasks stay.
pub fn end<S: TaskSource, E: TaskElement, I: Inlet<Out = O>, O: Outlet<Lanes = I::Lanes>>(
    alloc: Global,
    tasks: &mut Vec<Task<S, E, I, O>>,
    pad: u32,
    room: UndoRoom<E, I, O>,
) -> Result<bool, EditFault>
    requires room { HasRoomToUndo tasks.old pad room }
    ensures runs { IfOk result (λ done. done ≡ true → RunsEnd tasks.old.items tasks.new.items pad) }
    ensures none { IfOk result (λ done. done ≡ false → HasNoLink tasks.old.items pad × (tasks.new.items ≡ tasks.old.items)) }
    ensures faults { IfErr result (NotEndedWhole tasks.old.items tasks.new.items pad) }
    ensures stays { result ≡ Err Wanting → (m : Moment) (tells : _) → NetStands m tasks.old.items tells → NetStands m tasks.new.items tells }
    ensures ready { (tells : _) → NetReady tasks.old.items tells → NetReady tasks.new.items tells }
    ensures files { KeepFiles tasks.old.items tasks.new.items }
{
    match room {
        UndoRoom::Split { element, room } => end_behind(alloc, tasks, pad, element, room),
        UndoRoom::Whole => end_lane(tasks, pad),
    }
}

/// Undoes the link of a pad to an element of its task with EOS, which that takes, and splits the task there.
fn end_behind<S: TaskSource, E: TaskElement, I: Inlet<Out = O>, O: Outlet<Lanes = I::Lanes>>(
    alloc: Global,
    tasks: &mut Vec<Task<S, E, I, O>>,
    pad: u32,
    element: u32,
    room: SplitRoom<E, I, O>,
) -> Result<bool, EditFault>
    requires room { HasRoomBehind tasks.old pad element room }
    ensures runs { IfOk result (λ done. done ≡ true → RunsEnd tasks.old.items tasks.new.items pad) }
    ensures none { IfOk result (λ done. done ≡ false → HasNoLink tasks.old.items pad × (tasks.new.items ≡ tasks.old.items)) }
    ensures faults { IfErr result (NotEndedWhole tasks.old.items tasks.new.items pad) }
    ensures stays { result ≡ Err Wanting → (m : Moment) (tells : _) → NetStands m tasks.old.items tells → NetStands m tasks.new.items tells }
    ensures ready { (tells : _) → NetReady tasks.old.items tells → NetReady tasks.new.items tells }
    ensures files { KeepFiles tasks.old.items tasks.new.items }
{
    match end_inside(alloc, tasks, pad) {
        Ok(true) => {
            split_reserved(tasks, element, room);
            Ok(true)
        }
        Ok(false) => Ok(false),
        Err(fault) => Err(fault),
    }
}

/// Undoes the link of a pad over a lane with EOS, which stands behind all that was sent.
fn end_lane<S: TaskSource, E: TaskElement, I: Inlet<Out = O>, O: Outlet<Lanes = I::Lanes>>(
    tasks: &mut Vec<Task<S, E, I, O>>,
    pad: u32,
) -> Result<bool, EditFault>
    requires whole { LeadsNoneInside tasks.old.items pad }
    ensures runs { IfOk result (λ done. done ≡ true → RunsEnd tasks.old.items tasks.new.items pad) }
    ensures none { IfOk result (λ done. done ≡ false → HasNoLink tasks.old.items pad × (tasks.new.items ≡ tasks.old.items)) }
    ensures faults { IfErr result (NotEndedWhole tasks.old.items tasks.new.items pad) }
    ensures stays { result ≡ Err Wanting → (m : Moment) (tells : _) → NetStands m tasks.old.items tells → NetStands m tasks.new.items tells }
    ensures ready { (tells : _) → NetReady tasks.old.items tells → NetReady tasks.new.items tells }
    ensures files { KeepFiles tasks.old.items tasks.new.items }
{
    match end_over(tasks, pad) {
        Ok(done) => Ok(done),
        Err(_) => Err(EditFault::OutOfMemory),
    }
}
