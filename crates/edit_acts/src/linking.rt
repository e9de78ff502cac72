//! A source pad of a run is linked inside of a task.
ghost use Rattle.std.specs.Prelude.{◌≡◌, ℕ, true, false, IfOk, IfErr, vec_capacity};
ghost use Rattle.gst_item.specs.Sticky.{has_flush_stop, stickies};
ghost use Rattle.flow_model.specs.Moment.{Moment};
ghost use Rattle.net_turns.specs.Net.{NetReady, NetStands, Owns};
ghost use Rattle.net_groups.specs.Joined.{CannotJoin};
ghost use Rattle.graph_pads.specs.declared.pad.PadPlace.{PadPlace};
ghost use Rattle.graph_edits.specs.Edited.{Edited};
ghost use Rattle.edit_core.specs.Ways.{IsRun};
ghost use Rattle.edit_acts.specs.Files.{KeepFiles};
ghost use Rattle.edit_acts.specs.Linking.{GoesOnLinked, HasRoomToLink, IsLinked, IsLinkedShort, MayLinkAt, opening_of};

use flow_model::{TaskElement, TaskSource};
use gst_item::Item;
use gst_value::{List, OutOfMemory};
use lane_core::{Inlet, Outlet};
use net_edits::{link_opened, opening_items};
use net_groups::{JoinRoom, join_reserved, room_to_join};
use net_task::Task;
use net_turns::net::Stopped;
use std::alloc::Global;
use task_edits::Inside;

/// What it takes to link a source pad inside of a task: room, and the sticky events that the link gives first. All of it is taken before
/// anything changes.
#[derive(Drop)]
pub struct LinkRoom<E: TaskElement, O> {
    join: JoinRoom<E, O>,
    opening: List<Item>,
}

impl<E: TaskElement, O> LinkRoom<E, O> {
    ghost use Rattle.gst_item.specs.Item.{has_item};

    /// Whether the link gives sticky events first.
    pub(crate) fn opens(&self) -> bool
        ensures { result ≡ has_item (opening_of self.now) }
    {
        !self.opening.as_slice().is_empty()
    }
}

/// Takes the memory for a link of the source pad of a number to a sink pad of an element, and reads the sticky events at the pad: so [`link`]
/// needs memory for what the element does with these alone.
pub fn room_to_link<S: TaskSource, E: TaskElement, I: Inlet<Out = O>, O: Outlet<Lanes = I::Lanes>>(
    alloc: Global,
    tasks: &[Task<S, E, I, O>],
    pad: u32,
    element: u32,
) -> Result<LinkRoom<E, O>, OutOfMemory>
    ensures room { IfOk result (HasRoomToLink tasks.now pad element) }
    ensures opening { IfOk result (λ room. (m : Moment) (tells : _) (k : ℕ) → NetStands m tasks.now tells → Owns tasks.now k (m.plan.owner pad)
        → opening_of room ≡ stickies (m.history pad)) }
{
    let join = room_to_join(alloc, tasks, pad, element)?;
    let opening = opening(alloc, tasks, pad)?;
    Ok(LinkRoom { join, opening })
}

/// The sticky events of what crossed a source pad, and nothing where no task has the pad.
fn opening<S: TaskSource, E: TaskElement, I: Inlet<Out = O>, O: Outlet<Lanes = I::Lanes>>(
    alloc: Global,
    tasks: &[Task<S, E, I, O>],
    pad: u32,
) -> Result<List<Item>, OutOfMemory>
    ensures calm { IfOk result (λ items. has_flush_stop items ≡ false) }
    ensures at { IfOk result (λ items. (m : Moment) (tells : _) (k : ℕ) → NetStands m tasks.now tells → Owns tasks.now k (m.plan.owner pad)
        → items ≡ stickies (m.history pad)) }
{
    match opening_items(alloc, tasks, pad)? {
        Some(items) => Ok(items),
        None => Ok(List::new(alloc)),
    }
}

/// Links the source pad of a number to a sink pad of an element that the head of another task feeds from nothing: that task is joined to the
/// one with the pad, and the element takes the sticky events at once, before any other item. What waits at the pad goes that way. Tells whether
/// it was done; where not, all tasks stay. In a run in which the pads may be linked it is done.
pub fn link<S: TaskSource, E: TaskElement, I: Inlet<Out = O>, O: Outlet<Lanes = I::Lanes>>(
    alloc: Global,
    tasks: &mut Vec<Task<S, E, I, O>>,
    pad: u32,
    to: Inside,
    room: LinkRoom<E, O>,
) -> Result<bool, Stopped>
    requires room { HasRoomToLink tasks.old.items pad to.element room }
    ensures linked { IfOk result (λ done. done ≡ true → IsLinked tasks.old.items tasks.new.items pad to (opening_of room)) }
    ensures none { IfOk result (λ done. done ≡ false → CannotJoin tasks.old.items pad to.element × (tasks.new ≡ tasks.old)) }
    ensures faults { IfErr result (IsLinkedShort tasks.old.items tasks.new.items pad to (opening_of room)) }
    ensures run { IfOk result (λ done. (g : Edited) (m : Moment) (tells : _) (source sink : PadPlace) → IsRun g m tasks.old.items tells
        → MayLinkAt g m source sink pad to (opening_of room) → (done ≡ true) × GoesOnLinked g m tasks.new.items tells source sink) }
    ensures ready { (tells : _) → NetReady tasks.old.items tells → NetReady tasks.new.items tells }
    ensures files { KeepFiles tasks.old.items tasks.new.items }
    ensures room { vec_capacity tasks.new ≡ vec_capacity tasks.old }
{
    if !join_reserved(tasks, pad, to.element, room.join) {
        return Ok(false);
    }
    link_opened(alloc, tasks, pad, to, room.opening)
}
