//! How the oldest item that waits at a pad crosses it.
ghost use Rattle.std.specs.Prelude.{◌≡◌, ◌≤◌, ◌<◌, ◌^◌, ◌≢◌, [], true, false};
ghost use Rattle.gst_item.specs.Sticky.{has_flush_stop};
ghost use Rattle.lane_core.specs.Lane.{IsOf};
ghost use Rattle.pad_core.specs.SrcPad.{state_of, crossed_of};
ghost use Rattle.pad_core.specs.Linking.{has_peer};
ghost use Rattle.task_pads.specs.Behind.{leads_on, items_of, EndReady, end_in, count_in, place_in, goes};
ghost use Rattle.task_pads.specs.Pads.{seen_in, setting_of, KeepsTable, IsLoose};
ghost use Rattle.task_pads.specs.Crossing.{Came};
ghost use Rattle.task_pads.specs.Passing.{HasPassed, IsPutBy};

use crate::offer::{Answer, offer};
use crate::pad::Behind;
use gst_item::Out;
use lane_core::{Outlet, Put};
use pad_core::SrcPad;
use std::alloc::Global;
use std::collections::VecDeque;

/// The most items that cross a pad, and that go into a lane.
const MOST_ITEMS: u64 = 1 << 40;

/// What came of the oldest item that waits at a pad.
#[derive(Clone, Copy)]
pub enum Crossing {
    /// None waits.
    Idle,
    /// It crossed to a sink pad of the element of a number in the task, which is looked for first at the place `hint`.
    /// It is still to be taken from the pad.
    To { number: u32, hint: usize, pad: u32 },
    /// It crossed into a lane, or to nobody.
    Gone,
    /// The lane has no room.
    Full { lane: u32 },
    /// It is a buffer that stands at the probe of this command.
    AtProbe { command: u32 },
    /// It is a buffer, and neither this pad nor a sibling is linked.
    NotLinked,
    /// EOS has crossed: the item waits on.
    BehindEos,
    /// 2^40 items have crossed the pad, or went into its lane.
    AtLimit,
    /// No memory was left for the copy of a sticky event.
    OutOfMemory,
}

/// The oldest item that waits crosses a pad, if it can.
#[inline(always)]
pub(crate) fn cross<O: Outlet>(
    alloc: Global,
    src: &mut SrcPad,
    waiting: &mut VecDeque<Out>,
    behind: &mut Behind<O>,
    lanes: &mut O::Lanes,
    sibling: bool,
) -> Crossing
    requires active { (state_of src.old).active ≡ true }
    requires flows { (state_of src.old).flushing ≡ false }
    requires linked { has_peer (state_of src.old).peer ≡ leads_on behind.old }
    requires no_flush { has_flush_stop (items_of waiting.old.items) ≡ false }
    requires few { crossed_of src.old ≤ 1099511627776 }
    requires table { EndReady (O.tells lanes.old) (end_in O.Outlet behind.old) }
    ensures came { Came O.Outlet (seen_in src.old waiting.old.items behind.old) (seen_in src.new waiting.new.items behind.new)
        (O.tells lanes.old) (O.tells lanes.new) sibling result }
    ensures setting { setting_of src.new ≡ setting_of src.old }
    ensures goes { goes behind.new ≡ goes behind.old }
    ensures no_flush { has_flush_stop (items_of waiting.new.items) ≡ false }
    ensures few { crossed_of src.new ≤ 1099511627776 }
    ensures table { KeepsTable (place_in (end_in O.Outlet behind.old)) (O.tells lanes.old) (O.tells lanes.new) }
    ensures ready { EndReady (O.tells lanes.new) (end_in O.Outlet behind.new) }
{
    let Some(first) = waiting.front() else {
        return Crossing::Idle;
    };
    if src.crossed() >= MOST_ITEMS {
        return Crossing::AtLimit;
    }
    if behind.count() >= MOST_ITEMS {
        return Crossing::AtLimit;
    }
    match offer(alloc, src, &first.item, sibling) {
        Answer::Crosses => pass(src, waiting, behind, lanes),
        Answer::AtProbe(command) => Crossing::AtProbe { command },
        Answer::NotLinked => Crossing::NotLinked,
        Answer::OutOfMemory => Crossing::OutOfMemory,
        Answer::BehindEos => Crossing::BehindEos,
    }
}

impl<O: Outlet> Behind<O> {
    /// How many items went into the lane, and 0 where there is none.
    fn count(&self) -> u64
        ensures { result ≡ count_in (end_in O.Outlet self.now) }
    {
        match self {
            Behind::Nothing | Behind::Element { .. } => 0,
            Behind::Lane { outlet, .. } => outlet.count(),
        }
    }
}

/// An item that has crossed the pad, and waits first, goes to what is behind it.
#[inline(always)]
fn pass<O: Outlet>(
    src: &mut SrcPad,
    waiting: &mut VecDeque<Out>,
    behind: &mut Behind<O>,
    lanes: &mut O::Lanes,
) -> Crossing
    requires some { waiting.old.items ≢ [] }
    requires loose { IsLoose src.old }
    requires table { EndReady (O.tells lanes.old) (end_in O.Outlet behind.old) }
    requires few { count_in (end_in O.Outlet behind.old) < 2 ^ 62 }
    ensures { HasPassed O.Outlet (seen_in src.old waiting.old.items behind.old) (seen_in src.new waiting.new.items behind.new)
        (O.tells lanes.old) (O.tells lanes.new) result }
{
    match behind {
        Behind::Nothing => {
            waiting.pop_front();
            Crossing::Gone
        }
        Behind::Element { number, hint, pad } => Crossing::To {
            number: *number,
            hint: *hint,
            pad: *pad,
        },
        Behind::Lane { lane, outlet, .. } => send(*lane, outlet, src, waiting, lanes),
    }
}

/// An item that has crossed the pad, and waits first, is put into the lane of a number. Where that has no room, the
/// crossing is taken back.
#[inline(always)]
fn send<O: Outlet>(
    lane: u32,
    outlet: &mut O,
    src: &mut SrcPad,
    waiting: &mut VecDeque<Out>,
    lanes: &mut O::Lanes,
) -> Crossing
    requires some { waiting.old.items ≢ [] }
    requires loose { IsLoose src.old }
    requires table { IsOf (O.tells lanes.old) (O.place outlet.old) (O.limits outlet.old) (O.count outlet.old) }
    requires few { O.count outlet.old < 2 ^ 62 }
    ensures { IsPutBy O.Outlet lane outlet.old outlet.new (items_of waiting.old.items) (items_of waiting.new.items) src.old src.new
        (O.tells lanes.old) (O.tells lanes.new) result }
{
    let Some(out) = waiting.pop_front() else {
        unreachable!()
    };
    match outlet.put(lanes, out.item) {
        Put::Stored => Crossing::Gone,
        Put::Full(item) => {
            waiting.push_front_reserved(Out { pad: out.pad, item });
            src.take_back();
            Crossing::Full { lane }
        }
    }
}
