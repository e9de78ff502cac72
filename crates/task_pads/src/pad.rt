//! Source pads.
ghost use Rattle.std.specs.Prelude.{◌≡◌, ◌≤◌, true, false};
ghost use Rattle.gst_item.specs.Sticky.{has_flush_stop};
ghost use Rattle.pad_core.specs.SrcPad.{crossed_of, state_of};
ghost use Rattle.pad_core.specs.Linking.{has_peer};
ghost use Rattle.task_pads.specs.Behind.{leads_on, items_of};

use crate::crossing::{Crossing, cross};
use crate::offer::{lead, linked_pad};
use gst_item::{Event, Item, Out};
use gst_value::{List, OutOfMemory};
use lane_core::Outlet;
use pad_core::SrcPad;
use std::alloc::Global;
use std::collections::VecDeque;
use std::mem;

/// Where a source pad leads.
#[derive(Drop)]
pub enum Behind<O> {
    /// Nowhere.
    Nothing,
    /// To a sink pad of the element of a number in the same task, which is looked for first at the place `hint`.
    Element {
        number: u32,
        hint: usize,
        pad: u32,
    },
    /// Over the lane of a number to a sink pad of an element of another task. The lane was made when `from` items had
    /// crossed the source pad.
    Lane {
        lane: u32,
        element: u32,
        pad: u32,
        from: u64,
        outlet: O,
    },
}

/// A source pad, with what was put out and has not crossed it, oldest first. It is active, never flushes, no FLUSH_STOP
/// waits at it, and at most 2^40 items have crossed it.
#[derive(Drop)]
pub struct Pad<O> {
    pub(crate) src: SrcPad,
    pub(crate) waiting: VecDeque<Out>,
    pub(crate) behind: Behind<O>,
    ghost active: { (state_of src).active ≡ true },
    ghost flows: { (state_of src).flushing ≡ false },
    ghost linked: { has_peer (state_of src).peer ≡ leads_on behind },
    ghost no_flush: { has_flush_stop (items_of waiting.items) ≡ false },
    ghost few: { crossed_of src ≤ 1099511627776 },
}

impl<O: Outlet> Pad<O> {
    ghost use Rattle.std.specs.Prelude.{◌≢◌, ◌+◌, ◌++◌, ◌∷◌, ◌==◌, [], List, IfOk, OnOk, None, Some, length, map};
    ghost use Rattle.gst_item.specs.Sticky.{stickies};
    ghost use Rattle.flow_model.specs.Item.{Ev, is_flush_stop, buffers};
    ghost use Rattle.flow_model.specs.Item.{Item as Piece};
    ghost use Rattle.pad_core.specs.Crossing.{has_ended};
    ghost use Rattle.task_pads.specs.Behind.{goes, SetsHint, place_in, sent_in};
    ghost use Rattle.task_pads.specs.Pads.{first_is_buffer, seen, number_of, goes_of, waiting_of, rest_of, end_of, probe_of, pad_shape, crossed_count, HasCrossed, CanTakeBack, IsLed, IsProbed, StandsAs, PadReady, KeepsTable, HasRoom};
    ghost use Rattle.task_pads.specs.Crossing.{IsCrossing};
    ghost use Rattle.task_pads.specs.Put.{IsTaken};

    /// The pad of this number, which nothing has crossed and at which nothing waits.
    pub fn new(alloc: Global, number: u32, behind: Behind<O>) -> Pad<O>
        ensures number { number_of result ≡ number }
        ensures goes { goes_of result ≡ goes behind }
        ensures idle { waiting_of result ≡ [] }
        ensures history { HasCrossed result [] }
        ensures crossed { crossed_count result ≡ 0 }
        ensures probe { probe_of result ≡ None }
        ensures rest { (rest_of result).behind ≡ behind }
    {
        Pad {
            src: behind.source_pad(number),
            waiting: VecDeque::new(alloc),
            behind,
        }
    }

    /// Its number.
    pub fn number(&self) -> u32
        ensures { result ≡ number_of self.now }
    {
        self.src.number()
    }

    /// How many items crossed it, events counted.
    pub fn crossed(&self) -> u64
        ensures number { result ≡ crossed_count self.now }
        ensures history { (h : List Piece) → HasCrossed self.now h → result ≡ length h }
    {
        self.src.crossed()
    }

    /// How many buffers crossed it.
    pub fn buffers(&self) -> u64
        ensures { (h : List Piece) → HasCrossed self.now h → result ≡ buffers h }
    {
        self.src.buffers()
    }

    /// Whether EOS crossed it since the last FLUSH_STOP.
    pub fn has_ended(&self) -> bool
        ensures { (h : List Piece) → HasCrossed self.now h → result ≡ has_ended h }
    {
        self.src.has_ended()
    }

    /// Copies of the sticky events of what crossed it, in the order STREAM_START, CAPS, SEGMENT, TAG, EOS: what a sink pad is given
    /// first to which it is linked anew.
    pub fn stickies(&self, alloc: Global) -> Result<List<Event>, OutOfMemory>
        ensures { IfOk result (λ events. (h : List Piece) → HasCrossed self.now h → map Ev events ≡ stickies h) }
    {
        self.src.stickies(alloc)
    }

    /// Whether nothing waits at it.
    pub fn is_idle(&self) -> bool
        ensures idle { result ≡ true → waiting_of self.now ≡ [] }
        ensures waits { result ≡ false → waiting_of self.now ≢ [] }
    {
        self.waiting.is_empty()
    }

    /// Whether what waits first at it is a buffer. None where nothing waits.
    pub fn first_is_buffer(&self) -> Option<bool>
        ensures { result ≡ first_is_buffer (waiting_of self.now) }
    {
        if self.waiting.is_empty() {
            return None;
        }
        Some(matches!(self.waiting[0].item, Item::Buffer(_)))
    }

    /// Where it leads.
    pub fn behind(&self) -> &Behind<O>
        ensures { result.now ≡ (rest_of self.now).behind }
    {
        &self.behind
    }

    /// How many items it sent into the lane of this number. None where it does not lead there.
    pub fn sent(&self, lane: u32) -> Option<u64>
        ensures { result ≡ sent_in O.Outlet lane (rest_of self.now).behind }
    {
        match &self.behind {
            Behind::Lane {
                lane: number,
                outlet,
                ..
            } => {
                if *number == lane {
                    return Some(outlet.count());
                }
                None
            }
            Behind::Nothing | Behind::Element { .. } => None,
        }
    }

    /// The oldest item that waits crosses the pad, if it can. `sibling` says whether another source pad of the element
    /// is linked. Where it goes to an element of the task it waits on until it is taken.
    #[inline(always)]
    pub fn cross(&mut self, alloc: Global, lanes: &mut O::Lanes, sibling: bool) -> Crossing
        requires table { PadReady O.Outlet (O.tells lanes.old) self.old }
        ensures crossing { IsCrossing O.Outlet self.old self.new (O.tells lanes.old) (O.tells lanes.new) sibling result }
        ensures shape { pad_shape self.new ≡ pad_shape self.old }
        ensures probe { probe_of self.new ≡ probe_of self.old }
        ensures table { KeepsTable (place_in (end_of O.Outlet self.old)) (O.tells lanes.old) (O.tells lanes.new) }
        ensures ready { PadReady O.Outlet (O.tells lanes.new) self.new }
    {
        cross(
            alloc,
            &mut self.src,
            &mut self.waiting,
            &mut self.behind,
            lanes,
            sibling,
        )
    }

    /// Takes the oldest item that waits, which has crossed the pad.
    #[inline(always)]
    pub fn take(&mut self) -> Option<Item>
        ensures taken { IsTaken self.old self.new result }
        ensures rest { rest_of self.new ≡ rest_of self.old }
    {
        match self.waiting.pop_front() {
            Some(out) => Some(out.item),
            None => None,
        }
    }

    /// Takes the last crossing back, where the last call but `take` was a `cross` that answered `To`. The pad is then as
    /// it was before it, but that the item waits no more if it was taken.
    #[inline(always)]
    pub fn take_back(&mut self)
        requires { CanTakeBack self.old }
        ensures history { (h : List Piece) (x : Piece) → HasCrossed self.old (h ++ x ∷ []) → HasCrossed self.new h }
        ensures crossed { crossed_count self.new + 1 ≡ crossed_count self.old }
        ensures waiting { waiting_of self.new ≡ waiting_of self.old }
        ensures behind { (rest_of self.new).behind ≡ (rest_of self.old).behind }
        ensures shape { pad_shape self.new ≡ pad_shape self.old }
        ensures probe { probe_of self.new ≡ probe_of self.old }
    {
        self.src.take_back();
    }

    /// Sets the place at which the element behind it is looked for first, where that is of the same task.
    pub fn set_hint(&mut self, place: usize)
        ensures hint { SetsHint place (rest_of self.old).behind (rest_of self.new).behind }
        ensures waiting { waiting_of self.new ≡ waiting_of self.old }
        ensures stands { StandsAs O.Outlet (seen self.old) (seen self.new) }
        ensures src { (rest_of self.new).src ≡ (rest_of self.old).src }
    {
        if let Behind::Element { hint, .. } = &mut self.behind {
            *hint = place;
        }
    }

    /// Takes the memory for one more item that waits.
    #[inline(always)]
    pub fn make_room(&mut self) -> Result<(), OutOfMemory>
        ensures room { OnOk result (HasRoom self.new) }
        ensures waiting { waiting_of self.new ≡ waiting_of self.old }
        ensures rest { rest_of self.new ≡ rest_of self.old }
    {
        self.waiting.reserve(1)?;
        Ok(())
    }

    /// Puts an item behind those that wait, into room that was made before.
    #[inline(always)]
    pub fn push_reserved(&mut self, item: Item)
        requires room { HasRoom self.old }
        requires no_flush { is_flush_stop item ≡ false }
        ensures waiting { waiting_of self.new ≡ waiting_of self.old ++ item ∷ [] }
        ensures rest { rest_of self.new ≡ rest_of self.old }
    {
        self.waiting.push_back_reserved(Out { pad: 0, item });
    }

    /// Sets the probe of a command, which stops the buffer behind so many.
    pub fn block(&mut self, command: u32, buffers: u64)
        ensures { IsProbed self.old self.new (Some (record { command = command; buffers = buffers })) }
    {
        self.src.block(command, buffers);
    }

    /// Takes the probe away.
    pub fn unblock(&mut self)
        ensures { IsProbed self.old self.new None }
    {
        self.src.unblock();
    }

    /// Leads elsewhere from now on. Where it led is given back; what waits at it stays, and goes the new way.
    pub fn lead(&mut self, behind: Behind<O>) -> Behind<O>
        ensures led { IsLed self.old self.new behind }
        ensures was { result ≡ (rest_of self.old).behind }
    {
        lead(&mut self.src, behind.sink_pad());
        mem::replace(&mut self.behind, behind)
    }
}

impl<O> Behind<O> {
    ghost use Rattle.std.specs.Prelude.{[], None, is_some};
    ghost use Rattle.pad_core.specs.SrcPad.{CrossedBy};

    /// A pad of this number that nothing crossed, with a peer where it leads on.
    fn source_pad(&self, number: u32) -> SrcPad
        ensures number { (state_of result).number ≡ number }
        ensures active { (state_of result).active ≡ true }
        ensures flows { (state_of result).flushing ≡ false }
        ensures linked { has_peer (state_of result).peer ≡ leads_on self.now }
        ensures probe { (state_of result).probe ≡ None }
        ensures history { CrossedBy result [] }
        ensures crossed { crossed_of result ≡ 0 }
    {
        match self {
            Behind::Nothing => SrcPad::new(number, true),
            Behind::Element { pad, .. } => linked_pad(number, *pad),
            Behind::Lane { pad, .. } => linked_pad(number, *pad),
        }
    }

    /// The sink pad to which it leads, if it leads on.
    fn sink_pad(&self) -> Option<u32>
        ensures { is_some result ≡ leads_on self.now }
    {
        match self {
            Behind::Nothing => None,
            Behind::Element { pad, .. } | Behind::Lane { pad, .. } => Some(*pad),
        }
    }
}
