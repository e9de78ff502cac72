//! A table of lanes in memory.
ghost use Rattle.std.specs.Prelude.{◌≡◌, ◌<◌, ◌++◌, [], ◌∷◌, length, Some, IfOk, OnErr, OnOk, MatchOption, slice_get};
ghost use Rattle.lane_core.specs.Lane.{Lane, holds_nothing, lane_of, table_with_item, table_without_first, table_without_items};

use gst_item::Item;
use gst_value::{List, OutOfMemory};
use std::alloc::Global;
use std::collections::VecDeque;
use std::marker::Model;

/// The items of one lane, oldest first, in a queue with room for `reserved` of them.
#[derive(Drop)]
struct MemLane {
    waiting: VecDeque<Item>,
    reserved: u32,
}

impl Model for MemLane {
    ghost use Rattle.std.specs.Prelude.{◌≤◌};
    ghost use Rattle.std.specs.VecDeque.{deque_capacity};
    ghost use Rattle.lane_core.specs.Lane.{Lane, lane_of};

    ghost Value = { Lane };

    ghost view = { λ s. lane_of s.waiting.items s.reserved };

    ghost invariant = { λ s. s.reserved ≤ deque_capacity s.waiting };
}

impl MemLane {
    /// An empty lane, with all its room.
    fn new(alloc: Global, reserved: u32) -> Result<MemLane, OutOfMemory>
        ensures { IfOk result (λ made. made ≡ lane_of [] reserved) }
    {
        Ok(MemLane {
            waiting: VecDeque::with_capacity(alloc, reserved as usize)?,
            reserved,
        })
    }

    /// How many items it holds.
    fn len(&self) -> usize
        ensures { result ≡ length self.now.items }
    {
        self.waiting.len()
    }

    /// Puts an item behind the others.
    #[inline(always)]
    fn put(&mut self, item: Item)
        requires { length self.old.items < self.old.room }
        ensures { self.new ≡ lane_of (self.old.items ++ item ∷ []) self.old.room }
    {
        self.waiting.push_back_reserved(item);
    }

    /// Takes the oldest item, if there is one.
    #[inline(always)]
    fn take(&mut self) -> Option<Item>
        ensures room { self.new.room ≡ self.old.room }
        ensures items { MatchOption result ((self.old.items ≡ []) × (self.new.items ≡ [])) (λ item. self.old.items ≡ item ∷ self.new.items) }
    {
        self.waiting.pop_front()
    }

    /// Moves all items behind `into`.
    fn pour(&mut self, alloc: Global, into: &mut List<Item>) -> Result<(), OutOfMemory>
        ensures into { OnOk result (into.new ≡ into.old ++ self.old.items) }
        ensures empty { OnOk result (self.new ≡ lane_of [] self.old.room) }
        ensures err { OnErr result ((into.new ≡ into.old) × (self.new ≡ self.old)) }
    {
        into.pour(alloc, &mut self.waiting)
    }
}

/// A table of lanes in memory, seen as the list of its lanes.
#[derive(Drop)]
pub struct MemLanes {
    lanes: Vec<MemLane>,
}

impl Model for MemLanes {
    ghost use Rattle.std.specs.Prelude.{List as Lanes};
    ghost use Rattle.lane_core.specs.Lane.{Lane};

    ghost Value = { Lanes Lane };

    ghost view = { λ s. s.lanes.items };
}

impl MemLanes {
    /// The table without lanes, which takes no memory.
    pub fn new(alloc: Global) -> MemLanes
        ensures { result ≡ [] }
    {
        MemLanes {
            lanes: Vec::new(alloc),
        }
    }

    /// Adds an empty lane, and answers its place.
    pub(crate) fn add(&mut self, alloc: Global, room: u32) -> Result<u64, OutOfMemory>
        ensures place { IfOk result (λ place. place ≡ length self.old) }
        ensures ok { OnOk result (self.new ≡ self.old ++ lane_of [] room ∷ []) }
        ensures err { OnErr result (self.new ≡ self.old) }
    {
        let lane = MemLane::new(alloc, room)?;
        let place = self.lanes.len();
        self.lanes.push(lane)?;
        Ok(place as u64)
    }

    /// How many items a lane holds.
    pub(crate) fn len_of(&self, place: u64) -> usize
        requires { (lane : Lane) × (slice_get self.now place ≡ Some lane) }
        ensures { (lane : Lane) → slice_get self.now place ≡ Some lane → result ≡ length lane.items }
    {
        self.lanes[place as usize].len()
    }

    /// Whether a lane holds no item. Where there is no lane nothing is held.
    pub(crate) fn is_empty(&self, place: u64) -> bool
        ensures { result ≡ holds_nothing (slice_get self.now place) }
    {
        match self.lanes.get(place as usize) {
            Some(lane) => lane.len() == 0,
            None => true,
        }
    }

    /// Puts an item into a lane.
    #[inline(always)]
    pub(crate) fn put(&mut self, place: u64, item: Item)
        requires { (lane : Lane) × (slice_get self.old place ≡ Some lane) × (length lane.items < lane.room) }
        ensures { self.new ≡ table_with_item item place self.old }
    {
        self.lanes[place as usize].put(item);
    }

    /// Takes the oldest item of a lane, if there is one.
    #[inline(always)]
    pub(crate) fn take(&mut self, place: u64) -> Option<Item>
        requires { (lane : Lane) × (slice_get self.old place ≡ Some lane) }
        ensures { (lane : Lane) → slice_get self.old place ≡ Some lane
            → MatchOption result ((lane.items ≡ []) × (self.new ≡ self.old))
            (λ item. ((rest : _) × (lane.items ≡ item ∷ rest)) × (self.new ≡ table_without_first place self.old)) }
    {
        self.lanes[place as usize].take()
    }

    /// Moves all items of a lane behind `into`.
    pub(crate) fn pour(
        &mut self,
        alloc: Global,
        place: u64,
        into: &mut List<Item>,
    ) -> Result<(), OutOfMemory>
        requires { (lane : Lane) × (slice_get self.old place ≡ Some lane) }
        ensures into { OnOk result (
            (lane : Lane) → slice_get self.old place ≡ Some lane → into.new ≡ into.old ++ lane.items
            ) }
        ensures empty { OnOk result (self.new ≡ table_without_items place self.old) }
        ensures err { OnErr result ((self.new ≡ self.old) × (into.new ≡ into.old)) }
    {
        self.lanes[place as usize].pour(alloc, into)
    }
}
