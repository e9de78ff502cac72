//! What a sink pad is fed from.
ghost use Rattle.std.specs.Prelude.{◌≡◌, ◌≤◌, ◌<◌, ◌+◌, ◌++◌, ◌↔◌, [], ◌∷◌, ℕ, IsTrue, List, Option, Some, OnOk, OnErr, drop};
ghost use Rattle.gst_item.specs.declared.item.Item.{Item};

use crate::feeding::{Answer, Feeding, UNLINKED};
use gst_item::Item;
use gst_value::OutOfMemory;
use lane_core::Inlet;
use std::alloc::Global;
use std::collections::VecDeque;

/// What a sink pad is fed from, in order: items that control gave, and lanes. A lane behind which something stands
/// was undone: nothing is put into it any more. The given items take no room in a lane.
#[derive(Drop)]
pub struct InletRow<I> {
    feeds: VecDeque<Feeding<I>>,
}

impl<I: Inlet> InletRow<I> {
    ghost use Rattle.lane_core.specs.Lane.{Lane};
    ghost use Rattle.inlet_row.specs.declared.feeding.Feeding.TheVariants.{Given, Lane as OfLane};
    ghost use Rattle.inlet_row.specs.declared.feeding.Answer.TheVariants.{Item as Next};
    ghost use Rattle.inlet_row.specs.Row.{AreApart, RowBetween, RowGave, RowIn, feeds_of, received_of, room_of, row_holds};
    ghost use Rattle.inlet_row.specs.Ends.{Gives, Links, Stays};
    ghost use Rattle.inlet_row.specs.Take.{First, HoldsAfter, KeepsLanes, Moves, list_after};
    ghost use Rattle.inlet_row.specs.Taken.{GoesInto, taken_of};

    /// A row of nothing, which takes no memory.
    pub fn new(alloc: Global) -> InletRow<I>
        ensures feeds { feeds_of result ≡ [] }
        ensures gave { RowGave I.Inlet result [] }
        ensures within { (tells : Option (List Lane)) → RowIn I.Inlet tells result }
        ensures apart { AreApart I.Inlet result }
    {
        InletRow {
            feeds: VecDeque::new(alloc),
        }
    }

    /// Takes room for this number of further things. It fails only where there is not room for them already.
    pub fn make_room(&mut self, more: usize) -> Result<(), OutOfMemory>
        ensures feeds { feeds_of self.new ≡ feeds_of self.old }
        ensures room { OnOk result (more ≤ room_of self.new) }
        ensures kept { room_of self.old ≤ room_of self.new }
        ensures err { OnErr result (room_of self.old < more) }
        ensures stays { Stays I.Inlet self.old self.new }
    {
        Ok(self.feeds.reserve(more)?)
    }

    /// Puts an item behind all that stands in the row.
    pub fn give(&mut self, item: Item)
        requires room { 0 < room_of self.old }
        ensures feeds { feeds_of self.new ≡ feeds_of self.old ++ Given item ∷ [] }
        ensures room { room_of self.new + 1 ≡ room_of self.old }
        ensures gives { Gives I.Inlet self.old self.new item }
    {
        self.feeds.push_back_reserved(Feeding::Given(item));
    }

    /// Puts a lane behind all that stands in the row. A lane that was the last is thereby undone.
    pub fn link(&mut self, number: u32, inlet: I)
        requires room { 0 < room_of self.old }
        ensures feeds { feeds_of self.new ≡ feeds_of self.old ++ OfLane number inlet ∷ [] }
        ensures room { room_of self.new + 1 ≡ room_of self.old }
        ensures links { Links I.Inlet self.old self.new inlet }
    {
        let lane = Feeding::Lane { number, inlet };
        self.feeds.push_back_reserved(lane);
    }

    /// Takes the next item, if there is one now, and puts it there. An undone lane in which nothing is left is dropped on the
    /// way.
    #[inline(always)]
    pub fn take(&mut self, lanes: &mut I::Lanes, into: &mut Option<Item>) -> Answer
        requires table { RowIn I.Inlet (I.Out.tells lanes.old) self.old }
        ensures into { GoesInto result into.old into.new }
        ensures moves { Moves I.Inlet (I.Out.tells lanes.old) (I.Out.tells lanes.new) self.old self.new (taken_of result into.new) }
        ensures table { KeepsLanes I.Inlet (I.Out.tells lanes.old) (I.Out.tells lanes.new) self.old self.new (taken_of result into.new) }
        ensures gave { (got : List Item) → RowGave I.Inlet self.old got → RowGave I.Inlet self.new (list_after got (taken_of result into.new)) }
        ensures between { (sents : ℕ → List Item) (got : List Item) → AreApart I.Inlet self.old
            → RowBetween I.Inlet (I.Out.tells lanes.old) sents self.old got
            → RowBetween I.Inlet (I.Out.tells lanes.new) sents self.new (list_after got (taken_of result into.new)) }
        ensures holds { (t : List Lane) (sents : ℕ → List Item) (got : List Item) → I.Out.tells lanes.old ≡ Some t
            → AreApart I.Inlet self.old → RowBetween I.Inlet (Some t) sents self.old got
            → HoldsAfter I.Inlet t (I.Out.tells lanes.new) self.old self.new (taken_of result into.new) }
    {
        self.next(lanes, into)
    }

    /// How many items were received from the first lane of this number.
    pub fn received(&self, number: u32) -> Option<u64>
        ensures { result ≡ received_of I.Inlet number (feeds_of self.now) }
    {
        for place in 0..self.feeds.len() {
            if let Some(count) = self.feeds[place].received(number) {
                return Some(count);
            }
        }
        None
    }

    /// Whether nothing stands in the row that could still be taken, where the table tells its lanes: no given item, and no lane with one.
    pub fn is_empty(&self, lanes: &I::Lanes) -> bool
        ensures { (t : List Lane) → I.Out.tells lanes.now ≡ Some t → IsTrue result ↔ (row_holds I.Inlet t self.now ≡ []) }
    {
        for place in 0..self.feeds.len() {
            if !self.feeds[place].is_empty(lanes) {
                return false;
            }
        }
        true
    }

    /// What stands in the row, in order.
    pub fn into_feeds(self) -> VecDeque<Feeding<I>>
        ensures { result.items ≡ feeds_of self }
    {
        self.feeds
    }

    #[inline(always)]
    fn next(&mut self, lanes: &mut I::Lanes, into: &mut Option<Item>) -> Answer
        requires table { RowIn I.Inlet (I.Out.tells lanes.old) self.old }
        ensures moves { Moves I.Inlet (I.Out.tells lanes.old) (I.Out.tells lanes.new) self.old self.new (taken_of result into.new) }
        ensures into { GoesInto result into.old into.new }
    {
        while self.feeds.len() > 1 {
            match self.first(lanes, into) {
                Answer::Item => return Answer::Item,
                Answer::Empty(_) => self.drop_first(),
            }
        }
        self.first(lanes, into)
    }

    /// Drops what stands first.
    fn drop_first(&mut self)
        ensures { feeds_of self.new ≡ drop 1 (feeds_of self.old) }
    {
        self.feeds.pop_front();
    }

    /// The item that stands first, or one that the lane there gives.
    #[inline(always)]
    fn first(&mut self, lanes: &mut I::Lanes, into: &mut Option<Item>) -> Answer
        requires table { RowIn I.Inlet (I.Out.tells lanes.old) self.old }
        ensures first { First I.Inlet (I.Out.tells lanes.old) (I.Out.tells lanes.new) (feeds_of self.old) (feeds_of self.new) (taken_of result into.new) }
        ensures into { GoesInto result into.old into.new }
    {
        if self.feeds.is_empty() {
            return Answer::Empty(UNLINKED);
        }
        if self.feeds[0].is_given() {
            return self.first_given(into);
        }
        self.feeds[0].take(lanes, into)
    }

    /// The item that stands first.
    fn first_given(&mut self, into: &mut Option<Item>) -> Answer
        ensures given { (item : Item) (feeds : List (Feeding I)) → feeds_of self.old ≡ Given item ∷ feeds
            → (feeds_of self.new ≡ feeds) × (result ≡ Next) × (into.new ≡ Some item) }
        ensures into { GoesInto result into.old into.new }
    {
        match self.feeds.pop_front() {
            Some(first) => first.give(into),
            None => Answer::Empty(UNLINKED),
        }
    }
}
