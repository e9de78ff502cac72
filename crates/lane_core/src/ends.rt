//! The two ends of a lane, as traits.
ghost use Rattle.std.specs.Prelude.{◌≡◌, ℕ, ◌<◌, ◌≤◌, ◌^◌, ◌++◌, [], ◌∷◌, List, Option, OnOk, OnErr, length, slice_get};
ghost use Rattle.std.specs.Option.{ForSome, option_map};
ghost use Rattle.gst_item.specs.declared.item.Item.{Item};
ghost use Rattle.lane_core.specs.Lane.{Lane, IsIn, IsOf, IsBetween, holds_nothing, table_without_items};
ghost use Rattle.lane_core.specs.Room.{Limits, number_of, told_of};
ghost use Rattle.lane_core.specs.Moves.{AnswersRoom, IsPut, IsTake, TakesFirst, Meets, list_after_put, list_after_take, table_after_put, table_after_take, raised};

use gst_item::Item;
use gst_value::{List, OutOfMemory};
use std::alloc::Global;

/// What a put answers.
#[derive(Drop)]
pub enum Put {
    /// The item is in the lane.
    Stored,
    /// The lane had no room, and the item comes back.
    Full(Item),
}

/// What a take answers.
#[derive(Drop)]
pub enum Take {
    /// The oldest item of the lane.
    Item(Item),
    /// The lane had no item.
    Empty,
}

/// The end of a lane that a task puts items into.
pub trait Outlet: Send + Drop {
    /// The table that the caller lends to each call.
    type Lanes: Drop;

    /// The lanes of the table by their places, where the table tells them.
    ghost tells: { Self.Lanes → Option (List Lane) };

    /// Which lane it is an end of: both ends have the same.
    ghost id: { Self → List (List ℕ) };

    /// The place of its lane in the table, where the table tells its lanes.
    ghost place: { Self → ℕ };

    /// What the lane may hold.
    ghost limits: { Self → Limits };

    /// The lists of items that it stands for as sent.
    ghost sent: { Self → List Item → Type 0 };

    /// How many items were sent.
    ghost count: { Self → ℕ };

    /// How many readings it made of what was received, up to the last value of a u64.
    ghost readings: { Self → ℕ };

    /// The words that the last reading gave: the number received is the first.
    ghost reading: { Self → List ℕ };

    /// The lists that it stands for as the words of all its readings.
    ghost heard: { Self → List (List ℕ) → Type 0 };

    /// How many puts were refused, up to the last value of a u64.
    ghost refusals: { Self → ℕ };

    /// Makes one reading, and puts the item behind those of the lane if that showed room.
    fn put(&mut self, lanes: &mut Self::Lanes, item: Item) -> Put
        requires table { IsOf (tells lanes.old) (place self.old) (limits self.old) (count self.old) }
        requires count { count self.old < 2 ^ 62 }
        ensures same { (id self.new ≡ id self.old) × (place self.new ≡ place self.old)
            × (limits self.new ≡ limits self.old) }
        ensures answer { IsPut item result (count self.old) (count self.new) (refusals self.old) (refusals self.new) }
        ensures room { (was : List Item) → sent self.old was
            → AnswersRoom (limits self.old) was (reading self.new) result }
        ensures readings { readings self.new ≡ raised (readings self.old) }
        ensures heard { (was : List (List ℕ)) → heard self.old was → heard self.new (was ++ reading self.new ∷ []) }
        ensures sent { (was : List Item) → sent self.old was → sent self.new (list_after_put was item result) }
        ensures table { tells lanes.new ≡ table_after_put (place self.old) item result (tells lanes.old) }
        // where the table tells its lanes, the reading is of what was received at that moment
        ensures received { (was got : List Item) → sent self.old was → IsBetween (tells lanes.old) (place self.old) was got
            → ForSome (tells lanes.old) (λ t. reading self.new ≡ told_of got) };

    /// How many items were sent.
    fn count(&self) -> u64
        ensures count { result ≡ count self.now }
        ensures length { (was : List Item) → sent self.now was → length was ≡ result };

    /// The count is the length of the list that was sent.
    ghost counts: { (o : Self) (was : List Item) → sent o was → length was ≡ count o };

    /// No lane takes more items than a put allows.
    ghost bounded: { (o : Self) → count o ≤ 2 ^ 62 };
}

/// The end of a lane that a task takes items from.
pub trait Inlet: Send + Drop {
    /// The table that the caller lends to each call.
    type Lanes: Drop;

    /// The other end.
    type Out: Outlet<Lanes = Self::Lanes>;

    /// Which lane it is an end of: both ends have the same.
    ghost id: { Self → List (List ℕ) };

    /// The place of its lane in the table, where the table tells its lanes.
    ghost place: { Self → ℕ };

    /// The lists of items that it stands for as received.
    ghost received: { Self → List Item → Type 0 };

    /// How many items were received.
    ghost count: { Self → ℕ };

    /// How many readings it made of what was sent, up to the last value of a u64.
    ghost readings: { Self → ℕ };

    /// The words that the last reading gave: the number sent is the first.
    ghost reading: { Self → List ℕ };

    /// The lists that it stands for as the words of all its readings.
    ghost heard: { Self → List (List ℕ) → Type 0 };

    /// How many takes were refused, up to the last value of a u64.
    ghost refusals: { Self → ℕ };

    /// Makes one reading, and takes the oldest item of the lane if that showed one.
    fn take(&mut self, lanes: &mut Self::Lanes) -> Take
        requires table { IsIn (Self.Out.tells lanes.old) (place self.old) }
        ensures same { (id self.new ≡ id self.old) × (place self.new ≡ place self.old) }
        ensures answer { IsTake (number_of (reading self.new)) result (count self.old) (count self.new) (refusals self.old) (refusals self.new) }
        ensures readings { readings self.new ≡ raised (readings self.old) }
        ensures heard { (was : List (List ℕ)) → heard self.old was → heard self.new (was ++ reading self.new ∷ []) }
        ensures received { (was : List Item) → received self.old was → received self.new (list_after_take was result) }
        ensures first { TakesFirst (place self.old) result (Self.Out.tells lanes.old) }
        ensures table { Self.Out.tells lanes.new ≡ table_after_take (place self.old) result (Self.Out.tells lanes.old) }
        // where the table tells its lanes, the reading is of what was sent at that moment
        ensures sent { (was got : List Item) → received self.old got → length was ≤ 2 ^ 62
            → IsBetween (Self.Out.tells lanes.old) (place self.old) was got
            → ForSome (Self.Out.tells lanes.old) (λ t. number_of (reading self.new) ≡ length was) };

    /// How many items were received.
    fn count(&self) -> u64
        ensures count { result ≡ count self.now }
        ensures length { (was : List Item) → received self.now was → length was ≡ result };

    /// Whether the lane holds no item now, where the table tells its lanes.
    fn is_empty(&self, lanes: &Self::Lanes) -> bool
        ensures { ForSome (Self.Out.tells lanes.now) (λ t. result ≡ holds_nothing (slice_get t (place self.now))) };

    /// Moves all that is left in the lane behind `into`, so that what was received is what was sent. Room for it
    /// is taken first: where there is no memory, all stays as it was.
    fn meet(
        &mut self,
        alloc: Global,
        lanes: &mut Self::Lanes,
        outlet: &mut Self::Out,
        into: &mut List<Item>,
    ) -> Result<(), OutOfMemory>
        requires table { IsIn (Self.Out.tells lanes.old) (place self.old) }
        requires one { id self.old ≡ Self.Out.id outlet.old }
        ensures inlet { (id self.new ≡ id self.old) × (place self.new ≡ place self.old)
            × (readings self.new ≡ readings self.old) × (reading self.new ≡ reading self.old)
            × (refusals self.new ≡ refusals self.old) }
        ensures outlet { (Self.Out.id outlet.new ≡ Self.Out.id outlet.old)
            × (Self.Out.place outlet.new ≡ Self.Out.place outlet.old)
            × (Self.Out.limits outlet.new ≡ Self.Out.limits outlet.old)
            × (Self.Out.count outlet.new ≡ Self.Out.count outlet.old) }
        ensures outlet_readings { (Self.Out.readings outlet.new ≡ Self.Out.readings outlet.old)
            × (Self.Out.reading outlet.new ≡ Self.Out.reading outlet.old)
            × (Self.Out.refusals outlet.new ≡ Self.Out.refusals outlet.old) }
        ensures heard { (was : List (List ℕ)) → heard self.old was → heard self.new was }
        ensures outlet_heard { (was : List (List ℕ)) → Self.Out.heard outlet.old was → Self.Out.heard outlet.new was }
        ensures count { OnOk result (count self.new ≡ Self.Out.count outlet.new) }
        ensures table { OnOk result (
            Self.Out.tells lanes.new ≡ option_map (table_without_items (place self.old)) (Self.Out.tells lanes.old)
            ) }
        ensures meets { OnOk result (
            (sent got : List Item) → Self.Out.sent outlet.old sent → received self.old got
            → IsBetween (Self.Out.tells lanes.old) (place self.old) sent got
            → Meets (received self.new) (Self.Out.sent outlet.new) sent got into.old into.new
            ) }
        ensures err { OnErr result (
            (self.new ≡ self.old) × (outlet.new ≡ outlet.old) × (into.new ≡ into.old)
            × (lanes.new ≡ lanes.old)
            ) };

    /// The count is the length of the list that was received.
    ghost counts: { (i : Self) (was : List Item) → received i was → length was ≡ count i };

    /// No lane takes more items than a put allows.
    ghost bounded: { (i : Self) → count i ≤ 2 ^ 62 };
}
