//! One thing that a sink pad is fed from.
ghost use Rattle.std.specs.Prelude.{◌≡◌, ◌↔◌, [], ◌∷◌, IsTrue, List, Some};
ghost use Rattle.inlet_row.specs.Feed.{is_given, received_in};

use gst_item::Item;
use lane_core::{Inlet, Take};

/// The number that is told where there is no lane.
pub const UNLINKED: u32 = 4_294_967_295;

/// One thing in a row.
#[derive(Drop)]
pub enum Feeding<I> {
    /// An item that control gave.
    Given(Item),
    /// The lane of this number, by its end.
    Lane { number: u32, inlet: I },
}

/// What a row answers that is asked for its next item. The item itself goes where the caller has room for it, so that an
/// answer without one is small.
#[derive(Clone, Copy)]
pub enum Answer {
    /// The next item went there.
    Item,
    /// There is none now: the number of the lane that it waits for, or `UNLINKED` where there is no lane.
    Empty(u32),
}

impl<I: Inlet> Feeding<I> {
    ghost use Rattle.gst_item.specs.declared.item.Item.{Item};
    ghost use Rattle.inlet_row.specs.declared.feeding.Feeding.TheVariants.{Given};
    ghost use Rattle.inlet_row.specs.declared.feeding.Answer.TheVariants.{Item as Next};
    ghost use Rattle.lane_core.specs.Lane.{Lane};
    ghost use Rattle.inlet_row.specs.Row.{held};
    ghost use Rattle.inlet_row.specs.Take.{IsAskable, Asks};
    ghost use Rattle.inlet_row.specs.Taken.{GoesInto, taken_of};

    /// Whether control gave it.
    #[inline(always)]
    pub(crate) fn is_given(&self) -> bool
        ensures { result ≡ is_given self.now }
    {
        match self {
            Feeding::Given(_) => true,
            Feeding::Lane { .. } => false,
        }
    }

    /// How many items were received, if it is the lane of this number.
    pub(crate) fn received(&self, wanted: u32) -> Option<u64>
        ensures { result ≡ received_in I.Inlet wanted self.now }
    {
        match self {
            Feeding::Given(_) => None,
            Feeding::Lane { number, inlet } => {
                if *number == wanted {
                    return Some(inlet.count());
                }
                None
            }
        }
    }

    /// Whether it is a lane that holds no item now, where the table tells its lanes.
    pub(crate) fn is_empty(&self, lanes: &I::Lanes) -> bool
        ensures { (t : List Lane) → I.Out.tells lanes.now ≡ Some t → IsTrue result ↔ (held I.Inlet t (self.now ∷ []) ≡ []) }
    {
        match self {
            Feeding::Given(_) => false,
            Feeding::Lane { inlet, .. } => inlet.is_empty(lanes),
        }
    }

    /// The item that control gave goes there.
    pub(crate) fn give(self, into: &mut Option<Item>) -> Answer
        ensures given { (item : Item) → self ≡ Given item → (result ≡ Next) × (into.new ≡ Some item) }
        ensures into { GoesInto result into.old into.new }
    {
        match self {
            Feeding::Given(item) => {
                *into = Some(item);
                Answer::Item
            }
            Feeding::Lane { number, .. } => Answer::Empty(number),
        }
    }

    /// Takes an item of the lane, if there is one now.
    #[inline(always)]
    pub(crate) fn take(&mut self, lanes: &mut I::Lanes, into: &mut Option<Item>) -> Answer
        requires table { IsAskable I.Inlet (I.Out.tells lanes.old) self.old }
        ensures asks { Asks I.Inlet (I.Out.tells lanes.old) (I.Out.tells lanes.new) self.old self.new (taken_of result into.new) }
        ensures into { GoesInto result into.old into.new }
    {
        match self {
            Feeding::Given(_) => Answer::Empty(UNLINKED),
            Feeding::Lane { number, inlet } => match inlet.take(lanes) {
                Take::Item(item) => {
                    *into = Some(item);
                    Answer::Item
                }
                Take::Empty => Answer::Empty(*number),
            },
        }
    }
}
