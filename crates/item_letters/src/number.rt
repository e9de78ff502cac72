//! Numbers that stand for items.
ghost use Rattle.std.specs.Prelude.{◌≡◌};
ghost use Rattle.gst_item.specs.declared.item.Event.TheVariants.{Gap};
ghost use Rattle.gst_item.specs.declared.item.Item.TheVariants.{Event as Ev};
ghost use Rattle.item_letters.specs.Letters.{number_of_item};

use gst_item::{Event, Item};

/// The item that a number stands for: a GAP of one nanosecond, at so many of them.
pub fn item_numbered(number: u64) -> Item
    ensures { result ≡ Ev (Gap number 1) }
{
    Item::Event(Event::Gap {
        pts: number,
        duration: 1,
    })
}

/// The number that an item stands for, and 0 for what is no GAP.
pub fn number_of(item: &Item) -> u64
    ensures { result ≡ number_of_item item.now }
{
    match item {
        Item::Event(Event::Gap { pts, .. }) => *pts,
        _ => 0,
    }
}
