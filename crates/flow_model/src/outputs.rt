//! What elements with one source pad put out.
ghost use Rattle.std.specs.Prelude.{◌≡◌, ◌++◌, ◌∷◌, [], OnOk, OnErr};
ghost use Rattle.flow_model.specs.Feeding.{on_pad};

use gst_item::{Item, Out, Outs};
use gst_value::OutOfMemory;
use std::alloc::Global;

/// Puts an item out on the only source pad. Where there is no memory nothing is put out, and the item is given
/// up.
#[inline(always)]
pub fn put_out(alloc: Global, item: Item, out: &mut Outs) -> Result<(), OutOfMemory>
    ensures ok { OnOk result (out.new ≡ out.old ++ on_pad 0 (item ∷ [])) }
    ensures err { OnErr result (out.new ≡ out.old) }
{
    out.push(alloc, on_pad(item))
}

/// An item for the only source pad.
#[inline(always)]
pub fn on_pad(item: Item) -> Out
    ensures { result ≡ record { pad = 0; item = item } }
{
    Out { pad: 0, item }
}
