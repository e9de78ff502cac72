//! What a converter puts out at once.
ghost use Rattle.std.specs.Prelude.{◌≡◌, ◌++◌, ◌∷◌, [], OnOk, OnErr};
ghost use Rattle.flow_model.specs.Item.{Buf, Ev, NewCaps};
ghost use Rattle.flow_model.specs.Feeding.{on_pad};

use flow_model::on_pad;
use gst_item::{Buffer, Event, Item, Outs};
use gst_value::{Fixed, OutOfMemory};
use std::alloc::Global;
use std::collections::VecDeque;

/// Puts CAPS and a buffer out on the only source pad. Where there is no memory nothing is put out.
pub(crate) fn put_with_caps(
    alloc: Global,
    caps: Fixed,
    buffer: Buffer,
    out: &mut Outs,
) -> Result<(), OutOfMemory>
    ensures ok { OnOk result (out.new ≡ out.old ++ on_pad 0 (Ev (NewCaps caps) ∷ Buf buffer ∷ [])) }
    ensures err { OnErr result (out.new ≡ out.old) }
{
    let mut queue = VecDeque::with_capacity(alloc, 2)?;
    queue.push_back(on_pad(Item::Event(Event::Caps(caps))))?;
    queue.push_back(on_pad(Item::Buffer(buffer)))?;
    out.pour(alloc, &mut queue)
}
