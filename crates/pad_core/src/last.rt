//! The last crossing of a source pad.
ghost use Rattle.std.specs.Prelude.{◌≡◌};
ghost use Rattle.pad_core.specs.declared.last.Last.TheVariants.{Nothing as NotAny};

use gst_item::Event;
use std::mem;

/// The item that crossed last, while its crossing can be taken back.
#[derive(Drop)]
pub(crate) enum Last {
    /// No crossing can be taken back.
    Nothing,
    Buffer,
    Gap,
    /// A sticky event. It is not among the settled ones yet.
    Sticky(Event),
}

/// Gives up what a slot holds for something else.
pub(crate) fn replace_last(slot: &mut Last, last: Last)
    ensures { slot.new ≡ last }
{
    *slot = last;
}

/// Takes what a slot holds, and leaves nothing there.
pub(crate) fn take(slot: &mut Last) -> Last
    ensures taken { result ≡ slot.old }
    ensures left { slot.new ≡ NotAny }
{
    mem::replace(slot, Last::Nothing)
}
