//! An item is offered to the pad at which it waits first.
ghost use Rattle.std.specs.Prelude.{◌≡◌, ◌<◌, ◌^◌, true, false, [], List, None, OnErr, OnOk, is_some};
ghost use Rattle.flow_model.specs.Item.{is_flush_stop};
ghost use Rattle.pad_core.specs.Crossing.{WasKept};
ghost use Rattle.pad_core.specs.Linking.{has_peer};
ghost use Rattle.pad_core.specs.SrcPad.{CrossedBy, state_of, crossed_of};
ghost use Rattle.flow_model.specs.Item.{Item as Piece};
ghost use Rattle.task_pads.specs.Pads.{is_kept, setting_of, without_peer};
ghost use Rattle.task_pads.specs.Passing.{IsOffered, unlinked_answer};

use gst_item::{Event, Item};
use gst_value::OutOfMemory;
use pad_core::{Crossing, SinkPad, SrcPad, link};
use std::alloc::Global;

/// What a pad answers to an item.
#[derive(Clone, Copy)]
pub(crate) enum Answer {
    /// It crossed.
    Crosses,
    /// It is a buffer that stands at the probe of this command.
    AtProbe(u32),
    /// It is a buffer that would reach nobody.
    NotLinked,
    /// EOS has crossed the pad.
    BehindEos,
    /// No memory was left for the copy of a sticky event.
    OutOfMemory,
}

/// An item crosses a pad that is active and does not flush, if it can.
#[inline(always)]
pub(crate) fn offer(alloc: Global, src: &mut SrcPad, item: &Item, sibling: bool) -> Answer
    requires active { (state_of src.old).active ≡ true }
    requires flows { (state_of src.old).flushing ≡ false }
    requires few { crossed_of src.old < 2 ^ 41 }
    requires no_flush { is_flush_stop item.now ≡ false }
    ensures { IsOffered src.old src.new item.now sibling result }
{
    if keep(alloc, src, item).is_err() {
        return Answer::OutOfMemory;
    }
    match src.cross(item, sibling) {
        Crossing::Alone => Answer::Crosses,
        Crossing::Go(_) => Answer::Crosses,
        Crossing::AtProbe(command) => Answer::AtProbe(command),
        Crossing::NotLinked => not_linked(src.is_linked()),
        Crossing::Eos => Answer::BehindEos,
        // It does not come here.
        Crossing::Flushing => Answer::BehindEos,
    }
}

/// The answer of a pad at which a buffer would reach nobody: no linked pad comes here.
#[inline(always)]
fn not_linked(linked: bool) -> Answer
    ensures { result ≡ unlinked_answer linked }
{
    if linked {
        return Answer::BehindEos;
    }
    Answer::NotLinked
}

/// Lays a copy of a sticky event by.
#[inline(always)]
fn keep(alloc: Global, src: &mut SrcPad, item: &Item) -> Result<(), OutOfMemory>
    ensures kept { OnOk result (WasKept (state_of src.new).kept item.now) }
    ensures setting { setting_of src.new ≡ setting_of src.old }
    ensures history { (h : List Piece) → CrossedBy src.old h → CrossedBy src.new h }
    ensures crossed { crossed_of src.new ≡ crossed_of src.old }
    ensures stays { OnErr result (src.new ≡ src.old) }
    ensures sticky { OnErr result (is_kept item.now ≡ true) }
{
    let Item::Event(event) = item else {
        return Ok(());
    };
    if event.is_sticky() {
        return src.keep(alloc, event);
    }
    Ok(())
}

/// A pad of this number that nothing crossed, linked to a sink pad.
pub(crate) fn linked_pad(number: u32, sink: u32) -> SrcPad
    ensures number { (state_of result).number ≡ number }
    ensures active { (state_of result).active ≡ true }
    ensures flows { (state_of result).flushing ≡ false }
    ensures linked { has_peer (state_of result).peer ≡ true }
    ensures probe { (state_of result).probe ≡ None }
    ensures history { CrossedBy result [] }
    ensures crossed { crossed_of result ≡ 0 }
{
    let mut src = SrcPad::new(number, true);
    let mut sink = SinkPad::new(sink, true);
    link(&mut src, &mut sink, true);
    src
}

/// Links a pad to this sink pad in place of its peer, or only undoes its link where there is none.
pub(crate) fn lead(src: &mut SrcPad, sink: Option<u32>)
    ensures linked { has_peer (state_of src.new).peer ≡ is_some sink }
    ensures rest { without_peer src.new ≡ without_peer src.old }
    ensures history { (h : List Piece) → CrossedBy src.old h → CrossedBy src.new h }
    ensures crossed { crossed_of src.new ≡ crossed_of src.old }
{
    src.unlink();
    if let Some(number) = sink {
        let mut pad = SinkPad::new(number, true);
        link(src, &mut pad, true);
    }
}
