//! What parsers put out at once.
ghost use Rattle.std.specs.Prelude.{◌≡◌, ◌++◌, ◌∷◌, OnOk, OnErr};
ghost use Rattle.flow_model.specs.Item.{Ev, NewCaps, NewSegment};
ghost use Rattle.flow_model.specs.Feeding.{on_pad};
ghost use Rattle.audio_info.specs.Media.{caps_of};
ghost use Rattle.el_parse.specs.Frames.{buffers_of};
ghost use Rattle.flow_model.specs.Source.{time_segment};
ghost use Rattle.gst_item.specs.Sticky.{held as events_of};

use audio_info::Info;
use flow_model::on_pad;
use gst_item::{Buffer, Event, Item, Outs};
use gst_time::{Format, Segment};
use gst_value::OutOfMemory;
use std::alloc::Global;
use std::collections::VecDeque;

/// Puts caps, a segment in time from `start` on, in nanoseconds, and a buffer, where there is one, out on the
/// only source pad. Where there is no memory nothing is put out.
pub(crate) fn put_opening(
    alloc: Global,
    info: &Info,
    start: u64,
    buffer: Option<Buffer>,
    out: &mut Outs,
) -> Result<(), OutOfMemory>
    ensures ok { OnOk result (out.new
        ≡ out.old ++ on_pad 0 (Ev (NewCaps (caps_of info.now.format info.now.rate info.now.channels)) ∷ Ev (NewSegment (time_segment start))
        ∷ buffers_of buffer)) }
    ensures err { OnErr result (out.new ≡ out.old) }
{
    let caps = info.to_fixed(alloc)?;
    let mut queue = VecDeque::with_capacity(alloc, 3)?;
    queue.push_back(on_pad(Item::Event(Event::Caps(caps))))?;
    queue.push_back(on_pad(Item::Event(Event::Segment(segment_from(start)))))?;
    if let Some(buffer) = buffer {
        queue.push_back(on_pad(Item::Buffer(buffer)))?;
    }
    out.pour(alloc, &mut queue)
}

/// Puts a buffer and an event out on the only source pad, each where it is there. Where there is no memory nothing
/// is put out.
pub(crate) fn put_both(
    alloc: Global,
    buffer: Option<Buffer>,
    event: Option<Event>,
    out: &mut Outs,
) -> Result<(), OutOfMemory>
    ensures ok { OnOk result (out.new ≡ out.old ++ on_pad 0 (buffers_of buffer ++ events_of event)) }
    ensures err { OnErr result (out.new ≡ out.old) }
{
    let mut queue = VecDeque::with_capacity(alloc, 2)?;
    if let Some(buffer) = buffer {
        queue.push_back(on_pad(Item::Buffer(buffer)))?;
    }
    if let Some(event) = event {
        queue.push_back(on_pad(Item::Event(event)))?;
    }
    out.pour(alloc, &mut queue)
}

/// The segment in time from `start` on, in nanoseconds.
fn segment_from(start: u64) -> Segment
    ensures { result ≡ time_segment start }
{
    Segment {
        format: Format::Time,
        start,
        stop: None,
        time: start,
        base: 0,
        position: start,
    }
}
