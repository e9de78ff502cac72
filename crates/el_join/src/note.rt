//! What a pad notes of an item.
ghost use Rattle.std.specs.Prelude.{◌≡◌, IfOk};
ghost use Rattle.flow_model.specs.Item.{Buf, Ev};
ghost use Rattle.el_join.specs.Totals.{end_of};

use crate::sums::sum_below;
use gst_item::{Buffer, Event, Item};
use gst_time::Segment;
use gst_value::{Fixed, OutOfMemory, Text};
use std::alloc::Global;

/// What a pad notes of an item that it was given.
#[derive(Drop)]
pub(crate) enum Note {
    /// A buffer: when it ends, in nanoseconds, where it has an end, and how many bytes it has.
    Buffer { end: Option<u64>, bytes: u64 },
    StreamStart(u32),
    Caps(Fixed),
    Segment(Segment),
    Tag(Text),
    Other,
}

impl Note {
    ghost use Rattle.el_join.specs.Pads.{note_of};

    /// What is to be noted of an item.
    pub(crate) fn of(alloc: Global, item: &Item) -> Result<Note, OutOfMemory>
        ensures { IfOk result (λ note. note ≡ note_of item.now) }
    {
        match item {
            Item::Buffer(buffer) => Ok(Note::of_buffer(buffer)),
            Item::Event(event) => Note::of_event(alloc, event),
        }
    }

    #[inline]
    fn of_buffer(buffer: &Buffer) -> Note
        ensures { result ≡ note_of (Buf buffer.now) }
    {
        Note::Buffer {
            end: end_of(buffer.pts, buffer.duration),
            bytes: buffer.body.as_slice().len() as u64,
        }
    }

    fn of_event(alloc: Global, event: &Event) -> Result<Note, OutOfMemory>
        ensures { IfOk result (λ note. note ≡ note_of (Ev event.now)) }
    {
        match event {
            Event::StreamStart { id } => Ok(Note::StreamStart(*id)),
            Event::Caps(caps) => Ok(Note::Caps(caps.copy(alloc)?)),
            Event::Segment(segment) => Ok(Note::Segment(*segment)),
            Event::Tag { title } => Ok(Note::Tag(title.copy(alloc)?)),
            _ => Ok(Note::Other),
        }
    }
}

/// The time at which a buffer ends, where it has one below `LIMIT`.
#[inline]
fn end_of(pts: Option<u64>, duration: Option<u64>) -> Option<u64>
    ensures { result ≡ end_of pts duration }
{
    sum_below(pts?, duration.unwrap_or(0))
}
