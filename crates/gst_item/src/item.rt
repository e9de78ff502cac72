//! Buffers and events.
ghost use Rattle.std.specs.Prelude.{◌≡◌, IfOk};
ghost use Rattle.gst_item.specs.Item.{is_eos, is_flush_stop, is_sticky};

use crate::body::Body;
use gst_time::Segment;
use gst_value::{Fixed, OutOfMemory, Text};
use std::alloc::Global;

/// A piece of a stream.
#[derive(Drop)]
pub struct Buffer {
    pub body: Body,
    /// The presentation time of its first frame, in nanoseconds.
    pub pts: Option<u64>,
    /// How long it plays, in nanoseconds.
    pub duration: Option<u64>,
    /// The place of its first byte or frame in the stream, as its source counts.
    pub offset: Option<u64>,
    /// Whether it does not go on where the buffer before it ended.
    pub discont: bool,
}

impl Buffer {
    /// The same buffer once more.
    pub fn copy(&self, alloc: Global) -> Result<Buffer, OutOfMemory>
        ensures { IfOk result (λ made. made ≡ self.now) }
    {
        Ok(Buffer {
            body: self.body.share(alloc)?,
            pts: self.pts,
            duration: self.duration,
            offset: self.offset,
            discont: self.discont,
        })
    }
}

/// A serialised event, as in GStreamer's design document on events.
#[derive(Drop)]
pub enum Event {
    /// A stream begins. Sticky.
    StreamStart { id: u32 },
    /// What the bytes of the buffers behind it are. Sticky.
    Caps(Fixed),
    /// How the buffers behind it are placed in time or in bytes. Sticky.
    Segment(Segment),
    /// What the stream is called. Sticky.
    Tag { title: Text },
    /// Nothing is heard from `pts` on for `duration`, both in nanoseconds.
    Gap { pts: u64, duration: u64 },
    /// The flush of the seek of this number ends.
    FlushStop { number: u32 },
    /// The stream ends. Sticky.
    Eos,
}

impl Event {
    /// Whether it stays in force on a pad that it crossed.
    #[inline(always)]
    pub fn is_sticky(&self) -> bool
        ensures { result ≡ is_sticky self.now }
    {
        !matches!(self, Event::Gap { .. } | Event::FlushStop { .. })
    }

    /// The same event once more.
    pub fn copy(&self, alloc: Global) -> Result<Event, OutOfMemory>
        ensures { IfOk result (λ made. made ≡ self.now) }
    {
        match self {
            Event::StreamStart { id } => Ok(Event::StreamStart { id: *id }),
            Event::Caps(caps) => Ok(Event::Caps(caps.copy(alloc)?)),
            Event::Segment(segment) => Ok(Event::Segment(*segment)),
            Event::Tag { title } => Ok(Event::Tag {
                title: title.copy(alloc)?,
            }),
            Event::Gap { pts, duration } => Ok(Event::Gap {
                pts: *pts,
                duration: *duration,
            }),
            Event::FlushStop { number } => Ok(Event::FlushStop { number: *number }),
            Event::Eos => Ok(Event::Eos),
        }
    }
}

/// What crosses a pad.
#[derive(Drop)]
pub enum Item {
    Buffer(Buffer),
    Event(Event),
}

impl Item {
    /// Whether it ends a flush.
    #[inline(always)]
    pub fn is_flush_stop(&self) -> bool
        ensures { result ≡ is_flush_stop self.now }
    {
        matches!(self, Item::Event(Event::FlushStop { .. }))
    }

    /// Whether it ends its stream.
    #[inline(always)]
    pub fn is_eos(&self) -> bool
        ensures { result ≡ is_eos self.now }
    {
        matches!(self, Item::Event(Event::Eos))
    }

    /// The same item once more.
    pub fn copy(&self, alloc: Global) -> Result<Item, OutOfMemory>
        ensures { IfOk result (λ made. made ≡ self.now) }
    {
        match self {
            Item::Buffer(buffer) => Ok(Item::Buffer(buffer.copy(alloc)?)),
            Item::Event(event) => Ok(Item::Event(event.copy(alloc)?)),
        }
    }
}
