//! Words that stand for events.
ghost use Rattle.std.specs.Prelude.{◌≡◌, false, Some, IfOk};
ghost use Rattle.gst_item.specs.Item.{is_flush_stop};
ghost use Rattle.gst_item.specs.declared.item.Item.TheVariants.{Event as Ev};
ghost use Rattle.item_letters.specs.Letters.{format_of_event, letter_of_event, letter_of_word, word_of_event};

use gst_item::Event;
use gst_time::{Format, Segment};
use gst_value::{OutOfMemory, Text};
use std::alloc::Global;

/// The event of a word: `start` is STREAM_START 1, `tag` a TAG of `title`, `gap` a GAP of one nanosecond at 0, and all
/// others are EOS. `OutOfMemory` where there is no memory for it.
pub fn event_by(alloc: Global, word: &str) -> Result<Event, OutOfMemory>
    ensures letter { IfOk result (λ event. letter_of_event event ≡ letter_of_word word.now) }
    ensures flush { IfOk result (λ event. is_flush_stop (Ev event) ≡ false) }
{
    if word == "start" {
        return Ok(Event::StreamStart { id: 1 });
    }
    if word == "tag" {
        let title = Text::from_str(alloc, "title")?;
        return Ok(Event::Tag { title });
    }
    if word == "gap" {
        return Ok(Event::Gap {
            pts: 0,
            duration: 1,
        });
    }
    Ok(Event::Eos)
}

/// A SEGMENT of a format, in bytes or in nanoseconds, from the start on whose digits stand in a text. It starts at 0
/// where they are no number of 64 bits.
pub fn segment_by(format: Format, start: &str) -> Event
    ensures format { format_of_event result ≡ Some format }
    ensures flush { is_flush_stop (Ev result) ≡ false }
{
    let start = start.parse().unwrap_or(0);
    let mut segment = Segment::new(format);
    segment.start = start;
    Event::Segment(segment)
}

/// The word of an event, as `event_by` takes it, and `eos`, `caps`, `segment` and `flush` for the others.
pub fn word_of(event: &Event) -> &'static str
    ensures { result.now ≡ word_of_event event.now }
{
    match event {
        Event::StreamStart { .. } => "start",
        Event::Caps(_) => "caps",
        Event::Segment(_) => "segment",
        Event::Tag { .. } => "tag",
        Event::Gap { .. } => "gap",
        Event::FlushStop { .. } => "flush",
        Event::Eos => "eos",
    }
}
