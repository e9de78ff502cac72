//! The letters of items.
ghost use Rattle.std.specs.Prelude.{◌≡◌, true, Some, map, eqb, IfOk};
ghost use Rattle.gst_item.specs.Item.{is_flush_stop};
ghost use Rattle.gst_item.specs.declared.item.Item.TheVariants.{Buffer as Buf};
ghost use Rattle.item_letters.specs.Letters.{event_letter, item_letter, letter_of_event, letter_of_item, letter_of_length, letter_of_out};

use crate::caps::letter_of_caps;
use gst_item::{Body, Buffer, Event, Item, Outs};
use gst_time::{Format, Segment};
use gst_value::{Fixed, OutOfMemory, Text};
use std::alloc::Global;

/// The item of a letter. `N` is a buffer of no bytes, and `A` to `H` are those of one to eight: the first of `abcdefgh`.
/// `s` is STREAM_START 1; `r`, `m` and `a` are CAPS of raw audio, mu-law and A-law without fields; `g` is the SEGMENT
/// of a whole stream in time; `t` a TAG of `title`; `p` a GAP of one nanosecond at 0; `f` FLUSH_STOP 1; and all others
/// are EOS. `OutOfMemory` where there is no memory for it.
pub fn item_of(alloc: Global, letter: u8) -> Result<Item, OutOfMemory>
    ensures letter { IfOk result (λ item. letter_of_item item ≡ item_letter letter) }
    ensures flush { IfOk result (λ item. is_flush_stop item ≡ eqb letter 102) }
{
    match letter {
        b'N' => buffer_of(alloc, b""),
        b'A'..=b'H' => buffer_of(alloc, &b"abcdefgh"[..(letter - b'@') as usize]),
        _ => Ok(Item::Event(event_of(alloc, letter)?)),
    }
}

/// A buffer of these bytes, at 1 and for 2 nanoseconds, of offset 3, and not going on where the one before it ended.
/// `OutOfMemory` where there is no memory for it, or where there are more bytes than a body holds.
pub fn buffer_of(alloc: Global, bytes: &[u8]) -> Result<Item, OutOfMemory>
    ensures { IfOk result (λ item. item ≡ Buf (record { body = bytes.now; pts = Some 1; duration = Some 2; offset = Some 3; discont = true })) }
{
    Ok(Item::Buffer(Buffer {
        body: Body::from_vec(alloc, Vec::from_slice(alloc, bytes)?)?,
        pts: Some(1),
        duration: Some(2),
        offset: Some(3),
        discont: true,
    }))
}

fn event_of(alloc: Global, letter: u8) -> Result<Event, OutOfMemory>
    ensures { IfOk result (λ event. letter_of_event event ≡ event_letter letter) }
{
    match letter {
        b's' => Ok(Event::StreamStart { id: 1 }),
        b'r' => Ok(Event::Caps(Fixed::new(alloc, "audio/x-raw")?)),
        b'm' => Ok(Event::Caps(Fixed::new(alloc, "audio/x-mulaw")?)),
        b'a' => Ok(Event::Caps(Fixed::new(alloc, "audio/x-alaw")?)),
        b'g' => Ok(Event::Segment(Segment::new(Format::Time))),
        b't' => Ok(Event::Tag {
            title: Text::from_str(alloc, "title")?,
        }),
        b'p' => Ok(Event::Gap {
            pts: 0,
            duration: 1,
        }),
        b'f' => Ok(Event::FlushStop { number: 1 }),
        _ => Ok(Event::Eos),
    }
}

/// The letter of an item, as `item_of` takes it. A buffer of more than eight bytes is `Z`, and CAPS of another media
/// type are `?`.
pub fn letter_of(item: &Item) -> u8
    ensures { result ≡ letter_of_item item.now }
{
    match item {
        Item::Buffer(buffer) => letter_of_length(buffer.body.as_slice().len()),
        Item::Event(event) => letter_of_event(event),
    }
}

fn letter_of_length(bytes: usize) -> u8
    ensures { result ≡ letter_of_length bytes }
{
    if bytes == 0 {
        b'N'
    } else if bytes <= 8 {
        b'@' + bytes as u8
    } else {
        b'Z'
    }
}

/// The letter of an event, as `letter_of` has it.
pub fn letter_of_event(event: &Event) -> u8
    ensures { result ≡ letter_of_event event.now }
{
    match event {
        Event::StreamStart { .. } => b's',
        Event::Caps(caps) => letter_of_caps(caps),
        Event::Segment(_) => b'g',
        Event::Tag { .. } => b't',
        Event::Gap { .. } => b'p',
        Event::FlushStop { .. } => b'f',
        Event::Eos => b'e',
    }
}

/// The letters of what was put out, oldest first. `OutOfMemory` where there is no memory for them.
pub fn letters_of(alloc: Global, out: &Outs) -> Result<Vec<u8>, OutOfMemory>
    ensures { IfOk result (λ letters. letters.items ≡ map letter_of_out out.now) }
{
    let mut letters = Vec::new(alloc);
    for one in out.as_slice() {
        letters.push(letter_of(&one.item))?;
    }
    Ok(letters)
}
