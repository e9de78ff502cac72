//! Rows of bodies, copies and sticky events.
use crate::rows::{check_rows, digit_at, holds, put_bytes};
use gst_item::*;
use gst_time::{Format, Segment};
use gst_value::{Fixed, List, Text};
use item_letters::bytes_by;
use std::alloc::Global;
use std::test::Fail;

/// Each row: what is done with holders of bytes, one word behind the other, and then the bytes of all holders. `b` is a new holder of its
/// own bytes; the others begin with the number of a holder: `s` shares its bytes with a new one, `p` is a new holder of its bytes from one
/// place to another, and `w` writes a byte at a place of it.
const HOLDERS: &str = "\
b616263646566 p006 p014 p056 p066 p000 -> 616263646566.616263646566.626364.66...
b616263 s0 s1 w1058 -> 616263.586263.616263.
b616263 s0 s1 w1058 w0058 -> 586263.586263.616263.
b01020304 s0 p013 w1009 -> 01020304.09020304.0203.
b01020304 s0 p013 w1009 w0108 -> 01080304.09020304.0203.";

fn body_of(alloc: Global, digits: &str) -> Result<Body, Fail> {
    Ok(Body::from_vec(alloc, bytes_by(alloc, digits)?)?)
}

/// Writes a byte at a place.
fn write(alloc: Global, body: &mut Body, place: usize, digits: &str) -> Result<(), Fail> {
    let bytes = body.make_mut(alloc)?;
    if place < bytes.len() {
        bytes[place] = u8::from_str_radix(digits, 16).unwrap_or(0);
    }
    Ok(())
}

/// The part of a body from one place to another.
fn part_of(alloc: Global, body: &Body, from: u32, to: u32) -> Result<Option<Body>, Fail> {
    if from > to || to as usize > body.as_slice().len() {
        return Ok(None);
    }
    Ok(Some(body.slice(alloc, from, to)?))
}

/// Does to a holder what a word says, and gives the holder that this makes.
fn act(alloc: Global, holder: &mut Body, word: &str) -> Result<Option<Body>, Fail> {
    let (from, to) = (digit_at(word, 2), digit_at(word, 3));
    match word.as_bytes().first() {
        Some(b's') => Ok(Some(holder.share(alloc)?)),
        Some(b'p') => part_of(alloc, holder, u32::from(from), u32::from(to)),
        _ => {
            write(
                alloc,
                holder,
                usize::from(from),
                word.get(3..).unwrap_or(""),
            )?;
            Ok(None)
        }
    }
}

/// The holder that a word makes.
fn made_by(alloc: Global, holders: &mut Vec<Body>, word: &str) -> Result<Option<Body>, Fail> {
    if let Some(digits) = word.strip_prefix('b') {
        return Ok(Some(body_of(alloc, digits)?));
    }
    match holders.get_mut(usize::from(digit_at(word, 1))) {
        Some(holder) => act(alloc, holder, word),
        None => Ok(None),
    }
}

/// The bytes of all holders behind what is done.
fn held(alloc: Global, words: &str) -> Result<String, Fail> {
    let mut holders = Vec::new(alloc);
    for word in words.split(' ') {
        if let Some(made) = made_by(alloc, &mut holders, word)? {
            holders.push(made)?;
        }
    }
    let mut text = String::new(alloc);
    for holder in holders.iter() {
        put_bytes(&mut text, holder.as_slice())?;
    }
    Ok(text)
}

/// Each holder changes its own bytes, and a change reaches no other one.
#[test]
fn bytes_of_holders(rt: HostRuntime) -> Result<(), Fail> {
    check_rows(&rt, rt.alloc(), HOLDERS, held)
}

fn is_whole(item: &Item) -> bool {
    match item {
        Item::Buffer(
            Buffer {
                body,
                pts: Some(1),
                duration: Some(2),
                offset: None,
                discont: true,
            },
        ) => body.as_slice() == b"abc".as_slice(),
        _ => false,
    }
}

#[test]
fn copies_of_buffers(rt: HostRuntime) -> Result<(), Fail> {
    let item = Item::Buffer(Buffer {
        body: body_of(rt.alloc(), "616263")?,
        pts: Some(1),
        duration: Some(2),
        offset: None,
        discont: true,
    });
    holds(&rt, "a copy", is_whole(&item.copy(rt.alloc())?));
    Ok(())
}

/// The event that a letter stands for.
fn event_of(alloc: Global, letter: u8) -> Result<Event, Fail> {
    match letter {
        b's' => Ok(Event::StreamStart { id: 1 }),
        b'c' => Ok(Event::Caps(Fixed::new(alloc, "audio/x-raw")?)),
        b'g' => Ok(Event::Segment(Segment::new(Format::Time))),
        b't' => Ok(Event::Tag {
            title: Text::from_str(alloc, "title")?,
        }),
        b'f' => Ok(Event::FlushStop { number: 1 }),
        _ => Ok(Event::Eos),
    }
}

fn letter_of(event: &Event) -> char {
    match event {
        Event::StreamStart { .. } => 's',
        Event::Caps(_) => 'c',
        Event::Segment(_) => 'g',
        Event::Tag { .. } => 't',
        Event::Gap { .. } => 'p',
        Event::FlushStop { .. } => 'f',
        Event::Eos => 'e',
    }
}

/// Sets a copy of an event, or lets a flush clear.
fn set(alloc: Global, sticky: &mut Sticky, event: Event) -> Result<(), Fail> {
    let Item::Event(event) = Item::Event(event).copy(alloc)? else {
        return Err("an event")?;
    };
    if event.is_sticky() {
        sticky.set(event);
    } else {
        sticky.clear_flush();
    }
    Ok(())
}

fn put_letters(into: &mut String, events: &List<Event>) -> Result<(), Fail> {
    for event in events.as_slice() {
        into.push(letter_of(event))?;
    }
    Ok(())
}

/// The letters of the events that are in force behind events.
fn in_force(alloc: Global, letters: &str) -> Result<String, Fail> {
    let mut sticky = Sticky::new();
    for letter in letters.bytes() {
        set(alloc, &mut sticky, event_of(alloc, letter)?)?;
    }
    let mut text = String::new(alloc);
    put_letters(&mut text, &sticky.list(alloc)?)?;
    Ok(text)
}

const STICKY: &str = " -> \netgcs -> scgte\ngc -> cg\nscgtef -> sct\nscgefg -> scg\nccgg -> cg";

#[test]
fn sticky_events_in_their_order(rt: HostRuntime) -> Result<(), Fail> {
    check_rows(&rt, rt.alloc(), STICKY, in_force)
}

#[test]
fn codes_are_those_of_gstreamer(rt: HostRuntime) {
    let rows = [
        (Flow::Ok, 0),
        (Flow::NotLinked, -1),
        (Flow::Flushing, -2),
        (Flow::Eos, -3),
        (Flow::NotNegotiated, -4),
        (Flow::Error, -5),
        (Flow::NotSupported, -6),
    ];
    for (flow, code) in rows {
        assert_eq!(rt; flow.code(), code);
    }
}
