//! Rows of calls. A letter stands for a call, and for what it answers and puts out.
ghost use Rattle.std.specs.Prelude.{◌≤◌};

use crate::rows::{holds, is_buffer, same_bytes};
use audio_info::{Info, Sample};
use el_law::*;
use gst_item::{Event, Item, Outs};
use gst_value::{Fixed, List, One};
use item_letters::{buffer_of, item_of, letter_of, letter_of_answer};
use std::alloc::Global;
use std::test::Fail;

/// A format by a letter: `l` is S16LE, `m` mu-law, `a` A-law, and others are U8.
fn format_by(letter: u8) -> Sample {
    match letter {
        b'l' => Sample::S16LE,
        b'm' => Sample::MuLaw,
        b'a' => Sample::ALaw,
        _ => Sample::U8,
    }
}

/// Caps of a format at 8000 frames a second. Without a layout they are those of raw audio of no layout.
fn caps_by(alloc: Global, letter: u8, channels: u32) -> Result<Fixed, Fail>
    requires some { 1 ≤ channels }
    requires few { channels ≤ 64 }
{
    let info = Info {
        format: format_by(letter),
        rate: 8000,
        channels,
    };
    Ok(info.to_fixed(alloc)?)
}

fn bare_caps(alloc: Global, media: &str) -> Result<Fixed, Fail> {
    let mut caps = Fixed::new(alloc, media)?;
    caps.set(alloc, "rate", One::Int(8000))?;
    Ok(caps)
}

/// `l`, `m`, `a` and `u` are CAPS of one channel, `2` those of two in S16LE and `3` those of two in mu-law; `r` has
/// raw audio without a format, and `k` mu-law without channels. Others are as `item_of` takes them.
fn item_by(alloc: Global, letter: u8) -> Result<Item, Fail> {
    let caps = match letter {
        b'l' | b'm' | b'a' | b'u' => caps_by(alloc, letter, 1)?,
        b'2' => caps_by(alloc, b'l', 2)?,
        b'3' => caps_by(alloc, b'm', 2)?,
        b'r' => bare_caps(alloc, "audio/x-raw")?,
        b'k' => bare_caps(alloc, "audio/x-mulaw")?,
        _ => return Ok(item_of(alloc, letter)?),
    };
    Ok(Item::Event(Event::Caps(caps)))
}

/// The letter of an item, where CAPS have that of their format.
fn letter_by_format(item: &Item) -> u8 {
    match item {
        Item::Event(Event::Caps(caps)) => format_letter(caps),
        _ => letter_of(item),
    }
}

/// `?` where they are not those that an element makes at 8000 frames a second.
fn format_letter(caps: &Fixed) -> u8 {
    match Info::from_fixed(caps) {
        Ok(
            Info {
                format: Sample::S16LE,
                rate: 8000,
                channels,
            },
        ) if caps.fields() == 4 => if channels == 1 { b'l' } else { b'2' },
        Ok(
            Info {
                format: Sample::MuLaw,
                rate: 8000,
                channels,
            },
        ) if caps.fields() == 2 => if channels == 1 { b'm' } else { b'3' },
        Ok(
            Info {
                format: Sample::ALaw,
                rate: 8000,
                channels: 1,
            },
        ) if caps.fields() == 2 => b'a',
        _ => b'?',
    }
}

/// Makes one call: `f` is a flush, `d` a drain, and all others feed.
fn call(alloc: Global, law: &mut Law, letter: u8, out: &mut Outs) -> Result<u8, Fail> {
    match letter {
        b'f' => law.flush(),
        b'd' => {
            if law.drain(alloc, out).is_err() {
                return Ok(b'!');
            }
        }
        _ => {
            let item = item_by(alloc, letter)?;
            if !item.is_flush_stop() {
                let answer = law.feed(alloc, 0, item, out);
                return Ok(letter_of_answer(&answer));
            }
        }
    }
    Ok(b'-')
}

/// The answers, a `:`, and what was put out.
fn trace_of(alloc: Global, kind: LawKind, calls: &[u8]) -> Result<Vec<u8>, Fail> {
    let mut law = Law::new(kind).copy(alloc)?;
    let mut out = List::new(alloc);
    let mut trace = Vec::new(alloc);
    for letter in calls {
        trace.push(call(alloc, &mut law, *letter, &mut out)?)?;
    }
    trace.push(b':')?;
    for one in out.as_slice() {
        trace.push(letter_by_format(&one.item))?;
    }
    Ok(trace)
}

#[test]
fn calls(rt: HostRuntime) -> Result<(), Fail> {
    let alloc = rt.alloc();
    let rows: [(LawKind, &'static [u8], &'static [u8]); 16] = [
        (LawKind::MulawEnc, b"slgtBDNpe", b"+++++++++:smgtABNpe"),
        (LawKind::AlawEnc, b"slgBDe", b"++++++:sagABe"),
        (LawKind::MulawDec, b"smgADNe", b"+++++++:slgBHNe"),
        (LawKind::AlawDec, b"sagADe", b"++++++:slgBHe"),
        (LawKind::MulawEnc, b"Bs", b"0+:s"),
        (LawKind::MulawEnc, b"maurk", b"marrm:"),
        (LawKind::AlawEnc, b"ma", b"ma:"),
        (LawKind::MulawDec, b"laukm", b"rarm+:l"),
        (LawKind::AlawDec, b"lmrka", b"rmrm+:l"),
        (LawKind::MulawEnc, b"lBAB", b"++3+:mAA"),
        (LawKind::MulawEnc, b"2BD", b"+2+:3B"),
        (LawKind::MulawDec, b"3DAB", b"++5+:2HD"),
        (LawKind::MulawEnc, b"lDCfC", b"++7-3:mB"),
        (LawKind::MulawEnc, b"leBlfB", b"++..-+:meA"),
        (LawKind::MulawEnc, b"l2B", b"++2:m3"),
        (LawKind::MulawEnc, b"lBdB", b"++-+:mAA"),
    ];
    for (kind, calls, wanted) in rows {
        same_bytes(&rt, trace_of(alloc, kind, calls)?.as_slice(), wanted);
    }
    Ok(())
}

/// The format of the samples that an element of a kind takes.
fn taken_by(kind: LawKind) -> Sample {
    match kind {
        LawKind::MulawEnc | LawKind::AlawEnc => Sample::S16LE,
        LawKind::MulawDec => Sample::MuLaw,
        LawKind::AlawDec => Sample::ALaw,
    }
}

/// What is put out for one of these bytes, in one channel.
fn put_for(alloc: Global, kind: LawKind, bytes: &[u8]) -> Result<Option<Item>, Fail> {
    let mut law = Law::new(kind);
    let mut out = List::new(alloc);
    let caps = Info {
        format: taken_by(kind),
        rate: 8000,
        channels: 1,
    };
    let caps = Item::Event(Event::Caps(caps.to_fixed(alloc)?));
    let buffer = buffer_of(alloc, bytes)?;
    let _ = law.feed(alloc, 0, caps, &mut out).is_ok();
    let _ = law.feed(alloc, 0, buffer, &mut out).is_ok();
    match out.into_vec().pop() {
        Some(one) => Ok(Some(one.item)),
        None => Ok(None),
    }
}

fn gives(alloc: Global, kind: LawKind, bytes: &[u8], wanted: &[u8]) -> Result<bool, Fail> {
    match put_for(alloc, kind, bytes)? {
        Some(item) => Ok(is_buffer(&item, wanted)),
        None => Ok(false),
    }
}

#[test]
fn bodies(rt: HostRuntime) -> Result<(), Fail> {
    let alloc = rt.alloc();
    let rows: [(LawKind, &'static [u8], &'static [u8]); 5] = [
        (
            LawKind::MulawEnc,
            &[0x00, 0x00, 0xFF, 0x7F, 0x00, 0x80, 0xFF, 0xFF, 0x01, 0x00],
            &[0xFF, 0x80, 0x00, 0x7F, 0xFF],
        ),
        (
            LawKind::MulawEnc,
            &[
                0x00, 0x00, 0x01, 0x00, 0x02, 0x00, 0x03, 0x00, 0x04, 0x00, 0x05, 0x00, 0x06, 0x00,
                0x07, 0x00, 0x08, 0x00, 0x09, 0x00, 0x0A, 0x00, 0x0B, 0x00, 0x0C, 0x00, 0x0D, 0x00,
                0x0E, 0x00, 0xFF, 0x7F, 0xFF, 0xFF, 0x00, 0x80,
            ],
            &[
                0xFF, 0xFF, 0xFF, 0xFF, 0xFE, 0xFE, 0xFE, 0xFE, 0xFE, 0xFE, 0xFE, 0xFE, 0xFD, 0xFD,
                0xFD, 0x80, 0x7F, 0x00,
            ],
        ),
        (
            LawKind::AlawEnc,
            &[0x00, 0x00, 0xFF, 0xFF, 0xFF, 0x7F, 0x00, 0x80],
            &[0xD5, 0x55, 0xAA, 0x2A],
        ),
        (LawKind::MulawDec, &[0x00, 0xFF], &[0x84, 0x82, 0x00, 0x00]),
        (LawKind::AlawDec, &[0xD5], &[0x08, 0x00]),
    ];
    for (kind, bytes, wanted) in rows {
        holds(&rt, "a body", gives(alloc, kind, bytes, wanted)?);
    }
    Ok(())
}
