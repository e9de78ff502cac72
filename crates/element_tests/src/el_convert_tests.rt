//! Rows of bodies and of calls. A letter stands for a call, and for what it answers and puts out.
ghost use Rattle.std.specs.Prelude.{◌≤◌};

use crate::rows::{holds, is_buffer, same_bytes};
use audio_info::{Info, Sample};
use el_convert::*;
use flow_model::ElementFault;
use gst_caps::{Caps, Structure, Value};
use gst_item::{Event, Flow, Item, Outs};
use gst_value::{Fixed, List, One, Text};
use item_letters::{buffer_of, bytes_by, item_of, letter_of, letter_of_answer};
use std::alloc::Global;
use std::process::Abort;
use std::test::Fail;

/// Caps at 8000 frames a second: `l` S16LE, `b` S16BE, `3` S24LE, `4` S32LE, `8` S8, `m` mu-law, and others U8.
fn info_by(letter: u8, channels: u32) -> Info
    requires some { 1 ≤ channels }
    requires few { channels ≤ 64 }
{
    let format = match letter {
        b'l' => Sample::S16LE,
        b'b' => Sample::S16BE,
        b'3' => Sample::S24LE,
        b'4' => Sample::S32LE,
        b'8' => Sample::S8,
        b'm' => Sample::MuLaw,
        _ => Sample::U8,
    };
    Info {
        format,
        rate: 8000,
        channels,
    }
}

/// Allowed caps: all, or raw audio in a format of one channel or two, or at another rate.
fn allowed_by(alloc: Global, letter: u8) -> Result<Caps, Fail> {
    let mut made = Structure::new(alloc, "audio/x-raw")?;
    match letter {
        b'A' => return Ok(Caps::Any),
        b'R' => made.set(alloc, "rate", Value::One(One::Int(44_100)))?,
        b'W' => {
            set_format(alloc, &mut made, "S24LE")?;
            made.set(alloc, "channels", Value::One(One::Int(2)))?;
        }
        b'O' => made.set(alloc, "channels", Value::One(One::Int(1)))?,
        _ => set_format(alloc, &mut made, "U8")?,
    }
    let mut structures = List::new(alloc);
    structures.push(alloc, made)?;
    Ok(Caps::Of(structures))
}

fn set_format(alloc: Global, structure: &mut Structure, name: &str) -> Result<(), Fail> {
    let name = Text::from_str(alloc, name)?;
    Ok(structure.set(alloc, "format", Value::One(One::Text(name)))?)
}

/// `l`, `u` and `m` are CAPS of one channel, and `2` those of two in S16LE; others are as `item_of` takes them.
fn item_by(alloc: Global, letter: u8) -> Result<Item, Fail> {
    let info = match letter {
        b'l' | b'u' | b'm' => info_by(letter, 1),
        b'2' => info_by(b'l', 2),
        _ => return Ok(item_of(alloc, letter)?),
    };
    Ok(Item::Event(Event::Caps(info.to_fixed(alloc)?)))
}

/// The letter of an item, where CAPS have that of their format.
fn letter_by_format(item: &Item) -> u8 {
    match item {
        Item::Event(Event::Caps(caps)) => format_letter(caps),
        _ => letter_of(item),
    }
}

/// `w` for S24LE in two channels, and `v` for U8 in two; `?` where they are not caps that an element makes at 8000
/// frames a second.
fn format_letter(caps: &Fixed) -> u8 {
    let Ok(info) = Info::from_fixed(caps) else {
        return b'?';
    };
    if info.rate != 8000 || caps.fields() != 4 {
        return b'?';
    }
    match (info.format, info.channels) {
        (Sample::S16LE, 1) => b'l',
        (Sample::S16LE, 2) => b'2',
        (Sample::S24LE, 2) => b'w',
        (Sample::U8, 1) => b'u',
        (Sample::U8, 2) => b'v',
        _ => b'?',
    }
}

/// `x` for caps that are not wanted, with a wanted set that holds S16LE of one channel at 8000, and `y` for such with
/// another one; others are as `letter_of_answer` tells them.
fn letter_by_wanted(alloc: Global, answer: Result<Flow, ElementFault>) -> Result<u8, Fail> {
    match answer {
        Err(
            ElementFault::NotNegotiated {
                offered: Some(_),
                wanted,
            },
        ) => {
            let common = info_by(b'l', 1).to_fixed(alloc)?;
            Ok(if wanted.accepts(&common) { b'x' } else { b'y' })
        }
        other => Ok(letter_of_answer(&other)),
    }
}

/// Makes one call: `f` is a flush, `d` a drain, `A`, `O`, `R`, `U` and `W` set the allowed caps, and all others
/// feed.
fn call(alloc: Global, convert: &mut Convert, letter: u8, out: &mut Outs) -> Result<u8, Fail> {
    match letter {
        b'f' => convert.flush(),
        b'd' => {
            if convert.drain(alloc, out).is_err() {
                return Ok(b'!');
            }
        }
        b'A' | b'O' | b'R' | b'U' | b'W' => convert.set_allowed(allowed_by(alloc, letter)?),
        _ => {
            let item = item_by(alloc, letter)?;
            if !item.is_flush_stop() {
                let answer = convert.feed(alloc, 0, item, out);
                return letter_by_wanted(alloc, answer);
            }
        }
    }
    Ok(b'-')
}

/// The answers to calls.
fn answers(
    alloc: Global,
    convert: &mut Convert,
    calls: &[u8],
    out: &mut Outs,
) -> Result<Vec<u8>, Fail> {
    let mut trace = Vec::new(alloc);
    for letter in calls {
        trace.push(call(alloc, convert, *letter, out)?)?;
    }
    Ok(trace)
}

/// Adds a `:`, and what was put out.
fn add_outs(trace: &mut Vec<u8>, out: &Outs) -> Result<(), Fail> {
    trace.push(b':')?;
    for one in out.as_slice() {
        trace.push(letter_by_format(&one.item))?;
    }
    Ok(())
}

/// The answers of a converter, and what it put out.
fn trace_of(alloc: Global, calls: &[u8]) -> Result<Vec<u8>, Fail> {
    let mut convert = Convert::new(Caps::Any).copy(alloc)?;
    let mut out = List::new(alloc);
    let mut trace = answers(alloc, &mut convert, calls, &mut out)?;
    add_outs(&mut trace, &out)?;
    Ok(trace)
}

#[test]
fn calls(rt: HostRuntime) -> Result<(), Fail> {
    let alloc = rt.alloc();
    let rows: [(&'static [u8], &'static [u8]); 18] = [
        (b"slgtBNpe", b"++++++++:slgtBNpe"),
        (b"Bs", b"0+:s"),
        (b"mlB", b"x++:lB"),
        (b"lBWBB", b"++-++:lBwFF"),
        (b"WlB", b"-++:wF"),
        (b"lBAB", b"++-+:lBB"),
        (b"lBRBAB", b"++-y-+:lBB"),
        (b"lBRBB", b"++-yy:lB"),
        (b"lRlAB", b"+-y-+:lB"),
        (b"WlBRAB", b"-++--+:wFlB"),
        (b"lWfB", b"+--+:lwF"),
        (b"ll", b"++:ll"),
        (b"2OD", b"+-+:2lB"),
        (b"2UDAD", b"+-+-+:2vB2D"),
        (b"uCWC", b"++-+:uCwZ"),
        (b"lBCfC", b"++5-3:lB"),
        (b"leBlfB", b"++..-+:leB"),
        (b"lRC", b"+-y:l"),
    ];
    for (calls, wanted) in rows {
        same_bytes(&rt, trace_of(alloc, calls)?.as_slice(), wanted);
    }
    Ok(())
}

/// Caps of raw audio in a format and a number of channels.
fn raw_caps(alloc: Global, to: Info) -> Result<Caps, Fail> {
    let mut structure = Structure::new(alloc, "audio/x-raw")?;
    set_format(alloc, &mut structure, to.format.name())?;
    structure.set(alloc, "channels", Value::One(One::Int(to.channels as i32)))?;
    let mut structures = List::new(alloc);
    structures.push(alloc, structure)?;
    Ok(Caps::Of(structures))
}

/// The item that a converter puts out last for caps and a body.
fn last_of(
    alloc: Global,
    mut convert: Convert,
    caps: Fixed,
    bytes: &[u8],
) -> Result<Option<Item>, Fail> {
    let mut out = List::new(alloc);
    let buffer = buffer_of(alloc, bytes)?;
    let _ = convert
        .feed(alloc, 0, Item::Event(Event::Caps(caps)), &mut out)
        .is_ok();
    let _ = convert.feed(alloc, 0, buffer, &mut out).is_ok();
    match out.into_vec().pop() {
        Some(one) => Ok(Some(one.item)),
        None => Ok(None),
    }
}

/// What is put out for a body in one format and number of channels, in others.
fn body_for(alloc: Global, from: Info, to: Info, bytes: &[u8]) -> Result<Option<Item>, Fail> {
    let convert = Convert::new(raw_caps(alloc, to)?);
    last_of(alloc, convert, from.to_fixed(alloc)?, bytes)
}

/// The letter and the channels of caps.
fn caps_of(word: &str) -> Info {
    match word.as_bytes() {
        [letter, b'2'] => info_by(*letter, 2),
        [letter, ..] => info_by(*letter, 1),
        [] => info_by(b'u', 1),
    }
}

/// The caps and the bytes that come in, and those that go out.
const BODIES: &str = "\
l1 000001000200 32 000000000000000100000100000200000200
l2 0300FCFF l1 FFFF
l2 FFFF0000 l1 FFFF
u1 0080FF l1 00800000007F
l1 00800000007FFF80 u1 0080FF00
41 FFFFFFFFFFFFFF7F 81 FF7F
b1 1234 l1 3412
l1 1234 b1 3412
82 0102 l1 0001
42 0000008000000080FFFFFF7FFFFFFF7F 41 00000080FFFFFF7F
31 563412 41 00563412
31 FFFFFF l2 FFFFFFFF
41 00000080 31 000080
u2 00FF u1 7F
81 80FF u1 007F";

/// Whether a body in one format gives this one in another.
fn gives(alloc: Global, from: Info, to: Info, bytes: &[u8], wanted: &[u8]) -> Result<bool, Fail> {
    match body_for(alloc, from, to, bytes)? {
        Some(item) => Ok(is_buffer(&item, wanted)),
        None => Ok(false),
    }
}

/// That for caps and digits.
fn gives_digits(alloc: Global, from: (&str, &str), to: (&str, &str)) -> Result<bool, Fail> {
    let bytes = bytes_by(alloc, from.1)?;
    let wanted = bytes_by(alloc, to.1)?;
    gives(
        alloc,
        caps_of(from.0),
        caps_of(to.0),
        bytes.as_slice(),
        wanted.as_slice(),
    )
}

#[test]
fn bodies(rt: HostRuntime) -> Result<(), Fail> {
    let alloc = rt.alloc();
    for line in BODIES.lines() {
        let mut words = line.split(' ');
        let from = (words.next().unwrap_or(""), words.next().unwrap_or(""));
        let to = (words.next().unwrap_or(""), words.next().unwrap_or(""));
        holds(&rt, line, gives_digits(alloc, from, to)?);
    }
    Ok(())
}

/// 16 samples of 32 bits at equal distances, from the least to the greatest.
const RAMP: [i32; 16] = [
    -0x8000_0000,
    -0x6EEE_EEEF,
    -0x5DDD_DDDE,
    -0x4CCC_CCCD,
    -0x3BBB_BBBC,
    -0x2AAA_AAAB,
    -0x1999_999A,
    -0x0888_8889,
    0x0888_8888,
    0x1999_9999,
    0x2AAA_AAAA,
    0x3BBB_BBBB,
    0x4CCC_CCCC,
    0x5DDD_DDDD,
    0x6EEE_EEEE,
    0x7FFF_FFFF,
];

/// The bits of a sample of 32 bits that a sample of the format has.
fn bits_of(format: Sample) -> i32 {
    match format {
        Sample::S16LE | Sample::S16BE => -0x1_0000,
        Sample::S24LE => -0x100,
        Sample::S32LE => -1,
        _ => -0x100_0000,
    }
}

/// Adds the sample of the format that has the high bytes of this one.
fn push_sample(bytes: &mut Vec<u8>, format: Sample, sample: i32) -> Result<(), Fail> {
    let [first, second, third, last] = sample.to_be_bytes();
    match format {
        Sample::U8 => bytes.push(first ^ 0x80)?,
        Sample::S16LE => bytes.extend_from_slice(&[second, first])?,
        Sample::S16BE => bytes.extend_from_slice(&[first, second])?,
        Sample::S24LE => bytes.extend_from_slice(&[third, second, first])?,
        Sample::S32LE => bytes.extend_from_slice(&[last, third, second, first])?,
        _ => bytes.push(first)?,
    }
    Ok(())
}

fn push_samples(bytes: &mut Vec<u8>, format: Sample, samples: &[i32]) -> Result<(), Fail> {
    for sample in samples {
        push_sample(bytes, format, *sample)?;
    }
    Ok(())
}

/// Adds what two samples become that stand one behind the other in a body: two frames of one channel, or one of two.
fn push_pair(bytes: &mut Vec<u8>, from: Info, to: Info, pair: [i32; 2]) -> Result<(), Fail> {
    let bits = bits_of(from.format);
    let [left, right] = [pair[0] & bits, pair[1] & bits];
    let middle = (left >> 1)
        .wrapping_add(right >> 1)
        .wrapping_add(left & right & 1);
    match (from.channels, to.channels) {
        (1, 2) => push_samples(bytes, to.format, &[left, left, right, right]),
        (2, 1) => push_samples(bytes, to.format, &[middle & bits]),
        _ => push_samples(bytes, to.format, &[left, right]),
    }
}

/// Each format in one channel and in two.
fn infos() -> [Info; 12] {
    [
        info_by(b'8', 1),
        info_by(b'8', 2),
        info_by(b'u', 1),
        info_by(b'u', 2),
        info_by(b'l', 1),
        info_by(b'l', 2),
        info_by(b'b', 1),
        info_by(b'b', 2),
        info_by(b'3', 1),
        info_by(b'3', 2),
        info_by(b'4', 1),
        info_by(b'4', 2),
    ]
}

/// All pairs of samples of the ramp in one format, and in another.
fn ramps(alloc: Global, from: Info, to: Info) -> Result<(Vec<u8>, Vec<u8>), Fail> {
    let mut bytes = Vec::new(alloc);
    let mut wanted = Vec::new(alloc);
    for left in RAMP {
        for right in RAMP {
            push_samples(&mut bytes, from.format, &[left, right])?;
            push_pair(&mut wanted, from, to, [left, right])?;
        }
    }
    Ok((bytes, wanted))
}

fn check_pair(rt: &impl Abort, alloc: Global, from: Info, to: Info) -> Result<(), Fail> {
    let (bytes, wanted) = ramps(alloc, from, to)?;
    holds(
        rt,
        "a pair",
        gives(alloc, from, to, bytes.as_slice(), wanted.as_slice())?,
    );
    Ok(())
}

/// Every pair of formats and of one channel and two, on all pairs of samples of the ramp.
#[test]
fn all_pairs(rt: HostRuntime) -> Result<(), Fail> {
    for from in infos() {
        for to in infos() {
            check_pair(&rt, rt.alloc(), from, to)?;
        }
    }
    Ok(())
}
