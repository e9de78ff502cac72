//! Rows of crossings and links.
ghost use Rattle.std.specs.Prelude.{◌<◌, ◌^◌};
ghost use Rattle.pad_core.specs.SrcPad.{crossed_of};

use crate::rows::holds;
use gst_item::{Event, Flow, Item};
use item_letters::{item_of, letter_of_event};
use pad_core::*;
use std::alloc::Global;
use std::process::Abort;
use std::test::Fail;

/// The letter of an answer.
fn answer_letter(answer: Crossing) -> char {
    match answer {
        Crossing::Flushing => 'f',
        Crossing::Eos => 'e',
        Crossing::AtProbe(5) => 'p',
        Crossing::NotLinked => 'n',
        Crossing::Alone => 'a',
        Crossing::Go(7) => 'g',
        Crossing::AtProbe(_) | Crossing::Go(_) => '?',
    }
}

/// Offers an item to a pad, and takes its crossing back where that is asked for.
fn offer(
    alloc: Global,
    pad: &mut SrcPad,
    item: &Item,
    sibling: bool,
    back: bool,
) -> Result<Crossing, Fail>
    requires { crossed_of pad.old < 2 ^ 41 }
{
    if let Item::Event(event) = item {
        pad.keep(alloc, event)?;
    }
    let answer = pad.cross(item, sibling);
    if back && !item.is_flush_stop() {
        match answer {
            Crossing::Alone => pad.take_back(),
            Crossing::Go(_) => pad.take_back(),
            _ => {}
        }
    }
    Ok(answer)
}

/// Does to a pad what a letter stands for that is no item.
fn control(pad: &mut SrcPad, sink: &mut SinkPad, letter: u8) {
    match letter {
        b'A' => pad.set_active(true),
        b'D' => pad.set_active(false),
        b'F' => pad.set_flushing(true),
        b'K' => pad.block(5, 1),
        b'N' => pad.unblock(),
        b'U' => {
            pad.unlink();
            sink.unlink();
        }
        b'L' => {
            let _ = link(pad, sink, true);
        }
        _ => {}
    }
}

/// Whether a letter of a row stands for an item.
fn is_item(letter: u8) -> bool {
    matches!(letter, b'B' | b'a'..=b'z')
}

/// What a pad answers to the letters of a row.
fn answers_of(alloc: Global, pad: &mut SrcPad, letters: &str) -> Result<String, Fail> {
    let mut sink = SinkPad::new(7, true);
    let mut answers = String::new(alloc);
    let mut before = b' ';
    for letter in letters.bytes() {
        if is_item(letter) && pad.crossed() < 1 << 41 {
            let item = item_of(alloc, letter)?;
            let answer = offer(alloc, pad, &item, before == b'S', before == b'T')?;
            answers.push(answer_letter(answer))?;
        } else {
            control(pad, &mut sink, letter);
        }
        before = letter;
    }
    Ok(answers)
}

fn stickies_of(alloc: Global, pad: &SrcPad) -> Result<String, Fail> {
    let mut letters = String::from_str(alloc, "-")?;
    for event in pad.stickies(alloc)?.as_slice() {
        letters.push(char::from(letter_of_event(event)))?;
    }
    Ok(letters)
}

/// Small letters and `B` are items, `T` takes the next one back, `S` has a sibling linked at it, and the others are
/// `control`. Then the answers, the numbers of items and of buffers, and the sticky events.
#[test]
fn rows_of_crossings(rt: HostRuntime) -> Result<(), Fail> {
    let alloc = rt.alloc();
    let rows = "B f 0 0 -
AsgB aan 2 0 -sg
AsSB aa 2 1 -s
ALsgBeBfB ggggegg 6 2 -s
ALKBsBNB ggpg 3 2 -s
ALFBfB fgg 2 1 -
ALsTBTeB gggg 2 1 -s
ALrgtsTre gggggg 5 0 -srgte
ALpDpAp gfg 2 0 -
ALsUsB gan 2 0 -s";
    for row in rows.lines() {
        let mut parts = row.split(' ');
        let mut pad = SrcPad::new(3, false);
        let answers = answers_of(alloc, &mut pad, parts.next().unwrap_or(""))?;
        assert_eq!(rt; answers.as_str(), parts.next().unwrap_or(""));
        let stickies = stickies_of(alloc, &pad)?;
        let counts = format!(in alloc; "{} {} {}", pad.crossed(), pad.buffers(), stickies)?;
        assert!(rt; row.ends_with(counts.as_str()));
    }
    Ok(())
}

#[test]
fn links(rt: HostRuntime) {
    let mut src = SrcPad::new(3, true);
    let mut sink = SinkPad::new(7, true);
    holds(
        &rt,
        "no format",
        link(&mut src, &mut sink, false) == LinkReturn::NoFormat,
    );
    holds(
        &rt,
        "a link",
        link(&mut src, &mut sink, true) == LinkReturn::Ok,
    );
    holds(
        &rt,
        "a second link",
        link(&mut src, &mut sink, true) == LinkReturn::WasLinked,
    );
    holds(
        &rt,
        "peers",
        src.peer() == Some(7) && sink.peer() == Some(3),
    );
}

#[test]
fn codes_of_links(rt: HostRuntime) {
    let codes = [
        (LinkReturn::Ok, 0),
        (LinkReturn::WrongHierarchy, -1),
        (LinkReturn::WasLinked, -2),
        (LinkReturn::WrongDirection, -3),
        (LinkReturn::NoFormat, -4),
        (LinkReturn::NoSched, -5),
        (LinkReturn::Refused, -6),
    ];
    for (answer, code) in codes {
        assert_eq!(rt; answer.code(), code);
    }
}

fn check_accepts(rt: &impl Abort, pad: &mut SinkPad, event: Event, wanted: Flow) {
    holds(rt, "an item", pad.accept(&Item::Event(event)) == wanted);
}

#[test]
fn a_sink_pad_accepts(rt: HostRuntime) {
    let mut pad = SinkPad::new(7, false);
    check_accepts(
        &rt,
        &mut pad,
        Event::FlushStop { number: 1 },
        Flow::Flushing,
    );
    pad.set_active(true);
    pad.set_flushing(true);
    check_accepts(&rt, &mut pad, Event::StreamStart { id: 1 }, Flow::Flushing);
    check_accepts(&rt, &mut pad, Event::FlushStop { number: 1 }, Flow::Ok);
    check_accepts(&rt, &mut pad, Event::Eos, Flow::Ok);
    check_accepts(&rt, &mut pad, Event::StreamStart { id: 1 }, Flow::Eos);
    check_accepts(&rt, &mut pad, Event::FlushStop { number: 1 }, Flow::Ok);
    check_accepts(&rt, &mut pad, Event::StreamStart { id: 1 }, Flow::Ok);
    holds(&rt, "how many", pad.accepted() == 4);
}
