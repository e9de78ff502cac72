//! Rows of whole lists.
ghost use Rattle.std.specs.Prelude.{◌≡◌, IfOk};
ghost use Rattle.el_settings.specs.Asked.{title_of};

use crate::el_settings_tests::{checked, holds};
use el_denote::denote;
use el_set::*;
use el_settings::{CapsFilterSettings, Settings};
use el_src::Next;
use gst_caps::Caps;
use gst_item::{Item, Outs};
use gst_outside::{MemSink, MemSource, Sink, Source};
use gst_value::{List, Text};
use item_letters::{item_of, letter_of, letter_of_answer, letters_of};
use std::alloc::Global;
use std::test::Fail;

/// The letters of items.
fn text_of(alloc: Global, items: &[Item]) -> Result<String, Fail> {
    let mut text = String::new(alloc);
    for item in items {
        text.push(char::from(letter_of(item)))?;
    }
    Ok(text)
}

/// The letters of the first list.
fn first_letters(alloc: Global, lists: &List<List<Item>>) -> Result<String, Fail> {
    match lists.as_slice().first() {
        Some(items) => text_of(alloc, items.as_slice()),
        None => Ok(String::from_str(alloc, "none")?),
    }
}

/// The items of letters.
fn items_of(alloc: Global, letters: &str) -> Result<List<Item>, Fail> {
    let mut items = List::new(alloc);
    for letter in letters.bytes() {
        items.push(alloc, item_of(alloc, letter)?)?;
    }
    Ok(items)
}

/// What an element with one sink pad and one source pad owes for items, by their letters.
fn owed(alloc: Global, settings: &Settings, letters: &str) -> Result<String, Fail> {
    if settings.makes_sinks() || settings.sink_pads() != 1 || settings.source_pads() != 1 {
        return Ok(String::from_str(alloc, "none")?);
    }
    let mut inputs = List::new(alloc);
    inputs.push(alloc, items_of(alloc, letters)?)?;
    match denote(alloc, settings, 1, &Caps::Any, &inputs) {
        Ok(outputs) => first_letters(alloc, &outputs),
        Err(fault) => {
            let mut text = String::new(alloc);
            text.push(char::from(letter_of_answer(&Err(fault))))?;
            Ok(text)
        }
    }
}

/// What an element puts out for letters, each behind its answer. A FLUSH_STOP flushes it, and `d` drains it.
fn fed(alloc: Global, settings: &Settings, letters: &str) -> Result<String, Fail> {
    match filter_of(alloc, settings)? {
        Some(element) => {
            let mut copy = element.copy(alloc)?;
            fed_to(alloc, &mut copy, letters)
        }
        None => Ok(String::new(alloc)),
    }
}

fn fed_to(alloc: Global, element: &mut FilterElement, letters: &str) -> Result<String, Fail> {
    let mut text = String::new(alloc);
    for letter in letters.bytes() {
        text.push_str(fed_one(alloc, element, letter)?.as_str())?;
    }
    Ok(text)
}

fn fed_one(alloc: Global, element: &mut FilterElement, letter: u8) -> Result<String, Fail> {
    let mut text = String::new(alloc);
    let mut out = List::new(alloc);
    text.push(char::from(answer_to(alloc, element, letter, &mut out)?))?;
    for letter in letters_of(alloc, &out)?.as_slice() {
        text.push(char::from(*letter))?;
    }
    Ok(text)
}

fn answer_to(
    alloc: Global,
    element: &mut FilterElement,
    letter: u8,
    out: &mut Outs,
) -> Result<u8, Fail> {
    if letter == b'd' {
        return Ok(if element.drain(alloc, out).is_err() {
            b'!'
        } else {
            b'-'
        });
    }
    let item = item_of(alloc, letter)?;
    if item.is_flush_stop() {
        element.flush();
        return Ok(b'f');
    }
    let answer = element.feed(alloc, 0, item, out);
    Ok(letter_of_answer(&answer))
}

/// What is owed for letters as a whole, or what an element answers and puts out for them one by one.
fn told(alloc: Global, way: &str, settings: &Settings, letters: &str) -> Result<String, Fail> {
    if way == "owed" {
        owed(alloc, settings, letters)
    } else {
        fed(alloc, settings, letters)
    }
}

/// The way in which it is told, what is given, and what is told: for a filter of audio/x-raw, and for an identity. A
/// fault is the letter of the caps that were offered, or `0` where none were.
#[test]
fn rows_of_lists(rt: HostRuntime) -> Result<(), Fail> {
    let alloc = rt.alloc();
    let filter = Settings::CapsFilter(CapsFilterSettings {
        caps: caps_text::parse(alloc, "audio/x-raw")?,
    });
    let rows = "owed srBe srBe srBe
owed srBeBsfB srBefB srBefB
owed sB 0 sB
owed srBm m srBm
owed seB se se
owed sfrB sfrB sfrB
fed srBe +s+r+B+e +s+r+B+e
fed eBdfB +e.-f0 +e.-f+B
fed sBrBm +s0+r+Bm +s+B+r+B+m";
    for row in rows.lines() {
        let mut parts = row.split(' ');
        let way = parts.next().unwrap_or("");
        let given = parts.next().unwrap_or("");
        for settings in [&filter, &Settings::Identity] {
            let told = told(alloc, way, settings, given)?;
            holds(&rt, row, told.as_str() == parts.next().unwrap_or(""));
        }
    }
    Ok(())
}

/// Carries all items of a source to a sink, and tells the length of the sink's file.
fn carry<S: Source, K: Sink>(
    alloc: Global,
    mut source: SourceElement<S>,
    mut sink: SinkElement<K>,
) -> Option<u64> {
    for _ in 0..9 {
        carry_one(alloc, &mut source, &mut sink);
    }
    sink.len()
}

fn carry_one<S: Source, K: Sink>(
    alloc: Global,
    source: &mut SourceElement<S>,
    sink: &mut SinkElement<K>,
) {
    if source.items() > 9 {
        return;
    }
    if let Ok(Next::Item(item)) = source.next(alloc) {
        if sink.render(&item).is_err() {
            source.end();
        }
    }
}

/// The title of settings.
fn title_in(alloc: Global, settings: &Settings) -> Result<Option<Text>, Fail>
    ensures { IfOk result (λ title. title ≡ title_of settings.now) }
{
    match settings.title() {
        Some(title) => Ok(Some(Text::from_str(alloc, title)?)),
        None => Ok(None),
    }
}

/// Five bytes.
fn input(alloc: Global) -> Result<MemSource, Fail> {
    let content = List::from_vec(b"abcde".to_vec(alloc)?);
    let location = Text::from_str(alloc, "in")?;
    Ok(MemSource::new(location, content, List::new(alloc), List::new(alloc)))
}

/// An empty file with room for 16.
fn output(alloc: Global) -> Result<MemSink, Fail> {
    let location = Text::from_str(alloc, "out")?;
    Ok(MemSink::new(alloc, location, 16, List::new(alloc), List::new(alloc))?)
}

/// The length of the file behind what a source gives, with other ends.
fn carried_by(alloc: Global, from: &Settings, to: &Settings) -> Result<Option<u64>, Fail> {
    let title = title_in(alloc, from)?;
    let source = source_of(from, title, Some(input(alloc)?), 0);
    match (source, sink_of(to, Some(output(alloc)?))) {
        (Some(source), Some(sink)) => Ok(carry(alloc, source, sink)),
        _ => Ok(Some(0)),
    }
}

/// The length of the file behind five bytes in blocks of two, by the words of the sink.
fn carried(alloc: Global, words: &str) -> Result<Option<u64>, Fail> {
    let from = checked(alloc, "filesrc location=in blocksize=2")?;
    match (from, checked(alloc, words)?) {
        (Ok(from), Ok(to)) => carried_by(alloc, &from, &to),
        _ => Ok(Some(0)),
    }
}

#[test]
fn bytes_are_carried(rt: HostRuntime) -> Result<(), Fail> {
    let alloc = rt.alloc();
    assert_eq!(rt; carried(alloc, "filesink location=out")?, Some(5));
    assert_eq!(rt; carried(alloc, "fakesink")?, None);
    Ok(())
}
