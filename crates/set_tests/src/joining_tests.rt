//! Rows of elements with several sink pads, which are fed as they want.
use crate::denoting_tests::{items_by, settings_by, tell_item};
use crate::el_settings_tests::holds;
use flow_model::TaskElement;
use gst_item::{Item, Outs};
use gst_outside::MemSink;
use gst_value::{List, Text};
use std::alloc::Global;
use std::collections::VecDeque;
use std::test::Fail;
use task_elements::element_of;

/// Each row: an element with the number of its sink pads; what each of two is given; and what is put out, where each item is
/// fed to the pad that the element wants. `x` is a fault. Words are those of whole lists.
const ROWS: &str = "\
interleave*2 | s S16LE g +010002000300 e | s S16LE g +0A00 e => s S16LE*2 g +01000A00 +0200000003000000 e
interleave*2 | s U8 g +0102 +03 e | s U8 g +07 e => s U8*2 g +0107 +0280 +0380 e
interleave*2 | s S16LE g +0100 e | s U8 => x
interleave*2 | e | s e => s e
concat*2 | s S16LE g +0100 e | s S16LE g +0200 +0300 e => s S16LE g +0100 s S16LE g +0200 +0300 e
concat*2 | b +01 e | b +02 e => b +01 b +02 e
concat*2 | s g +0100 | s g +0200 e => s g +0100
concat*0 | s | s =>";

/// What is given to each sink pad.
fn inputs_by(alloc: Global, left: &str, right: &str) -> Result<Vec<VecDeque<Item>>, Fail> {
    let mut inputs = Vec::new(alloc);
    inputs.push(VecDeque::from(items_by(alloc, left)?.into_vec()))?;
    inputs.push(VecDeque::from(items_by(alloc, right)?.into_vec()))?;
    Ok(inputs)
}

/// The next item of a sink pad.
fn next_of(inputs: &mut Vec<VecDeque<Item>>, pad: u32) -> Option<Item> {
    match inputs.get_mut(pad as usize) {
        Some(items) => items.pop_front(),
        None => None,
    }
}

fn tell_outs(text: &mut String, out: &Outs) -> Result<(), Fail> {
    for one in out.as_slice() {
        tell_item(text, &one.item)?;
    }
    Ok(())
}

fn feed_one<E: TaskElement>(
    alloc: Global,
    element: &mut E,
    pad: u32,
    item: Item,
    text: &mut String,
) -> Result<(), Fail> {
    let mut out = List::new(alloc);
    if item.is_flush_stop() {
        return Ok(());
    }
    if element.feed(alloc, pad, item, &mut out).is_err() {
        text.push_str(" x")?;
    }
    tell_outs(text, &out)
}

/// Feeds an element as it wants, as far as the items go.
fn fed<E: TaskElement>(
    alloc: Global,
    element: &mut E,
    inputs: &mut Vec<VecDeque<Item>>,
) -> Result<String, Fail> {
    let mut text = String::new(alloc);
    for _ in 0..32 {
        let Some(pad) = element.wants() else {
            return Ok(text);
        };
        let Some(item) = next_of(inputs, pad) else {
            return Ok(text);
        };
        feed_one(alloc, element, pad, item, &mut text)?;
    }
    Ok(text)
}

/// A file without room.
pub(crate) fn output(alloc: Global, room: usize) -> Result<MemSink, Fail> {
    let location = Text::from_str(alloc, "out")?;
    Ok(MemSink::new(alloc, location, room, List::new(alloc), List::new(alloc))?)
}

fn joined(alloc: Global, words: &str, given: &str) -> Result<String, Fail> {
    let (left, right) = given.split_once(" | ").unwrap_or((given, ""));
    let settings = settings_by(alloc, words)?;
    let mut inputs = inputs_by(alloc, left, right)?;
    match element_of(alloc, &settings, Some(output(alloc, 0)?))? {
        Some(mut element) => fed(alloc, &mut element, &mut inputs),
        None => Ok(String::new(alloc)),
    }
}

#[test]
fn rows_of_joins(rt: HostRuntime) -> Result<(), Fail> {
    let alloc = rt.alloc();
    for row in ROWS.lines() {
        let (left, wanted) = row.split_once(" =>").unwrap_or((row, ""));
        let (words, given) = left.split_once(" | ").unwrap_or((left, ""));
        holds(&rt, row, joined(alloc, words, given)?.as_str() == wanted);
    }
    Ok(())
}
