//! Elements that are fed through the traits of a task.
ghost use Rattle.std.specs.Prelude.{◌<◌, ◌^◌, None};

use el_set::source_of;
use el_settings::{
    CapsFilterSettings, FileSinkSettings, FileSrcSettings, MadePads, QueueSettings, Settings,
};
use flow_model::{TaskElement, TaskSource, Why};
use gst_item::Outs;
use gst_outside::{MemSink, MemSource, Sink, Source};
use gst_value::{List, Text};
use item_letters::{item_of, letter_of, letters_of};
use std::alloc::Global;
use std::test::Fail;
use task_elements::*;

/// What an element puts out for letters on the sink pad that it wants, each behind a `-`; `x` is a fault of its rule, `m` want of
/// memory, and `w` a failed write. A `+` stands for EOS on a sink pad that it has not.
fn fed<E: TaskElement>(alloc: Global, element: &mut E, letters: &str) -> Result<String, Fail> {
    let mut text = String::new(alloc);
    for letter in letters.bytes() {
        text.push_str(fed_one(alloc, element, letter)?.as_str())?;
    }
    Ok(text)
}

fn fed_one<E: TaskElement>(alloc: Global, element: &mut E, letter: u8) -> Result<String, Fail> {
    let mut text = String::new(alloc);
    let mut out = List::new(alloc);
    text.push(answer_to(alloc, element, letter, &mut out)?)?;
    for letter in letters_of(alloc, &out)?.as_slice() {
        text.push(char::from(*letter))?;
    }
    Ok(text)
}

fn answer_to<E: TaskElement>(
    alloc: Global,
    element: &mut E,
    letter: u8,
    out: &mut Outs,
) -> Result<char, Fail> {
    let (pad, letter) = if letter == b'+' {
        (7, b'e')
    } else {
        (element.wants().unwrap_or(7), letter)
    };
    let item = item_of(alloc, letter)?;
    if item.is_flush_stop() {
        return Ok('f');
    }
    match element.feed(alloc, pad, item, out) {
        Ok(()) => Ok('-'),
        Err(refused) => match refused.into_why() {
            Why::Unwritten { .. } => Ok('w'),
            Why::OutOfMemory => Ok('m'),
            _ => Ok('x'),
        },
    }
}

/// The settings of an element.
fn settings_of(alloc: Global, word: &str) -> Result<Settings, Fail> {
    match word {
        "capsfilter" => Ok(Settings::CapsFilter(CapsFilterSettings {
            caps: caps_text::parse(alloc, "audio/x-raw")?,
        })),
        "queue" => Ok(Settings::Queue(QueueSettings {
            buffers: 1,
            bytes: 0,
            time: 0,
        })),
        "filesink" => Ok(Settings::FileSink(FileSinkSettings {
            location: Text::from_str(alloc, "out")?,
            keep_flushed: false,
        })),
        "fakesink" => Ok(Settings::FakeSink),
        "tee" => Ok(Settings::Tee(MadePads::of(2))),
        "concat" => Ok(Settings::Concat(MadePads::of(2))),
        _ => Ok(Settings::Identity),
    }
}

/// An element by its settings, over a file that takes three bytes.
fn element_over(
    alloc: Global,
    settings: &Settings,
) -> Result<Option<StreamElement<MemSink>>, Fail> {
    let output = Text::from_str(alloc, "out")?;
    let written = MemSink::new(alloc, output, 3, List::new(alloc), List::new(alloc))?;
    Ok(element_of(alloc, settings, Some(written))?)
}

fn element_by(alloc: Global, word: &str) -> Result<Option<StreamElement<MemSink>>, Fail> {
    let settings = settings_of(alloc, word)?;
    element_over(alloc, &settings)
}

fn told(
    alloc: Global,
    element: &mut StreamElement<MemSink>,
    letters: &str,
) -> Result<(String, Option<u64>), Fail> {
    let text = fed(alloc, element, letters)?;
    Ok((text, element.len()))
}

/// What the element of a word puts out for letters, and the length of its file.
fn row(alloc: Global, word: &str, letters: &str) -> Result<(String, Option<u64>), Fail> {
    match element_by(alloc, word)? {
        Some(mut element) => told(alloc, &mut element, letters),
        None => Ok((String::new(alloc), None)),
    }
}

#[test]
fn rows_of_elements(rt: HostRuntime) -> Result<(), Fail> {
    let alloc = rt.alloc();
    let rows = "identity srB+BeB -s-r-B--B-e-
queue srmeB -s-r-m-e-
capsfilter sBrBmB -sx-r-Bx-B
tee srB+eB -ss-rr-BB--ee-
concat srB+esrBes -s-r-Bm--s-r-B-em
fakesink srBeB -----
filesink srBB ---w";
    for line in rows.lines() {
        let mut parts = line.split(' ');
        let word = parts.next().unwrap_or("");
        let given = parts.next().unwrap_or("");
        let (text, length) = row(alloc, word, given)?;
        assert_eq!(rt; text.as_str(), parts.next().unwrap_or(""));
        assert_eq!(rt; length, if word == "filesink" { Some(2) } else { None });
    }
    Ok(())
}

/// The letter of the next item of a source.
fn next_letter<S: TaskSource>(alloc: Global, source: &mut S) -> u8
    requires { S.count source.old < 2 ^ 41 }
{
    match source.next(alloc) {
        Ok(Some(item)) => letter_of(&item),
        Ok(None) => b'.',
        Err(_) => b'x',
    }
}

#[test]
fn a_source_gives(rt: HostRuntime) -> Result<(), Fail> {
    let alloc = rt.alloc();
    let content = List::from_vec(b"abcde".to_vec(alloc)?);
    let input = Text::from_str(alloc, "in")?;
    let file = MemSource::new(input, content, List::new(alloc), List::new(alloc));
    let settings = Settings::FileSrc(FileSrcSettings {
        location: Text::from_str(alloc, "in")?,
        blocksize: 2,
    });
    let made = source_of(&settings, None, Some(file), 0);
    assert!(rt; made.is_some());
    if let Some(element) = made {
        let mut source = StreamSource::new(element);
        assert_eq!(rt; next_letter(alloc, &mut source), b's');
        assert!(rt; source.into_source().into_source().is_some());
    }
    Ok(())
}
