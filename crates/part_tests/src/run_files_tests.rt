//! Runs of files in memory.
ghost use Rattle.std.specs.Prelude.{◌≡◌, ◌≤◌, [], length, option_map, vec_capacity};
ghost use Rattle.run_files.specs.Ends.{AllOpened, known_end, known_ends};

use crate::rows::{holds, same_text};
use gst_outside::{Files, MemFiles, Sink, Source};
use gst_value::Text;
use run_files::{close_all, *};
use std::alloc::Global;
use std::test::Fail;

/// What an element asks for: to read a location behind an `r`, to write one behind a `w`, and else nothing.
fn opening_of(alloc: Global, word: &str) -> Result<Option<Opening>, Fail> {
    if let Some(location) = word.strip_prefix('r') {
        return Ok(Some(Opening::Read(Text::from_str(alloc, location)?)));
    }
    match word.strip_prefix('w') {
        Some(location) => Ok(Some(Opening::Write(Text::from_str(alloc, location)?))),
        None => Ok(None),
    }
}

/// What the elements of a line ask for: two of them read a, three write x, y and z, and one asks for nothing.
fn asked(alloc: Global) -> Result<Vec<Option<Opening>>, Fail> {
    let mut asked = Vec::new(alloc);
    for word in "ra wx - ra wy wz".split(' ') {
        asked.push(opening_of(alloc, word)?)?;
    }
    Ok(asked)
}

/// Files in memory with an input, of which the openings of these numbers fail.
fn made(alloc: Global, reads: &[u64], writes: &[u64]) -> Result<MemFiles, Fail> {
    let mut files = MemFiles::new(alloc);
    files.add_input(alloc, "a", b"abc", &[], &[])?;
    files.fail_open_read(alloc, reads)?;
    files.fail_open_write(alloc, writes)?;
    Ok(files)
}

/// The place at which an opening fails, where the openings of these numbers fail.
fn failing(alloc: Global, reads: &[u64], writes: &[u64]) -> Result<Option<usize>, Fail> {
    let asked = asked(alloc)?;
    let mut files = made(alloc, reads, writes)?;
    let place = match open_all(alloc, &mut files, &asked) {
        Ok(ends) => {
            close_all(&mut files, ends);
            None
        }
        Err(Unopened::Failed { place }) => Some(place),
        Err(Unopened::OutOfMemory) => Err("memory")?,
    };
    if files.ends() != 0 {
        Err("an end that is open")?;
    }
    Ok(place)
}

/// Writes a digit into a sink.
fn worked<S: Source, K: Sink>(end: Option<End<S, K>>, digit: usize) -> Option<End<S, K>>
    ensures { option_map (λ e. (known_end S.Source K.Sink e).location) result ≡ option_map (λ e. (known_end S.Source K.Sink e).location) end }
{
    let piece = [b'0' + (digit % 10) as u8];
    match end {
        Some(End::Snk(mut sink)) => {
            let _ = sink.write_at(0, &piece);
            Some(End::Snk(sink))
        }
        other => other,
    }
}

/// Works with the ends of a run, and gives them back in another order.
fn work<F: Files>(
    files: &mut F,
    mut ends: Vec<Option<End<F::Src, F::Snk>>>,
    mut back: Vec<Option<End<F::Src, F::Snk>>>,
)
    requires here { AllOpened (F.opened files.old) (known_ends F.Src.Source F.Snk.Sink ends.items) }
    requires none { back.items ≡ [] }
    requires room { length ends.items ≤ vec_capacity back }
{
    while let Some(end) = ends.pop() {
        let digit = back.len();
        back.push_reserved(worked(end, digit));
    }
    close_all(files, back);
}

/// Each row: the number of the opening to read and of the one to write that fail, where 0 is none, and its place.
const FAILING: &str =
    "00 -> None\n10 -> Some(0)\n01 -> Some(1)\n20 -> Some(3)\n02 -> Some(4)\n03 -> Some(5)";

fn digit_at(word: &str, place: usize) -> u64 {
    match word.as_bytes().get(place) {
        Some(digit) => u64::from(*digit % 16),
        None => 0,
    }
}

/// The place of the opening that fails.
fn told(alloc: Global, digits: &str) -> Result<String, Fail> {
    let place = failing(alloc, &[digit_at(digits, 0)], &[digit_at(digits, 1)])?;
    Ok(format!(in alloc; "{place:?}")?)
}

#[test]
fn ends_are_given_back(rt: HostRuntime) -> Result<(), Fail> {
    let alloc = rt.alloc();
    for row in FAILING.lines() {
        let (digits, wanted) = row.split_once(" -> ").unwrap_or((row, ""));
        same_text(&rt, row, told(alloc, digits)?.as_str(), wanted);
    }
    Ok(())
}

/// Opens all, works with the ends, and gives them back.
fn worked_all(alloc: Global, files: &mut MemFiles) -> Result<(), Fail> {
    let asked = asked(alloc)?;
    let ends = open_all(alloc, files, &asked)?;
    let back = Vec::with_capacity(alloc, ends.len())?;
    work(files, ends, back);
    Ok(())
}

#[test]
fn sinks_leave_their_bytes(rt: HostRuntime) -> Result<(), Fail> {
    let alloc = rt.alloc();
    let mut files = made(alloc, &[], &[])?;
    worked_all(alloc, &mut files)?;
    holds(&rt, "x", files.output_bytes("x") == b"4".as_slice());
    holds(&rt, "y", files.output_bytes("y") == b"1".as_slice());
    holds(&rt, "z", files.output_bytes("z") == b"0".as_slice());
    holds(&rt, "ends", files.ends() == 0);
    Ok(())
}
