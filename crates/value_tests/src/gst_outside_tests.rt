//! Tests over files in memory, and one of the host's files, output and clock.
ghost use Rattle.std.specs.Prelude.{◌≡◌};

use crate::rows::{check_rows, digit_at, holds, number_of, parts_of, put_bytes, same_text};
use gst_outside::{
    Clock, Failed, Files, HostClock, HostFiles, MemFiles, OpenEnd, OpenGate, OutSink, Sink, Source,
    StepClock, TaskGate,
};
use std::alloc::Global;
use std::fmt::Write;
use std::fs;
use std::process::Abort;
use std::test::Fail;

/// Each row: what is read; the numbers of the read, the write and the cut that fail, and 0 for none; the room of what is written; then its
/// bytes, the failures, and the ends that were not given back.
const MOVED: &str = "\
abcdef 000 16 -> 0000626364. 0 0
ab 000 16 -> 000062. 0 0
a 000 16 -> . 0 0
abcdef 100 16 -> . 1 0
abcdef 010 16 -> . 1 0
abcdef 000 5 -> . 1 0
abcdef 001 16 -> 000062636465. 1 0
abcdef 002 16 -> 0000626364. 0 0";

/// Reads up to four bytes from place 1 on, writes them at place 2, and cuts at 5.
fn move_bytes<S: Source, K: Sink>(source: &mut S, sink: &mut K) -> Result<(), Failed>
    ensures source { S.location source.new ≡ S.location source.old }
    ensures sink { K.location sink.new ≡ K.location sink.old }
{
    let mut room = [0u8; 4];
    let got = source.read_at(1, &mut room)?;
    sink.write_at(2, &room[..got])?;
    sink.cut(5)
}

/// Opens one location for reading and another for writing, moves bytes, and closes both.
fn copy_some<F: Files>(files: &mut F, alloc: Global, from: &str, to: &str) -> Result<(), OpenEnd> {
    let mut source = files.open_read(alloc, from)?;
    match files.open_write(alloc, to) {
        Ok(mut sink) => {
            let _ = move_bytes(&mut source, &mut sink);
            files.close_read(source);
            files.close_write(sink);
            Ok(())
        }
        Err(end) => {
            files.close_read(source);
            Err(end)
        }
    }
}

/// The number at a place of a call that fails.
fn fault_at(fails: &str, place: usize) -> u64 {
    u64::from(digit_at(fails, place))
}

/// Files in memory for a row.
fn files_of(alloc: Global, given: &str) -> Result<MemFiles, Fail> {
    let (input, rest) = parts_of(given, " ");
    let (fails, room) = parts_of(rest, " ");
    let room = number_of(room).unsigned_abs() as usize;
    let mut files = MemFiles::new(alloc);
    files.add_input(alloc, "a", input.as_bytes(), &[fault_at(fails, 0)], &[])?;
    files.add_output(
        alloc,
        "b",
        room,
        &[fault_at(fails, 1)],
        &[fault_at(fails, 2)],
    )?;
    Ok(files)
}

fn moved(alloc: Global, given: &str) -> Result<String, Fail> {
    let mut files = files_of(alloc, given)?;
    copy_some(&mut files, alloc, "a", "b")?;
    let mut text = String::new(alloc);
    put_bytes(&mut text, files.output_bytes("b"))?;
    write!(text, " {} {}", files.faults(), files.ends())?;
    Ok(text)
}

#[test]
fn bytes_and_failures_in_memory(rt: HostRuntime) -> Result<(), Fail> {
    check_rows(&rt, rt.alloc(), MOVED, moved)
}

/// Each row: the numbers of looks at a size that fail; then three looks, and the failures of the location.
const SIZES: &str = "0 -> 666 0\n1 -> !66 1\n32 -> 6!! 2\n4 -> 666 0";

fn put_size<S: Source>(into: &mut String, source: &mut S) -> Result<(), Fail>
    ensures location_stays { S.location source.new ≡ S.location source.old }
{
    match source.size() {
        Ok(size) => write!(into, "{size}")?,
        Err(Failed) => into.push('!')?,
    }
    Ok(())
}

fn put_three<S: Source>(into: &mut String, source: &mut S) -> Result<(), Fail>
    ensures location_stays { S.location source.new ≡ S.location source.old }
{
    put_size(into, source)?;
    put_size(into, source)?;
    put_size(into, source)
}

/// What three looks at the size of a location give.
fn three_sizes<F: Files>(files: &mut F, alloc: Global, into: &mut String) -> Result<(), Fail> {
    let mut source = files.open_read(alloc, "a")?;
    let told = put_three(into, &mut source);
    files.close_read(source);
    told
}

fn sizes(alloc: Global, fails: &str) -> Result<String, Fail> {
    let mut files = MemFiles::new(alloc);
    files.add_input(
        alloc,
        "a",
        b"abcdef",
        &[],
        &[fault_at(fails, 0), fault_at(fails, 1)],
    )?;
    let mut text = String::new(alloc);
    three_sizes(&mut files, alloc, &mut text)?;
    write!(text, " {}", files.faults_of("a"))?;
    Ok(text)
}

#[test]
fn sizes_in_memory(rt: HostRuntime) -> Result<(), Fail> {
    check_rows(&rt, rt.alloc(), SIZES, sizes)
}

/// `.` where a copy begins, and `!` where an opening fails.
fn put_copy<F: Files>(into: &mut String, files: &mut F, alloc: Global) -> Result<(), Fail> {
    match copy_some(files, alloc, "a", "b") {
        Ok(()) => into.push('.')?,
        Err(OpenEnd::Failed) => into.push('!')?,
        Err(OpenEnd::OutOfMemory) => into.push('m')?,
    }
    Ok(())
}

fn put_counts(into: &mut String, files: &MemFiles) -> Result<(), Fail> {
    write!(into, " {} {}", files.refused_of("a"), files.refused_of("b"))?;
    write!(into, " {} {}", files.faults_of("a"), files.faults())?;
    Ok(())
}

#[test]
fn refused_openings(rt: HostRuntime) -> Result<(), Fail> {
    let alloc = rt.alloc();
    let mut files = MemFiles::new(alloc);
    files.fail_open_read(alloc, &[1])?;
    files.fail_open_write(alloc, &[1])?;
    let mut text = String::new(alloc);
    for _ in 0..3 {
        put_copy(&mut text, &mut files, alloc)?;
    }
    put_counts(&mut text, &files)?;
    same_text(&rt, "openings", text.as_str(), "!!. 1 1 0 2");
    Ok(())
}

/// The first reading of a clock, and the first one of a twin that is made after it.
fn two_readings<C: Clock>(clock: &mut C, alloc: Global) -> Result<(u64, u64), Fail> {
    let first = clock.now();
    let mut twin = clock.twin(alloc)?;
    Ok((first, twin.now()))
}

/// Passes a gate and a twin of it.
fn pass<G: TaskGate>(gate: &G, alloc: Global) -> Result<(), Fail> {
    gate.before_step(0, 0);
    gate.twin(alloc)?.before_edit(1);
    Ok(())
}

#[test]
fn clocks_and_gates(rt: HostRuntime) -> Result<(), Fail> {
    let alloc = rt.alloc();
    let mut clock = StepClock::new(alloc, 5, &[7])?;
    holds(&rt, "twins", two_readings(&mut clock, alloc)? == (5, 7));
    holds(&rt, "readings", clock.now() == 7 && clock.now() == 7);
    holds(&rt, "reads", clock.reads() == 3);
    let mut host = HostClock::new(rt);
    let _ = two_readings(&mut host, alloc)?;
    holds(&rt, "reads of the host's", host.reads() == 1);
    pass(&OpenGate, alloc)
}

/// Writes the first bytes of a location.
fn put_file<F: Files>(
    files: &mut F,
    alloc: Global,
    location: &str,
    bytes: &[u8],
) -> Result<(), OpenEnd> {
    let mut sink = files.open_write(alloc, location)?;
    let _ = sink.write_at(0, bytes);
    files.close_write(sink);
    Ok(())
}

/// The size of a location, and its first bytes, read into `into`.
fn first_bytes<F: Files>(
    files: &mut F,
    alloc: Global,
    location: &str,
    into: &mut [u8],
) -> Result<u64, OpenEnd> {
    let mut source = files.open_read(alloc, location)?;
    let _ = source.read_at(0, into);
    let size = source.size().unwrap_or(0);
    files.close_read(source);
    Ok(size)
}

/// What a copy of a file leaves: its size, its first bytes, and behind them what stood in the room.
fn copied<F: Files>(files: &mut F, alloc: Global) -> Result<String, Fail> {
    put_file(files, alloc, "outside_in.tmp", b"abcdef")?;
    copy_some(files, alloc, "outside_in.tmp", "outside_out.tmp")?;
    let mut room = [9u8; 6];
    let size = first_bytes(files, alloc, "outside_out.tmp", &mut room)?;
    let mut text = String::new(alloc);
    write!(text, "{size} ")?;
    put_bytes(&mut text, &room)?;
    Ok(text)
}

/// What is counted behind a copy of a file that is not there.
fn missed<F: Files>(files: &mut F, alloc: Global) -> (Result<(), OpenEnd>, u64) {
    let copied = copy_some(files, alloc, "outside_in.tmp", "b");
    (copied, files.faults())
}

#[test]
fn files_of_the_host(rt: HostRuntime) -> Result<(), Fail> {
    let alloc = rt.alloc();
    let mut files = HostFiles::new(rt);
    let text = copied(&mut files, alloc)?;
    same_text(&rt, "a copy", text.as_str(), "5 000062636409.");
    fs::remove_file(&rt, "outside_in.tmp")?;
    fs::remove_file(&rt, "outside_out.tmp")?;
    holds(
        &rt,
        "no file",
        missed(&mut files, alloc) == (Err(OpenEnd::Failed), 1),
    );
    holds(&rt, "ends", files.ends() == 0);
    Ok(())
}

/// Whether a sink that writes in order takes no more than that.
fn is_ordered<K: Sink>(out: &mut K) -> bool {
    out.write_at(0, b"in order\n") == Ok(9)
        && out.write_at(4, b"too early\n") == Err(Failed)
        && out.write_at(10, b"past the end\n") == Err(Failed)
        && out.cut(8) == Err(Failed)
        && out.cut(9) == Ok(())
        && out.faults() == 3
}

#[test]
fn output_in_order(rt: HostRuntime) {
    let mut out = OutSink::new(rt.stdout());
    holds(&rt, "an output", is_ordered(&mut out));
}
