//! Reading ahead of files in memory, and of one of the host's.
ghost use Rattle.std.specs.Prelude.{◌≡◌};

use crate::rows::holds;
use gst_outside::{Failed, Files, HostFiles, MemFiles, OpenEnd, Sink, Source};
use read_ahead::{AheadFiles, WINDOW};
use std::alloc::Global;
use std::fs;
use std::process::Abort;
use std::test::Fail;

/// Files in memory with an input, on whose sources the reads of these numbers fail.
fn made(alloc: Global, input: &[u8], reads: &[u64]) -> Result<AheadFiles<MemFiles>, Fail> {
    let mut files = MemFiles::new(alloc);
    files.add_input(alloc, "a", input, reads, &[])?;
    Ok(AheadFiles::new(files))
}

/// The bytes that reads of `a` give, each with room for `room` of them, from the place where the last one ended; a `!`
/// stands for a read that failed. It ends with the first read that gives nothing.
fn read_all<F: Files>(
    files: &mut F,
    alloc: Global,
    room: usize,
    trace: &mut Vec<u8>,
) -> Result<(), Fail> {
    let Ok(mut source) = files.open_read(alloc, "a") else {
        return Err("not opened")?;
    };
    let told = trace_reads(alloc, &mut source, room, trace);
    files.close_read(source);
    told
}

fn trace_reads<S: Source>(
    alloc: Global,
    source: &mut S,
    room: usize,
    trace: &mut Vec<u8>,
) -> Result<(), Fail>
    ensures location_stays { S.location source.new ≡ S.location source.old }
{
    let mut piece = vec![in alloc; 0u8; room]?;
    let mut place = 0u64;
    for _ in 0..1_000 {
        match source.read_at(place, piece.as_mut_slice()) {
            Ok(0) => return Ok(()),
            Ok(count) => {
                trace.extend_from_slice(&piece[..count])?;
                place = place.saturating_add(count as u64);
            }
            Err(Failed) => trace.push(b'!')?,
        }
    }
    Err("no end")?
}

/// What reads of an input tell, of which those of these numbers fail.
fn traced(alloc: Global, input: &[u8], reads: &[u64], room: usize) -> Result<Vec<u8>, Fail> {
    let mut files = made(alloc, input, reads)?;
    let mut trace = Vec::new(alloc);
    read_all(&mut files, alloc, room, &mut trace)?;
    Ok(trace)
}

#[test]
fn one_read_serves_many(rt: HostRuntime) -> Result<(), Fail> {
    let alloc = rt.alloc();
    let rows: [(&'static [u8], &'static [u64], usize, &'static [u8]); 7] = [
        (b"", &[], 3, b""),
        (b"abcdefgh", &[], 3, b"abcdefgh"),
        (b"abcdefgh", &[], 1, b"abcdefgh"),
        (b"abcdefgh", &[], 100, b"abcdefgh"),
        (b"abcdefgh", &[2], 3, b"abcdefgh!"),
        (b"abcdefgh", &[1], 3, b"!abcdefgh"),
        (b"abcdefgh", &[1, 2, 4], 1, b"!!abcdefgh!"),
    ];
    for (input, reads, room, want) in rows {
        let trace = traced(alloc, input, reads, room)?;
        assert_eq!(rt; trace.as_slice(), want);
    }
    Ok(())
}

/// Bytes, of which neighbours differ, and so do those of one place in two windows.
fn many(alloc: Global, len: usize) -> Result<Vec<u8>, Fail> {
    let mut bytes = Vec::new(alloc);
    for place in 0..len {
        bytes.push((place % 251) as u8)?;
    }
    Ok(bytes)
}

#[test]
fn windows_follow_each_other(rt: HostRuntime) -> Result<(), Fail> {
    let alloc = rt.alloc();
    let input = many(alloc, 2 * WINDOW + 4_500)?;
    for room in [1_000, 4_096, WINDOW - 1, WINDOW, WINDOW + 1, 3 * WINDOW] {
        let trace = traced(alloc, input.as_slice(), &[], room)?;
        assert!(rt; trace.as_slice() == input.as_slice());
    }
    Ok(())
}

/// What is read at places in any order, a byte each; a `.` where there is none.
fn bytes_at<S: Source>(source: &mut S, places: &[u64], trace: &mut Vec<u8>) -> Result<(), Fail>
    ensures location_stays { S.location source.new ≡ S.location source.old }
{
    for place in places {
        let mut room = [0u8; 1];
        match source.read_at(*place, &mut room) {
            Ok(0) => trace.push(b'.')?,
            Ok(_) => trace.push(room[0])?,
            Err(Failed) => trace.push(b'!')?,
        }
    }
    Ok(())
}

fn bytes_of<F: Files>(
    files: &mut F,
    alloc: Global,
    places: &[u64],
    trace: &mut Vec<u8>,
) -> Result<(), Fail> {
    let Ok(mut source) = files.open_read(alloc, "a") else {
        return Err("not opened")?;
    };
    let told = bytes_at(&mut source, places, trace);
    files.close_read(source);
    told
}

#[test]
fn places_in_any_order(rt: HostRuntime) -> Result<(), Fail> {
    let alloc = rt.alloc();
    let mut files = made(alloc, b"abcdef", &[3])?;
    let mut trace = Vec::new(alloc);
    let places = [2, 4, 1, 5, 0, 3, 6, 5, u64::MAX, 2];
    bytes_of(&mut files, alloc, &places, &mut trace)?;
    assert_eq!(rt; trace.as_slice(), b"cebf!d.f.c".as_slice());
    assert_eq!(rt; files.faults(), 1);
    Ok(())
}

/// Writes the bytes of a location, and tells the size that a source of it sees.
fn put_and_size<F: Files>(
    files: &mut F,
    alloc: Global,
    location: &str,
    bytes: &[u8],
) -> Result<u64, OpenEnd> {
    let mut sink = files.open_write(alloc, location)?;
    let _ = sink.write_at(0, bytes);
    files.close_write(sink);
    let mut source = files.open_read(alloc, location)?;
    let size = source.size().unwrap_or(0);
    files.close_read(source);
    Ok(size)
}

/// The bytes of `a` once they were written.
fn written<F: Files>(files: &mut F, alloc: Global) -> Result<Vec<u8>, Fail> {
    let mut trace = Vec::new(alloc);
    if put_and_size(files, alloc, "a", b"abcdef")? != 6 {
        trace.push(b'?')?;
    }
    read_all(files, alloc, 4, &mut trace)?;
    Ok(trace)
}

#[test]
fn files_of_the_host(rt: HostRuntime) -> Result<(), Fail> {
    let alloc = rt.alloc();
    let mut files = AheadFiles::new(HostFiles::new(rt));
    let trace = written(&mut files, alloc)?;
    holds(&rt, "the bytes", trace.as_slice() == b"abcdef".as_slice());
    fs::remove_file(&rt, "a")?;
    holds(&rt, "no faults", files.faults() == 0);
    let missed = put_and_size(&mut files, alloc, "none/a", b"");
    holds(
        &rt,
        "no folder",
        missed == Err(OpenEnd::Failed) && files.faults() == 1,
    );
    Ok(())
}
