//! Rows of files, and what is told of their scripts.
use crate::rows::same_text;
use gst_outside::{Files, MemFiles};
use script_file::read_file;
use script_text::Acts;
use std::alloc::Global;
use std::fmt::Write;
use std::process::Abort;
use std::test::Fail;

/// Each row: the text of a file with bars for line ends, the number of the opening and of the read that fails, where 0
/// is none, and behind `=>` the answer, the ends that are open behind it and the failures.
const ROWS: &str = "\
now remove e|now remove q; 0 0 => 2 commands, 0 ends, 0 failures
; 0 0 => 0 commands, 0 ends, 0 failures
now remove e|now flip; 0 0 => line 2 of the script: BadAct, 0 ends, 0 failures
now remove e; 1 0 => the script could not be opened, 0 ends, 1 failures
now remove e; 0 1 => the script could not be read, failures 0 and now 1, 0 ends, 1 failures
now remove e; 0 2 => the script could not be read, failures 0 and now 1, 0 ends, 1 failures
now remove e; 0 3 => 1 commands, 0 ends, 0 failures";

/// The same where no act can be done.
const IDLE_ROWS: &str = "\
# a comment|; 0 0 => 0 commands, 0 ends, 0 failures
# a comment|now remove e; 0 0 => line 2 of the script: BadAct, 0 ends, 0 failures
at i.src x relink b.sink; 0 0 => line 1 of the script: BadNumber, 0 ends, 0 failures
now remove e; 1 0 => the script could not be opened, 0 ends, 1 failures";

/// The number that a digit writes.
fn number(digit: &str) -> u64 {
    match digit {
        "1" => 1,
        "2" => 2,
        "3" => 3,
        _ => 0,
    }
}

/// The bytes for which the text of a row stands.
fn bytes_of(alloc: Global, text: &str) -> Result<Vec<u8>, Fail> {
    let mut bytes = Vec::new(alloc);
    for byte in text.bytes() {
        bytes.push(if byte == b'|' { b'\n' } else { byte })?;
    }
    Ok(bytes)
}

/// The answer for a file with these bytes, of which an opening and a read fail.
fn told(
    alloc: Global,
    acts: Acts,
    bytes: &[u8],
    opening: u64,
    reading: u64,
) -> Result<String, Fail> {
    let mut files = MemFiles::new(alloc);
    files.add_input(alloc, "s", bytes, &[reading], &[])?;
    files.fail_open_read(alloc, &[opening])?;
    let mut row = String::new(alloc);
    match read_file(alloc, acts, &mut files, "s") {
        Ok(commands) => write!(row, "{} commands", commands.as_slice().len())?,
        Err(fault) => write!(row, "{fault}")?,
    }
    write!(row, ", {} ends", files.ends())?;
    write!(row, ", {} failures", files.faults())?;
    Ok(row)
}

/// The answer for a comment of so many bytes and a command behind it.
fn told_of_bytes(alloc: Global, count: usize) -> Result<String, Fail> {
    let mut bytes = vec![in alloc; b'#'; count]?;
    bytes.extend_from_slice(b"\nnow remove e")?;
    told(alloc, Acts::ALL, bytes.as_slice(), 0, 0)
}

/// The answer for a file as a row gives it.
fn answer_of(alloc: Global, acts: Acts, given: &str) -> Result<String, Fail> {
    let (text, calls) = given.split_once("; ").unwrap_or((given, ""));
    let (opening, reading) = calls.split_once(" ").unwrap_or((calls, ""));
    let bytes = bytes_of(alloc, text)?;
    told(
        alloc,
        acts,
        bytes.as_slice(),
        number(opening),
        number(reading),
    )
}

/// Checks rows where these acts can be done.
fn check_all(rt: &impl Abort, alloc: Global, acts: Acts, rows: &str) -> Result<(), Fail> {
    for row in rows.split('\n') {
        let (given, wanted) = row.split_once(" => ").unwrap_or((row, ""));
        same_text(rt, row, answer_of(alloc, acts, given)?.as_str(), wanted);
    }
    Ok(())
}

#[test]
fn rows(rt: HostRuntime) -> Result<(), Fail> {
    let alloc = rt.alloc();
    check_all(&rt, alloc, Acts::ALL, ROWS)?;
    check_all(&rt, alloc, Acts::NONE, IDLE_ROWS)
}

#[test]
fn long_files(rt: HostRuntime) -> Result<(), Fail> {
    let alloc = rt.alloc();
    let read = told_of_bytes(alloc, 70_000)?;
    same_text(
        &rt,
        "70000 bytes",
        read.as_str(),
        "1 commands, 0 ends, 0 failures",
    );
    let long = told_of_bytes(alloc, 1_200_000)?;
    let wanted = "line 0 of the script: TooLong, 0 ends, 0 failures";
    same_text(&rt, "1200000 bytes", long.as_str(), wanted);
    Ok(())
}
