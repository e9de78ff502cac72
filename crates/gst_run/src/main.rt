//! `gst_run [--script FILE] [--threads on|off] [--order N] [--quiet] WORD...`: runs a launch line on the files of the host, and prints
//! its report.
#![tactic(auto)]

use gst_outside::{HostClock, HostFiles, OpenGate, OutSink};
use read_ahead::AheadFiles;
use std::alloc::Global;
use std::io::ErrorKind;
use std::process::ExitCode;
use std::{env, io};
use world_core::launch::{self, Untaken};

/// Why the words could not be taken, by the error of the system.
fn untaken(error: &io::Error) -> Untaken {
    match error.kind() {
        ErrorKind::InvalidData => Untaken::NotText,
        _ => Untaken::OutOfMemory,
    }
}

/// The words behind the program's name.
fn program_words(rt: &HostRuntime, alloc: Global) -> Result<Vec<String>, Untaken> {
    let args = match env::args(rt) {
        Ok(args) => args,
        Err(error) => return Err(untaken(&error)),
    };
    let mut words = Vec::new(alloc);
    for word in args.skip(1) {
        if words.push(word).is_err() {
            return Err(Untaken::OutOfMemory);
        }
    }
    Ok(words)
}

fn main(rt: HostRuntime) -> io::Result<ExitCode> {
    let alloc = rt.alloc();
    let mut out = OutSink::new(rt.stdout());
    let words = match program_words(&rt, alloc) {
        Ok(words) => words,
        Err(untaken) => {
            let outcome = launch::refuse(alloc, untaken, &mut out);
            return Ok(ExitCode::from(outcome.status));
        }
    };
    let mut files = AheadFiles::new(HostFiles::new(rt.clone()?));
    let mut clock = HostClock::new(rt.clone()?);
    let gate = OpenGate;
    let outcome = launch::run(
        &rt,
        alloc,
        words.as_slice(),
        &mut files,
        &mut clock,
        &gate,
        &mut out,
    );
    Ok(ExitCode::from(outcome.status))
}
