//! Reads the script that a program's words name.
ghost use Rattle.std.specs.Prelude.{◌≡◌, ◌≢◌, ◌<◌, ◌^◌, ℕ, List, IfOk, IfErr};
ghost use Rattle.line_read.specs.Refusals.{wanting};
ghost use Rattle.line_read.specs.Scripts.{HasCommands, IsScriptStatus, RefusesScript, script_refusal};

use crate::refusal::{Refusal, wanting};
use crate::request::Request;
use gst_outside::Files;
use gst_value::{List as Items, OutOfMemory, Text};
use run_report::Fault;
use script_file::{FileFault, read_file};
use script_text::{Acts, Command};
use std::alloc::Global;

/// What acts a run can do.
pub const RUN_ACTS: Acts = Acts {
    relink: true,
    unlink: true,
    add: false,
    remove: true,
};

/// The status of a report where the text of the script is none.
const BAD_SCRIPT: u8 = 5;

/// The status of a report where the script's file could not be opened.
const OPEN_FAULT: u8 = 6;

/// The status of a report where the script's file could not be read.
const READ_FAULT: u8 = 7;

/// The refusal for a fault of the script's file.
fn file_refusal(location: Text, fault: FileFault) -> Refusal
    ensures { result ≡ script_refusal location fault }
{
    match fault {
        FileFault::Unopened => Refusal {
            status: OPEN_FAULT,
            fault: Fault::OpenFault { location },
        },
        FileFault::Unread { before, after } => Refusal {
            status: READ_FAULT,
            fault: Fault::ReadFault {
                location,
                before,
                after,
            },
        },
        FileFault::BadScript { line, kind } => Refusal {
            status: BAD_SCRIPT,
            fault: Fault::BadScript { line, kind },
        },
        FileFault::OutOfMemory => wanting(),
    }
}

/// The refusal for a fault of the script's file at a location, or for want of memory.
fn refusal_at(alloc: Global, location: &Text, fault: FileFault) -> Refusal
    ensures refused { result.status ≢ 13 → result ≡ script_refusal location.now fault }
    ensures statuses { IsScriptStatus result.status }
{
    match location.copy(alloc) {
        Ok(location) => file_refusal(location, fault),
        Err(OutOfMemory) => wanting(),
    }
}

/// The commands of the script that a request names; none where it names no script.
///
/// An act that a run cannot do yet is `BadAct`. At the first fault the answer is its refusal: 6 where the file could not be
/// opened, 7 where it could not be read, and 5 where its text is no script.
pub fn read_commands<F: Files>(
    alloc: Global,
    request: &Request,
    files: &mut F,
) -> Result<Items<Command>, Refusal>
    ensures commands { IfOk result (HasCommands request.now.script (F.seen files.old) (F.seen files.new)) }
    ensures refusal { IfErr result (λ refusal. refusal.status ≢ 13 → RefusesScript request.now.script (F.seen files.old) (F.seen files.new) refusal) }
    ensures statuses { IfErr result (λ refusal. IsScriptStatus refusal.status) }
    ensures given_back { (F.seen files.old).ends < 2 ^ 63 → (F.seen files.new).ends ≡ (F.seen files.old).ends }
    ensures inputs { (l : List ℕ) → (F.seen files.new).input l ≡ (F.seen files.old).input l }
    ensures outputs { (l : List ℕ) → (F.seen files.new).output l ≡ (F.seen files.old).output l }
{
    let Some(location) = &request.script else {
        return Ok(Items::new(alloc));
    };
    match read_file(alloc, RUN_ACTS, files, location.as_str()) {
        Ok(commands) => Ok(commands),
        Err(fault) => Err(refusal_at(alloc, location, fault)),
    }
}
