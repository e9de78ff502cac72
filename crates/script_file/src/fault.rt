//! Why a file gave no script.
ghost use Rattle.std.specs.Prelude.{◌≡◌};
ghost use Rattle.script_file.specs.Faults.{fault_of, refused_by, unread_by};

use gst_outside::OpenEnd;
use script_text::{ScriptFault, ScriptKind};
use thiserror::Error;

/// Why a file gave no script.
#[derive(Debug, Drop, Error)]
pub enum FileFault {
    /// It could not be opened.
    #[error("the script could not be opened")]
    Unopened,
    /// It could not be read. The source's count of failed calls was `before`, and then `after`.
    #[error("the script could not be read, failures {before} and now {after}")]
    Unread { before: u64, after: u64 },
    /// Its text is no script. `line` is the first line at fault, counted from 1, and 0 where the text is too long.
    #[error("line {line} of the script: {kind:?}")]
    BadScript { line: u32, kind: ScriptKind },
    /// No memory was left for its bytes or its commands.
    #[error("out of memory")]
    OutOfMemory,
}

/// Why a source gave no bytes.
#[derive(Clone, Copy, Debug)]
pub(crate) enum Unread {
    /// A read failed. The counts are those of failed calls of the source, before that read and behind it.
    Failed { before: u64, after: u64 },
    OutOfMemory,
}

/// The fault of a file that could not be opened.
pub(crate) fn opening_fault(why: OpenEnd) -> FileFault
    ensures { result ≡ refused_by why }
{
    match why {
        OpenEnd::Failed => FileFault::Unopened,
        OpenEnd::OutOfMemory => FileFault::OutOfMemory,
    }
}

/// The fault of a file that could not be read.
pub(crate) fn reading_fault(why: Unread) -> FileFault
    ensures { result ≡ unread_by why }
{
    match why {
        Unread::Failed { before, after } => FileFault::Unread { before, after },
        Unread::OutOfMemory => FileFault::OutOfMemory,
    }
}

/// The fault of a file whose text gave no commands.
pub(crate) fn text_fault(why: ScriptFault) -> FileFault
    ensures { result ≡ fault_of why }
{
    match why {
        ScriptFault::BadScript { line, kind } => FileFault::BadScript { line, kind },
        ScriptFault::OutOfMemory => FileFault::OutOfMemory,
    }
}
