//! Why a text is no script.
ghost use Rattle.std.specs.Prelude.{◌≡◌};
ghost use Rattle.script_text.specs.Refusals.{fault_at, refusal_of};

use gst_value::OutOfMemory as NoMemory;
use std::alloc::{AllocError, AllocFailed};
use text_words::WordFault;
use thiserror::Error;

/// What is wrong with a line. Where two fit, the one that stands first here is told.
#[derive(Clone, Copy, Debug, PartialEq, Eq)]
pub enum ScriptKind {
    /// The line is not UTF-8.
    NotText,
    /// The text has more than 1,048,576 bytes, which is told of line 0 and before all, or the line is the 4,097th that
    /// is not passed over.
    TooLong,
    /// The first word is not `at` or `now`, or the name of the pad behind it is missing or misspelt.
    BadWhen,
    /// The number of buffers is missing, or is not decimal digits that write a number below 2^63.
    BadNumber,
    /// The word of the act is missing or unknown, its words are too few, too many or misspelt, or it is none of the acts
    /// that can be done.
    BadAct,
    /// An act at a pad stands behind a `now` without a pad.
    NeedsPad,
    /// An act that is at no pad stands behind `now` with a pad.
    StrayPad,
    /// An `at` has a smaller number than an earlier one of the same pad.
    Backwards,
    /// An `at` stands where the pipeline is paused. It can't come yet, since no act pauses.
    AtInPause,
    /// The script ends while the pipeline is paused. It can't come yet, since no act pauses.
    EndsPaused,
}

/// Why a text gave no commands.
#[derive(Clone, Copy, Debug, PartialEq, Eq, Error)]
pub enum ScriptFault {
    /// The text is no script. `line` is the first line at fault, counted from 1.
    #[error("line {line} of the script: {kind:?}")]
    BadScript { line: u32, kind: ScriptKind },
    #[error("out of memory")]
    OutOfMemory,
}

/// Why a line gave no command.
#[derive(Clone, Copy, Debug)]
pub(crate) enum Refusal {
    Bad(ScriptKind),
    OutOfMemory,
}

impl Refusal {
    /// The refusal for a word that is at fault in this way where it is misspelt.
    pub(crate) fn of(fault: WordFault, kind: ScriptKind) -> Refusal
        ensures { result ≡ refusal_of kind fault }
    {
        match fault {
            WordFault::Misspelt => Refusal::Bad(kind),
            WordFault::OutOfMemory => Refusal::OutOfMemory,
        }
    }

    /// The fault of the line with this number.
    pub(crate) fn at(self, line: u32) -> ScriptFault
        ensures { result ≡ fault_at line self }
    {
        match self {
            Refusal::Bad(kind) => ScriptFault::BadScript { line, kind },
            Refusal::OutOfMemory => ScriptFault::OutOfMemory,
        }
    }
}

impl From<NoMemory> for Refusal {
    ghost use Rattle.std.specs.Prelude.{◌≡◌};
    ghost use Rattle.script_text.specs.declared.fault.Refusal.TheVariants.{OutOfMemory as LineMemory};

    ghost from_gives = { λ _ refusal. refusal ≡ LineMemory };

    fn from(_refused: NoMemory) -> Refusal {
        Refusal::OutOfMemory
    }
}

impl From<AllocError> for Refusal {
    ghost use Rattle.std.specs.Prelude.{◌≡◌};
    ghost use Rattle.script_text.specs.declared.fault.Refusal.TheVariants.{OutOfMemory as LineMemory};

    ghost from_gives = { λ _ refusal. refusal ≡ LineMemory };

    fn from(_refused: AllocError) -> Refusal {
        Refusal::OutOfMemory
    }
}

impl<T: Drop> From<AllocFailed<T>> for Refusal {
    ghost use Rattle.std.specs.Prelude.{◌≡◌};
    ghost use Rattle.script_text.specs.declared.fault.Refusal.TheVariants.{OutOfMemory as LineMemory};

    ghost from_gives = { λ _ refusal. refusal ≡ LineMemory };

    fn from(_refused: AllocFailed<T>) -> Refusal {
        Refusal::OutOfMemory
    }
}
