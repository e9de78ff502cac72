//! Why a line is not read.
use gst_value::OutOfMemory;
use std::alloc::{AllocError, AllocFailed};
use thiserror::Error;

/// What is wrong at a place of a line. Where two fit, the earlier one is told, and `TooLong` before all.
#[derive(Clone, Copy, Debug, PartialEq, Eq)]
pub enum LineKind {
    /// `!` stands where a node must begin.
    EmptyLink,
    /// The line ends, or `)` stands, behind `!`.
    TrailingLink,
    /// The line ends in quotes, behind a backslash or in a bracket.
    Unclosed,
    /// A reference stands alone or in the middle of a chain.
    BadRef,
    /// Caps stand first or last in a chain.
    CapsEnd,
    /// A bracket within 16 others.
    Deep,
    /// The line has no node.
    Empty,
    /// Any other character that can't go on.
    BadName,
    /// The line has more than 65,536 bytes.
    TooLong,
}

/// Why a line gave no tree.
#[derive(Clone, Copy, Debug, PartialEq, Eq, Error)]
pub enum LineFault {
    /// The text is no line. `place` is the length in bytes of its longest beginning with which some line begins.
    #[error("no launch line at byte {place}: {kind:?}")]
    BadLine { place: u32, kind: LineKind },
    #[error("out of memory")]
    OutOfMemory,
}

/// Why a word is not read.
#[derive(Clone, Copy, Debug)]
pub(crate) enum Refusal {
    /// No such word stands there.
    Stuck,
    OutOfMemory,
}

impl From<OutOfMemory> for Refusal {
    ghost use Rattle.std.specs.Prelude.{◌≡◌};
    ghost use Rattle.launch_text.specs.declared.fault.Refusal.TheVariants.{OutOfMemory as NoMemory};

    ghost from_gives = { λ _ refusal. refusal ≡ NoMemory };

    fn from(_refused: OutOfMemory) -> Refusal {
        Refusal::OutOfMemory
    }
}

impl From<AllocError> for Refusal {
    ghost use Rattle.std.specs.Prelude.{◌≡◌};
    ghost use Rattle.launch_text.specs.declared.fault.Refusal.TheVariants.{OutOfMemory as NoMemory};

    ghost from_gives = { λ _ refusal. refusal ≡ NoMemory };

    fn from(_refused: AllocError) -> Refusal {
        Refusal::OutOfMemory
    }
}

impl<T: Drop> From<AllocFailed<T>> for Refusal {
    ghost use Rattle.std.specs.Prelude.{◌≡◌};
    ghost use Rattle.launch_text.specs.declared.fault.Refusal.TheVariants.{OutOfMemory as NoMemory};

    ghost from_gives = { λ _ refusal. refusal ≡ NoMemory };

    fn from(_refused: AllocFailed<T>) -> Refusal {
        Refusal::OutOfMemory
    }
}
