//! Why a text is not read.
use gst_value::{CapsFault, OutOfMemory};
use std::alloc::{AllocError, AllocFailed};
use thiserror::Error;

/// Why a text gave no caps.
#[derive(Debug, Drop, Error)]
pub enum CapsTextFault {
    /// The text is no caps text. `place` is the length in bytes of its longest beginning with which some caps
    /// text begins; it is given as 4,294,967,295 where it is more.
    #[error("no caps at byte {place}")]
    BadCaps { place: u32 },
    /// Structures, fields of one or members of one list would pass 64. `count` is 65.
    #[error("{count} structures, fields or members of a list are too many")]
    TooMany { count: u32 },
    #[error("out of memory")]
    OutOfMemory,
}

/// No text of a part goes on with what stands next.
#[derive(Clone, Copy, Debug)]
pub(crate) struct Misspelt;

/// Why a part of a text is not read.
#[derive(Debug, Drop)]
pub(crate) enum Refusal {
    /// No text of this part goes on with what stands next.
    Misspelt,
    /// Structures, fields of one or members of one list would pass 64.
    TooMany,
    OutOfMemory,
}

impl From<Misspelt> for Refusal {
    ghost use Rattle.std.specs.Prelude.{◌≡◌};
    ghost use Rattle.caps_text.specs.declared.fault.Refusal.TheVariants.{Misspelt as Misspelling};

    ghost from_gives = { λ _ refusal. refusal ≡ Misspelling };

    fn from(_misspelt: Misspelt) -> Refusal {
        Refusal::Misspelt
    }
}

impl From<OutOfMemory> for Refusal {
    ghost use Rattle.std.specs.Prelude.{◌≡◌};
    ghost use Rattle.caps_text.specs.declared.fault.Refusal.TheVariants.{OutOfMemory as NoMemory};

    ghost from_gives = { λ _ refusal. refusal ≡ NoMemory };

    fn from(_refused: OutOfMemory) -> Refusal {
        Refusal::OutOfMemory
    }
}

impl From<CapsFault> for Refusal {
    ghost use Rattle.std.specs.Prelude.{◌≡◌};
    ghost use Rattle.caps_text.specs.Refusals.{refusal_of};

    ghost from_gives = { λ fault refusal. refusal ≡ refusal_of fault };

    fn from(fault: CapsFault) -> Refusal {
        match fault {
            CapsFault::TooMany { count: _ } => Refusal::TooMany,
            CapsFault::OutOfMemory => Refusal::OutOfMemory,
        }
    }
}

impl From<AllocError> for Refusal {
    ghost use Rattle.std.specs.Prelude.{◌≡◌};
    ghost use Rattle.caps_text.specs.declared.fault.Refusal.TheVariants.{OutOfMemory as NoMemory};

    ghost from_gives = { λ _ refusal. refusal ≡ NoMemory };

    fn from(_refused: AllocError) -> Refusal {
        Refusal::OutOfMemory
    }
}

impl<T: Drop> From<AllocFailed<T>> for Refusal {
    ghost use Rattle.std.specs.Prelude.{◌≡◌};
    ghost use Rattle.caps_text.specs.declared.fault.Refusal.TheVariants.{OutOfMemory as NoMemory};

    ghost from_gives = { λ _ refusal. refusal ≡ NoMemory };

    fn from(_refused: AllocFailed<T>) -> Refusal {
        Refusal::OutOfMemory
    }
}
