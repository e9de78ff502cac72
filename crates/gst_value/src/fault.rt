//! What can go wrong with caps.
use crate::memory::OutOfMemory;
use std::alloc::{AllocError, AllocFailed};
use thiserror::Error;

/// Why caps were not made.
#[derive(Debug, Drop, Error)]
pub enum CapsFault {
    /// Structures, fields of one or members of one list would pass 64. `count` is 65.
    #[error("{count} structures, fields or members of a list are too many")]
    TooMany { count: u32 },
    #[error("out of memory")]
    OutOfMemory,
}

impl From<OutOfMemory> for CapsFault {
    ghost use Rattle.std.specs.Prelude.{◌≡◌};
    ghost use Rattle.gst_value.specs.declared.fault.CapsFault.TheVariants.{OutOfMemory as NoMemory};

    ghost from_gives = { λ _ fault. fault ≡ NoMemory };

    fn from(_refused: OutOfMemory) -> CapsFault {
        CapsFault::OutOfMemory
    }
}

impl From<AllocError> for CapsFault {
    ghost use Rattle.std.specs.Prelude.{◌≡◌};
    ghost use Rattle.gst_value.specs.declared.fault.CapsFault.TheVariants.{OutOfMemory as NoMemory};

    ghost from_gives = { λ _ fault. fault ≡ NoMemory };

    fn from(_refused: AllocError) -> CapsFault {
        CapsFault::OutOfMemory
    }
}

impl<T: Drop> From<AllocFailed<T>> for CapsFault {
    ghost use Rattle.std.specs.Prelude.{◌≡◌};
    ghost use Rattle.gst_value.specs.declared.fault.CapsFault.TheVariants.{OutOfMemory as NoMemory};

    ghost from_gives = { λ _ fault. fault ≡ NoMemory };

    fn from(_refused: AllocFailed<T>) -> CapsFault {
        CapsFault::OutOfMemory
    }
}
