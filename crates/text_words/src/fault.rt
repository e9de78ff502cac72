//! Why a word is not read.
use gst_value::OutOfMemory as NoMemory;
use std::alloc::{AllocError, AllocFailed};
use thiserror::Error;

/// Why a word is not read.
#[derive(Clone, Copy, Debug, PartialEq, Eq, Error)]
pub enum WordFault {
    /// The word is not spelled so.
    #[error("the word is misspelt")]
    Misspelt,
    #[error("out of memory")]
    OutOfMemory,
}

impl From<NoMemory> for WordFault {
    ghost use Rattle.std.specs.Prelude.{◌≡◌};
    ghost use Rattle.text_words.specs.declared.fault.WordFault.TheVariants.{OutOfMemory as WordMemory};

    ghost from_gives = { λ _ fault. fault ≡ WordMemory };

    fn from(_refused: NoMemory) -> WordFault {
        WordFault::OutOfMemory
    }
}

impl From<AllocError> for WordFault {
    ghost use Rattle.std.specs.Prelude.{◌≡◌};
    ghost use Rattle.text_words.specs.declared.fault.WordFault.TheVariants.{OutOfMemory as WordMemory};

    ghost from_gives = { λ _ fault. fault ≡ WordMemory };

    fn from(_refused: AllocError) -> WordFault {
        WordFault::OutOfMemory
    }
}

impl<T: Drop> From<AllocFailed<T>> for WordFault {
    ghost use Rattle.std.specs.Prelude.{◌≡◌};
    ghost use Rattle.text_words.specs.declared.fault.WordFault.TheVariants.{OutOfMemory as WordMemory};

    ghost from_gives = { λ _ fault. fault ≡ WordMemory };

    fn from(_refused: AllocFailed<T>) -> WordFault {
        WordFault::OutOfMemory
    }
}
