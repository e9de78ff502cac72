//! What can go wrong with the program's words.
use clap::Error as Refusal;
use clap::error::ErrorKind;
use gst_value::OutOfMemory;
use std::alloc::AllocError;
use thiserror::Error;

/// Why the words were not read.
#[derive(Debug, Drop, Error)]
pub enum WordsFault {
    /// The command does not take the words: an option that it does not have, one that is given twice, one
    /// without its value, or a value that is none of the option's.
    #[error("the words are not taken")]
    Words,
    /// There is no word of a line.
    #[error("there is no line")]
    NoLine,
    #[error("out of memory")]
    OutOfMemory,
}

impl From<Refusal> for WordsFault {
    ghost use Rattle.std.specs.Prelude.{◌≡◌};
    ghost use Rattle.run_words.specs.Refused.{fault_of};

    ghost from_gives = { λ refusal fault. fault ≡ fault_of refusal };

    fn from(refusal: Refusal) -> WordsFault {
        match refusal.kind() {
            ErrorKind::OutOfMemory => WordsFault::OutOfMemory,
            _ => WordsFault::Words,
        }
    }
}

impl From<OutOfMemory> for WordsFault {
    ghost use Rattle.std.specs.Prelude.{◌≡◌};
    ghost use Rattle.run_words.specs.declared.fault.WordsFault.TheVariants.{OutOfMemory as NoMemory};

    ghost from_gives = { λ _ fault. fault ≡ NoMemory };

    fn from(_refused: OutOfMemory) -> WordsFault {
        WordsFault::OutOfMemory
    }
}

impl From<AllocError> for WordsFault {
    ghost use Rattle.std.specs.Prelude.{◌≡◌};
    ghost use Rattle.run_words.specs.declared.fault.WordsFault.TheVariants.{OutOfMemory as NoMemory};

    ghost from_gives = { λ _ fault. fault ≡ NoMemory };

    fn from(_refused: AllocError) -> WordsFault {
        WordsFault::OutOfMemory
    }
}
