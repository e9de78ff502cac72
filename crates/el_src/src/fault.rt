//! Why a source answered nothing.
ghost use Rattle.std.specs.Prelude.{◌≡◌};
ghost use Rattle.el_src.specs.declared.fault.SrcFault.TheVariants.{OutOfMemory as WantingFault};

use gst_value::OutOfMemory;
use std::alloc::AllocError;
use thiserror::Error;

/// Why a source gave no item.
#[derive(Clone, Copy, Debug, PartialEq, Eq, Error)]
pub enum SrcFault {
    /// A read failed. The counts are those of failed calls of what is read, before the call and behind it.
    #[error("a read failed, failures {before} and now {after}")]
    ReadFault { before: u64, after: u64 },
    /// No memory was left for the item.
    #[error("out of memory")]
    OutOfMemory,
}

impl From<AllocError> for SrcFault {
    ghost from_gives = { λ _ fault. fault ≡ WantingFault };

    fn from(_refused: AllocError) -> SrcFault {
        SrcFault::OutOfMemory
    }
}

impl From<OutOfMemory> for SrcFault {
    ghost from_gives = { λ _ fault. fault ≡ WantingFault };

    fn from(_wanting: OutOfMemory) -> SrcFault {
        SrcFault::OutOfMemory
    }
}

/// The size could not be asked. The counts are those of failed calls of what is read, before the call and
/// behind it.
#[derive(Clone, Copy, Debug, PartialEq, Eq, Error)]
#[error("the size is not known, failures {before} and now {after}")]
pub struct SizeFault {
    pub before: u64,
    pub after: u64,
}
