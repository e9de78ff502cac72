//! The answers of an opening that gave no end.
ghost use Rattle.std.specs.Prelude.{◌≡◌};
ghost use Rattle.gst_outside.specs.declared.opening.OpenEnd.TheVariants.{Failed as FailedEnd, OutOfMemory as WantingEnd};

use crate::failed::Failed;
use gst_value::OutOfMemory;
use thiserror::Error;

/// Why an opening gave no end.
#[derive(Clone, Copy, Debug, PartialEq, Eq, Error)]
pub enum OpenEnd {
    /// The location could not be opened, and the count of failures rose.
    #[error("failed")]
    Failed,
    /// No memory was left for the end.
    #[error("out of memory")]
    OutOfMemory,
}

impl From<Failed> for OpenEnd {
    ghost from_gives = { λ _ end. end ≡ FailedEnd };

    fn from(_failed: Failed) -> OpenEnd {
        OpenEnd::Failed
    }
}

impl From<OutOfMemory> for OpenEnd {
    ghost from_gives = { λ _ end. end ≡ WantingEnd };

    fn from(_wanting: OutOfMemory) -> OpenEnd {
        OpenEnd::OutOfMemory
    }
}
