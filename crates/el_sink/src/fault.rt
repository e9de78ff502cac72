//! Why a sink did not take an item.
use thiserror::Error;

/// A write or a cut failed. The counts are those of failed calls of what is written to, before the call and
/// behind it.
#[derive(Clone, Copy, Debug, PartialEq, Eq, Error)]
#[error("a write failed, failures {before} and now {after}")]
pub struct WriteFault {
    pub before: u64,
    pub after: u64,
}
