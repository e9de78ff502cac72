//! The answer of a call that failed.
use thiserror::Error;

/// The call failed, and the count of failures of the object that it was made on rose.
#[derive(Clone, Copy, Debug, PartialEq, Eq, Error)]
#[error("failed")]
pub struct Failed;
