//! What rows of tests are compared by.
use std::process::Abort;

/// A truth of a row.
pub(crate) fn holds(rt: &impl Abort, row: &str, truth: bool) {
    assert!(rt; truth, "{row}");
}

/// What is told of a row, and what is to be told of it.
pub(crate) fn same_text(rt: &impl Abort, row: &str, told: &str, wanted: &str) {
    assert!(rt; told == wanted, "{row}: {told}");
}
