//! What rows of tests are compared by.
use gst_item::Item;
use std::process::Abort;

/// A truth of a row.
pub(crate) fn holds(rt: &impl Abort, row: &str, truth: bool) {
    assert!(rt; truth, "{row}");
}

/// What is told of a row, and what is to be told of it.
pub(crate) fn same_text(rt: &impl Abort, row: &str, told: &str, wanted: &str) {
    assert!(rt; told == wanted, "{row}: {told}");
}

pub(crate) fn same_bytes(rt: &impl Abort, told: &[u8], wanted: &[u8]) {
    assert_eq!(rt; told, wanted);
}

/// Whether an item is a buffer of these bytes, with the times and the place of the buffers that `buffer_of` makes.
pub(crate) fn is_buffer(item: &Item, wanted: &[u8]) -> bool {
    let Item::Buffer(buffer) = item else {
        return false;
    };
    buffer.body.as_slice() == wanted
        && buffer.pts == Some(1)
        && buffer.duration == Some(2)
        && buffer.offset == Some(3)
        && !buffer.discont
}
