//! What a source answers where it is asked for its next item.
use gst_item::Item;

/// The next item of a source.
#[derive(Drop)]
pub enum Next {
    /// The next item.
    Item(Item),
    /// All was given, EOS last.
    Ended,
}
