//! What elements put out.
use crate::item::Item;
use gst_value::List;

/// An item that is to cross the source pad of this number.
#[derive(Drop)]
pub struct Out {
    pub pad: u32,
    pub item: Item,
}

/// What an element put out, oldest first.
pub type Outs = List<Out>;
