//! Bags of elements.

/// Where a source pad leads.
#[derive(Clone, Copy, Debug, PartialEq, Eq)]
pub enum BagLink {
    /// It is not linked.
    Nothing,
    /// To a sink pad of an element of the same bag.
    Element { element: u32, pad: u32 },
    /// Over a lane to a sink pad of an element that is fed from inlets.
    Lane { element: u32, pad: u32 },
}

/// A source pad of an element.
#[derive(Clone, Copy, Debug, PartialEq, Eq)]
pub struct BagPad {
    pub leads: BagLink,
}

/// An element of the graph with its source pads, by their numbers.
#[derive(Drop)]
pub struct BagElement {
    pub element: u32,
    pub pads: Vec<BagPad>,
}

/// What a task begins with.
#[derive(Drop)]
pub enum BagHead {
    /// A source.
    Source(BagElement),
    /// The element of this number, which is fed from inlets. It is one of the bag's elements.
    Inlets(u32),
}

/// The elements of one task, in the order in which their source pads are tried: each stands behind those that its pads
/// lead to.
#[derive(Drop)]
pub struct Bag {
    pub head: BagHead,
    pub elements: Vec<BagElement>,
}
