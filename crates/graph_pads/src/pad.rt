//! Pads of elements.

/// The way in which items pass a pad.
#[derive(Clone, Copy)]
pub enum Direction {
    Source,
    Sink,
}

/// Where a pad stands: its element, and its number among the source pads or among the sink pads of it.
#[derive(Clone, Copy)]
pub struct PadPlace {
    pub element: u32,
    pub pad: u32,
}

/// A pad.
#[derive(Clone, Copy)]
pub struct Pad {
    pub direction: Direction,
    pub place: PadPlace,
}

/// A link from a source pad to a sink pad.
#[derive(Clone, Copy)]
pub struct PadLink {
    pub source: PadPlace,
    pub sink: PadPlace,
}
