//! Links between elements.

/// A link from one element to another, by their numbers.
#[derive(Clone, Copy)]
pub struct Link {
    pub from: u32,
    pub to: u32,
}
