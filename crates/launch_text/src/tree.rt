//! What a launch line says.
use gst_value::{List, Prop, Text};

/// The elements and links of a launch line.
#[cycle(tree)]
#[derive(Drop)]
pub struct Tree {
    /// The chains and bins, in their order.
    pub parts: List<Part>,
}

/// A chain, or a bin around parts.
#[cycle(tree)]
#[derive(Drop)]
pub enum Part {
    /// Nodes that are linked in their order.
    Chain(Chain),
    /// What stands in brackets.
    Bin(Tree),
}

/// Nodes that are linked in their order.
#[derive(Drop)]
pub struct Chain {
    /// The nodes, of which there is at least one.
    pub nodes: List<Node>,
}

/// A node of a chain.
#[derive(Drop)]
pub enum Node {
    /// An element with its properties, in the order of the line.
    Element { kind: Text, props: List<Prop> },
    /// The text of the caps that a link lets pass.
    Caps(Text),
    /// An element that has its name elsewhere, and maybe one of its pads.
    Reference { name: Text, pad: Option<Text> },
}
