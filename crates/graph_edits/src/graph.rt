//! The graph of a run.
ghost use Rattle.std.specs.Prelude.{◌≡◌, ◌+◌, ◌≤◌, length, vec_capacity, vec_len};
ghost use Rattle.graph_core.specs.Elements.{all_made};
ghost use Rattle.graph_order.specs.Forward.{count_of};

use crate::marks::touched_by;
use graph_core::{Elements, Graph, PadLink, PadPlace};
use graph_order::Order;
use gst_value::OutOfMemory;
use std::alloc::Global;

/// The graph of a run with all that commands did to it so far.
///
/// Elements and pads keep the numbers that they were made with. A removed element keeps its name and its location.
#[derive(Drop)]
pub struct EditedGraph {
    /// All elements that ever were.
    pub(crate) elements: Elements,
    /// How many elements the launch line has. Those behind were added.
    pub(crate) lined: u32,
    /// Whether an element was removed, by its number.
    pub(crate) removed: Vec<bool>,
    /// Whether a link ever touched an element, by its number.
    pub(crate) touched: Vec<bool>,
    /// The links that stand.
    pub(crate) links: Vec<PadLink>,
    /// Between which elements links ever were made, each once but for those of the launch line, and an order in which each of them goes forward.
    pub(crate) order: Order,
    /// The sink pads whose stream ended with a link that was undone. There is room for those of all links that stand.
    pub(crate) ended: Vec<PadPlace>,
    ghost removable: { vec_len removed ≡ length (all_made elements) },
    ghost touchable: { vec_len touched ≡ length (all_made elements) },
    ghost ordered: { count_of order ≡ length (all_made elements) },
    ghost endable: { vec_len links + vec_len ended ≤ vec_capacity ended },
}

impl EditedGraph {
    ghost use Rattle.std.specs.Prelude.{IfOk};
    ghost use Rattle.graph_edits.specs.Edited.{unedited};
    ghost use Rattle.graph_core.specs.Graph.{IsSound, made as made_in, links as links_in};
    ghost use Rattle.graph_edits.specs.Graph.{IsEdited};

    /// The graph of a launch line, to which nothing was done yet.
    pub fn new(alloc: Global, graph: Graph) -> Result<EditedGraph, OutOfMemory>
        requires sound { IsSound graph }
        ensures edited { IfOk result (λ edited. IsEdited edited (unedited (made_in graph) (links_in graph))) }
    {
        let (elements, links, order) = graph.into_parts();
        let lined = elements.count();
        let removed = vec![in alloc; false; lined as usize]?;
        let touched = touched_by(alloc, lined as usize, &links)?;
        let ended = Vec::with_capacity(alloc, links.len())?;
        Ok(EditedGraph {
            elements,
            lined,
            removed,
            touched,
            links,
            order,
            ended,
        })
    }
}
