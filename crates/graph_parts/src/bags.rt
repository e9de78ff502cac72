//! The bags of a graph.
ghost use Rattle.std.specs.Prelude.{◌≡◌, ◌<◌, ◌++◌, ◌∷◌, [], List, true, false, length, IfOk};
ghost use Rattle.graph_core.specs.Graph.{IsSound, made as made_in, links as links_in};
ghost use Rattle.graph_core.specs.LinkedOnce.{AreOnce};
ghost use Rattle.graph_parts.specs.Links.{is_head, is_loose, Begins};
ghost use Rattle.graph_parts.specs.Bags.{cells, AreAllBags, AreHeadBags};
ghost use Rattle.graph_parts.specs.Walk.{IsBagOf};
ghost use Rattle.graph_parts.specs.declared.bag.BagElement.{BagElement as CellOf};
ghost use Rattle.graph_parts.specs.declared.bag.BagHead.TheVariants.{Source, Inlets};

use crate::bag::{Bag, BagElement, BagHead};
use crate::walk::{has_inlets, reached};
use el_settings::Settings;
use graph_core::{Graph, PadPlace};
use gst_value::OutOfMemory;
use std::alloc::Global;

/// The bags of a graph: one for each source and for each element that is fed from inlets, in the order of the graph's
/// elements. An element that none of these reaches is in no bag.
pub fn bags_of(alloc: Global, graph: &Graph) -> Result<Vec<Bag>, OutOfMemory>
    ensures { IfOk result (λ bags. IsSound graph.now → AreOnce (links_in graph.now) → AreHeadBags (made_in graph.now) (links_in graph.now) bags.items) }
{
    let mut bags = Vec::new(alloc);
    for element in 0..graph.count() {
        if is_head(graph.settings(element)) {
            bags.push(bag_from(alloc, graph, element)?)?;
        }
    }
    Ok(bags)
}

/// The bags of a graph, and behind them one for each loose element, in the order of the graph's elements: one that is no source, is not fed
/// from inlets, and to whose first sink pad no link leads. So each element is in a bag.
pub fn all_bags_of(alloc: Global, graph: &Graph) -> Result<Vec<Bag>, OutOfMemory>
    ensures { IfOk result (λ bags. IsSound graph.now → AreOnce (links_in graph.now) → AreAllBags (made_in graph.now) (links_in graph.now) bags.items) }
{
    let mut bags = bags_of(alloc, graph)?;
    for element in 0..graph.count() {
        if is_loose(graph, element) {
            bags.push(bag_from(alloc, graph, element)?)?;
        }
    }
    Ok(bags)
}

/// Whether an element is no head, and no link leads to its first sink pad.
fn is_loose(graph: &Graph, element: u32) -> bool
    requires { element < length (made_in graph.now) }
    ensures { result ≡ is_loose (made_in graph.now) (links_in graph.now) element }
{
    let first = PadPlace { element, pad: 0 };
    !is_head(graph.settings(element)) && graph.source_before(first).is_none()
}

/// Whether a bag begins with an element that is set to this.
fn is_head(settings: &Settings) -> bool
    ensures { result ≡ is_head settings.now }
{
    settings.is_source() || has_inlets(settings)
}

/// The bag that begins with an element.
fn bag_from(alloc: Global, graph: &Graph, head: u32) -> Result<Bag, OutOfMemory>
    requires { head < length (made_in graph.now) }
    ensures { IfOk result (λ bag. IsSound graph.now → AreOnce (links_in graph.now) → Begins (made_in graph.now) (links_in graph.now) head
        → IsBagOf (made_in graph.now) (links_in graph.now) head bag) }
{
    let elements = reached(alloc, graph, head)?;
    Ok(bag_with(head, graph.settings(head).is_source(), elements))
}

/// The bag of elements of which the last is the head; a source stands beside the others.
fn bag_with(head: u32, is_source: bool, mut elements: Vec<BagElement>) -> Bag
    ensures all { cells result ≡ elements.items }
    ensures source { is_source ≡ true → (front : List CellOf) (own : CellOf) → elements.items ≡ front ++ own ∷ [] → result.head ≡ Source own }
    ensures inlets { is_source ≡ false → result.head ≡ Inlets head }
{
    if !is_source {
        let head = BagHead::Inlets(head);
        return Bag { head, elements };
    }
    match elements.pop() {
        Some(own) => {
            let head = BagHead::Source(own);
            Bag { head, elements }
        }
        None => {
            let head = BagHead::Inlets(head);
            Bag { head, elements }
        }
    }
}
