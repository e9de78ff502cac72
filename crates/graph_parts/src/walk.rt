//! The walk from a head over links that are no lane.
ghost use Rattle.std.specs.Prelude.{◌≡◌, ◌<◌, ◌++◌, true, length, IfOk};
ghost use Rattle.graph_core.specs.Graph.{IsSound, made as made_in, links as links_in};
ghost use Rattle.graph_core.specs.LinkedOnce.{AreOnce};
ghost use Rattle.graph_parts.specs.Links.{has_inlets, link_to, led_to, inside, pads_of, Begins};
ghost use Rattle.graph_core.specs.Elements.{has};
ghost use Rattle.graph_parts.specs.Walk.{Goes, AreReached};

use crate::bag::{BagElement, BagLink, BagPad};
use el_settings::Settings;
use graph_core::{Graph, PadPlace};
use gst_value::OutOfMemory;
use std::alloc::Global;

/// Whether an element that is set to this is fed from inlets, so that a link to it is a lane.
pub(crate) fn has_inlets(settings: &Settings) -> bool
    ensures { result ≡ has_inlets settings.now }
{
    settings.is_queue() || settings.makes_sinks()
}

/// Whether an element is there and is fed from inlets.
fn has_inlets_at(graph: &Graph, element: u32) -> bool
    ensures { result ≡ has has_inlets (made_in graph.now) element }
{
    if element < graph.count() {
        has_inlets(graph.settings(element))
    } else {
        false
    }
}

/// Where a source pad leads that is linked to a sink pad or is not.
fn link_to(graph: &Graph, sink: Option<PadPlace>) -> BagLink
    ensures { result ≡ link_to (made_in graph.now) sink }
{
    let Some(sink) = sink else {
        return BagLink::Nothing;
    };
    let PadPlace { element, pad } = sink;
    if has_inlets_at(graph, element) {
        BagLink::Lane { element, pad }
    } else {
        BagLink::Element { element, pad }
    }
}

/// The source pads of an element, by their numbers.
fn pads_of(alloc: Global, graph: &Graph, element: u32) -> Result<Vec<BagPad>, OutOfMemory>
    ensures { IfOk result (λ pads. pads.items ≡ pads_of (made_in graph.now) (links_in graph.now) element) }
{
    let mut pads = Vec::new(alloc);
    for pad in 0..graph.source_pads(element) {
        let leads = link_to(graph, graph.sink_behind(PadPlace { element, pad }));
        pads.push(BagPad { leads })?;
    }
    Ok(pads)
}

/// The element that a link leads to over no lane comes behind those that are next.
fn put_led(next: &mut Vec<u32>, leads: BagLink) -> Result<(), OutOfMemory>
    ensures { IfOk result (λ done. next.new.items ≡ next.old.items ++ led_to leads) }
{
    match leads {
        BagLink::Element { element, .. } => {
            next.push(element)?;
            Ok(())
        }
        BagLink::Nothing => Ok(()),
        BagLink::Lane { .. } => Ok(()),
    }
}

/// The elements that pads lead to over no lane come behind those that are next.
fn put_inside(next: &mut Vec<u32>, pads: &[BagPad]) -> Result<(), OutOfMemory>
    ensures { IfOk result (λ done. next.new.items ≡ next.old.items ++ inside pads.now) }
{
    for pad in pads {
        put_led(next, pad.leads)?;
    }
    Ok(())
}

/// The last of the elements that are next is found, and what its pads lead to is next. Nothing where none is next.
fn go_on(
    alloc: Global,
    graph: &Graph,
    next: &mut Vec<u32>,
    found: &mut Vec<BagElement>,
) -> Result<(), OutOfMemory>
    ensures { IfOk result (λ done. Goes (made_in graph.now) (links_in graph.now) next.old.items found.old.items next.new.items found.new.items) }
{
    let Some(element) = next.pop() else {
        return Ok(());
    };
    let pads = pads_of(alloc, graph, element)?;
    put_inside(next, pads.as_slice())?;
    found.push(BagElement { element, pads })?;
    Ok(())
}

/// The elements that a head reaches over links that are no lane, the head itself last. Each stands behind those that its
/// pads lead to.
pub(crate) fn reached(
    alloc: Global,
    graph: &Graph,
    head: u32,
) -> Result<Vec<BagElement>, OutOfMemory>
    requires { head < length (made_in graph.now) }
    ensures { IfOk result (λ cells. IsSound graph.now → AreOnce (links_in graph.now) → Begins (made_in graph.now) (links_in graph.now) head
        → AreReached (made_in graph.now) (links_in graph.now) head cells.items) }
{
    let mut next = Vec::new(alloc);
    next.push(head)?;
    let mut found = Vec::new(alloc);
    for _ in 0..graph.count() {
        go_on(alloc, graph, &mut next, &mut found)?;
    }
    found.reverse();
    Ok(found)
}
