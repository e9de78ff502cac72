//! The source pads of a graph's elements, each leading where the graph tells.
ghost use Rattle.std.specs.Prelude.{◌≡◌, ◌<◌, ℕ, List, IfOk, length};
ghost use Rattle.graph_core.specs.Graph.{made as made_in, links as links_in};
ghost use Rattle.graph_core.specs.GraphPlan.{most_pads, pad_id};
ghost use Rattle.graph_core.specs.GraphPlan.{sink_at as place_at};
ghost use Rattle.graph_tasks.specs.Wiring.{CellGiven, IsBehind, IsNumbered, LooksAt, OutletsLeft, PadGiven, PadMade, PadsMade, over_lane, without_lane};

use crate::taking::taken;
use graph_core::Graph;
use graph_parts::{BagElement, BagLink};
use gst_value::OutOfMemory;
use lane_core::Outlet;
use std::alloc::Global;
use task_pads::{Behind, Pad};

/// The most source pads of an element.
const MOST_PADS: usize = 64;

/// The source pads of an element, which nothing crossed. The outlets of the lanes that they lead over are taken.
pub(crate) fn pads_of<O: Outlet>(
    alloc: Global,
    graph: &Graph,
    order: &[BagElement],
    own: &BagElement,
    outlets: &mut Vec<Option<O>>,
) -> Result<Vec<Pad<O>>, OutOfMemory>
    ensures { IfOk result (λ pads. (gone : List ℕ) → OutletsLeft O.Outlet (made_in graph.now) (links_in graph.now) gone outlets.old.items
        → CellGiven (made_in graph.now) (links_in graph.now) own.now gone
        → PadsMade O.Outlet (made_in graph.now) (links_in graph.now) own.now gone pads.items outlets.new.items) }
{
    let mut pads = Vec::new(alloc);
    for port in 0..own.pads.len() {
        let leads = own.pads[port].leads;
        pads.push(pad_of(alloc, graph, order, own.element, port, leads, outlets))?;
    }
    Ok(pads)
}

/// The source pad of a port, which leads so.
pub(crate) fn pad_of<O: Outlet>(
    alloc: Global,
    graph: &Graph,
    order: &[BagElement],
    element: u32,
    port: usize,
    leads: BagLink,
    outlets: &mut Vec<Option<O>>,
) -> Pad<O>
    ensures { (gone : List ℕ) → OutletsLeft O.Outlet (made_in graph.now) (links_in graph.now) gone outlets.old.items
        → PadGiven (made_in graph.now) (links_in graph.now) element port leads gone
        → PadMade O.Outlet (made_in graph.now) (links_in graph.now) element port leads gone result outlets.new.items }
{
    let behind = behind_of(graph, order, leads, outlets);
    Pad::new(alloc, pad_number(graph, element, port), behind)
}

/// The number of a source pad in the graph, or of a sink pad and the lane to it, where it is there.
pub(crate) fn pad_number(graph: &Graph, element: u32, port: usize) -> u32
    ensures { element < length (made_in graph.now) → port < most_pads → result ≡ pad_id (place_at element port) }
{
    if element >= graph.count() {
        return 0;
    }
    if port >= MOST_PADS {
        return 0;
    }
    element * 64 + port as u32
}

/// What is behind a pad that leads so. The outlet of its lane is taken.
fn behind_of<O>(
    graph: &Graph,
    order: &[BagElement],
    leads: BagLink,
    outlets: &mut Vec<Option<O>>,
) -> Behind<O>
    ensures behind { IsNumbered (made_in graph.now) leads → IsBehind leads outlets.old.items result }
    ensures left { IsNumbered (made_in graph.now) leads → outlets.new.items ≡ without_lane leads outlets.old.items }
{
    match leads {
        BagLink::Nothing => Behind::Nothing,
        BagLink::Element { element, pad } => Behind::Element {
            number: element,
            hint: place_of(order, element),
            pad,
        },
        BagLink::Lane { element, pad } => {
            let lane = pad_number(graph, element, pad as usize);
            over_lane(lane, element, pad, taken(outlets, lane))
        }
    }
}

/// Over a lane to a sink pad, if there is one.
fn over_lane<O>(lane: u32, element: u32, pad: u32, outlet: Option<O>) -> Behind<O>
    ensures { result ≡ over_lane lane element pad outlet }
{
    match outlet {
        Some(outlet) => Behind::Lane {
            lane,
            element,
            pad,
            from: 0,
            outlet,
        },
        None => Behind::Nothing,
    }
}

/// The place of an element among these, or the first place.
pub(crate) fn place_of(order: &[BagElement], element: u32) -> usize
    ensures { LooksAt order.now element result }
{
    for place in 0..order.len() {
        if order[place].element == element {
            return place;
        }
    }
    0
}
