//! The lanes into the sink pads of a graph's elements that are fed from inlets.
ghost use Rattle.std.specs.Prelude.{◌≡◌, ◌<◌, ◌++◌, [], IfOk, OnOk, length, map, option_to_list};
ghost use Rattle.graph_core.specs.Graph.{made as made_in, links as links_in};
ghost use Rattle.lane_core.specs.Lane.{lane_of};
ghost use Rattle.graph_parts.specs.Lanes.{AreLanes, InletAt, OutletAt, lane_place, lane_room, room_by, room_of, sink_numbers};

use el_settings::{QueueSettings, Settings};
use graph_core::{Graph, PadPlace};
use gst_value::OutOfMemory;
use lane_core::{Inlet, MemInlet, MemLanes, MemOutlet, Outlet, memory_lane};
use std::alloc::Global;

/// The most items that a queue holds.
const MOST_HELD: u32 = 16384;

/// How many items a lane into an element holds whose sink pads links make.
const JOIN_ROOM: u32 = 16;

/// The most sink pads of an element.
const MOST_PADS: u32 = 64;

/// The table of lanes, and by their numbers the ends of each, where there is one. A lane has the number of the sink pad that it
/// leads to: 64 times its element's, and the pad's own.
#[derive(Drop)]
pub struct Lanes<I, O> {
    pub table: MemLanes,
    pub inlets: Vec<Option<I>>,
    pub outlets: Vec<Option<O>>,
}

/// A lane for each sink pad of an element that is fed from inlets to which something is linked, in the order of their numbers.
pub fn lanes_of(alloc: Global, graph: &Graph) -> Result<Lanes<MemInlet, MemOutlet>, OutOfMemory>
    ensures { IfOk result (λ lanes. AreLanes
        ⟦<MemInlet as Inlet>⟧.place ⟦<MemInlet as Inlet>⟧.received
        ⟦<MemOutlet as Outlet>⟧.place ⟦<MemOutlet as Outlet>⟧.limits ⟦<MemOutlet as Outlet>⟧.count ⟦<MemOutlet as Outlet>⟧.sent
        (made_in graph.now) (links_in graph.now) lanes.table lanes.inlets.items lanes.outlets.items) }
{
    let mut table = MemLanes::new(alloc);
    let mut inlets = Vec::new(alloc);
    let mut outlets = Vec::new(alloc);
    for number in 0..graph.count() * MOST_PADS {
        let (outlet, inlet) = ends_of(alloc, graph, &mut table, number)?;
        outlets.push(outlet)?;
        inlets.push(inlet)?;
    }
    Ok(Lanes {
        table,
        inlets,
        outlets,
    })
}

/// Adds the lane of a number to the table, behind those of lower numbers, and answers its ends. Both are None where there is none.
fn ends_of(
    alloc: Global,
    graph: &Graph,
    table: &mut MemLanes,
    number: u32,
) -> Result<(Option<MemOutlet>, Option<MemInlet>), OutOfMemory>
    requires within { number < sink_numbers (made_in graph.now) }
    requires before { length table.old ≡ lane_place (made_in graph.now) (links_in graph.now) number }
    ensures table { OnOk result (table.new ≡ table.old ++ map (lane_of []) (option_to_list (lane_room (made_in graph.now) (links_in graph.now) number))) }
    ensures outlet { IfOk result (λ ends. OutletAt
        ⟦<MemOutlet as Outlet>⟧.place ⟦<MemOutlet as Outlet>⟧.limits ⟦<MemOutlet as Outlet>⟧.count ⟦<MemOutlet as Outlet>⟧.sent
        (made_in graph.now) (links_in graph.now) number ends.0) }
    ensures inlet { IfOk result (λ ends. InletAt
        ⟦<MemInlet as Inlet>⟧.place ⟦<MemInlet as Inlet>⟧.received
        (made_in graph.now) (links_in graph.now) number ends.1) }
{
    match lane_room(graph, number) {
        Some(room) => {
            let (outlet, inlet) = memory_lane(alloc, table, room)?;
            Ok((Some(outlet), Some(inlet)))
        }
        None => Ok((None, None)),
    }
}

/// How many items the lane of a number holds, where its sink pad is one of an element that is fed from inlets and is linked.
fn lane_room(graph: &Graph, number: u32) -> Option<u32>
    requires { number < sink_numbers (made_in graph.now) }
    ensures { result ≡ lane_room (made_in graph.now) (links_in graph.now) number }
{
    let element = number / MOST_PADS;
    let pad = number % MOST_PADS;
    if graph.source_before(PadPlace { element, pad }).is_none() {
        return None;
    }
    room_by(graph.settings(element))
}

/// How many items a lane into an element of these settings holds, where it is fed from inlets.
pub fn room_by(settings: &Settings) -> Option<u32>
    ensures { result ≡ room_by settings.now }
{
    if settings.makes_sinks() {
        return Some(JOIN_ROOM);
    }
    settings.limits().map(room_of)
}

/// How many items a queue of these limits holds: without a limit, or above the most, it is the most.
fn room_of(limits: QueueSettings) -> u32
    ensures { result ≡ room_of limits }
{
    if limits.buffers == 0 || limits.buffers > MOST_HELD {
        MOST_HELD
    } else {
        limits.buffers
    }
}
