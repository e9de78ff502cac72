//! A lane that a command asks for.
ghost use Rattle.std.specs.Prelude.{◌≡◌, ◌≤◌, ◌<◌, [], length, IfOk, OnErr, OnOk};
ghost use Rattle.graph_core.specs.Elements.{limit};
ghost use Rattle.graph_core.specs.GraphPlan.{most_pads, pad_id};
ghost use Rattle.edit_acts.specs.Over.{LeadsTo};
ghost use Rattle.net_edits.specs.NewLanes.{with_lane};

use graph_core::PadPlace;
use gst_value::OutOfMemory;
use lane_core::{Inlet, MemInlet, MemLanes, MemOutlet, Outlet, memory_lane};
use net_edits::NewLink;
use std::alloc::Global;

/// How many numbers an element has for its sink pads.
const MOST_PADS: u32 = 64;

/// Adds a lane for so many items to the table, and answers both its ends as those of a link to the sink pad.
pub(crate) fn new_link(
    alloc: Global,
    lanes: &mut MemLanes,
    sink: PadPlace,
    room: u32,
) -> Result<NewLink<MemInlet, MemOutlet>, OutOfMemory>
    ensures table { OnOk result (lanes.new ≡ with_lane room lanes.old) }
    ensures leads { IfOk result (λ to. LeadsTo to sink) }
    ensures number { IfOk result (λ to. sink.element < limit → sink.pad < most_pads → to.lane ≡ pad_id sink) }
    ensures outlet { IfOk result (λ to. (⟦<MemOutlet as Outlet>⟧.place to.outlet ≡ length lanes.old)
        × ((⟦<MemOutlet as Outlet>⟧.limits to.outlet).items ≡ room) × ⟦<MemOutlet as Outlet>⟧.sent to.outlet []) }
    ensures inlet { IfOk result (λ to. (⟦<MemInlet as Inlet>⟧.place to.inlet ≡ length lanes.old) × ⟦<MemInlet as Inlet>⟧.received to.inlet []) }
    ensures err { OnErr result (lanes.new ≡ lanes.old) }
{
    let (outlet, inlet) = memory_lane(alloc, lanes, room)?;
    Ok(NewLink {
        lane: lane_number(sink),
        element: sink.element,
        pad: sink.pad,
        outlet,
        inlet,
    })
}

/// The number of a lane to a sink pad: 64 times its element's, and the pad's own.
fn lane_number(sink: PadPlace) -> u32
    ensures { sink.element < limit → sink.pad < most_pads → result ≡ pad_id sink }
{
    sink.element.wrapping_mul(MOST_PADS).wrapping_add(sink.pad)
}
