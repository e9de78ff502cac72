//! What the sink pads of an element are fed from.
ghost use Rattle.std.specs.Prelude.{◌≡◌, ℕ, List, IfOk};
ghost use Rattle.graph_core.specs.Graph.{made as made_in, links as links_in};
ghost use Rattle.graph_parts.specs.declared.bag.BagHead.TheVariants.{Inlets};
ghost use Rattle.inlet_row.specs.Row.{feeds_of};
ghost use Rattle.graph_tasks.specs.Wiring.{feeds_with, inlets_of, AreApart, InletsLeft, RowsMade};

use crate::source_pads::pad_number;
use crate::taking::taken;
use graph_core::Graph;
use gst_value::OutOfMemory;
use inlet_row::InletRow;
use lane_core::Inlet;
use std::alloc::Global;

/// A row for each sink pad of an element, fed from the lane to it, where there is one. The inlets of these lanes are taken.
pub(crate) fn rows_of<I: Inlet>(
    alloc: Global,
    graph: &Graph,
    number: u32,
    inlets: &mut Vec<Option<I>>,
) -> Result<Vec<InletRow<I>>, OutOfMemory>
    ensures { IfOk result (λ rows. (heads : List ℕ) → InletsLeft I.Inlet (made_in graph.now) (links_in graph.now) heads inlets.old.items
        → AreApart (inlets_of (made_in graph.now) (Inlets number)) heads
        → RowsMade I.Inlet (made_in graph.now) (links_in graph.now) number heads rows.items inlets.new.items) }
{
    let mut rows = Vec::new(alloc);
    for pad in 0..graph.sink_pads(number) {
        let lane = pad_number(graph, number, pad as usize);
        rows.push(row_of(alloc, lane, taken(inlets, lane))?)?;
    }
    Ok(rows)
}

/// A row of a lane, or of nothing.
fn row_of<I: Inlet>(alloc: Global, lane: u32, inlet: Option<I>) -> Result<InletRow<I>, OutOfMemory>
    ensures { IfOk result (λ row. feeds_of row ≡ feeds_with lane inlet) }
{
    let mut row = InletRow::new(alloc);
    if let Some(inlet) = inlet {
        row.make_room(1)?;
        row.link(lane, inlet);
    }
    Ok(row)
}
