//! The sink pads, by number.
ghost use Rattle.std.specs.Prelude.{◌≡◌, ◌∷◌, [], ℕ, List, replicate, vec_len, IfOk};
ghost use Rattle.flow_model.specs.Item.{Ev, FlushStop};
ghost use Rattle.flow_model.specs.Call.{Call, Feed};
ghost use Rattle.flow_model.specs.SinkPads.{push_each};
ghost use Rattle.el_select.specs.Selects.{KnowEach};

use crate::pad::Pad;
use gst_value::OutOfMemory;
use std::alloc::Global;

/// So many pads that were given nothing.
pub(crate) fn new_pads(alloc: Global, count: u32) -> Result<Vec<Pad>, OutOfMemory>
    ensures know { IfOk result (λ made. KnowEach made.items (replicate count [])) }
    ensures count { IfOk result (λ made. vec_len made ≡ count) }
{
    let mut pads = Vec::with_capacity(alloc, count as usize)?;
    for _ in 0..count {
        pads.push(Pad::new())?;
    }
    Ok(pads)
}

/// Begins a new section at each pad.
pub(crate) fn clear_all(pads: &mut Vec<Pad>)
    ensures know { (took : List (List Call)) (number : ℕ) → KnowEach pads.old.items took
        → KnowEach pads.new.items (push_each (Feed (Ev (FlushStop number)) ∷ []) took) }
    ensures pads { vec_len pads.new ≡ vec_len pads.old }
{
    let mut place = 0;
    while place < pads.len() {
        pads[place].clear();
        place += 1;
    }
}
