//! The sink pads, by number.
ghost use Rattle.std.specs.Prelude.{◌≡◌, ◌≤◌, ◌<◌, ◌+◌, [], None, Some, length, map, replicate, slice_get, vec_len, vec_capacity};
ghost use Rattle.std.specs.Prelude.{IfOk, IfErr, OnOk, OnErr};
ghost use Rattle.std.specs.VecDeque.{deque_len};
ghost use Rattle.el_join.specs.declared.pad.Pad.{Pad};
ghost use Rattle.el_join.specs.Outs.{fault_in, IsDue};
ghost use Rattle.el_join.specs.Totals.{with_tally};
ghost use Rattle.el_join.specs.Pads.{cleared, no_facts};
ghost use Rattle.el_join.specs.Joins.{facts_of, waiting_of};
ghost use Rattle.el_join.specs.Passing.{later_from, going_from, GoesOn, PassesOn, TurnEnds};

use crate::pad::Pad;
use crate::room::{pour_front, put_back, room_for, sum_of};
use crate::sums::Sums;
use flow_model::ElementFault;
use gst_item::{Event, Item, Out, Outs};
use gst_value::OutOfMemory;
use std::alloc::Global;
use std::collections::VecDeque;

/// So many pads that were given nothing.
pub(crate) fn new_pads(alloc: Global, count: u32) -> Result<Vec<Pad>, OutOfMemory>
    ensures facts { IfOk result (λ made. facts_of made.items ≡ replicate count no_facts) }
    ensures waiting { IfOk result (λ made. waiting_of made.items ≡ replicate count []) }
    ensures count { IfOk result (λ made. vec_len made ≡ count) }
{
    let mut pads = Vec::with_capacity(alloc, count as usize)?;
    for _ in 0..count {
        pads.push(Pad::new(alloc))?;
    }
    Ok(pads)
}

/// Begins a new section at each pad.
pub(crate) fn clear_all(pads: &mut Vec<Pad>)
    ensures facts { facts_of pads.new.items ≡ map cleared (facts_of pads.old.items) }
    ensures waiting { waiting_of pads.new.items ≡ map (λ w. []) (waiting_of pads.old.items) }
    ensures pads { vec_len pads.new ≡ vec_len pads.old }
{
    let mut place = 0;
    while place < pads.len() {
        pads[place].clear();
        place += 1;
    }
}

/// Takes EOS on the pad in turn: what it brings goes out, and what waits at the next pads, up to the first one that had
/// no EOS, which is then in turn. `sums` is what the pads before the one in turn came to.
pub(crate) fn end_turn(
    alloc: Global,
    pads: &mut Vec<Pad>,
    turn: &mut usize,
    sums: &mut Sums,
    out: &mut Outs,
) -> Result<(), ElementFault>
    requires turn { turn.old < vec_len pads.old }
    ensures ends { OnOk result ((p : Pad) → slice_get pads.old.items turn.old ≡ Some p
        → TurnEnds pads.old.items pads.new.items turn.old turn.new sums.old sums.new p out.old out.new) }
    ensures stays { OnErr result ((pads.new ≡ pads.old) × (turn.new ≡ turn.old) × (sums.new ≡ sums.old) × (out.new ≡ out.old)) }
    ensures fault { IfErr result (λ fault. (p : Pad) → slice_get pads.old.items turn.old ≡ Some p
        → IsDue (fault_in (later_from (turn.old + 1) (with_tally sums.old p.facts.tally) pads.old.items)) fault) }
    ensures pads { vec_len pads.new ≡ vec_len pads.old }
{
    let pad = &pads[*turn];
    let opening = pad.opening(alloc)?;
    let behind = pad.add_to(*sums);
    let count = check_from(pads, *turn + 1, behind)?;
    let mut into = room_for(alloc, opening.len(), count, out)?;
    *sums = behind;
    pass_on(pads, turn, sums, opening, &mut into);
    put_back(out, into);
    Ok(())
}

/// How many items go out of what waits from a pad on, behind the EOS of the pad before it, where each of them fits.
fn check_from(pads: &Vec<Pad>, first: usize, sums: Sums) -> Result<usize, ElementFault>
    requires { first ≤ vec_len pads.now }
    ensures fits { OnOk result (fault_in (later_from first sums pads.now.items) ≡ None) }
    ensures count { IfOk result (λ count. count ≡ length (going_from first sums pads.now.items)) }
    ensures fault { IfErr result (λ fault. IsDue (fault_in (later_from first sums pads.now.items)) fault) }
{
    let mut place = first;
    let mut behind = sums;
    let mut count = 0;
    while place < pads.len() {
        let pad = &pads[place];
        pad.check(behind)?;
        count = sum_of(count, pad.waits())?;
        if !pad.has_ended() {
            return Ok(count);
        }
        behind = pad.add_to(behind);
        place += 1;
    }
    Ok(sum_of(count, 1)?)
}

/// The pad in turn had EOS: what it brings goes out, and then the turn goes on. `sums` is what the pads up to it came to.
fn pass_on(
    pads: &mut Vec<Pad>,
    turn: &mut usize,
    sums: &mut Sums,
    opening: VecDeque<Out>,
    into: &mut Vec<Out>,
)
    requires turn { turn.old < vec_len pads.old }
    requires room { vec_len into.old + (deque_len opening + length (going_from (turn.old + 1) sums.old pads.old.items)) ≤ vec_capacity into.old }
    ensures passes { (p : Pad) → slice_get pads.old.items turn.old ≡ Some p
        → PassesOn pads.old.items pads.new.items turn.old turn.new sums.old sums.new p opening.items into.old.items into.new.items }
    ensures pads { vec_len pads.new ≡ vec_len pads.old }
{
    pour_front(opening, into);
    pads[*turn].end();
    *turn += 1;
    go_on(pads, turn, sums, into);
}

/// Goes on at the pad in turn, behind the EOS of the pad before it.
fn go_on(pads: &mut Vec<Pad>, turn: &mut usize, sums: &mut Sums, into: &mut Vec<Out>)
    requires turn { turn.old ≤ vec_len pads.old }
    requires room { vec_len into.old + length (going_from turn.old sums.old pads.old.items) ≤ vec_capacity into.old }
    ensures goes { GoesOn pads.old.items pads.new.items turn.old turn.new sums.old sums.new into.old.items into.new.items }
    ensures pads { vec_len pads.new ≡ vec_len pads.old }
{
    while *turn < pads.len() {
        let Some(behind) = pads[*turn].pour(*sums, into) else {
            return;
        };
        *sums = behind;
        *turn += 1;
    }
    into.push_reserved(Out {
        pad: 0,
        item: Item::Event(Event::Eos),
    });
}
