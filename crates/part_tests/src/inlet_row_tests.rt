//! What a row answers, by functions that know only the traits, called on lanes in memory.
ghost use Rattle.std.specs.Prelude.{ℕ, IfOk};
ghost use Rattle.lane_core.specs.Lane.{IsIn, IsOf};
ghost use Rattle.inlet_row.specs.Row.{RowIn};

use gst_item::Item;
use gst_value::OutOfMemory;
use inlet_row::*;
use item_letters::{item_numbered, number_of};
use lane_core::{Inlet, MemInlet, MemLanes, MemOutlet, Outlet, memory_lane};
use std::alloc::{AllocError, Global};
use std::test::Fail;

/// What a take answered. A number stands for an item.
#[derive(Clone, Copy, Debug, PartialEq, Eq)]
enum Done {
    Item(u64),
    Empty(u32),
    /// An item that is not there, or one that is there and was not told.
    Nothing,
}

fn done_of(answer: Answer, next: Option<Item>) -> Done {
    match (answer, next) {
        (Answer::Item, Some(item)) => Done::Item(number_of(&item)),
        (Answer::Empty(number), None) => Done::Empty(number),
        _ => Done::Nothing,
    }
}

fn put_one<O: Outlet>(outlet: &mut O, lanes: &mut O::Lanes, number: u64)
    requires table { IsOf (O.tells lanes.old) (O.place outlet.old) (O.limits outlet.old) (O.count outlet.old) }
    ensures table { IsOf (O.tells lanes.new) (O.place outlet.new) (O.limits outlet.new) (O.count outlet.new) }
    ensures lanes { (n : ℕ) → IsIn (O.tells lanes.old) n → IsIn (O.tells lanes.new) n }
{
    if outlet.count() < 1 << 40 {
        outlet.put(lanes, item_numbered(number));
    }
}

/// Puts this number of items into a lane, numbered from `first` on.
fn put_some<O: Outlet>(outlet: &mut O, lanes: &mut O::Lanes, first: u64, count: u64)
    requires table { IsOf (O.tells lanes.old) (O.place outlet.old) (O.limits outlet.old) (O.count outlet.old) }
    ensures lanes { (n : ℕ) → IsIn (O.tells lanes.old) n → IsIn (O.tells lanes.new) n }
{
    for step in 0..count {
        put_one(outlet, lanes, first.saturating_add(step));
    }
}

/// A lane that holds these items.
fn filled(
    alloc: Global,
    lanes: &mut MemLanes,
    first: u64,
    count: u64,
) -> Result<MemInlet, OutOfMemory>
    ensures here { IfOk result (λ inlet. IsIn (⟦<MemOutlet as Outlet>⟧.tells lanes.new) (⟦<MemInlet as Inlet>⟧.place inlet)) }
    ensures others { (n : ℕ) → IsIn (⟦<MemOutlet as Outlet>⟧.tells lanes.old) n → IsIn (⟦<MemOutlet as Outlet>⟧.tells lanes.new) n }
{
    let (mut outlet, inlet) = memory_lane(alloc, lanes, 4)?;
    put_some(&mut outlet, lanes, first, count);
    Ok(inlet)
}

/// Takes this number of times.
fn take_some<I: Inlet>(
    row: &mut InletRow<I>,
    lanes: &mut I::Lanes,
    done: &mut Vec<Done>,
    count: u32,
) -> Result<(), AllocError>
    requires row { RowIn I.Inlet (I.Out.tells lanes.old) row.old }
    ensures row { RowIn I.Inlet (I.Out.tells lanes.new) row.new }
    ensures lanes { (n : ℕ) → IsIn (I.Out.tells lanes.old) n → IsIn (I.Out.tells lanes.new) n }
{
    for _ in 0..count {
        let mut next = None;
        let answer = row.take(lanes, &mut next);
        done.push(done_of(answer, next))?;
    }
    Ok(())
}

/// What a row answers that is fed from three lanes, one behind the other, with given items between them.
fn answers<I: Inlet>(
    alloc: Global,
    lanes: &mut I::Lanes,
    old: I,
    drained: I,
    last: I,
) -> Result<Vec<Done>, OutOfMemory>
    requires old { IsIn (I.Out.tells lanes.old) (I.place old) }
    requires drained { IsIn (I.Out.tells lanes.old) (I.place drained) }
    requires last { IsIn (I.Out.tells lanes.old) (I.place last) }
{
    let mut row = InletRow::new(alloc);
    let mut done = Vec::new(alloc);
    take_some(&mut row, lanes, &mut done, 1)?;
    row.make_room(3)?;
    row.give(item_numbered(1));
    row.link(7, old);
    row.give(item_numbered(2));
    take_some(&mut row, lanes, &mut done, 2)?;
    if let Some(count) = row.received(7) {
        done.push(Done::Item(count))?;
    }
    row.make_room(2)?;
    row.link(8, drained);
    row.link(9, last);
    take_some(&mut row, lanes, &mut done, 5)?;
    if let Some(count) = row.received(8) {
        done.push(Done::Item(count))?;
    }
    row.make_room(1)?;
    row.give(item_numbered(3));
    take_some(&mut row, lanes, &mut done, 2)?;
    row.make_room(1)?;
    row.give(item_numbered(4));
    done.push(Done::Item(row.into_feeds().len() as u64))?;
    Ok(done)
}

#[test]
fn a_row_answers_in_order(rt: HostRuntime) -> Result<(), Fail> {
    let alloc = rt.alloc();
    let mut lanes = MemLanes::new(alloc);
    let old = filled(alloc, &mut lanes, 11, 2)?;
    let drained = filled(alloc, &mut lanes, 20, 0)?;
    let last = filled(alloc, &mut lanes, 30, 1)?;
    let done = answers(alloc, &mut lanes, old, drained, last)?;
    let wanted = [
        Done::Empty(UNLINKED),
        Done::Item(1),
        Done::Item(11),
        Done::Item(1),
        Done::Item(12),
        Done::Item(2),
        Done::Item(30),
        Done::Empty(9),
        Done::Empty(9),
        Done::Item(3),
        Done::Empty(UNLINKED),
        Done::Item(1),
    ];
    assert_eq!(rt; done.as_slice(), wanted.as_slice());
    Ok(())
}
