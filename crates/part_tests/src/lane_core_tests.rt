//! Rows of puts and takes, by functions that know only the traits, called on lanes in memory.
ghost use Rattle.std.specs.Prelude.{◌≡◌, ◌≢◌, ◌<◌, ◌^◌, ℕ};
ghost use Rattle.lane_core.specs.Lane.{IsOf};
ghost use Rattle.lane_core.specs.Room.{Limits};

use crate::rows::holds;
use gst_item::Item;
use gst_value::List;
use item_letters::{item_numbered, number_of};
use lane_core::*;
use std::alloc::{AllocError, Global};
use std::process::Abort;
use std::test::Fail;

/// One call on a lane. A number stands for an item.
#[derive(Clone, Copy)]
enum Move {
    Put(u64),
    Take,
}

/// What it answered.
#[derive(Clone, Copy, Debug, PartialEq, Eq)]
enum Done {
    Stored,
    Full(u64),
    Item(u64),
    Empty,
}

fn do_move<O: Outlet<Lanes = I::Lanes>, I: Inlet<Out = O>>(
    outlet: &mut O,
    inlet: &mut I,
    lanes: &mut I::Lanes,
    step: Move,
) -> Done
    requires table { IsOf (O.tells lanes.old) (O.place outlet.old) (O.limits outlet.old) (O.count outlet.old) }
    requires place { I.place inlet.old ≡ O.place outlet.old }
    requires count { O.count outlet.old < 2 ^ 62 }
    ensures table { IsOf (O.tells lanes.new) (O.place outlet.new) (O.limits outlet.new) (O.count outlet.new) }
    ensures place { (I.place inlet.new ≡ O.place outlet.new) × (O.place outlet.new ≡ O.place outlet.old) }
    ensures id { (I.id inlet.new ≡ I.id inlet.old) × (O.id outlet.new ≡ O.id outlet.old) }
    ensures others { (other : ℕ) (limits : Limits) (count : ℕ) → other ≢ O.place outlet.old
        → IsOf (O.tells lanes.old) other limits count → IsOf (O.tells lanes.new) other limits count }
{
    match step {
        Move::Put(number) => match outlet.put(lanes, item_numbered(number)) {
            Put::Stored => Done::Stored,
            Put::Full(back) => Done::Full(number_of(&back)),
        },
        Move::Take => match inlet.take(lanes) {
            Take::Item(item) => Done::Item(number_of(&item)),
            Take::Empty => Done::Empty,
        },
    }
}

/// What the moves answer, as long as puts are allowed.
fn answers<O: Outlet<Lanes = I::Lanes>, I: Inlet<Out = O>>(
    alloc: Global,
    outlet: &mut O,
    inlet: &mut I,
    lanes: &mut I::Lanes,
    moves: &[Move],
) -> Result<Vec<Done>, AllocError>
    requires table { IsOf (O.tells lanes.old) (O.place outlet.old) (O.limits outlet.old) (O.count outlet.old) }
    requires place { I.place inlet.old ≡ O.place outlet.old }
    ensures table { IsOf (O.tells lanes.new) (O.place outlet.new) (O.limits outlet.new) (O.count outlet.new) }
    ensures place { (I.place inlet.new ≡ O.place outlet.new) × (O.place outlet.new ≡ O.place outlet.old) }
    ensures id { (I.id inlet.new ≡ I.id inlet.old) × (O.id outlet.new ≡ O.id outlet.old) }
    ensures others { (other : ℕ) (limits : Limits) (count : ℕ) → other ≢ O.place outlet.old
        → IsOf (O.tells lanes.old) other limits count → IsOf (O.tells lanes.new) other limits count }
{
    let mut done = Vec::new(alloc);
    for step in moves {
        if outlet.count() < 1 << 40 {
            done.push(do_move(outlet, inlet, lanes, *step))?;
        }
    }
    Ok(done)
}

fn same_answers(rt: &impl Abort, done: &[Done], wanted: &[Done]) {
    assert_eq!(rt; done, wanted);
}

/// The numbers of the items that are left where an inlet meets its outlet.
fn has_met(rt: &impl Abort, items: &[Item]) {
    let [first, second] = items else {
        holds(rt, "two items", false);
        return;
    };
    holds(rt, "the first item", number_of(first) == 0);
    holds(rt, "the second item", number_of(second) == 5);
}

#[test]
fn a_lane_answers_by_its_room_and_in_order(rt: HostRuntime) -> Result<(), Fail> {
    let alloc = rt.alloc();
    let mut lanes = MemLanes::new(alloc);
    let (mut other_outlet, mut other_inlet) = memory_lane(alloc, &mut lanes, 1)?;
    let (mut outlet, mut inlet) = memory_lane(alloc, &mut lanes, 2)?;
    let one = [Move::Put(9), Move::Put(9), Move::Take];
    let wanted = [Done::Stored, Done::Full(9), Done::Item(9)];
    let done = answers(alloc, &mut other_outlet, &mut other_inlet, &mut lanes, &one)?;
    same_answers(&rt, done.as_slice(), &wanted);
    let moves = [
        Move::Take,
        Move::Put(1),
        Move::Put(2),
        Move::Put(3),
        Move::Take,
        Move::Put(3),
        Move::Take,
        Move::Take,
        Move::Take,
        Move::Put(4),
        Move::Put(5),
        Move::Take,
    ];
    let wanted = [
        Done::Empty,
        Done::Stored,
        Done::Stored,
        Done::Full(3),
        Done::Item(1),
        Done::Stored,
        Done::Item(2),
        Done::Item(3),
        Done::Empty,
        Done::Stored,
        Done::Stored,
        Done::Item(4),
    ];
    let done = answers(alloc, &mut outlet, &mut inlet, &mut lanes, &moves)?;
    same_answers(&rt, done.as_slice(), &wanted);
    let mut into = List::new(alloc);
    into.push(alloc, item_numbered(0))?;
    inlet.meet(alloc, &mut lanes, &mut outlet, &mut into)?;
    has_met(&rt, into.as_slice());
    holds(&rt, "counts", inlet.count() == 5 && outlet.count() == 5);
    Ok(())
}
