//! Rows of crossings, over lanes in memory.
ghost use Rattle.std.specs.Prelude.{◌≡◌, ◌<◌, ℕ, IfOk};
ghost use Rattle.flow_model.specs.Takes.{AreWithin};
ghost use Rattle.task_pads.specs.Pads.{PadReady, rest_of};

use crate::rows::holds;
use gst_item::{Out, Outs};
use gst_value::List;
use item_letters::item_of;
use lane_core::{MemLanes, MemOutlet, Outlet, memory_lane};
use std::alloc::Global;
use std::test::Fail;
use task_pads::*;

/// An item comes to wait. A FLUSH_STOP does not.
fn wait<O: Outlet>(alloc: Global, pad: &mut Pad<O>, letter: u8) -> Result<(), Fail>
    ensures { rest_of pad.new ≡ rest_of pad.old }
{
    let item = item_of(alloc, letter)?;
    if item.is_flush_stop() {
        return Ok(());
    }
    pad.make_room()?;
    pad.push_reserved(item);
    Ok(())
}

/// The letter of what came of the oldest item. What crossed to an element is taken; where `back` is set the element
/// refuses it.
fn cross_once<O: Outlet>(
    alloc: Global,
    pad: &mut Pad<O>,
    lanes: &mut O::Lanes,
    sibling: bool,
    back: bool,
) -> char
    requires { PadReady O.Outlet (O.tells lanes.old) pad.old }
    ensures { PadReady O.Outlet (O.tells lanes.new) pad.new }
{
    match pad.cross(alloc, lanes, sibling) {
        Crossing::Idle => 'i',
        Crossing::To { hint, .. } => {
            pad.take();
            if back {
                pad.take_back();
                return 'b';
            }
            pad.set_hint(hint);
            't'
        }
        Crossing::Gone => 'g',
        Crossing::Full { .. } => 'f',
        Crossing::AtProbe { .. } => 'p',
        Crossing::NotLinked => 'n',
        Crossing::BehindEos => 'e',
        Crossing::AtLimit => 'l',
        Crossing::OutOfMemory => 'm',
    }
}

/// What the letters answer: `C` and `S` let the oldest item cross, without and with a sibling that is linked, and `R`
/// has it refused; `P` stops the second buffer, and `Q` does not any more; the others are items that come to wait.
fn answers_of<O: Outlet>(
    alloc: Global,
    pad: &mut Pad<O>,
    lanes: &mut O::Lanes,
    letters: &str,
) -> Result<String, Fail>
    requires { PadReady O.Outlet (O.tells lanes.old) pad.old }
{
    let mut answers = String::new(alloc);
    for letter in letters.bytes() {
        match letter {
            b'C' | b'S' | b'R' => {
                answers.push(cross_once(alloc, pad, lanes, letter == b'S', letter == b'R'))?;
            }
            b'P' => pad.block(5, 1),
            b'Q' => pad.unblock(),
            _ => wait(alloc, pad, letter)?,
        }
    }
    Ok(answers)
}

/// What the letters answer at a pad that leads nowhere, to an element, or over a lane for two items.
fn row_of(alloc: Global, way: &str, letters: &str) -> Result<String, Fail> {
    let mut lanes = MemLanes::new(alloc);
    let (outlet, _inlet) = memory_lane(alloc, &mut lanes, 2)?;
    let behind = match way {
        "element" => Behind::Element {
            number: 4,
            hint: 0,
            pad: 7,
        },
        "lane" => Behind::Lane {
            lane: 3,
            element: 4,
            pad: 7,
            from: 0,
            outlet,
        },
        _ => Behind::Nothing,
    };
    let mut pad: Pad<MemOutlet> = Pad::new(alloc, 9, behind);
    let answers = answers_of(alloc, &mut pad, &mut lanes, letters)?;
    Ok(format!(in alloc; "{} {} {}", answers.as_str(), pad.crossed(), pad.buffers())?)
}

#[test]
fn rows_of_crossings(rt: HostRuntime) -> Result<(), Fail> {
    let alloc = rt.alloc();
    let rows = "nothing CBCS ing 1 1
nothing sCeCBCC ggee 2 0
element sBeCCCC ttti 3 1
element BRBC bt 1 1
element PBCBCQC tpt 2 2
lane sBBCCCC ggff 2 1
lane eCBCC gee 1 0";
    for row in rows.lines() {
        let mut parts = row.split(' ');
        let way = parts.next().unwrap_or("");
        let found = row_of(alloc, way, parts.next().unwrap_or(""))?;
        assert!(rt; row.ends_with(found.as_str()));
    }
    Ok(())
}

/// One item for the pad of a place, but no FLUSH_STOP.
fn one_out(alloc: Global, pad: u32, letter: u8) -> Result<Outs, Fail>
    ensures { IfOk result (λ outs. (ports : ℕ) → pad < ports → AreWithin ports outs) }
{
    let item = item_of(alloc, letter)?;
    let mut outs = List::new(alloc);
    if item.is_flush_stop() {
        return Ok(outs);
    }
    outs.push(alloc, Out { pad, item })?;
    Ok(outs)
}

#[test]
fn what_is_put_out_waits_at_its_pad(rt: HostRuntime) -> Result<(), Fail> {
    let alloc = rt.alloc();
    let mut pads = Vec::new(alloc);
    for number in 0..2 {
        let pad: Pad<MemOutlet> = Pad::new(alloc, number, Behind::Nothing);
        pads.push(pad)?;
    }
    assert!(rt; pads.len() == 2);
    holds(&rt, "idle at first", pads[0].is_idle());
    let mut outs = one_out(alloc, 1, b's')?;
    spread(alloc, &mut pads, &mut outs)?;
    holds(
        &rt,
        "the second one waits",
        pads[0].is_idle() && !pads[1].is_idle(),
    );
    let mut outs = one_out(alloc, 0, b'e')?;
    fill(alloc, &mut pads[0], &mut outs);
    holds(&rt, "all is taken", outs.as_slice().is_empty());
    holds(
        &rt,
        "the first one waits",
        !pads[0].is_idle() && pads[0].number() == 0,
    );
    holds(
        &rt,
        "it leads nowhere",
        matches!(pads[0].behind(), Behind::Nothing),
    );
    Ok(())
}
