//! Tokens that are taken by turns, and filled up between them.
ghost use Rattle.std.specs.Prelude.{◌≡◌};

use super::*;
use gst_value::{List, OutOfMemory};
use std::alloc::Global;
use std::fmt::Write;
use std::test::Fail;
use turn_order::{Order, Turns};

/// Each that takes a turn takes a token, if one is left. Control fills them up when none is left.
#[derive(Drop)]
struct Tokens {
    among: u32,
    left: u32,
    fills: u32,
    /// How many turns in a row took none.
    idle: u32,
    /// Who took tokens, with a plus where they were filled up, and behind how many idle turns all were tried.
    log: String,
}

impl TakesTurns for Tokens {
    type Fault = OutOfMemory;

    ghost ready = { λ tokens. Unit {0} };

    ghost count = { λ tokens. tokens.among };

    ghost acts_left = { λ tokens. tokens.fills };

    ghost moves_left = { λ tokens. tokens.left };

    ghost acted = { λ was is. (was.left ≡ 0) × (is.left ≡ 2) };

    ghost waits = { λ tokens. tokens.left ≡ 0 → tokens.fills ≡ 0 };

    ghost stepped = { λ place moved was is. Unit {0} };

    ghost tried = { λ moved was is. Unit {0} };

    ghost act_failed = { λ was is fault. Unit {0} };

    ghost step_failed = { λ place was is fault. Unit {0} };

    ghost try_failed = { λ was is fault. Unit {0} };

    fn count(&self) -> usize {
        self.among as usize
    }

    fn act(&mut self, _alloc: Global) -> Result<bool, OutOfMemory> {
        if self.left > 0 {
            return Ok(false);
        }
        if self.fills == 0 {
            return Ok(false);
        }
        write!(self.log, "+ ")?;
        self.fills -= 1;
        self.left = 2;
        self.idle = 0;
        Ok(true)
    }

    fn step(&mut self, _alloc: Global, place: usize) -> Result<bool, OutOfMemory> {
        if self.left == 0 {
            self.idle = self.idle.saturating_add(1);
            return Ok(false);
        }
        write!(self.log, "{place} ")?;
        self.left -= 1;
        Ok(true)
    }

    fn try_each(&mut self, _alloc: Global) -> Result<bool, OutOfMemory> {
        let idle = self.idle;
        write!(self.log, "try behind {idle} ")?;
        if self.left == 0 {
            return Ok(false);
        }
        self.left -= 1;
        Ok(true)
    }
}

/// What is logged where tokens are taken by these turns.
fn logged(alloc: Global, among: u32, left: u32, fills: u32, turns: Order) -> Result<String, Fail> {
    let mut tokens = Tokens {
        among,
        left,
        fills,
        idle: 0,
        log: String::new(alloc),
    };
    let mut turns = Turns::new(turns);
    run(alloc, &mut tokens, &mut turns)?;
    Ok(tokens.log)
}

fn orders(alloc: Global, numbers: &[u32]) -> Result<Order, Fail> {
    let mut list = List::new(alloc);
    for number in numbers {
        list.push(alloc, *number)?;
    }
    Ok(Order::Listed(list))
}

/// Each row: how many take turns, how many tokens are left, how often they are filled up, the listed numbers; and what is logged.
const ROWS: &str = "\
3 2 1 => 0 1 + 2 0 try behind 4096
3 0 2 4 4 2 => + 1 1 + 2 0 try behind 4096
3 0 0 7 => try behind 4096
0 1 1 => try behind 0 + try behind 0 try behind 0 try behind 0
0 0 0 7 => try behind 0";

/// Whether a row says what is logged.
fn holds(alloc: Global, row: &str) -> Result<bool, Fail> {
    let (given, wanted) = row.split_once(" => ").ok_or("an arrow")?;
    let mut numbers = Vec::new(alloc);
    for word in given.split(' ') {
        numbers.push(word.parse::<u32>()?)?;
    }
    let [among, left, fills, listed @ ..] = numbers.as_slice() else {
        return Ok(false);
    };
    let log = logged(alloc, *among, *left, *fills, orders(alloc, listed)?)?;
    Ok(log.trim_end() == wanted)
}

#[test]
fn control_acts_before_each_turn(rt: HostRuntime) -> Result<(), Fail> {
    let alloc = rt.alloc();
    for row in ROWS.lines() {
        assert!(rt; holds(alloc, row)?);
    }
    Ok(())
}
