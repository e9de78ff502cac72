//! A run by turns.
ghost use Rattle.std.specs.Prelude.{◌≡◌, ◌<◌, ◌≤◌, ◌+◌, ℕ, true, false, Ok, IfErr, IfOk, OnOk, if◌then◌else◌};
ghost use Rattle.turn_order.specs.declared.order.Order.{Order};
ghost use Rattle.turn_loop.specs.Left.{turns_left};
ghost use Rattle.turn_loop.specs.Turns.{GoesFrom, HasEnded, HasFailed};
ghost use Rattle.turn_loop.specs.Come.{HasAdvanced, HasCome};

use crate::taking::TakesTurns;
use std::alloc::Global;
use turn_order::Turns;

/// How many turns in a row move nothing before each is tried.
const IDLE_TURNS: u32 = 4096;

/// How many turns in a row moved nothing, behind one more.
fn idle_turns(idle: u32, moved: bool) -> u32
    requires { idle < 4096 }
    ensures { result ≡ (if moved then 0 else idle + 1) }
{
    if moved { 0 } else { idle + 1 }
}

/// Runs by turns until nothing is left to do: control has no act that can be done, and none of all can move. Before every turn
/// control does what it can do. The next number of the order tells, by its remainder, whose turn it is. Behind 4,096 turns in a row
/// that moved nothing each is tried once; so it is where none takes turns. Behind the run the next number is the one behind the last
/// turn's, also where that turn met a fault.
pub fn run<T: TakesTurns>(alloc: Global, all: &mut T, turns: &mut Turns) -> Result<(), T::Fault>
    requires ready { T.ready all.old }
    ensures ready { OnOk result (T.ready all.new) }
    ensures ended { OnOk result ((order : Order) (start : ℕ) → GoesFrom order start turns.old → HasEnded T.TakesTurns order start all.old turns.new all.new) }
    ensures failed { IfErr result (λ fault. (order : Order) (start : ℕ) → GoesFrom order start turns.old
        → HasFailed T.TakesTurns order start all.old turns.new all.new fault) }
{
    let mut idle = 0;
    'acts: loop {
        match run_to_act(alloc, all, turns, &mut idle) {
            Ok(true) => {}
            Ok(false) => return Ok(()),
            Err(fault) => return Err(fault),
        }
    }
}

/// Runs by turns until control has done an act, or nothing is left to do. Tells whether it has.
fn run_to_act<T: TakesTurns>(
    alloc: Global,
    all: &mut T,
    turns: &mut Turns,
    idle: &mut u32,
) -> Result<bool, T::Fault>
    requires ready { T.ready all.old }
    requires idle { idle.old ≤ 4096 }
    ensures ready { OnOk result (T.ready all.new) }
    ensures idle { idle.new ≤ 4096 }
    ensures less { result ≡ Ok true → T.acts_left all.new < T.acts_left all.old }
    ensures come { IfOk result (λ acted. (order : Order) (start : ℕ) (first : _)
        → HasCome T.TakesTurns order start first turns.old idle.old all.old → HasAdvanced T.TakesTurns acted order start first turns.new idle.new all.new) }
    ensures failed { IfErr result (λ fault. (order : Order) (start : ℕ) (first : _)
        → HasCome T.TakesTurns order start first turns.old idle.old all.old → HasFailed T.TakesTurns order start first turns.new all.new fault) }
{
    'turns: loop {
        match all.act(alloc) {
            Ok(true) => {
                *idle = 0;
                return Ok(true);
            }
            Ok(false) => {}
            Err(fault) => return Err(fault),
        }
        match advance(alloc, all, turns, idle) {
            Ok(true) => {}
            Ok(false) => return Ok(false),
            Err(fault) => return Err(fault),
        }
    }
}

/// The next turn; or, where so many turns moved nothing, or none takes turns, one step of each. Tells whether there is more to do.
fn advance<T: TakesTurns>(
    alloc: Global,
    all: &mut T,
    turns: &mut Turns,
    idle: &mut u32,
) -> Result<bool, T::Fault>
    requires ready { T.ready all.old }
    requires idle { idle.old ≤ 4096 }
    ensures ready { OnOk result (T.ready all.new) }
    ensures idle { idle.new ≤ 4096 }
    ensures acts { T.acts_left all.new ≤ T.acts_left all.old }
    ensures less { result ≡ Ok true → turns_left (T.moves_left all.new) idle.new < turns_left (T.moves_left all.old) idle.old }
    ensures come { IfOk result (λ more. (order : Order) (start : ℕ) (first : _) → T.waits all.old
        → HasCome T.TakesTurns order start first turns.old idle.old all.old → HasAdvanced T.TakesTurns more order start first turns.new idle.new all.new) }
    ensures failed { IfErr result (λ fault. (order : Order) (start : ℕ) (first : _) → T.waits all.old
        → HasCome T.TakesTurns order start first turns.old idle.old all.old → HasFailed T.TakesTurns order start first turns.new all.new fault) }
{
    let count = all.count();
    if count == 0 {
        *idle = 0;
        return all.try_each(alloc);
    }
    if *idle == IDLE_TURNS {
        *idle = 0;
        return all.try_each(alloc);
    }
    let place = turns.next_among(count);
    match all.step(alloc, place) {
        Ok(moved) => {
            *idle = idle_turns(*idle, moved);
            Ok(true)
        }
        Err(fault) => Err(fault),
    }
}
