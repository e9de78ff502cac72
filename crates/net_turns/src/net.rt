//! Steps of tasks that lanes join.
ghost use Rattle.std.specs.Prelude.{◌≡◌, ◌<◌, ◌≤◌, ◌+◌, ℕ, true, Some, Ok, length, IfOk, IfErr, OnOk, if◌then◌else◌};
ghost use Rattle.flow_model.specs.Moment.{Moment};
ghost use Rattle.turn_order.specs.declared.order.Order.{Order};
ghost use Rattle.turn_order.specs.Turns.{IsAmong};
ghost use Rattle.net_turns.specs.Net.{NetGoes, NetReady, NetStands};
ghost use Rattle.net_turns.specs.Rests.{AllFramed, NetAdvanced, NetEnded, NetFaulted, has_moved as step_moved};
ghost use Rattle.net_turns.specs.Turns.{AreTried, Burned, HasAdvanced, HasCome, HasMet, HasMetTrying, IsStepped, RunBy, net_left, steps_left, stop_of};

use flow_model::{TaskElement, TaskSource};
use lane_core::{Inlet, Outlet};
use net_task::Task;
use std::alloc::Global;
use task_parts::{Failure, Step};
use turn_order::Turns;

/// How many turns in a row move nothing before each task is tried.
const IDLE_TURNS: u32 = 4096;

/// Where a run of tasks stopped: the place of the task among them, and its fault.
#[derive(Drop)]
pub struct Stopped {
    pub task: usize,
    pub fault: Failure,
}

/// Whether a step moved.
pub fn has_moved(step: Step) -> bool
    ensures { result ≡ step_moved step }
{
    matches!(step, Step::Moved)
}

/// How many turns in a row moved nothing, behind one more.
fn idle_turns(idle: u32, moved: bool) -> u32
    requires { idle < 4096 }
    ensures { result ≡ (if moved then 0 else idle + 1) }
{
    if moved { 0 } else { idle + 1 }
}

/// One step of the task at a place; tells what it answered.
pub fn step_at<S: TaskSource, E: TaskElement, I: Inlet<Out = O>, O: Outlet<Lanes = I::Lanes>>(
    alloc: Global,
    tasks: &mut [Task<S, E, I, O>],
    place: usize,
    lanes: &mut I::Lanes,
) -> Result<Step, Stopped>
    requires place { place < length tasks.old }
    requires ready { NetReady tasks.old (O.tells lanes.old) }
    ensures ready { OnOk result (NetReady tasks.new (O.tells lanes.new)) }
    ensures goes { IfOk result (λ step. (m : Moment) → NetStands m tasks.old (O.tells lanes.old) → NetGoes m tasks.new (O.tells lanes.new)) }
    ensures faulted { IfErr result (λ stop. (m : Moment) → NetStands m tasks.old (O.tells lanes.old) → NetFaulted m tasks.new stop.task stop.fault) }
    ensures stepped { IfOk result (λ step. IsStepped place step tasks.old tasks.new (O.tells lanes.old) (O.tells lanes.new)) }
    ensures met { IfErr result (λ stop. HasMet place stop.fault tasks.old tasks.new (O.tells lanes.old)) }
    ensures within { IfErr result (λ stop. stop.task ≡ place) }
    ensures frames { AllFramed tasks.old tasks.new }
    ensures count { length tasks.new ≡ length tasks.old }
    ensures burned { IfOk result (λ step. Burned (step_moved step) (net_left tasks.old) (net_left tasks.new)) }
{
    let task = &mut tasks[place];
    match task.step(alloc, lanes) {
        Ok(step) => Ok(step),
        Err(fault) => Err(Stopped { task: place, fault }),
    }
}

/// One step of each task, in order, which is written down; tells whether one moved. Where none did, the net has ended.
pub fn try_each<S: TaskSource, E: TaskElement, I: Inlet<Out = O>, O: Outlet<Lanes = I::Lanes>>(
    alloc: Global,
    tasks: &mut [Task<S, E, I, O>],
    steps: &mut [Step],
    lanes: &mut I::Lanes,
) -> Result<bool, Stopped>
    requires ready { NetReady tasks.old (O.tells lanes.old) }
    requires steps { length steps.old ≡ length tasks.old }
    ensures ready { OnOk result (NetReady tasks.new (O.tells lanes.new)) }
    ensures goes { IfOk result (λ moved. (m : Moment) → NetStands m tasks.old (O.tells lanes.old)
        → NetAdvanced moved m tasks.new steps.new (O.tells lanes.new)) }
    ensures faulted { IfErr result (λ stop. (m : Moment) → NetStands m tasks.old (O.tells lanes.old) → NetFaulted m tasks.new stop.task stop.fault) }
    ensures tried { IfOk result (λ moved. AreTried tasks.old (O.tells lanes.old) (length tasks.old) moved tasks.new (O.tells lanes.new)) }
    ensures met { IfErr result (λ stop. HasMetTrying stop.fault tasks.old tasks.new (O.tells lanes.old)) }
    ensures within { IfErr result (λ stop. stop.task < length tasks.new) }
    ensures frames { AllFramed tasks.old tasks.new }
    ensures count { length tasks.new ≡ length tasks.old }
    ensures steps { length steps.new ≡ length steps.old }
    ensures burned { IfOk result (λ moved. Burned moved (net_left tasks.old) (net_left tasks.new)) }
{
    let mut moved = false;
    for place in 0..tasks.len() {
        match step_at(alloc, tasks, place, lanes) {
            Ok(step) => {
                steps[place] = step;
                moved |= has_moved(step);
            }
            Err(stop) => return Err(stop),
        }
    }
    Ok(moved)
}

/// The next turn; or, behind so many turns that moved nothing, one step of each task. Tells whether there is more
/// to do.
fn advance<S: TaskSource, E: TaskElement, I: Inlet<Out = O>, O: Outlet<Lanes = I::Lanes>>(
    alloc: Global,
    tasks: &mut [Task<S, E, I, O>],
    steps: &mut [Step],
    lanes: &mut I::Lanes,
    turns: &mut Turns,
    idle: &mut u32,
) -> Result<bool, Stopped>
    requires some { 0 < length tasks.old }
    requires ready { NetReady tasks.old (O.tells lanes.old) }
    requires steps { length steps.old ≡ length tasks.old }
    requires idle { idle.old ≤ 4096 }
    ensures ready { OnOk result (NetReady tasks.new (O.tells lanes.new)) }
    ensures goes { IfOk result (λ more. (m : Moment) → NetStands m tasks.old (O.tells lanes.old)
        → NetAdvanced more m tasks.new steps.new (O.tells lanes.new)) }
    ensures faulted { IfErr result (λ stop. (m : Moment) → NetStands m tasks.old (O.tells lanes.old) → NetFaulted m tasks.new stop.task stop.fault) }
    ensures come { IfOk result (λ more. (order : Order) (start : ℕ) (first : _) (told : _)
        → HasCome order start first told turns.old idle.old tasks.old (O.tells lanes.old)
        → HasAdvanced order start first told turns.new idle.new more tasks.new (O.tells lanes.new)) }
    ensures stopped { IfErr result (λ stop. (order : Order) (start : ℕ) (first : _) (told : _)
        → HasCome order start first told turns.old idle.old tasks.old (O.tells lanes.old)
        → RunBy order start first told turns.new (Some stop.fault) tasks.new) }
    ensures within { IfErr result (λ stop. stop.task < length tasks.new) }
    ensures frames { AllFramed tasks.old tasks.new }
    ensures count { length tasks.new ≡ length tasks.old }
    ensures steps { length steps.new ≡ length steps.old }
    ensures idle { idle.new ≤ 4096 }
    ensures less { result ≡ Ok true → steps_left (net_left tasks.new) idle.new < steps_left (net_left tasks.old) idle.old }
{
    if *idle == IDLE_TURNS {
        *idle = 0;
        return try_each(alloc, tasks, steps, lanes);
    }
    let place = turns.next_among(tasks.len());
    match step_at(alloc, tasks, place, lanes) {
        Ok(step) => {
            let moved = has_moved(step);
            *idle = idle_turns(*idle, moved);
            Ok(true)
        }
        Err(stop) => Err(stop),
    }
}

/// Runs tasks by turns, until nothing is left to do or one meets a fault. Each turn steps one task: the next number
/// of the order tells which, by its remainder. Behind 4,096 turns in a row that moved nothing each task is tried once;
/// where none of them moves either, the run has ended. Without tasks no turn is made.
///
/// Behind a run that ended, `steps` has what each task answered at last, which is why it cannot move.
pub fn run_tasks<S: TaskSource, E: TaskElement, I: Inlet<Out = O>, O: Outlet<Lanes = I::Lanes>>(
    alloc: Global,
    tasks: &mut [Task<S, E, I, O>],
    steps: &mut [Step],
    lanes: &mut I::Lanes,
    turns: &mut Turns,
) -> Result<(), Stopped>
    requires ready { NetReady tasks.old (O.tells lanes.old) }
    requires steps { length steps.old ≡ length tasks.old }
    ensures ended { IfOk result (λ done. (m : Moment) → NetStands m tasks.old (O.tells lanes.old)
        → NetEnded m tasks.new steps.new (O.tells lanes.new)) }
    ensures faulted { IfErr result (λ stop. (m : Moment) → NetStands m tasks.old (O.tells lanes.old) → NetFaulted m tasks.new stop.task stop.fault) }
    ensures within { IfErr result (λ stop. stop.task < length tasks.new) }
    ensures by_turns { (order : Order) (start : ℕ) → IsAmong order (length tasks.old) start turns.old
        → RunBy order start tasks.old (O.tells lanes.old) turns.new (stop_of result) tasks.new }
    ensures frames { AllFramed tasks.old tasks.new }
    ensures count { length tasks.new ≡ length tasks.old }
    ensures steps { length steps.new ≡ length steps.old }
{
    if tasks.is_empty() {
        return Ok(());
    }
    let mut idle = 0;
    'turns: loop {
        match advance(alloc, tasks, steps, lanes, turns, &mut idle) {
            Ok(true) => {}
            Ok(false) => return Ok(()),
            Err(stop) => return Err(stop),
        }
    }
}
