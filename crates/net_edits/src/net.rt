//! Acts on the source pads of tasks that lanes join.
ghost use Rattle.std.specs.Prelude.{◌≡◌, ◌<◌, true, false, None, IfSome, length, vec_len, vec_capacity};
ghost use Rattle.flow_model.specs.Edit.{unlinked};
ghost use Rattle.flow_model.specs.Moment.{Moment};
ghost use Rattle.net_turns.specs.Net.{NetReady, NetStands};
ghost use Rattle.net_turns.specs.Turns.{net_left};
ghost use Rattle.net_edits.specs.Nets.{IsFirstOf, IsProbed, IsProbedAt, IsUnlinked, IsUnlinkedAt, NoneHas, TaskHas};

use flow_model::{TaskElement, TaskSource};
use lane_core::{Inlet, Outlet};
use net_task::Task;
use pad_core::Probe;
use task_edits::has_pad;
use task_pads::Behind;

/// Sets the probe of a command at the source pad of a number, or takes its probe away. Tells whether a task has the pad; where none
/// has, all tasks stay.
pub fn set_probe<S: TaskSource, E: TaskElement, I: Inlet<Out = O>, O: Outlet<Lanes = I::Lanes>>(
    tasks: &mut Vec<Task<S, E, I, O>>,
    pad: u32,
    probe: Option<Probe>,
) -> bool
    ensures probed { result ≡ true → IsProbed tasks.old.items tasks.new.items pad probe }
    ensures none { result ≡ false → NoneHas tasks.old.items pad × (tasks.new ≡ tasks.old) }
    ensures stands { (m : Moment) (tells : _) → NetStands m tasks.old.items tells → NetStands m tasks.new.items tells }
    ensures ready { (tells : _) → NetReady tasks.old.items tells → NetReady tasks.new.items tells }
    ensures moves { net_left tasks.new.items ≡ net_left tasks.old.items }
    ensures count { length tasks.new.items ≡ length tasks.old.items }
{
    match find_task(tasks.as_slice(), pad) {
        Some(place) => {
            probe_at(tasks, place, pad, probe);
            true
        }
        None => false,
    }
}

/// Undoes the link of the source pad of a number, and gives where it led. None where no task has the pad.
pub fn unlink<S: TaskSource, E: TaskElement, I: Inlet<Out = O>, O: Outlet<Lanes = I::Lanes>>(
    tasks: &mut Vec<Task<S, E, I, O>>,
    pad: u32,
) -> Option<Behind<O>>
    ensures undone { IfSome result (IsUnlinked tasks.old.items tasks.new.items pad) }
    ensures none { result ≡ None → NoneHas tasks.old.items pad × (tasks.new ≡ tasks.old) }
    ensures stands { (m : Moment) (tells : _) → NetStands m tasks.old.items tells → NetStands (unlinked pad m) tasks.new.items tells }
    ensures ready { (tells : _) → NetReady tasks.old.items tells → NetReady tasks.new.items tells }
    ensures moves { net_left tasks.new.items ≡ net_left tasks.old.items }
    ensures count { length tasks.new.items ≡ length tasks.old.items }
    ensures room { vec_capacity tasks.new ≡ vec_capacity tasks.old }
{
    match find_task(tasks.as_slice(), pad) {
        Some(place) => Some(unlink_at(tasks, place, pad)),
        None => None,
    }
}

/// The place of the task that has the source pad of a number.
pub(crate) fn find_task<
    S: TaskSource,
    E: TaskElement,
    I: Inlet<Out = O>,
    O: Outlet<Lanes = I::Lanes>,
>(tasks: &[Task<S, E, I, O>], pad: u32) -> Option<usize>
    ensures there { IfSome result (TaskHas tasks.now pad) }
    ensures none { result ≡ None → NoneHas tasks.now pad }
{
    for place in 0..tasks.len() {
        if has_pad(&tasks[place], pad) {
            return Some(place);
        }
    }
    None
}

/// Sets the probe at a pad of the task at a place, or takes it away.
fn probe_at<S: TaskSource, E: TaskElement, I: Inlet<Out = O>, O: Outlet<Lanes = I::Lanes>>(
    tasks: &mut Vec<Task<S, E, I, O>>,
    place: usize,
    pad: u32,
    probe: Option<Probe>,
)
    requires place { place < vec_len tasks.old }
    ensures { IsProbedAt tasks.old.items tasks.new.items place pad probe }
{
    let last = tasks.len() - 1;
    let task = tasks.swap_remove(place);
    tasks.push_reserved(task_edits::set_probe(task, pad, probe));
    tasks.swap(place, last);
}

/// Undoes the link of a pad of the task at a place, and gives where it led.
pub(crate) fn unlink_at<
    S: TaskSource,
    E: TaskElement,
    I: Inlet<Out = O>,
    O: Outlet<Lanes = I::Lanes>,
>(tasks: &mut Vec<Task<S, E, I, O>>, place: usize, pad: u32) -> Behind<O>
    requires place { place < vec_len tasks.old }
    ensures undone { IsUnlinkedAt tasks.old.items tasks.new.items place pad result }
    ensures back { (one : _) → IsFirstOf tasks.old.items place pad one → result ≡ one.behind }
    ensures room { vec_capacity tasks.new ≡ vec_capacity tasks.old }
{
    let last = tasks.len() - 1;
    let task = tasks.swap_remove(place);
    let (task, back) = task_edits::unlink(task, pad);
    tasks.push_reserved(task);
    tasks.swap(place, last);
    back
}
