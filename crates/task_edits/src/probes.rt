//! Probes of commands at the source pads of a task.
ghost use Rattle.std.specs.Prelude.{◌≡◌, ◌<◌, vec_len};
ghost use Rattle.flow_model.specs.Moment.{Moment};
ghost use Rattle.net_task.specs.Fuel.{moves_left};
ghost use Rattle.net_task.specs.Ready.{IsReady};
ghost use Rattle.net_task.specs.Ties.{Ties};
ghost use Rattle.task_edits.specs.Changes.{Changed, HeadChanged, PartChanged, ProbedBy};

use crate::places::{PadAt, find};
use flow_model::{TaskElement, TaskSource};
use lane_core::{Inlet, Outlet};
use net_task::Task;
use pad_core::Probe;
use task_parts::{Head, Part};

/// Sets the probe of a command at the source pad of a number, or takes its probe away. What crossed the pad and what waits
/// at it stays. A task that has no such pad stays as it is.
pub fn set_probe<S: TaskSource, E: TaskElement, I: Inlet<Out = O>, O: Outlet<Lanes = I::Lanes>>(
    task: Task<S, E, I, O>,
    pad: u32,
    probe: Option<Probe>,
) -> Task<S, E, I, O>
    ensures changed { Changed (ProbedBy probe) (Unit {0}) pad task.head task.parts.items result.head result.parts.items }
    ensures ties { (m : Moment) → Ties task m → Ties result m }
    ensures ready { (tells : _) → IsReady tells task → IsReady tells result }
    ensures moves { moves_left result ≡ moves_left task }
{
    let (mut head, mut parts) = task.into_parts();
    probe_in(&mut head, &mut parts, pad, probe);
    Task::new(head, parts)
}

/// Sets the probe at the pad of a number of these parts, or takes it away.
fn probe_in<S: TaskSource, E: TaskElement, I: Inlet<Out = O>, O: Outlet<Lanes = I::Lanes>>(
    head: &mut Head<S, I, O>,
    parts: &mut Vec<Part<E, O>>,
    pad: u32,
    probe: Option<Probe>,
)
    ensures { Changed (ProbedBy probe) (Unit {0}) pad head.old parts.old.items head.new parts.new.items }
{
    match find(head, parts.as_slice(), pad) {
        Some(PadAt::Source) => probe_head(head, probe),
        Some(PadAt::Part { place, port }) => probe_part(&mut parts[place], port, probe),
        None => {}
    }
}

/// Sets the probe at the pad of a source, or takes it away.
fn probe_head<S: TaskSource, I, O: Outlet>(head: &mut Head<S, I, O>, probe: Option<Probe>)
    ensures { HeadChanged (ProbedBy probe) head.old head.new }
{
    if let Head::Source(source) = head {
        match probe {
            Some(Probe { command, buffers }) => source.block(command, buffers),
            None => source.unblock(),
        }
    }
}

/// Sets the probe at the pad of a port of an element, or takes it away.
fn probe_part<E: TaskElement, O: Outlet>(part: &mut Part<E, O>, port: usize, probe: Option<Probe>)
    requires { port < vec_len part.old.pads }
    ensures { PartChanged (ProbedBy probe) port part.old part.new }
{
    match probe {
        Some(Probe { command, buffers }) => part.block(port, command, buffers),
        None => part.unblock(port),
    }
}
