//! What is known of the next command, so that between two answers what it names is looked up once.
ghost use Rattle.std.specs.Prelude.{◌≡◌, ◌<◌, true, IfErr, IfOk, OnOk, length, vec_len};
ghost use Rattle.world_core.specs.Answering.{IsAsItWas, NothingCanBeDone};
ghost use Rattle.world_core.specs.Running.{KeepsElements};
ghost use Rattle.world_core.specs.Watching.{HasLookedUp, IsWatchOf, IsWatched, WatchStands, looked_up, waits_yet};
ghost use Rattle.world_core.specs.declared.running.RunFault.TheVariants as faults;
ghost use Rattle.world_core.specs.declared.watching.Watch.TheVariants as watches;

use crate::running::{RunFault, Running};
use flow_model::{TaskElement, TaskSource};
use graph_edits::EditedGraph;
use gst_value::OutOfMemory;
use lane_core::{Inlet, Outlet};
use net_edits::see_pad;
use script_text::{Command, When};
use std::alloc::Global;
use task_edits::SeenPad;

/// What is known of the next command.
#[derive(Clone, Copy)]
pub enum Watch {
    /// What it names was not looked up yet.
    Unasked,
    /// It waits for no buffer, or something that it names is not there: what becomes of it is to be told before every turn.
    Open,
    /// All that it names is there, and it waits for the buffer of this number at the source pad of this number.
    At { pad: u32, buffers: u64 },
}

impl<S: TaskSource, E: TaskElement, I: Inlet<Out = O>, O: Outlet<Lanes = I::Lanes>> Running<
    S,
    E,
    I,
    O,
> {
    /// Whether a command is left, and what the next one names was not looked up yet.
    pub(crate) fn is_unasked(&self) -> bool
        ensures { result ≡ true → (vec_len self.now.entries < vec_len self.now.script) × (self.now.watch ≡ watches.Unasked) }
    {
        match self.watch {
            Watch::Unasked => self.entries.len() < self.script.len(),
            Watch::Open => false,
            Watch::At { .. } => false,
        }
    }

    /// Whether the next command is seen to wait: all that it names is there, its buffer does not stand at its pad, and the stream there has not
    /// ended before it. Nothing is looked up for that but the pad.
    pub(crate) fn is_waiting(&self) -> bool
        requires watched { IsWatched self.now }
        ensures { result ≡ true → NothingCanBeDone self.now }
    {
        match self.watch {
            Watch::Unasked => false,
            Watch::Open => false,
            Watch::At { pad, buffers } => waits_yet(buffers, see_pad(&self.tasks, pad)),
        }
    }

    /// Looks up what the next command names, and notes whether it waits for a buffer.
    pub(crate) fn look_up(&mut self, alloc: Global) -> Result<bool, RunFault>
        requires some { vec_len self.old.entries < vec_len self.old.script }
        requires unasked { self.old.watch ≡ watches.Unasked }
        ensures looked { IfOk result (λ done. (done ≡ true) × HasLookedUp self.old self.new) }
        ensures watched { OnOk result (IsWatched self.new) }
        ensures failed { IfErr result (λ fault. (fault ≡ faults.OutOfMemory) × IsAsItWas self.old self.new) }
        ensures elements { KeepsElements self.old self.new }
    {
        match self.next_watch(alloc) {
            Ok(watch) => {
                self.watch = watch;
                Ok(true)
            }
            Err(_) => Err(RunFault::OutOfMemory),
        }
    }

    /// What is to be known of the next command.
    fn next_watch(&self, alloc: Global) -> Result<Watch, OutOfMemory>
        ensures { IfOk result (λ watch. (looked_up watch ≡ 1) × WatchStands self.now.graph self.now.script.items (length self.now.entries.items) watch) }
    {
        match self.script.get(self.entries.len()) {
            Some(command) => watch_of(alloc, &self.graph, command),
            None => Ok(Watch::Open),
        }
    }
}

/// What is to be known of a command where it is the next one.
fn watch_of(alloc: Global, graph: &EditedGraph, command: &Command) -> Result<Watch, OutOfMemory>
    ensures { IfOk result (IsWatchOf graph.now command.now) }
{
    let When::At { buffers, .. } = &command.when else {
        return Ok(Watch::Open);
    };
    if !graph.has_all(alloc, command)? {
        return Ok(Watch::Open);
    }
    let Some(source) = graph.source(alloc, &command.when)? else {
        return Ok(Watch::Open);
    };
    match graph.source_number(source) {
        Some(pad) => Ok(Watch::At {
            pad,
            buffers: *buffers,
        }),
        None => Ok(Watch::Open),
    }
}

/// Whether the stream that is seen has not ended before the buffer of this number, and the buffer does not stand there.
fn waits_yet(buffers: u64, seen: SeenPad) -> bool
    ensures { result ≡ waits_yet buffers seen }
{
    if seen.has_ended && seen.buffers <= buffers {
        return false;
    }
    if seen.buffers == buffers && seen.first_is_buffer == Some(true) {
        return false;
    }
    true
}
