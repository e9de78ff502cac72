//! The probes of a script, which control sets at the pads of a run.
ghost use Rattle.std.specs.Prelude.{◌≡◌, ◌<◌, ◌-◌, ◌^◌, List, true, Ok, Some, IfErr, IfOk, IfSome, OnErr, OnOk, vec_len};
ghost use Rattle.flow_model.specs.Moment.{Moment};
ghost use Rattle.net_turns.specs.Net.{NetReady, NetStands};
ghost use Rattle.edit_acts.specs.Controlled.{IsControlled};
ghost use Rattle.edit_acts.specs.Files.{KeepFiles};
ghost use Rattle.graph_edits.specs.Edited.{Edited};
ghost use Rattle.graph_edits.specs.Graph.{IsEdited};
ghost use Rattle.std.specs.Option.{option_map};
ghost use Rattle.script_text.specs.declared.command.Command.{Command as Commands};
ghost use Rattle.world_core.specs.Answering.{IsAsItWas};
ghost use Rattle.world_core.specs.Probes.{StandFor, numbered};
ghost use Rattle.world_core.specs.Probing.{AreProbes, HasProbed, IsProbedFor, probes_left, unprobed};
ghost use Rattle.world_core.specs.declared.running.RunFault.TheVariants as faults;
ghost use Rattle.world_core.specs.Running.{KeepsElements, tells_of};
ghost use Rattle.world_core.specs.Watching.{IsWatched};

use crate::running::{RunFault, Running};
use edit_acts::probing::{probes_keep_control, probes_keep_files};
use flow_model::{TaskElement, TaskSource};
use graph_edits::EditedGraph;
use gst_value::OutOfMemory;
use lane_core::{Inlet, Outlet};
use net_edits::set_probe;
use net_task::Task;
use pad_core::Probe;
use script_probes::ScriptProbes;
use script_text::When;
use std::alloc::Global;

impl<S: TaskSource, E: TaskElement, I: Inlet<Out = O>, O: Outlet<Lanes = I::Lanes>> Running<
    S,
    E,
    I,
    O,
> {
    /// The place of the next command whose pad is to get a probe. At first that is each command in turn, and behind an answer the command that was
    /// answered, whose pad goes to the next one that waits there.
    pub(crate) fn unprobed(&self) -> Option<usize>
        ensures place { result ≡ unprobed self.now }
        ensures within { IfSome result (λ place. place < vec_len self.now.script) }
    {
        if self.probing.count < self.script.len() {
            return Some(self.probing.count);
        }
        let place = self.probing.count - self.script.len();
        if place < self.entries.len() {
            return Some(place);
        }
        None
    }

    /// Sets the probe at the pad of the command at a place: that of the first command, of those that are still to come, that waits there. Where none
    /// does the pad's probe is taken away.
    pub(crate) fn probe_at(&mut self, alloc: Global, place: usize) -> Result<bool, RunFault>
        requires next { unprobed self.old ≡ Some place }
        requires within { place < vec_len self.old.script }
        requires probes { AreProbes self.old }
        requires ready { NetReady self.old.tasks.items (tells_of self.old) }
        ensures ready { OnOk result (NetReady self.new.tasks.items (tells_of self.new)) }
        ensures probes { AreProbes self.new }
        ensures watched { IsWatched self.old → IsWatched self.new }
        ensures probed { IfOk result (λ done. (done ≡ true) × HasProbed self.old self.new place) }
        ensures less { result ≡ Ok true → probes_left self.new < probes_left self.old }
        ensures failed { IfErr result (λ fault. (fault ≡ faults.OutOfMemory) × IsAsItWas self.old self.new) }
        ensures elements { KeepsElements self.old self.new }
    {
        let answered = number_of(self.entries.len());
        let command = &self.script[place];
        match probe_pad(
            alloc,
            &self.graph,
            &mut self.tasks,
            &mut self.probing.probes,
            &command.when,
            answered,
        ) {
            Ok(()) => {
                self.probing.count += 1;
                Ok(true)
            }
            Err(_) => Err(RunFault::OutOfMemory),
        }
    }
}

/// A count of commands as a number of 32 bits.
fn number_of(count: usize) -> u32
    requires few { count < 2 ^ 32 }
    ensures { result ≡ count }
{
    count as u32
}

/// Sets the probe at the pad at which a command waits, or takes it away where no command that is still to come waits there.
fn probe_pad<S: TaskSource, E: TaskElement, I: Inlet<Out = O>, O: Outlet<Lanes = I::Lanes>>(
    alloc: Global,
    graph: &EditedGraph,
    tasks: &mut Vec<Task<S, E, I, O>>,
    probes: &mut ScriptProbes,
    when: &When,
    answered: u32,
) -> Result<(), OutOfMemory>
    requires stand { (commands : List Commands) × StandFor probes.old commands answered }
    ensures probed { OnOk result ((commands : List Commands) → StandFor probes.old commands answered → (g : Edited) → IsEdited graph.now g
        → IsProbedFor g commands answered tasks.old.items tasks.new.items when.now) }
    ensures stand { (commands : List Commands) → StandFor probes.old commands answered → StandFor probes.new commands answered }
    ensures ready { (tells : _) → NetReady tasks.old.items tells → NetReady tasks.new.items tells }
    ensures control { (control : _) (feeds : _) (g : Edited) (m : Moment) (tells : _) → IsControlled control feeds tasks.old.items g m tells
        → IsControlled control feeds tasks.new.items g m tells }
    ensures files { KeepFiles tasks.old.items tasks.new.items }
    ensures failed { OnErr result (tasks.new ≡ tasks.old) }
{
    probes_keep_control::<S, E, I, O>();
    probes_keep_files::<S, E, I, O>();
    let When::At { pad, .. } = when else {
        return Ok(());
    };
    let Some(source) = graph.source(alloc, when)? else {
        return Ok(());
    };
    let Some(number) = graph.source_number(source) else {
        unreachable!()
    };
    set_probe(tasks, number, numbered(probes.probe(pad, answered)));
    Ok(())
}

/// A probe by the number that its command has in a report: the first has the number 1.
fn numbered(probe: Option<Probe>) -> Option<Probe>
    requires fits { IfSome probe (λ stop. stop.command < 2 ^ 32 - 1) }
    ensures { result ≡ option_map numbered probe }
{
    match probe {
        Some(Probe { command, buffers }) => Some(Probe {
            command: command + 1,
            buffers,
        }),
        None => None,
    }
}
