//! What takes turns in a run that commands edit.
ghost use Rattle.std.specs.Prelude.{◌≡◌, ◌≤◌, OnOk, vec_len, vec_capacity};
ghost use Rattle.world_core.specs.Numbered.{next_number};

use crate::watching::Watch;
use edit_core::Feeds;
use flow_model::{TaskElement, TaskSource};
use graph_edits::EditedGraph;
use gst_value::OutOfMemory;
use lane_core::{Inlet, MemInlet, MemOutlet, Outlet};
use net_task::Task;
use net_turns::{Stopped, has_moved, step_at, try_each};
use script_probes::ScriptProbes;
use script_text::{Command, Entry};
use std::alloc::Global;
use task_parts::Step;
use turn_loop::TakesTurns;

/// The last number of 32 bits but one.
const LAST_BUT_ONE: usize = 4294967294;

/// Why a run can't go on.
#[derive(Drop)]
pub enum RunFault {
    /// A task, or an element that control gave something in an edit, met a fault.
    Stopped { stopped: Stopped },
    /// Memory is wanting.
    OutOfMemory,
    /// The next command asks for something that control can't do yet: it can't add an element, or link a source that is asleep.
    Undone,
}

/// The probes of a script, and how many times one was set.
#[derive(Drop)]
pub struct Probing {
    /// Which command stops the next buffer of a pad.
    pub(crate) probes: ScriptProbes,
    /// How many times a pad got a probe: for each command at first, and behind each answer.
    pub(crate) count: usize,
}

/// A run that commands edit, which `run` of turn_loop takes to its end. Its tasks that take turns come first; the loose ones stand behind them.
#[derive(Drop)]
pub struct Running<S: TaskSource, E: TaskElement, I: Inlet<Out = O>, O: Outlet<Lanes = I::Lanes>> {
    pub(crate) tasks: Vec<Task<S, E, I, O>>,
    /// How many tasks take turns.
    pub(crate) taking: usize,
    pub(crate) lanes: I::Lanes,
    pub(crate) graph: EditedGraph,
    pub(crate) feeds: Feeds,
    /// The commands, in their order.
    pub(crate) script: Vec<Command>,
    /// How the first of them were answered.
    pub(crate) entries: Vec<Entry>,
    /// The tasks of elements that were taken away, with the files that they have open.
    pub(crate) removed: Vec<Task<S, E, I, O>>,
    /// What each task answered when all were tried at last.
    pub(crate) steps: Vec<Step>,
    pub(crate) probing: Probing,
    /// What is known of the next command.
    pub(crate) watch: Watch,
    ghost answered: { vec_len entries ≤ vec_len script },
    ghost room: { vec_len script ≤ vec_capacity entries },
}

/// What a run leaves.
#[derive(Drop)]
pub struct Ended<S: TaskSource, E: TaskElement, I: Inlet<Out = O>, O: Outlet<Lanes = I::Lanes>> {
    pub tasks: Vec<Task<S, E, I, O>>,
    /// What each of them answered when all were tried at last.
    pub steps: Vec<Step>,
    /// The tasks of elements that were taken away.
    pub removed: Vec<Task<S, E, I, O>>,
    pub graph: EditedGraph,
    /// How the first commands of the script were answered.
    pub entries: Vec<Entry>,
    /// How many tasks take turns: these come first.
    pub taking: usize,
    /// The lanes of the tasks.
    pub lanes: I::Lanes,
    /// The number of the next command, where one is left. The first has the number 1.
    pub waits: Option<u32>,
}

impl<S: TaskSource, E: TaskElement, I: Inlet<Out = O>, O: Outlet<Lanes = I::Lanes>> Running<
    S,
    E,
    I,
    O,
> {
    ghost use Rattle.std.specs.Prelude.{[], None, length};
    ghost use Rattle.world_core.specs.declared.watching.Watch.TheVariants.{Unasked};

    /// A run over these tasks, of which so many take turns and come first, with the graph and the feeders that control keeps. All commands
    /// are still to come, and none of them was looked up. There is room for how each is answered, so that it takes no memory.
    pub fn new(
        alloc: Global,
        tasks: Vec<Task<S, E, I, O>>,
        taking: usize,
        lanes: I::Lanes,
        graph: EditedGraph,
        feeds: Feeds,
        script: Vec<Command>,
        probes: ScriptProbes,
        entries: Vec<Entry>,
    ) -> Running<S, E, I, O>
        requires unanswered { entries.items ≡ [] }
        requires room { vec_len script ≤ vec_capacity entries }
        ensures tasks { (result.tasks ≡ tasks) × (result.taking ≡ taking) × (result.lanes ≡ lanes) }
        ensures control { (result.graph ≡ graph) × (result.feeds ≡ feeds) }
        ensures script { (result.script ≡ script) × (result.entries ≡ entries) }
        ensures probes { result.probing.probes ≡ probes }
        ensures unasked { result.watch ≡ Unasked }
        ensures notes { (result.removed.items ≡ []) × (result.steps.items ≡ []) }
    {
        Running {
            tasks,
            taking,
            lanes,
            graph,
            feeds,
            script,
            entries,
            removed: Vec::new(alloc),
            steps: Vec::new(alloc),
            probing: Probing { probes, count: 0 },
            watch: Watch::Unasked,
        }
    }

    /// How the first commands of the script were answered, in their order.
    pub fn entries(&self) -> &[Entry]
        ensures { result.now ≡ self.now.entries.items }
    {
        self.entries.as_slice()
    }

    /// Ends the run, and gives back all that it has.
    pub fn end(self) -> Ended<S, E, I, O>
        ensures tasks { (result.tasks ≡ self.tasks) × (result.steps ≡ self.steps) × (result.removed ≡ self.removed) }
        ensures control { (result.graph ≡ self.graph) × (result.entries ≡ self.entries) }
        ensures taking { (result.taking ≡ self.taking) × (result.lanes ≡ self.lanes) }
        ensures waits { result.waits ≡ next_number (length self.entries.items) (length self.script.items) }
        ensures all { result.waits ≡ None → length self.entries.items ≡ length self.script.items }
    {
        let waits = next_number(self.entries.len(), self.script.len());
        let Running {
            tasks,
            taking,
            steps,
            removed,
            lanes,
            graph,
            entries,
            ..
        } = self;
        Ended {
            tasks,
            steps,
            removed,
            graph,
            entries,
            taking,
            lanes,
            waits,
        }
    }
}

impl<S: TaskSource, E: TaskElement> TakesTurns for Running<S, E, MemInlet, MemOutlet> {
    ghost use Rattle.net_turns.specs.Net.{NetReady};
    ghost use Rattle.net_turns.specs.Turns.{net_left};
    ghost use Rattle.world_core.specs.Running.{HasMetAt, HasMetAsTried, IsStepped, IsTried, KeepsElements, taking_of, tells_of};
    ghost use Rattle.world_core.specs.Answering.{ActFails};
    ghost use Rattle.world_core.specs.Probing.{AreProbes, HasActed, Waits, acts_left};
    ghost use Rattle.world_core.specs.Watching.{IsWatched};

    type Fault = RunFault;

    ghost ready = { λ run. NetReady run.tasks.items (tells_of run) × AreProbes run × IsWatched run };

    ghost count = { taking_of };

    ghost acts_left = { acts_left };

    ghost moves_left = { λ run. net_left run.tasks.items };

    ghost acted = { λ was is. HasActed was is × KeepsElements was is };

    ghost waits = { Waits };

    ghost stepped = { IsStepped };

    ghost tried = { IsTried };

    ghost act_failed = { λ was is fault. ActFails was is fault × KeepsElements was is };

    ghost step_failed = { HasMetAt };

    ghost try_failed = { HasMetAsTried };

    fn count(&self) -> usize {
        self.taking.min(self.tasks.len())
    }

    fn act(&mut self, alloc: Global) -> Result<bool, RunFault> {
        match self.unprobed() {
            Some(place) => self.probe_at(alloc, place),
            None => {
                if self.is_unasked() {
                    return self.look_up(alloc);
                }
                if self.is_waiting() {
                    return Ok(false);
                }
                self.answer_next(alloc)
            }
        }
    }

    fn step(&mut self, alloc: Global, place: usize) -> Result<bool, RunFault> {
        match step_at(alloc, &mut self.tasks, place, &mut self.lanes) {
            Ok(step) => Ok(has_moved(step)),
            Err(stopped) => Err(RunFault::Stopped { stopped }),
        }
    }

    fn try_each(&mut self, alloc: Global) -> Result<bool, RunFault> {
        if fit(&mut self.steps, self.tasks.len()).is_err() {
            return Err(RunFault::OutOfMemory);
        }
        match try_each(alloc, &mut self.tasks, &mut self.steps, &mut self.lanes) {
            Ok(moved) => Ok(moved),
            Err(stopped) => Err(RunFault::Stopped { stopped }),
        }
    }
}

/// As many steps as there are tasks.
fn fit(steps: &mut Vec<Step>, count: usize) -> Result<(), OutOfMemory>
    ensures { OnOk result (vec_len steps.new ≡ count) }
{
    Ok(steps.resize(count, Step::Ended)?)
}

/// The number of the next of so many commands, where so many are answered and one is left. Behind the last number of 32 bits it is that.
fn next_number(answered: usize, commands: usize) -> Option<u32>
    ensures { result ≡ next_number answered commands }
{
    if answered >= commands {
        return None;
    }
    Some(answered.min(LAST_BUT_ONE) as u32 + 1)
}
