//! Runs of lines with their scripts, by turns.
ghost use Rattle.std.specs.Prelude.{◌≡◌, ◌≢◌, ◌<◌, ◌^◌, ◌↔◌, ℕ, List, Ok, IfOk, IsTrue, length, take};
ghost use Rattle.graph_core.specs.Graph.{made as made_in};
ghost use Rattle.graph_core.specs.declared.graph.Graph.{Graph as Graphs};
ghost use Rattle.graph_edits.specs.Graph.{made as made_of};
ghost use Rattle.graph_order.specs.Marks.{is_marked};
ghost use Rattle.graph_parts.specs.Blanks.{blanks_in};
ghost use Rattle.graph_parts.specs.Files.{AreLocated, GraphOpens};
ghost use Rattle.graph_tasks.specs.Planned.{planned};
ghost use Rattle.gst_outside.specs.Seen.{Seen};
ghost use Rattle.net_turns.specs.declared.net.Stopped.{Stopped as StoppedOf};
ghost use Rattle.run_files.specs.Ends.{known_ends};
ghost use Rattle.script_text.specs.declared.command.Command.{Command as Commands};
ghost use Rattle.world_core.specs.Prepared.{HasRoom, IsReserved};
ghost use Rattle.world_core.specs.Probes.{StandFor};
ghost use Rattle.world_core.specs.Ran.{KnownHold, TellsEnd as TellsReport};
ghost use Rattle.world_core.specs.Scripts.{AreAllPlanned, IsControlOf, IsScriptEnd, ScriptBegins, ScriptEnded, ScriptStops, TellsEnd};
ghost use Rattle.world_core.specs.Stalled.{TellsTasks};
ghost use Rattle.world_core.specs.World.{IsBuilt, IsRunStatus, IsUnwritten};
ghost use Rattle.world_core.specs.declared.report.Stop.{Stop as StopOf};
ghost use Rattle.world_core.specs.declared.report.Stop.TheVariants.{Fault as StopAt};
ghost use Rattle.world_core.specs.declared.running.RunFault.TheVariants.{Stopped as AtFault};

use crate::ended::WorldEnd;
use crate::report::{Stop, end_of, without_counts};
use crate::run::{Counts, Ran, counts_for, not_begun};
use crate::running::{Ended, RunFault, Running};
use crate::script_laws::{runs_answer, runs_are_evaluated, runs_keep};
use crate::stall::{hold_nothing, is_over, stalled_tasks};
use crate::start::runs_begin;
use edit_acts::scripts::runs_are_evaluated as histories_are_evaluated;
use edit_core::Feeds;
use flow_model::{TaskElement, TaskSource};
use graph_core::Graph;
use graph_edits::EditedGraph;
use graph_parts::{Blanks, Count, Filled, bags_of, count_pads, openings_of, take_back};
use graph_tasks::{Plan, WiredTasks, wire_all};
use gst_outside::{Files, Sink, Source};
use gst_value::{List, OutOfMemory};
use lane_core::{Inlet, MemInlet, MemLanes, MemOutlet, Outlet};
use run_files::{End, Opening, close_all, open_all};
use run_report::{Fault, StalledTask};
use script_probes::ScriptProbes;
use script_text::{Command, Entry};
use std::alloc::Global;
use task_elements::{StreamElement, StreamSource};
use turn_order::{Order, Turns};

const OUT_OF_MEMORY: u8 = 13;

/// What a run of a script takes the memory for before a file is open.
#[derive(Drop)]
struct PreparedScript<S: Source, K: Sink>
where
    StreamSource<S>: TaskSource,
    StreamElement<K>: TaskElement,
{
    plan: Plan<StreamSource<S>, StreamElement<K>, MemInlet, MemOutlet>,
    blanks: Blanks<S, K>,
    counts: Counts,
    openings: Vec<Option<Opening>>,
    control: Control,
}

/// What control begins with.
#[derive(Drop)]
struct Control {
    /// How many tasks take turns: those of the elements with which tasks of the line begin.
    taking: usize,
    lanes: MemLanes,
    graph: EditedGraph,
    feeds: Feeds,
    script: Vec<Command>,
    probes: ScriptProbes,
    /// Room for how each command is answered.
    entries: Vec<Entry>,
}

/// Takes the memory for a run of a script before a file is open.
fn prepare_script<S: Source, K: Sink>(
    alloc: Global,
    graph: Graph,
    commands: List<Command>,
) -> Result<PreparedScript<S, K>, OutOfMemory>
    requires built { IsBuilt graph }
    ensures planned { IfOk result (λ p. AreAllPlanned ⟦<MemInlet as Inlet>⟧ ⟦<MemOutlet as Outlet>⟧ graph (planned p.plan) p.control.lanes) }
    ensures reserved { IfOk result (λ p. IsReserved graph p.counts.pads.items p.counts.lengths.items (blanks_in p.blanks) p.openings.items) }
    ensures control { IfOk result (λ p. IsControlOf graph commands p.control) }
{
    let WiredTasks { tasks, lanes } = wire_all(alloc, &graph)?;
    let plan = Plan::new(alloc, tasks)?;
    let blanks = Blanks::new(alloc, &graph)?;
    let counts = counts_for(alloc, &graph)?;
    let openings = openings_of(alloc, &graph)?;
    let taking = bags_of(alloc, &graph)?.len();
    let feeds = Feeds::new(alloc, graph.count())?;
    let script = commands.into_vec();
    let probes = probes_of(alloc, script.as_slice())?;
    let entries = Vec::with_capacity(alloc, script.len())?;
    let graph = EditedGraph::new(alloc, graph)?;
    let control = Control {
        taking,
        lanes,
        graph,
        feeds,
        script,
        probes,
        entries,
    };
    Ok(PreparedScript {
        plan,
        blanks,
        counts,
        openings,
        control,
    })
}

/// The probes of these commands. More than 32 bits can count are refused as wanting memory: there is no room for them.
fn probes_of(alloc: Global, commands: &[Command]) -> Result<ScriptProbes, OutOfMemory>
    ensures { IfOk result (λ probes. StandFor probes commands.now 0) }
{
    if commands.len() > u32::MAX as usize {
        return Err(OutOfMemory);
    }
    ScriptProbes::new(alloc, commands)
}

/// How a run of a script stopped, by what it leaves.
fn stop_of_script<S: TaskSource, E: TaskElement>(
    alloc: Global,
    ended: &Ended<S, E, MemInlet, MemOutlet>,
    ran: Result<(), RunFault>,
) -> Result<Stop, OutOfMemory>
    requires answered { ran ≡ Ok tt → length ended.now.steps.items ≡ length ended.now.tasks.items }
    ensures { IfOk result (ScriptStops ended.now ran) }
{
    match ran {
        Ok(()) => rest_of_script(alloc, ended),
        Err(fault) => stop_of_fault(fault),
    }
}

/// How a run stopped that met a fault: at that of a task, or of an element in an edit. Else it is as where memory is wanting.
fn stop_of_fault(why: RunFault) -> Result<Stop, OutOfMemory>
    ensures { IfOk result (λ stop. (stopped : StoppedOf) × (why ≡ AtFault stopped) × (stop ≡ StopAt stopped.fault)) }
{
    match why {
        RunFault::Stopped { stopped } => Ok(Stop::Fault(stopped.fault.into_fault())),
        RunFault::OutOfMemory => Err(OutOfMemory),
        RunFault::Undone => Err(OutOfMemory),
    }
}

/// Whether a run of a script that can't go on is over, or why it is not: a command waits, or tasks do.
fn rest_of_script<S: TaskSource, E: TaskElement>(
    alloc: Global,
    ended: &Ended<S, E, MemInlet, MemOutlet>,
) -> Result<Stop, OutOfMemory>
    requires answered { length ended.now.steps.items ≡ length ended.now.tasks.items }
    ensures { IfOk result (ScriptStops ended.now (Ok tt)) }
{
    let live = ended.graph.live_elements(alloc)?;
    if is_over_then(ended, live.as_slice()) {
        return Ok(Stop::Over);
    }
    Ok(Stop::Stalled {
        command: ended.waits,
        tasks: stalled_turns(alloc, ended)?,
    })
}

/// Whether no command is left, the run is over, by which elements are live, and nothing is left in the inlets of its tasks.
fn is_over_then<S: TaskSource, E: TaskElement>(
    ended: &Ended<S, E, MemInlet, MemOutlet>,
    live: &[bool],
) -> bool
    requires answered { length ended.now.steps.items ≡ length ended.now.tasks.items }
    ensures { IsTrue result ↔ TellsEnd ended.now (is_marked live.now) }
{
    if ended.waits.is_some() {
        return false;
    }
    let tasks = ended.tasks.as_slice();
    let steps = ended.steps.as_slice();
    is_over(ended.graph.elements(), live, tasks, steps) && hold_nothing(tasks, steps, &ended.lanes)
}

/// Why each task that takes turns can't move.
fn stalled_turns<S: TaskSource, E: TaskElement>(
    alloc: Global,
    ended: &Ended<S, E, MemInlet, MemOutlet>,
) -> Result<List<StalledTask>, OutOfMemory>
    requires answered { length ended.now.steps.items ≡ length ended.now.tasks.items }
    ensures { IfOk result (λ told. let turns = ended.now.taking in
        TellsTasks (made_of ended.now.graph) (take turns ended.now.tasks.items) (take turns ended.now.steps.items) told) }
{
    let taking = ended.taking.min(ended.tasks.len());
    stalled_tasks(
        alloc,
        ended.graph.elements(),
        &ended.tasks[..taking],
        &ended.steps[..taking],
    )
}

/// Runs a run of a script to its end, and takes its files back.
fn run_to_end<S: Source, K: Sink>(
    alloc: Global,
    mut run: Running<StreamSource<S>, StreamElement<K>, MemInlet, MemOutlet>,
    rest: Vec<Option<StreamElement<K>>>,
    left: Vec<Option<End<S, K>>>,
    counts: Counts,
    turns: Order,
) -> Ran<S, K>
    requires begun { (graph : Graphs) × (script : List Commands) × (before : Seen) × ScriptBegins S.Source K.Sink graph script run rest.items left.items before
        × HasRoom (length (made_in graph)) counts.pads.items counts.lengths.items }
    ensures ended { (graph : Graphs) (script : List Commands) (before : Seen) → ScriptBegins S.Source K.Sink graph script run rest.items left.items before
        → result.end.status ≢ 13 → ScriptEnded graph script before (KnownHold graph (known_ends S.Source K.Sink result.ends.items)) result.end }
    ensures located { (graph : Graphs) (script : List Commands) (before : Seen) → ScriptBegins S.Source K.Sink graph script run rest.items left.items before
        → AreLocated (made_in graph) (known_ends S.Source K.Sink result.ends.items) }
    ensures statuses { IsRunStatus result.end.status }
{
    let Counts {
        mut pads,
        mut lengths,
    } = counts;
    runs_answer::<StreamSource<S>, StreamElement<K>>();
    runs_keep::<StreamSource<S>, StreamElement<K>>();
    runs_are_evaluated::<StreamSource<S>, StreamElement<K>>();
    histories_are_evaluated::<StreamSource<S>, StreamElement<K>, MemInlet, MemOutlet>();
    let mut ends = left;
    let mut turns = Turns::new(turns);
    let ran = turn_loop::run(alloc, &mut run, &mut turns);
    let ended = run.end();
    count_pads(ended.tasks.as_slice(), &mut pads);
    count_pads(ended.removed.as_slice(), &mut pads);
    let stop = stop_of_script(alloc, &ended, ran);
    let Ended {
        tasks,
        removed,
        graph,
        entries,
        ..
    } = ended;
    let nothing = Vec::new(alloc);
    take_back(graph.elements(), tasks, rest, &mut ends, &mut lengths);
    take_back(graph.elements(), removed, nothing, &mut ends, &mut lengths);
    let told = told_script(
        alloc,
        &graph,
        stop,
        pads.as_slice(),
        lengths.as_slice(),
        entries,
    );
    match told {
        Ok(end) => Ran { end, ends },
        Err(OutOfMemory) => Ran {
            end: without_counts(alloc, OUT_OF_MEMORY, Fault::Nothing),
            ends,
        },
    }
}

/// How a run of a script ended, where there is memory to tell how it stopped.
fn told_script(
    alloc: Global,
    graph: &EditedGraph,
    stop: Result<Stop, OutOfMemory>,
    counts: &[Count],
    lengths: &[u64],
    entries: Vec<Entry>,
) -> Result<WorldEnd, OutOfMemory>
    ensures { IfOk result (λ end. (own : StopOf) × (stop ≡ Ok own) × TellsReport (made_of graph.now) own counts.now lengths.now entries.items end) }
{
    end_of(
        alloc,
        graph.elements(),
        stop?,
        counts,
        lengths,
        List::from_vec(entries),
    )
}

/// Begins a run of a script over the files of its elements, and runs it to its end.
fn run_script_opened<S: Source, K: Sink>(
    alloc: Global,
    prepared: PreparedScript<S, K>,
    ends: Vec<Option<End<S, K>>>,
    turns: Order,
) -> Ran<S, K>
    requires prepared { (graph : Graphs) × (script : List Commands) × IsBuilt graph
        × AreAllPlanned ⟦<MemInlet as Inlet>⟧ ⟦<MemOutlet as Outlet>⟧ graph (planned prepared.plan) prepared.control.lanes
        × IsReserved graph prepared.counts.pads.items prepared.counts.lengths.items (blanks_in prepared.blanks) prepared.openings.items
        × IsControlOf graph script prepared.control
        × ((before after : Seen) × GraphOpens S.Source K.Sink (made_in graph) ends.items before after) }
    ensures ended { (graph : Graphs) (script : List Commands) → IsBuilt graph
        → AreAllPlanned ⟦<MemInlet as Inlet>⟧ ⟦<MemOutlet as Outlet>⟧ graph (planned prepared.plan) prepared.control.lanes → IsControlOf graph script prepared.control
        → (before after : Seen) → GraphOpens S.Source K.Sink (made_in graph) ends.items before after → result.end.status ≢ 13
        → ScriptEnded graph script before (KnownHold graph (known_ends S.Source K.Sink result.ends.items)) result.end }
    ensures located { (graph : Graphs) (script : List Commands) → IsBuilt graph
        → AreAllPlanned ⟦<MemInlet as Inlet>⟧ ⟦<MemOutlet as Outlet>⟧ graph (planned prepared.plan) prepared.control.lanes → IsControlOf graph script prepared.control
        → (before after : Seen) → GraphOpens S.Source K.Sink (made_in graph) ends.items before after
        → AreLocated (made_in graph) (known_ends S.Source K.Sink result.ends.items) }
    ensures statuses { IsRunStatus result.end.status }
{
    runs_begin::<StreamSource<S>, StreamElement<K>, MemInlet, MemOutlet>();
    let PreparedScript {
        plan,
        blanks,
        counts,
        control,
        ..
    } = prepared;
    let Control {
        taking,
        lanes,
        graph,
        feeds,
        script,
        probes,
        entries,
    } = control;
    let Filled {
        mut elements,
        mut sources,
        left,
    } = blanks.fill(graph.elements(), ends);
    let tasks = plan.into_tasks(&mut elements, &mut sources);
    let run = Running::new(
        alloc, tasks, taking, lanes, graph, feeds, script, probes, entries,
    );
    run_to_end(alloc, run, elements, left, counts, turns)
}

/// Runs a launch line's graph by turns on one thread as the commands of a script edit it: opens the files of its elements in their order, moves
/// what its sources give along the links that stand, answers each command as soon as it can be answered, before every turn, and gives the files
/// back.
///
/// The tasks, their turns and the statuses are those of [`run_turns`]. The status is 0 where each command was answered and the run is over, so EOS came
/// to all sinks that are live in the graph as it was left. It is 12 too where the next command waits for a buffer that can't come.
pub fn run_script<F: Files>(
    alloc: Global,
    graph: Graph,
    commands: List<Command>,
    files: &mut F,
    turns: Order,
) -> WorldEnd
    requires built { IsBuilt graph }
    ensures ended { result.status ≢ 13 → IsScriptEnd graph commands (F.seen files.old) (F.seen files.new) result }
    ensures statuses { IsRunStatus result.status }
    ensures given_back { (F.seen files.old).ends < 2 ^ 63 → (F.seen files.new).ends ≡ (F.seen files.old).ends }
    ensures inputs { (l : List ℕ) → (F.seen files.new).input l ≡ (F.seen files.old).input l }
    ensures others { (l : List ℕ) → IsUnwritten graph l → (F.seen files.new).output l ≡ (F.seen files.old).output l }
{
    let prepared = match prepare_script(alloc, graph, commands) {
        Ok(prepared) => prepared,
        Err(OutOfMemory) => return without_counts(alloc, OUT_OF_MEMORY, Fault::Nothing),
    };
    let ends = match open_all(alloc, files, prepared.openings.as_slice()) {
        Ok(ends) => ends,
        Err(unopened) => return not_begun(alloc, prepared.openings.as_slice(), unopened),
    };
    let Ran { end, ends } = run_script_opened(alloc, prepared, ends, turns);
    close_all(files, ends);
    end
}
