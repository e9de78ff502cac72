//! Runs of lines by turns.
ghost use Rattle.std.specs.Prelude.{◌≡◌, ◌≢◌, ◌<◌, ◌^◌, ℕ, List, [], Option, Some, Ok, IfOk, IfErr, length, slice_get};
ghost use Rattle.graph_core.specs.Graph.{made as made_in};
ghost use Rattle.graph_parts.specs.Blanks.{blanks_in};
ghost use Rattle.graph_parts.specs.Files.{AreLocated, GraphOpens};
ghost use Rattle.graph_tasks.specs.Planned.{planned};
ghost use Rattle.gst_outside.specs.Seen.{Seen};
ghost use Rattle.flow_model.specs.Moment.{Moment};
ghost use Rattle.net_turns.specs.Net.{NetReady, NetStands};
ghost use Rattle.net_turns.specs.Rests.{AllFramed, NetEnded, NetFaulted};
ghost use Rattle.net_turns.specs.Turns.{RunBy, stop_of};
ghost use Rattle.run_files.specs.Ends.{known_ends};
ghost use Rattle.run_files.specs.Opening.{IsUnopened, location_of as location_in};
ghost use Rattle.run_files.specs.declared.end.Opening.{Opening as Openings};
ghost use Rattle.turn_order.specs.declared.turns.Turns.{Turns as TurnsOf};
ghost use Rattle.world_core.specs.Ended.{HasEnded};
ghost use Rattle.world_core.specs.Prepared.{ArePlanned, HasRoom, IsReserved};
ghost use Rattle.world_core.specs.Ran.{KnownFailed, KnownHold, StopsAs, TellsEnd};
ghost use Rattle.world_core.specs.Start.{IsStarted};
ghost use Rattle.world_core.specs.Turned.{RanByTurns};
ghost use Rattle.world_core.specs.declared.report.Stop.{Stop as StopOf};
ghost use Rattle.world_core.specs.World.{IsBuilt, IsRunStatus, IsUnwritten, IsWorldEnd, NotBegun};

use crate::ended::WorldEnd;
use crate::laws::runs_are_known;
use crate::pads::MOST_PADS;
use crate::report::{Stop, end_of, without_counts};
use crate::stall::{is_over, stalled_tasks};
use flow_model::{TaskElement, TaskSource};
use graph_core::Graph;
use graph_parts::{Blanks, Count, Filled, count_pads, openings_of, take_back};
use graph_tasks::{Plan, WiredTasks, wire};
use gst_outside::{Files, Sink, Source};
use gst_value::{List, OutOfMemory, Text};
use lane_core::{Inlet, MemInlet, MemLanes, MemOutlet, Outlet};
use net_task::Task;
use net_turns::{Stopped, run_tasks};
use run_files::{End, Opening, Unopened, close_all, open_all};
use run_report::Fault;
use std::alloc::Global;
use task_elements::{StreamElement, StreamSource};
use task_parts::Step;
use turn_order::{Order, Turns};

const OUT_OF_MEMORY: u8 = 13;

const OPEN_FAULT: u8 = 6;

/// Room for what a run counts.
#[derive(Drop)]
pub(crate) struct Counts {
    /// What crossed the source pads, by their numbers.
    pub(crate) pads: Vec<Count>,
    /// The lengths of the files of filesinks, in bytes, in the order of the elements.
    pub(crate) lengths: Vec<u64>,
}

/// What a run takes the memory for before a file is open.
#[derive(Drop)]
struct Prepared<S: Source, K: Sink>
where
    StreamSource<S>: TaskSource,
    StreamElement<K>: TaskElement,
{
    plan: Plan<StreamSource<S>, StreamElement<K>, MemInlet, MemOutlet>,
    /// Room for what each task answers at last.
    steps: Vec<Step>,
    lanes: MemLanes,
    blanks: Blanks<S, K>,
    counts: Counts,
    openings: Vec<Option<Opening>>,
}

/// The tasks of a graph with room for what each answers at last, the elements that are of none, by their numbers, and the
/// ends of files that no element has.
struct Begun<S: Source, K: Sink, I: Inlet<Out = O>, O: Outlet<Lanes = I::Lanes>>
where
    StreamSource<S>: TaskSource,
    StreamElement<K>: TaskElement,
{
    tasks: Vec<Task<StreamSource<S>, StreamElement<K>, I, O>>,
    steps: Vec<Step>,
    rest: Vec<Option<StreamElement<K>>>,
    left: Vec<Option<End<S, K>>>,
}

/// How a run ended, with the files of its elements.
pub(crate) struct Ran<S, K> {
    pub(crate) end: WorldEnd,
    pub(crate) ends: Vec<Option<End<S, K>>>,
}

/// Room for what the elements of a graph count.
pub(crate) fn counts_for(alloc: Global, graph: &Graph) -> Result<Counts, OutOfMemory>
    ensures { IfOk result (λ counts. HasRoom (length (made_in graph.now)) counts.pads.items counts.lengths.items) }
{
    let nothing = Count {
        items: 0,
        buffers: 0,
    };
    Ok(Counts {
        pads: vec![in alloc; nothing; (graph.count() * MOST_PADS) as usize]?,
        lengths: vec![in alloc; 0; graph.count() as usize]?,
    })
}

/// Room for what so many tasks answer.
fn steps_for(alloc: Global, count: usize) -> Result<Vec<Step>, OutOfMemory>
    ensures { IfOk result (λ steps. length steps.items ≡ count) }
{
    Ok(vec![in alloc; Step::Ended; count]?)
}

/// Takes the memory for a run before a file is open.
fn prepare<S: Source, K: Sink>(alloc: Global, graph: &Graph) -> Result<Prepared<S, K>, OutOfMemory>
    requires built { IsBuilt graph.now }
    ensures planned { IfOk result (λ p. ArePlanned ⟦<MemInlet as Inlet>⟧ ⟦<MemOutlet as Outlet>⟧ graph.now (planned p.plan) p.lanes) }
    ensures reserved { IfOk result (λ p. IsReserved graph.now p.counts.pads.items p.counts.lengths.items (blanks_in p.blanks) p.openings.items) }
    ensures steps { IfOk result (λ p. length p.steps.items ≡ length (planned p.plan)) }
{
    let WiredTasks { tasks, lanes } = wire(alloc, graph)?;
    let steps = steps_for(alloc, tasks.len())?;
    Ok(Prepared {
        plan: Plan::new(alloc, tasks)?,
        steps,
        lanes,
        blanks: Blanks::new(alloc, graph)?,
        counts: counts_for(alloc, graph)?,
        openings: openings_of(alloc, graph)?,
    })
}

/// How tasks stopped, by the steps that they answered at last.
fn stop_in<S: TaskSource, E: TaskElement, I: Inlet<Out = O>, O: Outlet<Lanes = I::Lanes>>(
    alloc: Global,
    graph: &Graph,
    tasks: &[Task<S, E, I, O>],
    steps: &[Step],
    ran: Result<(), Stopped>,
) -> Result<Stop, OutOfMemory>
    requires { length steps.now ≡ length tasks.now }
    ensures { IfOk result (StopsAs graph.now tasks.now steps.now (stop_of ran)) }
{
    if let Err(stopped) = ran {
        return Ok(Stop::Fault(stopped.fault.into_fault()));
    }
    if is_over(graph.elements(), graph.live_marks(), tasks, steps) {
        return Ok(Stop::Over);
    }
    Ok(Stop::Stalled {
        command: None,
        tasks: stalled_tasks(alloc, graph.elements(), tasks, steps)?,
    })
}

/// How a run ended, where there is memory to tell how its tasks stopped.
fn told_end(
    alloc: Global,
    graph: &Graph,
    stop: Result<Stop, OutOfMemory>,
    counts: &[Count],
    lengths: &[u64],
) -> Result<WorldEnd, OutOfMemory>
    ensures { IfOk result (λ end. (own : StopOf) × (stop ≡ Ok own) × TellsEnd (made_in graph.now) own counts.now lengths.now [] end) }
{
    end_of(
        alloc,
        graph.elements(),
        stop?,
        counts,
        lengths,
        List::new(alloc),
    )
}

/// Runs all tasks by turns. Where they end, `steps` has what each answered at last.
fn run_all<S: TaskSource, E: TaskElement, I: Inlet<Out = O>, O: Outlet<Lanes = I::Lanes>>(
    alloc: Global,
    tasks: &mut Vec<Task<S, E, I, O>>,
    steps: &mut Vec<Step>,
    lanes: &mut I::Lanes,
    turns: Order,
) -> Result<(), Stopped>
    requires ready { NetReady tasks.old.items (O.tells lanes.old) }
    requires steps { length steps.old.items ≡ length tasks.old.items }
    ensures ended { IfOk result (λ done. (m : Moment) → NetStands m tasks.old.items (O.tells lanes.old)
        → NetEnded m tasks.new.items steps.new.items (O.tells lanes.new)) }
    ensures faulted { IfErr result (λ stop. (m : Moment) → NetStands m tasks.old.items (O.tells lanes.old)
        → NetFaulted m tasks.new.items stop.task stop.fault) }
    ensures turned { (next : TurnsOf) × RunBy turns 0 tasks.old.items (O.tells lanes.old) next (stop_of result) tasks.new.items }
    ensures frames { AllFramed tasks.old.items tasks.new.items }
    ensures count { length tasks.new.items ≡ length tasks.old.items }
    ensures steps { length steps.new.items ≡ length tasks.new.items }
{
    let mut turns = Turns::new(turns);
    run_tasks(alloc, tasks, steps, lanes, &mut turns)
}

/// Runs tasks by turns, and takes their files back.
fn run_made<S: Source, K: Sink, I: Inlet<Out = O>, O: Outlet<Lanes = I::Lanes>>(
    alloc: Global,
    graph: &Graph,
    begun: Begun<S, K, I, O>,
    lanes: &mut I::Lanes,
    counts: Counts,
    turns: Order,
) -> Ran<S, K>
    requires started { (before : Seen) × IsStarted S.Source K.Sink graph.now begun.tasks.items begun.rest.items begun.left.items (O.tells lanes.old) before }
    requires room { HasRoom (length (made_in graph.now)) counts.pads.items counts.lengths.items }
    requires steps { length begun.steps.items ≡ length begun.tasks.items }
    ensures ended { (before : Seen) → IsStarted S.Source K.Sink graph.now begun.tasks.items begun.rest.items begun.left.items (O.tells lanes.old) before
        → result.end.status ≢ 13
        → let known = known_ends S.Source K.Sink result.ends.items in HasEnded graph.now before (KnownHold graph.now known) (KnownFailed known) result.end }
    ensures located { (before : Seen) → IsStarted S.Source K.Sink graph.now begun.tasks.items begun.rest.items begun.left.items (O.tells lanes.old) before
        → AreLocated (made_in graph.now) (known_ends S.Source K.Sink result.ends.items) }
    ensures turned { (before : Seen) → IsStarted S.Source K.Sink graph.now begun.tasks.items begun.rest.items begun.left.items (O.tells lanes.old) before
        → result.end.status ≢ 13
        → RanByTurns ⟦<StreamSource<S> as TaskSource>⟧ ⟦<StreamElement<K> as TaskElement>⟧ I.Inlet O.Outlet S.Source K.Sink graph.now turns before result.end }
    ensures entries { result.end.report.entries ≡ [] }
    ensures statuses { IsRunStatus result.end.status }
{
    let Begun {
        mut tasks,
        mut steps,
        rest,
        left: mut ends,
    } = begun;
    let Counts {
        mut pads,
        mut lengths,
    } = counts;
    runs_are_known::<S, K, I, O>();
    let ran = run_all(alloc, &mut tasks, &mut steps, lanes, turns);
    count_pads(tasks.as_slice(), &mut pads);
    let stop = stop_in(alloc, graph, tasks.as_slice(), steps.as_slice(), ran);
    take_back(graph.elements(), tasks, rest, &mut ends, &mut lengths);
    let told = told_end(alloc, graph, stop, pads.as_slice(), lengths.as_slice());
    match told {
        Ok(end) => Ran { end, ends },
        Err(OutOfMemory) => Ran {
            end: without_counts(alloc, OUT_OF_MEMORY, Fault::Nothing),
            ends,
        },
    }
}

/// Runs the tasks of what was prepared, over the files of its elements.
fn run_opened<S: Source, K: Sink>(
    alloc: Global,
    graph: &Graph,
    prepared: Prepared<S, K>,
    ends: Vec<Option<End<S, K>>>,
    turns: Order,
) -> Ran<S, K>
    requires built { IsBuilt graph.now }
    requires planned { ArePlanned ⟦<MemInlet as Inlet>⟧ ⟦<MemOutlet as Outlet>⟧ graph.now (planned prepared.plan) prepared.lanes }
    requires reserved { IsReserved graph.now prepared.counts.pads.items prepared.counts.lengths.items (blanks_in prepared.blanks) prepared.openings.items }
    requires steps { length prepared.steps.items ≡ length (planned prepared.plan) }
    requires opened { (before after : Seen) × GraphOpens S.Source K.Sink (made_in graph.now) ends.items before after }
    ensures ended { (before after : Seen) → GraphOpens S.Source K.Sink (made_in graph.now) ends.items before after → result.end.status ≢ 13
        → let known = known_ends S.Source K.Sink result.ends.items in HasEnded graph.now before (KnownHold graph.now known) (KnownFailed known) result.end }
    ensures located { (before after : Seen) → GraphOpens S.Source K.Sink (made_in graph.now) ends.items before after
        → AreLocated (made_in graph.now) (known_ends S.Source K.Sink result.ends.items) }
    ensures turned { (before after : Seen) → GraphOpens S.Source K.Sink (made_in graph.now) ends.items before after → result.end.status ≢ 13
        → RanByTurns ⟦<StreamSource<S> as TaskSource>⟧ ⟦<StreamElement<K> as TaskElement>⟧ ⟦<MemInlet as Inlet>⟧ ⟦<MemOutlet as Outlet>⟧
        S.Source K.Sink graph.now turns before result.end }
    ensures entries { result.end.report.entries ≡ [] }
    ensures statuses { IsRunStatus result.end.status }
{
    let Prepared {
        plan,
        steps,
        mut lanes,
        blanks,
        counts,
        ..
    } = prepared;
    let Filled {
        mut elements,
        mut sources,
        left,
    } = blanks.fill(graph.elements(), ends);
    let tasks = plan.into_tasks(&mut elements, &mut sources);
    let begun = Begun {
        tasks,
        steps,
        rest: elements,
        left,
    };
    run_made(alloc, graph, begun, &mut lanes, counts, turns)
}

/// The location of an opening.
fn location_of(
    alloc: Global,
    openings: &[Option<Opening>],
    place: usize,
) -> Result<Text, OutOfMemory>
    ensures { IfOk result (λ location. (opening : Openings) → slice_get openings.now place ≡ Some (Some opening) → location ≡ location_in opening) }
{
    match openings.get(place) {
        Some(Some(Opening::Read(location))) => location.copy(alloc),
        Some(Some(Opening::Write(location))) => location.copy(alloc),
        Some(None) | None => Ok(Text::new(alloc)),
    }
}

/// The end of a run that did not begin.
pub(crate) fn not_begun(alloc: Global, openings: &[Option<Opening>], unopened: Unopened) -> WorldEnd
    ensures ended { result.status ≢ 13 → (before after : Seen) → IsUnopened openings.now before after unopened → NotBegun openings.now before after result }
    ensures statuses { IsRunStatus result.status }
{
    let location = match unopened {
        Unopened::Failed { place } => location_of(alloc, openings, place),
        Unopened::OutOfMemory => Err(OutOfMemory),
    };
    match location {
        Ok(location) => without_counts(alloc, OPEN_FAULT, Fault::OpenFault { location }),
        Err(OutOfMemory) => without_counts(alloc, OUT_OF_MEMORY, Fault::Nothing),
    }
}

/// Runs a launch line's graph by turns on one thread: opens the files of its elements in their order, moves what its
/// sources give along its links, and gives the files back.
///
/// There is a task for each source, each queue and each element that brings streams together. Each turn steps the task whose
/// place among them is the order's next number modulo their count. A filesink's file begins empty.
///
/// The status is 0 where the run is over, so EOS came to all live sinks, 6 where a location could not be opened, 7 and 8 where a
/// source could not be read or a filesink not be written, 9, 10 and 15 where an element's rule refuses an item, 11 where a
/// buffer is owed to a pad without a link, 12 where no task can go on and the run is not over, 13 where memory is wanting, and
/// 15 where more than 2^40 items were to cross a pad.
pub fn run_turns<F: Files>(alloc: Global, graph: Graph, files: &mut F, turns: Order) -> WorldEnd
    requires built { IsBuilt graph }
    ensures ended { result.status ≢ 13 → IsWorldEnd graph (F.seen files.old) (F.seen files.new) result }
    ensures turned { result.status ≢ 13 → result.status ≢ 6
        → RanByTurns ⟦<StreamSource<F::Src> as TaskSource>⟧ ⟦<StreamElement<F::Snk> as TaskElement>⟧ ⟦<MemInlet as Inlet>⟧ ⟦<MemOutlet as Outlet>⟧
        F.Src.Source F.Snk.Sink graph turns (F.seen files.old) result }
    ensures statuses { IsRunStatus result.status }
    ensures given_back { (F.seen files.old).ends < 2 ^ 63 → (F.seen files.new).ends ≡ (F.seen files.old).ends }
    ensures inputs { (l : List ℕ) → (F.seen files.new).input l ≡ (F.seen files.old).input l }
    ensures others { (l : List ℕ) → IsUnwritten graph l → (F.seen files.new).output l ≡ (F.seen files.old).output l }
{
    let prepared = match prepare(alloc, &graph) {
        Ok(prepared) => prepared,
        Err(OutOfMemory) => return without_counts(alloc, OUT_OF_MEMORY, Fault::Nothing),
    };
    let ends = match open_all(alloc, files, prepared.openings.as_slice()) {
        Ok(ends) => ends,
        Err(unopened) => return not_begun(alloc, prepared.openings.as_slice(), unopened),
    };
    let Ran { end, ends } = run_opened(alloc, &graph, prepared, ends, turns);
    close_all(files, ends);
    end
}
