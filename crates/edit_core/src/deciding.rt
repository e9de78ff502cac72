//! What becomes of the next command.
ghost use Rattle.std.specs.Prelude.{◌≡◌, ◌<◌, true, length, IfOk, IfSome};
ghost use Rattle.graph_edits.specs.Edited.{Edited};
ghost use Rattle.graph_edits.specs.Lawful.{command, places_at};
ghost use Rattle.graph_edits.specs.Graph.{IsEdited, IsPad, made};
ghost use Rattle.flow_model.specs.Moment.{Moment};
ghost use Rattle.script_text.specs.declared.answer.Answer.TheVariants.{Refused};
ghost use Rattle.script_text.specs.declared.command.Act.TheVariants.{Relink, Unlink, Remove};
ghost use Rattle.script_text.specs.declared.command.When.{When as Whens};
ghost use Rattle.edit_core.specs.Deciding.{IsReached, IsReachedBy, IsRuled, IsRuledAnyhow, names_its_pad, no_such, reason_of};
ghost use Rattle.edit_core.specs.Judging.{IsVerdict};
ghost use Rattle.edit_core.specs.Notes.{IsCurrent};
ghost use Rattle.edit_core.specs.declared.deciding.Ruling.TheVariants.{Answered};
ghost use Rattle.edit_core.specs.declared.judging.Verdict.TheVariants.{Reached};

use crate::feeds::Feeds;
use crate::judging::{Verdict, judge};
use crate::refusing::{LinkReason, link_refusal};
use flow_model::{TaskElement, TaskSource};
use graph_core::PadPlace;
use graph_edits::EditedGraph;
use graph_pads::Direction;
use gst_value::{List, OutOfMemory, PadName};
use lane_core::{Inlet, Outlet};
use net_task::Task;
use script_text::{Act, Answer, Command, Place, Reason};
use std::alloc::Global;

/// What is to be done for a command.
#[derive(Clone, Copy)]
pub enum Deed {
    /// The link of a source pad, where it has one, is undone, and the pad is linked to a sink pad.
    Relink {
        source: PadPlace,
        sink: PadPlace,
    },
    /// The link of a source pad to a sink pad is undone, with EOS or without.
    Unlink {
        source: PadPlace,
        sink: PadPlace,
        eos: bool,
    },
    /// The element that the command asks for is added, or refused for what speaks against it by itself.
    Add,
    /// An element is taken away.
    Remove {
        element: u32,
    },
}

/// What becomes of the next command.
#[derive(Drop)]
pub enum Ruling {
    /// It can't be answered yet.
    Waits,
    /// It is answered, and nothing is done.
    Answered {
        answer: Answer,
    },
    /// This is to be done, where so many items have crossed the source pad that it names; its entry names these places.
    ToDo {
        deed: Deed,
        items: u64,
        places: List<Place>,
    },
}

/// What becomes of the next command, by the graph as the commands before it left it and by what stands at the source pads of the
/// tasks. Nothing changes by that.
pub fn decide<S: TaskSource, E: TaskElement, I: Inlet<Out = O>, O: Outlet<Lanes = I::Lanes>>(
    alloc: Global,
    graph: &EditedGraph,
    feeds: &Feeds,
    tasks: &[Task<S, E, I, O>],
    command: &Command,
) -> Result<Ruling, OutOfMemory>
    ensures { IfOk result (λ ruling. (g : Edited) (m : Moment) (tells : _) → IsCurrent graph.now feeds.now tasks.now g m tells
        → names_its_pad command.now ≡ true → IsRuled g m tasks.now command.now ruling) }
{
    match judge(alloc, graph, tasks, command)? {
        Verdict::Waits => Ok(Ruling::Waits),
        Verdict::Missing => Ok(missing(alloc)),
        Verdict::Unreached => Ok(Ruling::Answered {
            answer: Answer::Unreached,
        }),
        Verdict::Reached { items } => decide_at(alloc, graph, feeds, tasks, command, items),
    }
}

/// Something that the command names is not there.
fn missing(alloc: Global) -> Ruling
    ensures { result ≡ no_such }
{
    refused(Reason::NoSuch, List::new(alloc))
}

fn refused(reason: Reason, places: List<Place>) -> Ruling
    ensures { result ≡ Answered (Refused reason places) }
{
    Ruling::Answered {
        answer: Answer::Refused { reason, places },
    }
}

/// Why a link is refused, as a report tells it.
fn reason_of(reason: LinkReason) -> Reason
    ensures { result ≡ reason_of reason }
{
    match reason {
        LinkReason::AfterEos => Reason::AfterEos,
        LinkReason::WasLinked => Reason::WasLinked,
        LinkReason::WouldLoop => Reason::WouldLoop,
        LinkReason::FedElsewhere => Reason::FedElsewhere,
        LinkReason::NoFormat => Reason::NoFormat,
    }
}

/// What becomes of a command that can be answered, where so many items have crossed the source pad that it names.
fn decide_at<S: TaskSource, E: TaskElement, I: Inlet<Out = O>, O: Outlet<Lanes = I::Lanes>>(
    alloc: Global,
    graph: &EditedGraph,
    feeds: &Feeds,
    tasks: &[Task<S, E, I, O>],
    command: &Command,
    items: u64,
) -> Result<Ruling, OutOfMemory>
    ensures { IfOk result (λ ruling. (g : Edited) (m : Moment) (tells : _) → IsCurrent graph.now feeds.now tasks.now g m tells
        → names_its_pad command.now ≡ true → IsVerdict g m tasks.now command.now (Reached items) → IsRuled g m tasks.now command.now ruling) }
{
    let source = graph.source(alloc, &command.when)?;
    let places = places_at(alloc, graph, source, items)?;
    match &command.act {
        Act::Relink { sink } => match source {
            Some(source) => decide_relink(alloc, graph, feeds, tasks, source, sink, items, places),
            None => Ok(missing(alloc)),
        },
        Act::Unlink { eos } => match source {
            Some(source) => Ok(decide_unlink(alloc, graph, source, *eos, items, places)),
            None => Ok(missing(alloc)),
        },
        Act::Add { .. } => Ok(Ruling::ToDo {
            deed: Deed::Add,
            items,
            places,
        }),
        Act::Remove { element } => Ok(decide_remove(alloc, graph, element.as_str(), items, places)),
    }
}

/// The place of the source pad that a command names, where it names one.
fn places_at(
    alloc: Global,
    graph: &EditedGraph,
    source: Option<PadPlace>,
    items: u64,
) -> Result<List<Place>, OutOfMemory>
    requires there { IfSome source (λ source. source.element < length (made graph.now)) }
    ensures { IfOk result (λ places. (g : Edited) → IsEdited graph.now g → places ≡ places_at g source items) }
{
    let mut places = List::new(alloc);
    if let Some(source) = source {
        let pad = graph.name(alloc, Direction::Source, source)?;
        places.push(alloc, Place { pad, items })?;
    }
    Ok(places)
}

/// What becomes of a relink of a source pad.
fn decide_relink<S: TaskSource, E: TaskElement, I: Inlet<Out = O>, O: Outlet<Lanes = I::Lanes>>(
    alloc: Global,
    graph: &EditedGraph,
    feeds: &Feeds,
    tasks: &[Task<S, E, I, O>],
    source: PadPlace,
    sink: &PadName,
    items: u64,
    places: List<Place>,
) -> Result<Ruling, OutOfMemory>
    requires source { IsPad graph.now Direction.Source source }
    ensures { IfOk result (λ ruling. (g : Edited) (m : Moment) (tells : _) (when : Whens) → IsCurrent graph.now feeds.now tasks.now g m tells
        → IsReachedBy g m (command when (Relink sink.now)) source items places → IsRuled g m tasks.now (command when (Relink sink.now)) ruling) }
{
    let Some(to) = graph.pad(alloc, Direction::Sink, sink)? else {
        return Ok(missing(alloc));
    };
    match link_refusal(alloc, graph, feeds, tasks, source, to)? {
        Some(reason) => Ok(refused(reason_of(reason), places)),
        None => Ok(Ruling::ToDo {
            deed: Deed::Relink { source, sink: to },
            items,
            places,
        }),
    }
}

/// What becomes of a command that undoes the link of a source pad.
fn decide_unlink(
    alloc: Global,
    graph: &EditedGraph,
    source: PadPlace,
    eos: bool,
    items: u64,
    places: List<Place>,
) -> Ruling
    ensures { (g : Edited) (m : Moment) (when : Whens) → IsEdited graph.now g → IsReachedBy g m (command when (Unlink eos)) source items places
        → IsRuledAnyhow g m (command when (Unlink eos)) result }
{
    match graph.sink_behind(source) {
        Some(sink) => Ruling::ToDo {
            deed: Deed::Unlink { source, sink, eos },
            items,
            places,
        },
        None => missing(alloc),
    }
}

/// What becomes of a command that takes the element of this name away.
fn decide_remove(
    alloc: Global,
    graph: &EditedGraph,
    name: &str,
    items: u64,
    places: List<Place>,
) -> Ruling
    ensures { (g : Edited) (m : Moment) (when : Whens) → IsEdited graph.now g → IsReached g m (command when (Remove name.now)) items places
        → IsRuledAnyhow g m (command when (Remove name.now)) result }
{
    let Some(element) = graph.find(name) else {
        return missing(alloc);
    };
    if graph.has_link(element) {
        return refused(Reason::WasLinked, places);
    }
    Ruling::ToDo {
        deed: Deed::Remove { element },
        items,
        places,
    }
}
