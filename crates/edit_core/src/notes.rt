//! What one pass along the links finds of each element.
ghost use Rattle.std.specs.Prelude.{◌≡◌, ◌<◌, ◌||◌, Some, IfOk, length, option_and_then, slice_set};
ghost use Rattle.graph_edits.specs.Edited.{Edited, spans_at};
ghost use Rattle.graph_edits.specs.Refused.{first_giver};
ghost use Rattle.el_settings.specs.Asked.{is_queue, makes_sinks};
ghost use Rattle.graph_core.specs.GraphPlan.{owner_of, sink_at};
ghost use Rattle.graph_pads.specs.Links.{source_before};
ghost use Rattle.flow_model.specs.Moment.{Moment};
ghost use Rattle.edit_core.specs.Notes.{AreNoted, AreNotedBefore, IsCurrent, IsNoted, head_note, is_foreign, no_note, note_of, plain_note, task_feeder};

use crate::feeds::{Feeds, given_by};
use el_settings::Settings;
use flow_model::{TaskElement, TaskSource};
use graph_core::PadPlace;
use graph_edits::EditedGraph;
use gst_value::OutOfMemory;
use lane_core::{Inlet, Outlet};
use net_edits::see_pad;
use net_task::Task;
use std::alloc::Global;

/// How many numbers an element has for its source pads.
const MOST_PADS: u32 = 64;

/// What is found of an element.
#[derive(Clone, Copy)]
pub(crate) struct Note {
    /// The head of its task. None where it is loose.
    pub(crate) head: Option<u32>,
    /// The head from which all came that it was given first. None where it was given nothing.
    pub(crate) feeder: Option<u32>,
    /// Whether it is reached from the element where the pass begins, over no lane.
    pub(crate) is_reached: bool,
}

impl Note {
    /// Nothing is found.
    fn none() -> Note
        ensures { result ≡ no_note }
    {
        Note {
            head: None,
            feeder: None,
            is_reached: false,
        }
    }

    /// A head is its own head and its own feeder.
    fn of_head(element: u32, is_reached: bool) -> Note
        ensures { result ≡ head_note element is_reached }
    {
        Note {
            head: Some(element),
            feeder: Some(element),
            is_reached,
        }
    }

    /// What feeds the task of the element, or the element itself where it is loose.
    pub(crate) fn task_feeder(self) -> Option<u32>
        ensures { result ≡ task_feeder self }
    {
        if self.head.is_some() {
            return self.head;
        }
        self.feeder
    }

    /// Whether the element is reached and has another feeder.
    pub(crate) fn is_foreign(self, own: u32) -> bool
        ensures { result ≡ is_foreign own self }
    {
        let Some(feeder) = self.feeder else {
            return false;
        };
        self.is_reached && feeder != own
    }
}

/// What is found of an element, where it is there.
pub(crate) fn note_of(notes: &[Note], element: u32) -> Note
    ensures { result ≡ note_of notes.now element }
{
    if (element as usize) < notes.len() {
        return notes[element as usize];
    }
    Note::none()
}

/// What is found of all elements in one pass along their links; it begins where an element would be linked.
pub(crate) fn note_all<
    S: TaskSource,
    E: TaskElement,
    I: Inlet<Out = O>,
    O: Outlet<Lanes = I::Lanes>,
>(
    alloc: Global,
    graph: &EditedGraph,
    feeds: &Feeds,
    tasks: &[Task<S, E, I, O>],
    start: u32,
) -> Result<Vec<Note>, OutOfMemory>
    ensures { IfOk result (λ notes. (g : Edited) (m : Moment) (tells : _) → IsCurrent graph.now feeds.now tasks.now g m tells
        → AreNoted g m.history start notes.items) }
{
    let mut notes = vec![in alloc; Note::none(); graph.count() as usize]?;
    let order = graph.forward();
    for element in order {
        let note = note_one(graph, feeds, tasks, &notes, start, *element);
        put(&mut notes, *element, note);
    }
    Ok(notes)
}

/// What is found of an element is kept, where it is there.
fn put(notes: &mut Vec<Note>, element: u32, note: Note)
    ensures { notes.new.items ≡ slice_set notes.old.items element note }
{
    if (element as usize) < notes.len() {
        notes[element as usize] = note;
    }
}

/// What is found of an element, by what was found of those before it.
fn note_one<S: TaskSource, E: TaskElement, I: Inlet<Out = O>, O: Outlet<Lanes = I::Lanes>>(
    graph: &EditedGraph,
    feeds: &Feeds,
    tasks: &[Task<S, E, I, O>],
    notes: &[Note],
    start: u32,
    element: u32,
) -> Note
    ensures { (g : Edited) (m : Moment) (tells : _) → IsCurrent graph.now feeds.now tasks.now g m tells → element < length g.made
        → AreNotedBefore g m.history start notes.now element
        → IsNoted g m.history start element result }
{
    if element >= graph.count() {
        return Note::none();
    }
    let settings = graph.settings(element);
    if has_lanes(settings) {
        return Note::of_head(element, false);
    }
    if settings.is_source() {
        return Note::of_head(element, element == start);
    }
    let before = graph.source_before(PadPlace { element, pad: 0 });
    let giver = giver(graph, feeds, tasks, element, before);
    plain(notes, before, giver, element == start)
}

/// Whether links to an element that is set to this are lanes.
fn has_lanes(settings: &Settings) -> bool
    ensures { result ≡ (is_queue settings.now || makes_sinks settings.now) }
{
    settings.is_queue() || settings.makes_sinks()
}

/// What is found of an element that is no head, by the source pad that is linked to it and the one that gave it something first.
fn plain(notes: &[Note], before: Option<PadPlace>, giver: Option<u32>, is_start: bool) -> Note
    ensures { result ≡ plain_note notes.now before giver is_start }
{
    let feeder = feeder_by(notes, giver);
    match before {
        Some(source) => {
            let behind = note_of(notes, source.element);
            Note {
                head: behind.head,
                feeder,
                is_reached: is_start | behind.is_reached,
            }
        }
        None => Note {
            head: None,
            feeder,
            is_reached: is_start,
        },
    }
}

/// The feeder of the element that has a source pad.
fn feeder_by(notes: &[Note], giver: Option<u32>) -> Option<u32>
    ensures { result ≡ option_and_then (λ p. (note_of notes.now (owner_of p)).feeder) giver }
{
    let pad = giver?;
    note_of(notes, pad / MOST_PADS).feeder
}

/// The source pad of the first link to an element that gave it something; it is told which one is linked to it now.
fn giver<S: TaskSource, E: TaskElement, I: Inlet<Out = O>, O: Outlet<Lanes = I::Lanes>>(
    graph: &EditedGraph,
    feeds: &Feeds,
    tasks: &[Task<S, E, I, O>],
    element: u32,
    before: Option<PadPlace>,
) -> Option<u32>
    ensures { (g : Edited) (m : Moment) (tells : _) → IsCurrent graph.now feeds.now tasks.now g m tells → element < length g.made
        → before ≡ source_before g.links (sink_at element 0)
        → result ≡ first_giver m.history (spans_at g (sink_at element 0)) }
{
    let feed = feeds.of(element)?;
    let Some(source) = before else {
        return feed.first;
    };
    let pad = graph.source_number(source)?;
    let seen = see_pad(tasks, pad);
    given_by(feed.first, pad, feed.has_given(seen.items))
}
