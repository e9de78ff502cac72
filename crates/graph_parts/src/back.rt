//! What tasks give back behind a run: the files of their sources and sinks, and the lengths of those that were written.
ghost use Rattle.std.specs.Prelude.{◌≡◌};
ghost use Rattle.graph_parts.specs.Back.{Gives, GivesBack, HasHead, HasLength, HasPart, HasSource, IsHead, IsPart, Wrote, read_end, written_end};
ghost use Rattle.el_settings.specs.Asked.{reads, writes};
ghost use Rattle.graph_core.specs.Elements.{all_made, has};
ghost use Rattle.graph_parts.specs.Put.{Among, PutBack};
ghost use Rattle.graph_parts.specs.Single.{IsAt, IsNone, IsSingle};
ghost use Rattle.task_elements.specs.Stands.{file_in};

use crate::placing::put_some;
use graph_core::Elements;
use gst_outside::{Sink, Source};
use lane_core::{Inlet, Outlet};
use net_task::Task;
use run_files::End;
use task_elements::{StreamElement, StreamSource};
use task_parts::{Head, Part};

/// Whether the element of this number reads a file.
fn reads_file(elements: &Elements, number: usize) -> bool
    ensures { result ≡ has reads (all_made elements.now) number }
{
    if number >= elements.count() as usize {
        return false;
    }
    elements.settings(number as u32).reads()
}

/// Whether the element of this number writes a file.
fn writes_file(elements: &Elements, number: usize) -> bool
    ensures { result ≡ has writes (all_made elements.now) number }
{
    if number >= elements.count() as usize {
        return false;
    }
    elements.settings(number as u32).writes()
}

/// The file that an element writes.
fn file_of<K: Sink>(element: StreamElement<K>) -> Option<K>
    ensures { result ≡ file_in element }
{
    match element.into_sink() {
        Some(sink) => sink.into_sink(),
        None => None,
    }
}

/// The end that the element of a number gives back.
fn end_of<S: Source, K: Sink>(
    elements: &Elements,
    number: usize,
    element: StreamElement<K>,
) -> Option<Option<End<S, K>>>
    ensures { result ≡ written_end (all_made elements.now) number element }
{
    if !writes_file(elements, number) {
        return None;
    }
    match file_of(element) {
        Some(file) => Some(Some(End::Snk(file))),
        None => None,
    }
}

/// The end that the source of a number gives back.
fn source_end_of<S: Source, K: Sink>(
    elements: &Elements,
    number: usize,
    source: StreamSource<S>,
) -> Option<Option<End<S, K>>>
    ensures { result ≡ read_end (all_made elements.now) number source }
{
    if !reads_file(elements, number) {
        return None;
    }
    match source.into_source().into_source() {
        Some(file) => Some(Some(End::Src(file))),
        None => None,
    }
}

/// Puts the file of an element at its number, and its length.
fn give_element<S: Source, K: Sink>(
    elements: &Elements,
    number: usize,
    element: StreamElement<K>,
    ends: &mut Vec<Option<End<S, K>>>,
    lengths: &mut Vec<u64>,
)
    ensures ends { PutBack (Gives (all_made elements.now) IsNone (IsSingle number element)) ends.old.items ends.new.items }
    ensures lengths { PutBack (HasLength (IsSingle number element)) lengths.old.items lengths.new.items }
{
    put_some(lengths, number, element.len());
    put_some(ends, number, end_of(elements, number, element));
}

/// Puts the files of the elements of a task at their numbers, and their lengths.
fn give_parts<S: Source, K: Sink, O: Outlet>(
    elements: &Elements,
    mut parts: Vec<Part<StreamElement<K>, O>>,
    ends: &mut Vec<Option<End<S, K>>>,
    lengths: &mut Vec<u64>,
)
    ensures ends { PutBack (Gives (all_made elements.now) IsNone (Among IsPart parts.items)) ends.old.items ends.new.items }
    ensures lengths { PutBack (HasLength (Among IsPart parts.items)) lengths.old.items lengths.new.items }
{
    while let Some(part) = parts.pop() {
        let number = part.number() as usize;
        give_element(elements, number, part.into_element(), ends, lengths);
    }
}

/// Puts the file of the source of a head at its number.
fn give_head<S: Source, K: Sink, I: Inlet, O: Outlet>(
    elements: &Elements,
    head: Head<StreamSource<S>, I, O>,
    ends: &mut Vec<Option<End<S, K>>>,
)
    ensures { PutBack (Gives (all_made elements.now) (IsHead head) IsNone) ends.old.items ends.new.items }
{
    if let Head::Source(head) = head {
        let number = head.number() as usize;
        let end = source_end_of(elements, number, head.into_source());
        put_some(ends, number, end);
    }
}

/// Puts the files of a task at the numbers of their elements, and the lengths of what it wrote.
fn give_task<S: Source, K: Sink, I: Inlet<Out = O>, O: Outlet<Lanes = I::Lanes>>(
    elements: &Elements,
    task: Task<StreamSource<S>, StreamElement<K>, I, O>,
    ends: &mut Vec<Option<End<S, K>>>,
    lengths: &mut Vec<u64>,
)
    ensures ends { PutBack (Gives (all_made elements.now) (HasHead task) (HasPart task)) ends.old.items ends.new.items }
    ensures lengths { PutBack (HasLength (HasPart task)) lengths.old.items lengths.new.items }
{
    let (head, parts) = task.into_parts();
    give_head(elements, head, ends);
    give_parts(elements, parts, ends, lengths);
}

/// Puts the files of tasks at the numbers of their elements, and the lengths of what they wrote.
fn give_tasks<S: Source, K: Sink, I: Inlet<Out = O>, O: Outlet<Lanes = I::Lanes>>(
    elements: &Elements,
    mut tasks: Vec<Task<StreamSource<S>, StreamElement<K>, I, O>>,
    ends: &mut Vec<Option<End<S, K>>>,
    lengths: &mut Vec<u64>,
)
    ensures ends { PutBack (Gives (all_made elements.now) (HasSource tasks.items) (Among HasPart tasks.items)) ends.old.items ends.new.items }
    ensures lengths { PutBack (HasLength (Among HasPart tasks.items)) lengths.old.items lengths.new.items }
{
    while let Some(task) = tasks.pop() {
        give_task(elements, task, ends, lengths);
    }
}

/// Puts the files of elements that stand by their numbers there, and their lengths.
fn give_rest<S: Source, K: Sink>(
    elements: &Elements,
    mut rest: Vec<Option<StreamElement<K>>>,
    ends: &mut Vec<Option<End<S, K>>>,
    lengths: &mut Vec<u64>,
)
    ensures ends { PutBack (Gives (all_made elements.now) IsNone (IsAt rest.items)) ends.old.items ends.new.items }
    ensures lengths { PutBack (HasLength (IsAt rest.items)) lengths.old.items lengths.new.items }
{
    while let Some(slot) = rest.pop() {
        if let Some(element) = slot {
            give_element(elements, rest.len(), element, ends, lengths);
        }
    }
}

/// Puts the files of tasks, and of the elements that no task took, which stand by their numbers, at the numbers of their
/// elements, and the lengths of what was written, in bytes. What waited in the tasks is given up. It takes no memory.
pub fn take_back<S: Source, K: Sink, I: Inlet<Out = O>, O: Outlet<Lanes = I::Lanes>>(
    elements: &Elements,
    tasks: Vec<Task<StreamSource<S>, StreamElement<K>, I, O>>,
    rest: Vec<Option<StreamElement<K>>>,
    ends: &mut Vec<Option<End<S, K>>>,
    lengths: &mut Vec<u64>,
)
    ensures ends { PutBack (GivesBack (all_made elements.now) tasks.items rest.items) ends.old.items ends.new.items }
    ensures lengths { PutBack (Wrote tasks.items rest.items) lengths.old.items lengths.new.items }
{
    give_tasks(elements, tasks, ends, lengths);
    give_rest(elements, rest, ends, lengths);
}
