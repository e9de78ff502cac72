//! What is made of one element with the end of its file.
ghost use Rattle.std.specs.Prelude.{◌≡◌, ◌<◌, None, Some, false, length};
ghost use Rattle.el_settings.specs.Asked.{is_filter as filter_test, is_queue as queue_test, makes_sinks as join_test, makes_sources as tee_test, title_of};
ghost use Rattle.el_set.specs.Made.{IsFilterFor, IsJoinFor, file_for, read_for};
ghost use Rattle.graph_core.specs.Elements.{all_made};
ghost use Rattle.graph_parts.specs.Blanks.{BlankAt, IsBlankFor};
ghost use Rattle.graph_parts.specs.Ends.{left_by, sink_end, source_end};
ghost use Rattle.graph_parts.specs.Filled.{IsFilled, IsGiverFor, IsMadeFor, PairAt};

use crate::blank::Blank;
use crate::taking::{place_at, taken};
use el_basic::Identity;
use el_set::{FilterElement, JoinElement, sink_of, source_of, tee_of};
use el_settings::Settings;
use graph_core::Elements;
use gst_outside::{Sink, Source};
use gst_value::Text;
use run_files::End;
use task_elements::{StreamElement, StreamFilter, StreamJoin, StreamSource};

/// What is made of an element, and what is left of the end that stands under its number.
#[derive(Drop)]
pub struct Slot<S, K> {
    pub element: Option<StreamElement<K>>,
    pub source: Option<StreamSource<S>>,
    pub left: Option<End<S, K>>,
}

/// The file that an element reads, the one that it writes, and an end that is neither.
#[derive(Drop)]
pub struct Parted<S, K> {
    pub source: Option<S>,
    pub sink: Option<K>,
    pub left: Option<End<S, K>>,
}

/// An element and a source.
#[derive(Drop)]
pub struct Pair<S, K> {
    pub element: Option<StreamElement<K>>,
    pub source: Option<StreamSource<S>>,
}

/// The element of a number, or its source, with its file from the ends; one that reads or writes none takes no end.
pub(crate) fn pair_at<S: Source, K: Sink>(
    elements: &Elements,
    number: u32,
    blank: Blank,
    ends: &mut Vec<Option<End<S, K>>>,
) -> Pair<S, K>
    requires within { number < length (all_made elements.now) }
    requires blank { BlankAt (all_made elements.now) number blank }
    ensures { PairAt S.Source K.Sink (all_made elements.now) number ends.old.items ends.new.items result.element result.source }
{
    let end = taken(ends, number);
    let Slot {
        element,
        source,
        left,
    } = slot_of(elements.settings(number), number, blank, end);
    place_at(ends, number, left);
    Pair { element, source }
}

/// What an element of these settings and this number is, with the end that stands under its number.
fn slot_of<S: Source, K: Sink>(
    settings: &Settings,
    number: u32,
    blank: Blank,
    end: Option<End<S, K>>,
) -> Slot<S, K>
    requires blank { IsBlankFor settings.now blank }
    ensures { IsFilled S.Source K.Sink settings.now number end result.element result.source result.left }
{
    let Blank {
        filter,
        join,
        title,
    } = blank;
    let Parted { source, sink, left } = part_end(settings, end);
    Slot {
        element: element_for(settings, filter, join, sink),
        source: source_for(settings, number, title, source),
        left,
    }
}

/// The file that an element of these settings reads, or the one that it writes, of an end; else the end is left.
fn part_end<S: Source, K: Sink>(settings: &Settings, end: Option<End<S, K>>) -> Parted<S, K>
    ensures source { result.source ≡ read_for settings.now (source_end end) }
    ensures sink { result.sink ≡ file_for settings.now (sink_end end) }
    ensures left { result.left ≡ left_by settings.now end }
{
    match end {
        Some(End::Src(source)) => part_source(settings, source),
        Some(End::Snk(sink)) => part_sink(settings, sink),
        None => Parted {
            source: None,
            sink: None,
            left: None,
        },
    }
}

/// A source for an element that reads one; else it is left.
fn part_source<S: Source, K: Sink>(settings: &Settings, source: S) -> Parted<S, K>
    ensures source { result.source ≡ read_for settings.now (Some source) }
    ensures sink { result.sink ≡ None }
    ensures left { result.left ≡ left_by settings.now (Some (End.Src source)) }
{
    if settings.reads() {
        return Parted {
            source: Some(source),
            sink: None,
            left: None,
        };
    }
    Parted {
        source: None,
        sink: None,
        left: Some(End::Src(source)),
    }
}

/// A sink for an element that writes one; else it is left.
fn part_sink<S: Source, K: Sink>(settings: &Settings, sink: K) -> Parted<S, K>
    ensures source { result.source ≡ None }
    ensures sink { result.sink ≡ file_for settings.now (Some sink) }
    ensures left { result.left ≡ left_by settings.now (Some (End.Snk sink)) }
{
    if settings.writes() {
        return Parted {
            source: None,
            sink: Some(sink),
            left: None,
        };
    }
    Parted {
        source: None,
        sink: None,
        left: Some(End::Snk(sink)),
    }
}

/// The element of these settings, which was fed nothing yet; `file` is what it writes, empty at first.
fn element_for<K: Sink>(
    settings: &Settings,
    filter: Option<FilterElement>,
    join: Option<JoinElement>,
    file: Option<K>,
) -> Option<StreamElement<K>>
    requires filter { IsFilterFor settings.now filter }
    requires join { IsJoinFor settings.now join }
    ensures { IsMadeFor K.Sink settings.now file result }
{
    if let Some(filter) = filter {
        return Some(StreamElement::Filter(StreamFilter::new(filter)));
    }
    if settings.is_queue() {
        return Some(StreamElement::Queue(Identity::new()));
    }
    end_or_joint(settings, join, file)
}

/// The element of these settings, which are those of no filter and no queue.
fn end_or_joint<K: Sink>(
    settings: &Settings,
    join: Option<JoinElement>,
    file: Option<K>,
) -> Option<StreamElement<K>>
    requires filter { filter_test settings.now ≡ false }
    requires queue { queue_test settings.now ≡ false }
    requires join { IsJoinFor settings.now join }
    ensures { IsMadeFor K.Sink settings.now file result }
{
    if let Some(tee) = tee_of(settings) {
        return Some(StreamElement::Tee(tee));
    }
    if let Some(join) = join {
        return Some(StreamElement::Join(StreamJoin::new(join)));
    }
    sink_for(settings, file)
}

/// The sink of these settings, which are those of no other element with a sink pad.
fn sink_for<K: Sink>(settings: &Settings, file: Option<K>) -> Option<StreamElement<K>>
    requires filter { filter_test settings.now ≡ false }
    requires queue { queue_test settings.now ≡ false }
    requires tee { tee_test settings.now ≡ false }
    requires join { join_test settings.now ≡ false }
    ensures { IsMadeFor K.Sink settings.now file result }
{
    match sink_of(settings, file) {
        Some(sink) => Some(StreamElement::Sink(sink)),
        None => None,
    }
}

/// The source of these settings and this number, which gave nothing yet; `file` is what it reads.
fn source_for<S: Source>(
    settings: &Settings,
    number: u32,
    title: Option<Text>,
    file: Option<S>,
) -> Option<StreamSource<S>>
    requires title { title ≡ title_of settings.now }
    ensures { IsGiverFor S.Source settings.now file number result }
{
    match source_of(settings, title, file, number) {
        Some(source) => Some(StreamSource::new(source)),
        None => None,
    }
}
