//! The report of a run.
ghost use Rattle.std.specs.Prelude.{◌≡◌, ◌<◌, ◌++◌, [], IfOk, OnOk, length};
ghost use Rattle.std.specs.List.{cons_option};
ghost use Rattle.graph_core.specs.Elements.{all_made};
ghost use Rattle.el_settings.specs.Asked.{writes};
ghost use Rattle.world_core.specs.Ran.{TellsEnd, stop_fault, stop_status};
ghost use Rattle.world_core.specs.Told.{location_named, pad_told, pads_told, sink_told, sinks_told, task_fault, task_status};

use crate::ended::WorldEnd;
use crate::pads::{MOST_PADS, name_of, place_of, source_named};
use el_settings::Settings;
use graph_core::Elements;
use graph_parts::Count;
use gst_value::{List, OutOfMemory, Text};
use run_report::{Fault, PadCount, Report, SinkCount, StalledTask};
use script_text::Entry;
use std::alloc::Global;
use task_parts::TaskFault;

const EOS: u8 = 0;

const STALLED: u8 = 12;

/// The location of an element's file, and none where it opens none.
fn location_of(alloc: Global, elements: &Elements, element: u32) -> Result<Text, OutOfMemory>
    ensures { IfOk result (λ location. location ≡ location_named (all_made elements.now) element) }
{
    if element >= elements.count() {
        return Ok(Text::new(alloc));
    }
    match elements.settings(element).location() {
        Some(location) => Text::from_str(alloc, location),
        None => Ok(Text::new(alloc)),
    }
}

/// The fault of a task, as a report tells it.
fn fault_of(alloc: Global, elements: &Elements, fault: TaskFault) -> Result<Fault, OutOfMemory>
    ensures { IfOk result (λ told. told ≡ task_fault (all_made elements.now) fault) }
{
    match fault {
        TaskFault::ReadFault {
            element,
            before,
            after,
        } => Ok(Fault::ReadFault {
            location: location_of(alloc, elements, element)?,
            before,
            after,
        }),
        TaskFault::WriteFault {
            element,
            before,
            after,
        } => Ok(Fault::WriteFault {
            location: location_of(alloc, elements, element)?,
            before,
            after,
        }),
        TaskFault::Stream {
            element,
            place,
            kind,
        } => Ok(Fault::BadStream {
            element: name_of(alloc, elements, element)?,
            place,
            kind,
        }),
        TaskFault::Caps {
            element,
            offered,
            wanted,
        } => Ok(Fault::NotNegotiated {
            element: name_of(alloc, elements, element)?,
            offered,
            wanted,
        }),
        TaskFault::TooLong { element, a, b } => Ok(Fault::TooLong {
            element: name_of(alloc, elements, element)?,
            a,
            b,
        }),
        TaskFault::NotLinked { pad, place } => Ok(Fault::NotLinked {
            pad: source_named(alloc, elements, pad)?,
            place,
        }),
        TaskFault::OutOfMemory => Ok(Fault::Nothing),
    }
}

/// The status of the fault of a task.
fn status_of(fault: &TaskFault) -> u8
    ensures { result ≡ task_status fault.now }
{
    match fault {
        TaskFault::ReadFault { .. } => 7,
        TaskFault::WriteFault { .. } => 8,
        TaskFault::Stream { .. } => 9,
        TaskFault::Caps { .. } => 10,
        TaskFault::NotLinked { .. } => 11,
        TaskFault::OutOfMemory => 13,
        TaskFault::TooLong { .. } => 15,
    }
}

/// Puts a value at the end of a list, where there is one.
pub(crate) fn push_some<T: Drop>(
    alloc: Global,
    list: &mut List<T>,
    value: Option<T>,
) -> Result<(), OutOfMemory>
    ensures { OnOk result (list.new ≡ list.old ++ cons_option value []) }
{
    match value {
        Some(value) => list.push(alloc, value),
        None => Ok(()),
    }
}

/// What the source pad of a number has counted, where it is there.
fn count_at(
    alloc: Global,
    elements: &Elements,
    counts: &[Count],
    number: u32,
) -> Result<Option<PadCount>, OutOfMemory>
    ensures { IfOk result (λ count. count ≡ pad_told (all_made elements.now) counts.now number) }
{
    let Some(pad) = elements.source_name(alloc, place_of(number))? else {
        return Ok(None);
    };
    match counts.get(number as usize) {
        Some(count) => Ok(Some(PadCount {
            pad,
            items: count.items,
            buffers: count.buffers,
        })),
        None => Ok(None),
    }
}

/// What all source pads have counted, in the order of their elements, those of one by number.
fn counts_of(
    alloc: Global,
    elements: &Elements,
    counts: &[Count],
) -> Result<List<PadCount>, OutOfMemory>
    ensures { IfOk result (λ told. told ≡ pads_told (all_made elements.now) counts.now) }
{
    let mut told = List::new(alloc);
    for number in 0..elements.count() * MOST_PADS {
        push_some(alloc, &mut told, count_at(alloc, elements, counts, number)?)?;
    }
    Ok(told)
}

/// Whether the element writes a file.
fn writes_file(settings: &Settings) -> bool
    ensures { result ≡ writes settings.now }
{
    settings.is_sink() && settings.location().is_some()
}

/// The length of the file of an element, where it writes one.
fn length_at(
    alloc: Global,
    elements: &Elements,
    lengths: &[u64],
    element: u32,
) -> Result<Option<SinkCount>, OutOfMemory>
    requires { element < length (all_made elements.now) }
    ensures { IfOk result (λ count. count ≡ sink_told (all_made elements.now) lengths.now element) }
{
    if !writes_file(elements.settings(element)) {
        return Ok(None);
    }
    match lengths.get(element as usize) {
        Some(bytes) => Ok(Some(SinkCount {
            name: name_of(alloc, elements, element)?,
            bytes: *bytes,
        })),
        None => Ok(None),
    }
}

/// The lengths of the files of all filesinks, in their order.
fn lengths_of(
    alloc: Global,
    elements: &Elements,
    lengths: &[u64],
) -> Result<List<SinkCount>, OutOfMemory>
    ensures { IfOk result (λ counts. counts ≡ sinks_told (all_made elements.now) lengths.now) }
{
    let mut counts = List::new(alloc);
    for element in 0..elements.count() {
        push_some(
            alloc,
            &mut counts,
            length_at(alloc, elements, lengths, element)?,
        )?;
    }
    Ok(counts)
}

/// How tasks stopped.
#[derive(Drop)]
pub(crate) enum Stop {
    /// Their run is over.
    Over,
    /// None can move, and the run is not over. The command of this number waits, where one is left.
    Stalled {
        command: Option<u32>,
        tasks: List<StalledTask>,
    },
    /// One met a fault.
    Fault(TaskFault),
}

/// The status and the fault of a run, by how its tasks stopped.
fn stop_told(alloc: Global, elements: &Elements, stop: Stop) -> Result<(u8, Fault), OutOfMemory>
    ensures { IfOk result (λ told. (told.0 ≡ stop_status stop) × (told.1 ≡ stop_fault (all_made elements.now) stop)) }
{
    match stop {
        Stop::Over => Ok((EOS, Fault::Nothing)),
        Stop::Stalled { command, tasks } => Ok((STALLED, Fault::Stalled { command, tasks })),
        Stop::Fault(fault) => {
            let status = status_of(&fault);
            Ok((status, fault_of(alloc, elements, fault)?))
        }
    }
}

/// How a run ended, by how its tasks stopped, the counts of the source pads of its elements by number, the lengths of their
/// files, in bytes, in the order of the elements, and how the commands of its script were answered.
pub(crate) fn end_of(
    alloc: Global,
    elements: &Elements,
    stop: Stop,
    counts: &[Count],
    lengths: &[u64],
    entries: List<Entry>,
) -> Result<WorldEnd, OutOfMemory>
    ensures { IfOk result (TellsEnd (all_made elements.now) stop counts.now lengths.now entries) }
{
    let (status, fault) = stop_told(alloc, elements, stop)?;
    Ok(WorldEnd {
        status,
        report: Report {
            entries,
            pads: counts_of(alloc, elements, counts)?,
            sinks: lengths_of(alloc, elements, lengths)?,
            fault,
        },
    })
}

/// The end of a run that did not begin, or that found no memory.
pub(crate) fn without_counts(alloc: Global, status: u8, fault: Fault) -> WorldEnd
    ensures status { result.status ≡ status }
    ensures fault { result.report.fault ≡ fault }
    ensures entries { result.report.entries ≡ [] }
    ensures pads { result.report.pads ≡ [] }
    ensures sinks { result.report.sinks ≡ [] }
{
    WorldEnd {
        status,
        report: Report {
            entries: List::new(alloc),
            pads: List::new(alloc),
            sinks: List::new(alloc),
            fault,
        },
    }
}
