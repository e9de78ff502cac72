//! The lines that tell what a run did.
ghost use Rattle.std.specs.Prelude.{◌≡◌, ◌++◌, codes, flat_map, OnOk};
ghost use Rattle.std.specs.String.{string_bytes};
ghost use Rattle.run_report.specs.CountLines.{answer_text, count_lines, entry_line, entry_lines, limit_text, pad_line, sink_line};
ghost use Rattle.run_report.specs.Names.{reason_name};
ghost use Rattle.run_report.specs.Pads.{place_text};

use crate::names::reason_name;
use crate::report::{PadCount, Report, SinkCount};
use gst_value::{List, OutOfMemory};
use script_text::{Answer, Entry, Place, Reason};
use std::fmt::Write;

/// Writes the lines of the commands, then those of the pads, then those of the sinks.
pub(crate) fn write_counts(text: &mut String, report: &Report) -> Result<(), OutOfMemory>
    ensures { OnOk result (string_bytes text.new ≡ string_bytes text.old ++ count_lines report.now) }
{
    write_entries(text, &report.entries)?;
    write_pads(text, &report.pads)?;
    write_sinks(text, &report.sinks)
}

fn write_entries(text: &mut String, entries: &List<Entry>) -> Result<(), OutOfMemory>
    ensures { OnOk result (string_bytes text.new ≡ string_bytes text.old ++ entry_lines 1 entries.now) }
{
    for (index, entry) in entries.as_slice().iter().enumerate() {
        write_entry(text, index + 1, entry)?;
    }
    Ok(())
}

/// The line of the command with this number, from 1 on.
fn write_entry(text: &mut String, number: usize, entry: &Entry) -> Result<(), OutOfMemory>
    ensures { OnOk result (string_bytes text.new ≡ string_bytes text.old ++ entry_line number entry.now) }
{
    write!(text, "command {number}")?;
    write_answer(text, &entry.answer)?;
    text.push_str("\n")?;
    Ok(())
}

fn write_answer(text: &mut String, answer: &Answer) -> Result<(), OutOfMemory>
    ensures { OnOk result (string_bytes text.new ≡ string_bytes text.old ++ answer_text answer.now) }
{
    match answer {
        Answer::Done { places } => write_done(text, places),
        Answer::Unreached => Ok(text.push_str(" unreached")?),
        Answer::Refused { reason, .. } => write_refused(text, reason),
    }
}

fn write_done(text: &mut String, places: &List<Place>) -> Result<(), OutOfMemory>
    ensures { OnOk result (string_bytes text.new ≡ string_bytes text.old ++ (codes " done" ++ flat_map place_text places.now)) }
{
    text.push_str(" done")?;
    write_places(text, places)
}

fn write_places(text: &mut String, places: &List<Place>) -> Result<(), OutOfMemory>
    ensures { OnOk result (string_bytes text.new ≡ string_bytes text.old ++ flat_map place_text places.now) }
{
    for place in places.as_slice() {
        write_place(text, place)?;
    }
    Ok(())
}

fn write_place(text: &mut String, place: &Place) -> Result<(), OutOfMemory>
    ensures { OnOk result (string_bytes text.new ≡ string_bytes text.old ++ place_text place.now) }
{
    let element = place.pad.element.as_str();
    let pad = place.pad.pad.as_str();
    let items = place.items;
    write!(text, " {element}.{pad}={items}")?;
    Ok(())
}

fn write_refused(text: &mut String, reason: &Reason) -> Result<(), OutOfMemory>
    ensures { OnOk result (string_bytes text.new ≡ string_bytes text.old ++ (codes " refused " ++ reason_name reason.now ++ limit_text reason.now)) }
{
    let name = reason_name(reason);
    write!(text, " refused {name}")?;
    write_limit(text, reason)
}

/// Writes the number behind a reason that has one.
fn write_limit(text: &mut String, reason: &Reason) -> Result<(), OutOfMemory>
    ensures { OnOk result (string_bytes text.new ≡ string_bytes text.old ++ limit_text reason.now) }
{
    match reason {
        Reason::TooMany { count } => {
            let count = *count;
            write!(text, " {count}")?;
            Ok(())
        }
        _ => Ok(()),
    }
}

fn write_pads(text: &mut String, pads: &List<PadCount>) -> Result<(), OutOfMemory>
    ensures { OnOk result (string_bytes text.new ≡ string_bytes text.old ++ flat_map pad_line pads.now) }
{
    for count in pads.as_slice() {
        write_pad(text, count)?;
    }
    Ok(())
}

fn write_pad(text: &mut String, count: &PadCount) -> Result<(), OutOfMemory>
    ensures { OnOk result (string_bytes text.new ≡ string_bytes text.old ++ pad_line count.now) }
{
    let element = count.pad.element.as_str();
    let pad = count.pad.pad.as_str();
    let items = count.items;
    let buffers = count.buffers;
    write!(
        text,
        "pad {element}.{pad} items {items} buffers {buffers}\n"
    )?;
    Ok(())
}

fn write_sinks(text: &mut String, sinks: &List<SinkCount>) -> Result<(), OutOfMemory>
    ensures { OnOk result (string_bytes text.new ≡ string_bytes text.old ++ flat_map sink_line sinks.now) }
{
    for count in sinks.as_slice() {
        write_sink(text, count)?;
    }
    Ok(())
}

fn write_sink(text: &mut String, count: &SinkCount) -> Result<(), OutOfMemory>
    ensures { OnOk result (string_bytes text.new ≡ string_bytes text.old ++ sink_line count.now) }
{
    let name = count.name.as_str();
    let bytes = count.bytes;
    write!(text, "sink {name} bytes {bytes}\n")?;
    Ok(())
}
