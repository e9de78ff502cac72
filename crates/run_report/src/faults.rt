//! The lines that tell which fault ended a run.
ghost use Rattle.std.specs.Prelude.{◌≡◌, ◌++◌, flat_map, IfOk, OnOk};
ghost use Rattle.std.specs.String.{string_bytes};
ghost use Rattle.run_report.specs.FaultLines.{about_line, caps_line, cause_lines, command_text, count_line, failure_line, fault_lines, held_text, link_line, missing_line, need_text, offered_text, place_line, probe_text, script_line, stall_text, stalled_lines, stream_line, task_line, time_line, unlinked_line, value_line, word_line};
ghost use Rattle.run_report.specs.Pads.{pad_text};

use crate::names::{line_kind_name, script_kind_name, stream_kind_name, what_name};
use crate::report::{Fault, StallReason, StalledTask};
use caps_text::{print, print_fixed};
use flow_model::StreamKind;
use graph_core::What;
use gst_caps::Caps;
use gst_value::{Fixed, List, OutOfMemory, PadName, Text};
use launch_text::LineKind;
use pad_core::LinkReturn;
use script_text::ScriptKind;
use std::alloc::Global;
use std::fmt::Write;

/// The status of a run that came to its end of stream.
const EOS: u8 = 0;

/// Writes what ended a run with this status.
pub(crate) fn write_cause(
    alloc: Global,
    text: &mut String,
    status: u8,
    fault: &Fault,
) -> Result<(), OutOfMemory>
    ensures { OnOk result (string_bytes text.new ≡ string_bytes text.old ++ cause_lines status fault.now) }
{
    if status == EOS {
        return Ok(());
    }
    write_fault(alloc, text, fault)
}

fn write_fault(alloc: Global, text: &mut String, fault: &Fault) -> Result<(), OutOfMemory>
    ensures { OnOk result (string_bytes text.new ≡ string_bytes text.old ++ fault_lines fault.now) }
{
    match fault {
        Fault::Nothing => Ok(()),
        Fault::Words => write_word(text, "Words"),
        Fault::NoLine => write_word(text, "NoLine"),
        Fault::BothLines => write_word(text, "BothLines"),
        Fault::BadLine { place, kind } => write_place(text, *place, *kind),
        Fault::NoSuch { name, what } => write_missing(text, name, what),
        Fault::BadValue { name, property } => write_value(text, name, property),
        Fault::NameTaken { name } => write_about(text, "NameTaken", name),
        Fault::LocationTaken { location } => write_about(text, "LocationTaken", location),
        Fault::TooMany { count } => write_count(text, *count),
        Fault::LinkRefused { a, b, ret } => write_link(text, a, b, *ret),
        Fault::BadScript { line, kind } => write_line(text, *line, *kind),
        Fault::OpenFault { location } => write_about(text, "open", location),
        Fault::ReadFault {
            location,
            before,
            after,
        } => write_failure(text, "read", location, *before, *after),
        Fault::WriteFault {
            location,
            before,
            after,
        } => write_failure(text, "write", location, *before, *after),
        Fault::BadStream {
            element,
            place,
            kind,
        } => write_stream(text, element, *place, *kind),
        Fault::NotNegotiated {
            element,
            offered,
            wanted,
        } => write_caps(alloc, text, element, offered, wanted),
        Fault::NotLinked { pad, place } => write_unlinked(text, pad, *place),
        Fault::Stalled { command, tasks } => write_stalled(text, *command, tasks),
        Fault::TooLong { element, a, b } => write_time(text, element, *a, *b),
    }
}

fn write_word(text: &mut String, word: &str) -> Result<(), OutOfMemory>
    ensures { OnOk result (string_bytes text.new ≡ string_bytes text.old ++ word_line word.now) }
{
    write!(text, "fault {word}\n")?;
    Ok(())
}

fn write_about(text: &mut String, word: &str, name: &Text) -> Result<(), OutOfMemory>
    ensures { OnOk result (string_bytes text.new ≡ string_bytes text.old ++ about_line word.now name.now) }
{
    let name = name.as_str();
    write!(text, "fault {word} {name}\n")?;
    Ok(())
}

fn write_place(text: &mut String, place: u32, kind: LineKind) -> Result<(), OutOfMemory>
    ensures { OnOk result (string_bytes text.new ≡ string_bytes text.old ++ place_line place kind) }
{
    let kind = line_kind_name(kind);
    write!(text, "fault place {place} {kind}\n")?;
    Ok(())
}

fn write_line(text: &mut String, line: u32, kind: ScriptKind) -> Result<(), OutOfMemory>
    ensures { OnOk result (string_bytes text.new ≡ string_bytes text.old ++ script_line line kind) }
{
    let kind = script_kind_name(kind);
    write!(text, "fault line {line} {kind}\n")?;
    Ok(())
}

fn write_missing(text: &mut String, name: &Text, what: &What) -> Result<(), OutOfMemory>
    ensures { OnOk result (string_bytes text.new ≡ string_bytes text.old ++ missing_line name.now what.now) }
{
    let name = name.as_str();
    let what = what_name(what);
    write!(text, "fault NoSuch {name} {what}\n")?;
    Ok(())
}

fn write_value(text: &mut String, name: &Text, property: &Text) -> Result<(), OutOfMemory>
    ensures { OnOk result (string_bytes text.new ≡ string_bytes text.old ++ value_line name.now property.now) }
{
    let name = name.as_str();
    let property = property.as_str();
    write!(text, "fault BadValue {name} {property}\n")?;
    Ok(())
}

fn write_count(text: &mut String, count: u32) -> Result<(), OutOfMemory>
    ensures { OnOk result (string_bytes text.new ≡ string_bytes text.old ++ count_line count) }
{
    write!(text, "fault TooMany {count}\n")?;
    Ok(())
}

fn write_link(
    text: &mut String,
    a: &PadName,
    b: &PadName,
    answer: LinkReturn,
) -> Result<(), OutOfMemory>
    ensures { OnOk result (string_bytes text.new ≡ string_bytes text.old ++ link_line a.now b.now answer) }
{
    let code = answer.code();
    text.push_str("fault link ")?;
    write_pad(text, a)?;
    text.push_str(" ")?;
    write_pad(text, b)?;
    write!(text, " {code}\n")?;
    Ok(())
}

/// Writes the name of a pad.
fn write_pad(text: &mut String, pad: &PadName) -> Result<(), OutOfMemory>
    ensures { OnOk result (string_bytes text.new ≡ string_bytes text.old ++ pad_text pad.now) }
{
    let element = pad.element.as_str();
    let name = pad.pad.as_str();
    write!(text, "{element}.{name}")?;
    Ok(())
}

/// The line of a source that could not be read or a sink that could not be written, `work` being which.
fn write_failure(
    text: &mut String,
    work: &str,
    location: &Text,
    before: u64,
    after: u64,
) -> Result<(), OutOfMemory>
    ensures { OnOk result (string_bytes text.new ≡ string_bytes text.old ++ failure_line work.now location.now before after) }
{
    let location = location.as_str();
    write!(text, "fault {work} {location} faults {before} {after}\n")?;
    Ok(())
}

fn write_stream(
    text: &mut String,
    element: &Text,
    place: u64,
    kind: StreamKind,
) -> Result<(), OutOfMemory>
    ensures { OnOk result (string_bytes text.new ≡ string_bytes text.old ++ stream_line element.now place kind) }
{
    let element = element.as_str();
    let kind = stream_kind_name(kind);
    write!(text, "fault stream {element} place {place} {kind}\n")?;
    Ok(())
}

fn write_caps(
    alloc: Global,
    text: &mut String,
    element: &Text,
    offered: &Option<Fixed>,
    wanted: &Caps,
) -> Result<(), OutOfMemory>
    ensures { OnOk result (string_bytes text.new ≡ string_bytes text.old ++ caps_line element.now offered.now wanted.now) }
{
    let offered_text = print_offered(alloc, offered)?;
    let wanted_text = print(alloc, wanted)?;
    let element = element.as_str();
    let offered = offered_text.as_str();
    let wanted = wanted_text.as_str();
    write!(
        text,
        "fault caps {element} offered {offered} wanted {wanted}\n"
    )?;
    Ok(())
}

/// The text of the caps that were offered, if any.
fn print_offered(alloc: Global, offered: &Option<Fixed>) -> Result<Text, OutOfMemory>
    ensures { IfOk result (λ text. text ≡ offered_text offered.now) }
{
    match offered {
        Some(caps) => print_fixed(alloc, caps),
        None => Text::from_str(alloc, "none"),
    }
}

fn write_unlinked(text: &mut String, pad: &PadName, place: u64) -> Result<(), OutOfMemory>
    ensures { OnOk result (string_bytes text.new ≡ string_bytes text.old ++ unlinked_line pad.now place) }
{
    let element = pad.element.as_str();
    let pad = pad.pad.as_str();
    write!(text, "fault unlinked {element}.{pad} place {place}\n")?;
    Ok(())
}

fn write_time(text: &mut String, element: &Text, a: u64, b: u64) -> Result<(), OutOfMemory>
    ensures { OnOk result (string_bytes text.new ≡ string_bytes text.old ++ time_line element.now a b) }
{
    let element = element.as_str();
    write!(text, "fault time {element} {a} {b}\n")?;
    Ok(())
}

fn write_stalled(
    text: &mut String,
    command: Option<u32>,
    tasks: &List<StalledTask>,
) -> Result<(), OutOfMemory>
    ensures { OnOk result (string_bytes text.new ≡ string_bytes text.old ++ stalled_lines command tasks.now) }
{
    text.push_str("fault command ")?;
    write_command(text, command)?;
    text.push_str("\n")?;
    write_tasks(text, tasks)
}

/// Writes the number of the command that is still to come, if any.
fn write_command(text: &mut String, command: Option<u32>) -> Result<(), OutOfMemory>
    ensures { OnOk result (string_bytes text.new ≡ string_bytes text.old ++ command_text command) }
{
    match command {
        Some(number) => write!(text, "{number}")?,
        None => text.push_str("none")?,
    }
    Ok(())
}

fn write_tasks(text: &mut String, tasks: &List<StalledTask>) -> Result<(), OutOfMemory>
    ensures { OnOk result (string_bytes text.new ≡ string_bytes text.old ++ flat_map task_line tasks.now) }
{
    for task in tasks.as_slice() {
        write_task(text, task)?;
    }
    Ok(())
}

fn write_task(text: &mut String, task: &StalledTask) -> Result<(), OutOfMemory>
    ensures { OnOk result (string_bytes text.new ≡ string_bytes text.old ++ task_line task.now) }
{
    let head = task.head.as_str();
    write!(text, "task {head} ")?;
    write_stall(text, &task.reason)?;
    text.push_str("\n")?;
    Ok(())
}

fn write_stall(text: &mut String, reason: &StallReason) -> Result<(), OutOfMemory>
    ensures { OnOk result (string_bytes text.new ≡ string_bytes text.old ++ stall_text reason.now) }
{
    match reason {
        StallReason::NeedsItem(pad) => write_need(text, "item", pad),
        StallReason::NeedsRoom(pad) => write_need(text, "room", pad),
        StallReason::AtProbe(command) => write_probe(text, *command),
        StallReason::Held(sink) => write_held(text, sink),
        StallReason::Ended => Ok(text.push_str("ended")?),
    }
}

/// Writes what a task needs at a sink pad.
fn write_need(text: &mut String, need: &str, pad: &PadName) -> Result<(), OutOfMemory>
    ensures { OnOk result (string_bytes text.new ≡ string_bytes text.old ++ need_text need.now pad.now) }
{
    let element = pad.element.as_str();
    let pad = pad.pad.as_str();
    write!(text, "needs-{need} {element}.{pad}")?;
    Ok(())
}

fn write_probe(text: &mut String, command: u32) -> Result<(), OutOfMemory>
    ensures { OnOk result (string_bytes text.new ≡ string_bytes text.old ++ probe_text command) }
{
    write!(text, "at-probe {command}")?;
    Ok(())
}

fn write_held(text: &mut String, sink: &Text) -> Result<(), OutOfMemory>
    ensures { OnOk result (string_bytes text.new ≡ string_bytes text.old ++ held_text sink.now) }
{
    let sink = sink.as_str();
    write!(text, "held {sink}")?;
    Ok(())
}
