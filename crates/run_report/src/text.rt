//! The text of a report.
ghost use Rattle.std.specs.Prelude.{◌≡◌, ◌++◌, Bool, IfOk, OnOk};
ghost use Rattle.std.specs.String.{string_bytes};
ghost use Rattle.run_report.specs.ReportText.{report_lines, status_line};
ghost use Rattle.run_report.specs.declared.report.Report.{Report as AnyReport};

use crate::counts::write_counts;
use crate::faults::write_cause;
use crate::names::status_name;
use crate::report::{Fault, Report};
use gst_value::{OutOfMemory, Text};
use std::alloc::Global;
use std::fmt::Write;

/// The status of a run for which there was no memory.
const OUT_OF_MEMORY: u8 = 13;

/// The whole text of a report where there was no memory.
pub const NO_MEMORY: &str = "status 13 OutOfMemory\n";

/// The whole text of a report where there was no memory, which takes none itself. It is that of every report.
pub fn no_memory() -> &'static str
    ensures { (quiet : Bool) (report : AnyReport) → result.now ≡ report_lines 13 quiet report }
{
    NO_MEMORY
}

/// The text of a report that names this status. Where `quiet` is given, it does not tell what the run did.
pub fn report_text(
    alloc: Global,
    status: u8,
    quiet: bool,
    report: &Report,
) -> Result<Text, OutOfMemory>
    ensures { IfOk result (λ text. text ≡ report_lines status quiet report.now) }
{
    let mut text = String::new(alloc);
    write_status(&mut text, status, &report.fault)?;
    if status == OUT_OF_MEMORY {
        return Ok(Text::from_string(text));
    }
    write_cause(alloc, &mut text, status, &report.fault)?;
    if !quiet {
        write_counts(&mut text, report)?;
    }
    Ok(Text::from_string(text))
}

fn write_status(text: &mut String, status: u8, fault: &Fault) -> Result<(), OutOfMemory>
    ensures { OnOk result (string_bytes text.new ≡ string_bytes text.old ++ status_line status fault.now) }
{
    let name = status_name(status, fault);
    write!(text, "status {status} {name}\n")?;
    Ok(())
}
