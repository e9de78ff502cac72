//! What a call of the program tells.
ghost use Rattle.std.specs.Prelude.{◌≡◌, IfOk};
ghost use Rattle.run_report.specs.ReportText.{report_lines};

use gst_value::{OutOfMemory, Text};
use run_report::Report;
use std::alloc::Global;

/// How a run ended.
#[derive(Drop)]
pub struct Outcome {
    /// The status that the program ends with.
    pub status: u8,
    /// The status that the report's text names: `status`, except that with status 14 it is the status whose
    /// place 14 took.
    pub reported: u8,
    /// The output's count of failures at the entry of the call.
    pub out_before: u64,
    /// The output's count of failures at the exit of the call.
    pub out_after: u64,
    pub report: Report,
}

/// The text of the report of a run that ended so. Where `quiet` is given, the counts are left out.
pub fn report_text(alloc: Global, end: &Outcome, quiet: bool) -> Result<Text, OutOfMemory>
    ensures { IfOk result (λ text. text ≡ report_lines end.now.reported quiet end.now.report) }
{
    run_report::report_text(alloc, end.reported, quiet, &end.report)
}
