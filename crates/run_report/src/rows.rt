//! Worked rows: what the definitions give for small reports, computed by the checker.
ghost use Rattle.run_report.specs.Rows.{FlowRows, LineRows, RunRows, StallRows};

/// The texts of runs with and without commands, quiet and not quiet, and of one without memory.
#[tactic(auto, using(crate::proofs::Computed::run_rows))]
pub fn run_rows()
    ensures { RunRows }
{}

/// The texts of what is wrong with the words or the line.
#[tactic(auto, using(crate::proofs::Computed::line_rows))]
pub fn line_rows()
    ensures { LineRows }
{}

/// The texts of faults of files and of what flows.
#[tactic(auto, using(crate::proofs::Computed::flow_rows))]
pub fn flow_rows()
    ensures { FlowRows }
{}

/// The texts of stalled runs.
#[tactic(auto, using(crate::proofs::Computed::stall_rows))]
pub fn stall_rows()
    ensures { StallRows }
{}
