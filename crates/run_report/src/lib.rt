//! What a run reports, and the text of it.
#![tactic(auto)]

mod counts;
mod faults;
mod names;
pub mod report;
mod rows;
mod text;

pub use graph_core::What;
pub use report::{Fault, PadCount, Report, SinkCount, StallReason, StalledTask};
pub use rows::{flow_rows, line_rows, run_rows, stall_rows};
pub use text::{NO_MEMORY, no_memory, report_text};
