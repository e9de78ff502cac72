//! Runs of whole launch lines by turns.
#![tactic(auto)]

mod able;
mod answering;
pub mod ended;
mod lanes;
pub mod launch;
mod laws;
pub mod outcome;
mod pads;
mod probing;
mod report;
mod run;
pub mod running;
pub mod script_laws;
pub mod scripted;
mod stall;
pub mod start;
mod watching;

pub use ended::WorldEnd;
pub use outcome::{Outcome, report_text};
pub use run::run_turns;
pub use running::{Ended, RunFault, Running};
pub use scripted::run_script;
