//! Scripts: what is to be done while a pipeline runs, and when; and how that was answered.
#![tactic(auto)]

mod act;
mod acts;
mod answer;
mod command;
mod fault;
mod latest;
mod laws;
mod line;
mod reading;
mod when;

pub use acts::Acts;
pub use answer::{Answer, Entry, Place, Reason};
pub use command::{Act, Command, When};
pub use fault::{ScriptFault, ScriptKind};
pub use laws::{one_answer, script_rows};
pub use reading::{parse, read};
