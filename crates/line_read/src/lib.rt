//! The graph for which a program's words ask, or why there is none.
#![tactic(auto)]

mod laws;
mod reading;
mod refusal;
mod request;
mod script;

pub use laws::one_answer;
pub use reading::read_request;
pub use refusal::Refusal;
pub use request::Request;
pub use script::{RUN_ACTS, read_commands};
