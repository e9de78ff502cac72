//! What control does with the commands of a script: when each can be answered, and why two pads are not linked.
#![tactic(auto)]

pub mod deciding;
mod fed;
mod feeds;
pub mod judging;
pub mod laws;
mod notes;
mod refusing;
pub mod whole;

pub use deciding::{Deed, Ruling, decide};
pub use feeds::Feeds;
pub use judging::{Verdict, judge};
pub use refusing::{LinkReason, link_refusal};
pub use whole::{edited_is_eval, edited_is_whole, stays_made};
