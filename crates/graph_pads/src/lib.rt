//! Pads of the elements of a line, and the links between them: how many there are, their names, and what links lead to.
#![tactic(auto)]

mod direction;
mod judging;
mod pad;

pub use direction::made_direction;
pub use judging::{is_linked, is_wrong, sink_behind, source_before};
pub use pad::{Direction, Pad, PadLink, PadPlace};
