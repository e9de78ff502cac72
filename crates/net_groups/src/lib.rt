//! The elements of a net of tasks grouped anew, between the turns of its tasks: a task is split, or two are joined. Nothing moves
//! and no link changes, so the tasks stand at the moment at which they stood.
#![tactic(auto)]

mod behind;
pub mod joining;
mod lanes;
pub mod laws;
mod places;
mod sizes;
pub mod splitting;

pub use joining::{JoinRoom, join, join_reserved, room_to_join};
pub use lanes::is_sent_to;
pub use splitting::{SplitRoom, room_to_split, split, split_reserved};
