//! What control does to a run where a command is done: the tasks are split and joined as the links of its graph are undone and made, and
//! have the elements of the graph again; and so do the graph and what control keeps of the elements.
#![tactic(auto)]

pub mod doing;
pub mod ending;
pub mod laws;
pub mod linking;
pub mod over;
pub mod probing;
pub mod relinking;
pub mod removing;
pub mod scripts;
pub mod sent;
pub mod undoing;
pub mod unlinking;

pub use doing::{Outcome, do_deed};
pub use ending::end;
pub use linking::{LinkRoom, link, room_to_link};
pub use relinking::{relink, relink_over};
pub use removing::{TakenOut, is_free, remove};
pub use undoing::{UndoRoom, room_to_undo, undo};
pub use unlinking::{unlink, unlink_eos};
