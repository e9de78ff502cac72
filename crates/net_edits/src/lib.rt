//! What control does to tasks that lanes join, between their turns: a source pad gets the probe of a command or loses it, its link is
//! undone, with EOS or without, or made over a new lane or inside of its task, and a task comes to them or is taken out. The tasks then
//! stand at the moment that the act makes of the one at which they stood.
#![tactic(auto)]

pub mod adding;
pub mod inside;
pub mod laws;
pub mod net;
pub mod over;
pub mod seeing;

pub use adding::{add_task, holds_nothing_new, take_task};
pub use inside::{EditFault, end_inside, link_inside, link_opened, opening_items};
pub use net::{set_probe, unlink};
pub use over::{NewLink, OverRoom, end_over, link_over, room_to_link_over};
pub use seeing::see_pad;
