//! What control does to a task between its steps: a source pad gets the probe of a command or loses it, its link is
//! undone, or made inside of the task or over a new lane, and an element takes items that no pad gave.
#![tactic(auto)]

pub mod feeding;
pub mod inside;
pub mod leading;
pub mod openings;
mod places;
pub mod probes;
pub mod seeing;
pub mod stickies;

pub use feeding::feed;
pub use inside::{Inside, inside_of, link_inside};
pub use leading::{Beyond, NewLane, link_over, over_of, unlink};
pub use openings::{Opening, opening_at};
pub use places::{has_element, has_pad};
pub use probes::set_probe;
pub use seeing::{SeenPad, see_pad};
pub use stickies::sticky_items;
