//! What the tasks of a graph are made of. Its elements go in bags: each begins with a source, or with an element that is fed from
//! inlets, and has the elements that this one reaches over links that are no lane. There are a lane for each link between bags,
//! and the elements themselves, made with their files, which they give back behind the run. And the laws of the moments of such a
//! run say that a moment is the evaluation of the graph.
#![tactic(auto)]

pub mod back;
pub mod bag;
pub mod bag_laws;
pub mod bags;
pub mod blank;
pub mod blanks;
pub mod counts;
pub mod lanes;
pub mod located;
pub mod moment;
mod openings;
pub mod parting;
mod placing;
mod taking;
mod walk;

pub use back::take_back;
pub use bag::{Bag, BagElement, BagHead, BagLink, BagPad};
pub use bags::{all_bags_of, bags_of};
pub use blanks::{Blanks, Filled};
pub use counts::{Count, count_pads};
pub use lanes::{Lanes, lanes_of, room_by};
pub use openings::openings_of;
