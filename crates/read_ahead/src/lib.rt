//! Files whose sources read ahead.
#![tactic(auto)]

pub mod ahead_files;
pub mod ahead_source;

pub use ahead_files::AheadFiles;
pub use ahead_source::{AheadSource, WINDOW};
