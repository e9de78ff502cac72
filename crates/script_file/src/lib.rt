//! Scripts in files.
#![tactic(auto)]

mod fault;
mod file;
mod reading;

pub use fault::FileFault;
pub use file::read_file;
