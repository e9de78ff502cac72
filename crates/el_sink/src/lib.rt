//! Sinks: elements in which a stream ends.
#![tactic(auto)]

pub mod fake_sink;
pub mod fault;
pub mod file_sink;
mod writing;

pub use fake_sink::FakeSink;
pub use fault::WriteFault;
pub use file_sink::FileSink;
