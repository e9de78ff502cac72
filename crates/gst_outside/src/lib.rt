//! The outside: where bytes are read from and written to, clocks and gates.
#![tactic(auto)]

pub mod calls;
pub mod clock;
pub mod failed;
pub mod file_sink;
pub mod file_source;
pub mod files;
pub mod gate;
pub mod host_clock;
pub mod host_files;
pub mod mem_file;
pub mod mem_files;
pub mod mem_sink;
pub mod mem_source;
pub mod open_gate;
pub mod opening;
pub mod out_sink;
pub mod sink;
pub mod source;
pub mod step_clock;
mod table;

pub use calls::Calls;
pub use clock::Clock;
pub use failed::Failed;
pub use file_sink::FileSink;
pub use file_source::FileSource;
pub use files::Files;
pub use gate::TaskGate;
pub use host_clock::HostClock;
pub use host_files::HostFiles;
pub use mem_files::MemFiles;
pub use mem_sink::MemSink;
pub use mem_source::MemSource;
pub use open_gate::OpenGate;
pub use opening::OpenEnd;
pub use out_sink::OutSink;
pub use sink::{LARGEST_END, Sink};
pub use source::Source;
pub use step_clock::StepClock;
