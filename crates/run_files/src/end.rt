//! What is opened, and the ends that openings give.
use gst_value::Text;
use thiserror::Error;

/// What an element asks for: a location that it reads, or one that it writes.
#[derive(Drop)]
pub enum Opening {
    Read(Text),
    Write(Text),
}

/// What an opening gives: a source where a location is read, a sink where it is written.
#[derive(Drop)]
pub enum End<S, K> {
    Src(S),
    Snk(K),
}

/// Why openings gave no ends.
#[derive(Clone, Copy, Debug, PartialEq, Eq, Error)]
pub enum Unopened {
    /// The opening at this place among them, counted from 0, failed.
    #[error("the opening at place {place} failed")]
    Failed { place: usize },
    /// No memory was left for the ends.
    #[error("out of memory")]
    OutOfMemory,
}
