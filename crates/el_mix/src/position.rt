//! How far an element has come in what it puts out.
ghost use Rattle.std.specs.Prelude.{None};

use audio_info::Info;

/// How far an element has come in what it puts out since the last flush.
#[derive(Clone, Copy)]
pub(crate) struct Position {
    /// What the frames are, once STREAM_START, CAPS and SEGMENT went out.
    pub(crate) open: Option<Info>,
    /// The frames that went out, and the time of their end in nanoseconds.
    pub(crate) next: u64,
    pub(crate) reached: u64,
}

impl Position {
    ghost use Rattle.el_mix.specs.Positions.{Begins};

    /// That nothing went out.
    pub(crate) fn new() -> Position
        ensures { Begins result }
    {
        Position {
            open: None,
            next: 0,
            reached: 0,
        }
    }
}
