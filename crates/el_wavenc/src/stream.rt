//! A stream of audio by its caps.
ghost use Rattle.std.specs.Prelude.{◌≡◌, IfOk};

use audio_info::Info;
use gst_value::{Fixed, OutOfMemory};
use std::alloc::Global;

/// A stream by its caps, and what they say of its frames.
#[derive(Drop)]
pub(crate) struct Stream {
    pub(crate) caps: Fixed,
    pub(crate) info: Info,
}

impl Stream {
    /// The same once more.
    pub(crate) fn copy(&self, alloc: Global) -> Result<Stream, OutOfMemory>
        ensures { IfOk result (λ made. made ≡ self.now) }
    {
        Ok(Stream {
            caps: self.caps.copy(alloc)?,
            info: self.info,
        })
    }
}
