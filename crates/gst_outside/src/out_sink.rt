//! Standard output as a sink.
ghost use Rattle.std.specs.Prelude.{◌≡◌, None, length};
ghost use Rattle.gst_outside.specs.Causes.{WritesSome, raised};

use crate::failed::Failed;
use crate::sink::{LARGEST_END, Sink};
use std::io::{ErrorKind, Write};

/// Standard output, or what else is written in order only: a write at a place other than the end of what
/// was written fails. It tells no bytes, and has no location.
#[derive(Drop)]
pub struct OutSink<W> {
    pub reached: u64,
    pub faults: u64,
    out: W,
}

impl<W: Write> OutSink<W> {
    /// A sink over a writer to which nothing was written yet.
    pub fn new(out: W) -> OutSink<W>
        ensures reached { result.reached ≡ 0 }
        ensures faults { result.faults ≡ 0 }
    {
        OutSink {
            reached: 0,
            faults: 0,
            out,
        }
    }

    fn fail(&mut self) -> Failed
        ensures { self.new ≡ record self.old { faults = raised self.old.faults } }
    {
        self.faults = self.faults.saturating_add(1);
        Failed
    }

    /// Writes some of a piece that is not empty.
    fn write_some(&mut self, piece: &[u8]) -> Result<usize, Failed>
        ensures writes { WritesSome (length piece.now) result self.old.faults self.new.faults }
        ensures reached { self.new.reached ≡ self.old.reached }
    {
        for _ in 0..u64::MAX {
            match self.out.write(piece) {
                Ok(0) => break,
                Ok(count) => return Ok(count),
                Err(error) if error.kind() == ErrorKind::Interrupted => {
                    self.fail();
                }
                Err(_) => break,
            }
        }
        Err(self.fail())
    }
}

impl<W: Write + Send + Drop + 'static> Sink for OutSink<W> {
    ghost bytes = { λ _. None };

    ghost location = { λ _. None };

    ghost faults = { λ k. k.faults };

    fn write_at(&mut self, place: u64, piece: &[u8]) -> Result<usize, Failed> {
        if place > LARGEST_END || piece.len() as u64 > LARGEST_END - place {
            return Err(self.fail());
        }
        if piece.is_empty() {
            return Ok(0);
        }
        if place != self.reached {
            return Err(self.fail());
        }
        let count = self.write_some(piece)?;
        self.reached = place + count as u64;
        Ok(count)
    }

    fn cut(&mut self, len: u64) -> Result<(), Failed> {
        if len < self.reached {
            return Err(self.fail());
        }
        Ok(())
    }

    fn faults(&self) -> u64 {
        self.faults
    }
}
