//! Files of the host that are written.
ghost use Rattle.std.specs.Prelude.{◌≡◌, None, Some, length};
ghost use Rattle.gst_outside.specs.Causes.{WritesSome, raised};

use crate::failed::Failed;
use crate::sink::{LARGEST_END, Sink};
use gst_value::Text;
use std::fs::{File, OpenFile};
use std::io::ErrorKind;
use std::os::unix::fs::FileExt;

/// An open file of the host, written by `pwrite`. It tells no bytes.
#[derive(Drop)]
pub struct FileSink {
    pub location: Text,
    pub faults: u64,
    file: File,
}

impl FileSink {
    /// A sink over an open file, with the location with which it was opened.
    pub fn new(file: File, location: Text) -> FileSink
        ensures location { result.location ≡ location }
        ensures faults { result.faults ≡ 0 }
    {
        FileSink {
            location,
            faults: 0,
            file,
        }
    }

    fn fail(&mut self) -> Failed
        ensures { self.new ≡ record self.old { faults = raised self.old.faults } }
    {
        self.faults = self.faults.saturating_add(1);
        Failed
    }

    /// Writes some of a piece that is not empty.
    fn write_some(&mut self, place: u64, piece: &[u8]) -> Result<usize, Failed>
        ensures location { self.new.location ≡ self.old.location }
        ensures writes { WritesSome (length piece.now) result self.old.faults self.new.faults }
    {
        for _ in 0..u64::MAX {
            match self.file.write_at(piece, place) {
                Ok(0) => break,
                Ok(count) => return Ok(count),
                Err(error) if error.kind() == ErrorKind::Interrupted => {
                    self.fail();
                }
                Err(_) => break,
            }
        }
        Err(self.fail())
    }
}

impl Sink for FileSink {
    ghost bytes = { λ _. None };

    ghost location = { λ k. Some k.location };

    ghost faults = { λ k. k.faults };

    fn write_at(&mut self, place: u64, piece: &[u8]) -> Result<usize, Failed> {
        if place > LARGEST_END || piece.len() as u64 > LARGEST_END - place {
            return Err(self.fail());
        }
        if piece.is_empty() {
            return Ok(0);
        }
        self.write_some(place, piece)
    }

    fn cut(&mut self, len: u64) -> Result<(), Failed> {
        let cut = match self.file.metadata() {
            Ok(metadata) if metadata.len() <= len => Ok(()),
            Ok(_) => self.file.set_len(len),
            Err(error) => Err(error),
        };
        if cut.is_err() {
            return Err(self.fail());
        }
        Ok(())
    }

    fn faults(&self) -> u64 {
        self.faults
    }
}
