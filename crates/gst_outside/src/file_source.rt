//! Files of the host that are read.
ghost use Rattle.std.specs.Prelude.{◌≡◌, None, Some};
ghost use Rattle.gst_outside.specs.Causes.{raised};

use crate::failed::Failed;
use crate::source::Source;
use gst_value::Text;
use std::fs::{File, OpenFile};
use std::io::ErrorKind;
use std::os::unix::fs::FileExt;

/// An open file of the host, read by `pread`. It tells no content.
#[derive(Drop)]
pub struct FileSource {
    pub location: Text,
    pub faults: u64,
    file: File,
}

impl FileSource {
    /// A source over an open file, with the location with which it was opened.
    pub fn new(file: File, location: Text) -> FileSource
        ensures location { result.location ≡ location }
        ensures faults { result.faults ≡ 0 }
    {
        FileSource {
            location,
            faults: 0,
            file,
        }
    }

    fn fail(&mut self) -> Failed
        ensures { self.new ≡ record self.old { faults = raised self.old.faults } }
    {
        self.faults = self.faults.saturating_add(1);
        Failed
    }
}

impl Source for FileSource {
    ghost content = { λ _. None };

    ghost location = { λ s. Some s.location };

    ghost faults = { λ s. s.faults };

    fn read_at(&mut self, place: u64, into: &mut [u8]) -> Result<usize, Failed> {
        for _ in 0..u64::MAX {
            match self.file.read_at(into, place) {
                Ok(count) => return Ok(count),
                Err(error) if error.kind() == ErrorKind::Interrupted => {}
                Err(_) => break,
            }
        }
        Err(self.fail())
    }

    fn size(&mut self) -> Result<u64, Failed> {
        match self.file.metadata() {
            Ok(metadata) => Ok(metadata.len()),
            Err(_) => Err(self.fail()),
        }
    }

    fn faults(&self) -> u64 {
        self.faults
    }
}
