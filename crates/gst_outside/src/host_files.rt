//! Files of the host.
ghost use Rattle.std.specs.Prelude.{◌≡◌};
ghost use Rattle.gst_outside.specs.Causes.{raised};
ghost use Rattle.gst_outside.specs.Seen.{untold};

use crate::file_sink::FileSink;
use crate::file_source::FileSource;
use crate::files::Files;
use crate::opening::OpenEnd;
use gst_value::Text;
use std::alloc::Global;
use std::fs::{self, File};

/// The files of the host. They tell nothing but their count of failures and of open ends.
#[derive(Drop)]
pub struct HostFiles<R: fs::Files<File = File> + Drop> {
    pub faults: u64,
    pub ends: u64,
    host: R,
}

impl<R: fs::Files<File = File> + Drop> HostFiles<R> {
    /// The files that a runtime reaches.
    pub fn new(host: R) -> HostFiles<R>
        ensures faults { result.faults ≡ 0 }
        ensures ends { result.ends ≡ 0 }
    {
        HostFiles {
            faults: 0,
            ends: 0,
            host,
        }
    }

    /// How many ends were given out and not yet closed.
    pub fn ends(&self) -> u64
        ensures { result ≡ self.now.ends }
    {
        self.ends
    }

    fn refuse(&mut self) -> OpenEnd
        ensures answer { result ≡ OpenEnd.Failed }
        ensures leaves { self.new ≡ record self.old { faults = raised self.old.faults } }
    {
        self.faults = self.faults.saturating_add(1);
        OpenEnd::Failed
    }
}

impl<R: fs::Files<File = File> + Drop> Files for HostFiles<R> {
    type Src = FileSource;

    type Snk = FileSink;

    ghost seen = { λ m. untold m.faults m.ends };

    ghost opened = { λ _ _. Unit {0} };

    fn open_read(&mut self, alloc: Global, location: &str) -> Result<FileSource, OpenEnd> {
        let place = Text::from_str(alloc, location)?;
        let Ok(file) = fs::open(&self.host, location) else {
            return Err(self.refuse());
        };
        self.ends = self.ends.saturating_add(1);
        Ok(FileSource::new(file, place))
    }

    fn open_write(&mut self, alloc: Global, location: &str) -> Result<FileSink, OpenEnd> {
        let place = Text::from_str(alloc, location)?;
        let Ok(file) = fs::create(&self.host, location) else {
            return Err(self.refuse());
        };
        self.ends = self.ends.saturating_add(1);
        Ok(FileSink::new(file, place))
    }

    fn close_read(&mut self, end: FileSource) {
        self.ends = self.ends.saturating_sub(1);
        self.faults = self.faults.saturating_add(end.faults);
    }

    fn close_write(&mut self, end: FileSink) {
        self.ends = self.ends.saturating_sub(1);
        self.faults = self.faults.saturating_add(end.faults);
    }

    fn faults(&self) -> u64 {
        self.faults
    }
}
