//! Files whose sources read ahead.
ghost use Rattle.std.specs.Prelude.{◌≡◌};

use crate::ahead_source::{AheadSource, new_window};
use gst_outside::{Files, OpenEnd};
use std::alloc::Global;

/// Other files, whose sources read ahead. The sinks are theirs.
#[derive(Drop)]
pub struct AheadFiles<F> {
    files: F,
}

impl<F: Files> AheadFiles<F> {
    /// These files, with sources that read ahead.
    pub fn new(files: F) -> AheadFiles<F>
        ensures { result.files ≡ files }
    {
        AheadFiles { files }
    }
}

impl<F: Files> Files for AheadFiles<F> {
    type Src = AheadSource<F::Src>;

    type Snk = F::Snk;

    ghost seen = { λ m. F.seen m.files };

    ghost opened = { λ m. F.opened m.files };

    fn open_read(&mut self, alloc: Global, location: &str) -> Result<AheadSource<F::Src>, OpenEnd> {
        let window = new_window(alloc)?;
        let source = self.files.open_read(alloc, location)?;
        Ok(AheadSource {
            source,
            window,
            start: 0,
            len: 0,
        })
    }

    fn open_write(&mut self, alloc: Global, location: &str) -> Result<F::Snk, OpenEnd> {
        self.files.open_write(alloc, location)
    }

    fn close_read(&mut self, end: AheadSource<F::Src>) {
        let AheadSource { source, .. } = end;
        self.files.close_read(source);
    }

    fn close_write(&mut self, end: F::Snk) {
        self.files.close_write(end);
    }

    fn faults(&self) -> u64 {
        self.files.faults()
    }
}
