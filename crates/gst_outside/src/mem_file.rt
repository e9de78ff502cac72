//! What files in memory keep of one location.
ghost use Rattle.std.specs.Prelude.{◌≡◌, IfOk};
ghost use Rattle.gst_outside.specs.Ends.{IsNewSink, new_source};
ghost use Rattle.gst_outside.specs.Table.{new_file};

use crate::calls::copy_list;
use crate::mem_sink::MemSink;
use crate::mem_source::MemSource;
use gst_value::{List as Members, OutOfMemory, Text};
use std::alloc::Global;

/// The room, in bytes, of an output of which nothing else is said.
pub const AMPLE_ROOM: usize = 16_777_216;

/// What stands at a location: what sources read there, what the sink that was closed last left there, the
/// failures of the ends that were closed there, and the openings that were refused. Further the numbers,
/// counted from 1, of the calls that are to fail on each end that is opened there, and the room in bytes of
/// each sink.
#[derive(Drop)]
pub struct MemFile {
    pub location: Text,
    pub input: Members<u8>,
    pub output: Members<u8>,
    pub faults: u64,
    pub refused: u64,
    pub reads: Members<u64>,
    pub sizes: Members<u64>,
    pub room: usize,
    pub writes: Members<u64>,
    pub cuts: Members<u64>,
}

impl MemFile {
    /// An empty file with ample room, on which no call fails.
    pub fn new(alloc: Global, location: &str) -> Result<MemFile, OutOfMemory>
        ensures { IfOk result (λ made. made ≡ new_file location.now) }
    {
        Ok(MemFile {
            location: Text::from_str(alloc, location)?,
            input: Members::new(alloc),
            output: Members::new(alloc),
            faults: 0,
            refused: 0,
            reads: Members::new(alloc),
            sizes: Members::new(alloc),
            room: AMPLE_ROOM,
            writes: Members::new(alloc),
            cuts: Members::new(alloc),
        })
    }

    /// A source of the input.
    pub fn source(&self, alloc: Global) -> Result<MemSource, OutOfMemory>
        ensures { IfOk result (λ s. s ≡ new_source self.now.location self.now.input self.now.reads self.now.sizes) }
    {
        Ok(MemSource::new(
            self.location.copy(alloc)?,
            copy_list(alloc, self.input.as_slice())?,
            copy_list(alloc, self.reads.as_slice())?,
            copy_list(alloc, self.sizes.as_slice())?,
        ))
    }

    /// An empty sink.
    pub fn sink(&self, alloc: Global) -> Result<MemSink, OutOfMemory>
        ensures { IfOk result (IsNewSink self.now.location self.now.room self.now.writes self.now.cuts) }
    {
        MemSink::new(
            alloc,
            self.location.copy(alloc)?,
            self.room,
            copy_list(alloc, self.writes.as_slice())?,
            copy_list(alloc, self.cuts.as_slice())?,
        )
    }
}
