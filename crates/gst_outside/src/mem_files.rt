//! Files in memory.
ghost use Rattle.std.specs.Prelude.{◌≡◌, ℕ, List, Some, if◌then◌else◌, IfOk, OnOk, OnErr};
ghost use Rattle.gst_outside.specs.Calls.{next_fails};
ghost use Rattle.gst_outside.specs.Causes.{raised};
ghost use Rattle.gst_outside.specs.Ends.{IsNewSink, new_source};
ghost use Rattle.gst_outside.specs.Memory.{AreNew, Closes, FilesStay, OnlyTable, OpeningsStay, Opens, mem_seen};
ghost use Rattle.gst_outside.specs.Openings.{FailsWhere, calls_after};
ghost use Rattle.gst_outside.specs.Places.{is_at};
ghost use Rattle.gst_outside.specs.Table.{Changes, IsOpened, SameFiles, faults_at, file_at, output_at, refused_at, with_input, with_refusal, with_sinks};

use crate::calls::{Calls, copy_list};
use crate::files::Files;
use crate::mem_file::MemFile;
use crate::mem_sink::MemSink;
use crate::mem_source::MemSource;
use crate::opening::OpenEnd;
use crate::table::{add_faults, add_refusal, entry, file_of, set_input, set_output, set_sinks};
use gst_value::{List as Members, OutOfMemory};
use std::alloc::Global;

/// Files in memory. A location of which nothing is said has an empty input and ample room. The openings
/// whose numbers are listed fail, and no others; those for reading and those for writing are counted apart.
#[derive(Drop)]
pub struct MemFiles {
    pub table: Vec<MemFile>,
    pub faults: u64,
    pub ends: u64,
    pub reading: Calls,
    pub writing: Calls,
}

impl MemFiles {
    /// Files of which nothing is said, and whose openings do not fail. This takes no memory.
    pub fn new(alloc: Global) -> MemFiles
        ensures { AreNew result }
    {
        MemFiles {
            table: Vec::new(alloc),
            faults: 0,
            ends: 0,
            reading: Calls::new(Members::new(alloc)),
            writing: Calls::new(Members::new(alloc)),
        }
    }

    /// Says what sources read at a location, and the numbers, counted from 1 on each of them, of the reads
    /// and of the looks at the size that are to fail.
    pub fn add_input(
        &mut self,
        alloc: Global,
        location: &str,
        input: &[u8],
        reads: &[u64],
        sizes: &[u64],
    ) -> Result<(), OutOfMemory>
        ensures changes { OnOk result (Changes (with_input input.now reads.now sizes.now) location.now self.old.table.items self.new.table.items) }
        ensures wanting { OnErr result (SameFiles self.old.table.items self.new.table.items) }
        ensures rest_stays { OnlyTable self.old self.new }
    {
        let input = copy_list(alloc, input)?;
        let reads = copy_list(alloc, reads)?;
        let sizes = copy_list(alloc, sizes)?;
        entry(&mut self.table, alloc, location)?;
        set_input(&mut self.table, location, input, reads, sizes);
        Ok(())
    }

    /// Says how many bytes of room the sinks at a location have, and the numbers, counted from 1 on each of
    /// them, of the writes and of the cuts that are to fail.
    pub fn add_output(
        &mut self,
        alloc: Global,
        location: &str,
        room: usize,
        writes: &[u64],
        cuts: &[u64],
    ) -> Result<(), OutOfMemory>
        ensures changes { OnOk result (Changes (with_sinks room writes.now cuts.now) location.now self.old.table.items self.new.table.items) }
        ensures wanting { OnErr result (SameFiles self.old.table.items self.new.table.items) }
        ensures rest_stays { OnlyTable self.old self.new }
    {
        let writes = copy_list(alloc, writes)?;
        let cuts = copy_list(alloc, cuts)?;
        entry(&mut self.table, alloc, location)?;
        set_sinks(&mut self.table, location, room, writes, cuts);
        Ok(())
    }

    /// Says the numbers, counted from 1 over all locations, of the openings for reading that are to fail.
    pub fn fail_open_read(&mut self, alloc: Global, numbers: &[u64]) -> Result<(), OutOfMemory>
        ensures failing { OnOk result (self.new.reading ≡ record self.old.reading { failing = numbers.now }) }
        ensures wanting { OnErr result (self.new.reading ≡ self.old.reading) }
        ensures writing_stays { self.new.writing ≡ self.old.writing }
        ensures files_stay { FilesStay self.old self.new }
    {
        self.reading.failing = copy_list(alloc, numbers)?;
        Ok(())
    }

    /// Says the numbers, counted from 1 over all locations, of the openings for writing that are to fail.
    pub fn fail_open_write(&mut self, alloc: Global, numbers: &[u64]) -> Result<(), OutOfMemory>
        ensures failing { OnOk result (self.new.writing ≡ record self.old.writing { failing = numbers.now }) }
        ensures wanting { OnErr result (self.new.writing ≡ self.old.writing) }
        ensures reading_stays { self.new.reading ≡ self.old.reading }
        ensures files_stay { FilesStay self.old self.new }
    {
        self.writing.failing = copy_list(alloc, numbers)?;
        Ok(())
    }

    /// The bytes that the sink that was closed last left at a location: none where no sink was.
    pub fn output_bytes(&self, location: &str) -> &[u8]
        ensures { output_at self.now.table.items location.now ≡ Some result.now }
    {
        file_of(self.table.as_slice(), location).map_or(&[], |file| file.output.as_slice())
    }

    /// How many failures the ends had that were closed at a location.
    pub fn faults_of(&self, location: &str) -> u64
        ensures { faults_at self.now.table.items location.now ≡ Some result }
    {
        file_of(self.table.as_slice(), location).map_or(0, |file| file.faults)
    }

    /// How many openings of a location were refused.
    pub fn refused_of(&self, location: &str) -> u64
        ensures { refused_at self.now.table.items location.now ≡ Some result }
    {
        file_of(self.table.as_slice(), location).map_or(0, |file| file.refused)
    }

    /// How many ends were given out and not yet closed.
    pub fn ends(&self) -> u64
        ensures { result ≡ self.now.ends }
    {
        self.ends
    }

    /// Refuses an opening of a location that has an entry.
    fn refuse(&mut self, location: &str) -> OpenEnd
        requires { IsOpened self.old.table.items location.now }
        ensures answer { result ≡ OpenEnd.Failed }
        ensures changes { Changes with_refusal location.now self.old.table.items self.new.table.items }
        ensures faults { self.new.faults ≡ raised self.old.faults }
        ensures ends_stay { self.new.ends ≡ self.old.ends }
        ensures openings_stay { OpeningsStay self.old self.new }
    {
        self.faults = self.faults.saturating_add(1);
        add_refusal(&mut self.table, location);
        OpenEnd::Failed
    }
}

impl Files for MemFiles {
    type Src = MemSource;

    type Snk = MemSink;

    ghost seen = { mem_seen };

    ghost opened = { λ m l. IsOpened m.table.items l };

    #[tactic(auto, using(crate::proofs::Entries::file_location))]
    fn open_read(&mut self, alloc: Global, location: &str) -> Result<MemSource, OpenEnd>
        ensures source { let file = file_at self.old.table.items location.now in
            IfOk result (λ s. s ≡ new_source location.now file.input file.reads file.sizes) }
        ensures leaves { Opens location.now result self.old self.new }
        ensures fails { FailsWhere result (next_fails self.old.reading) }
        ensures counted { self.new.reading ≡ calls_after result self.old.reading }
        ensures writing_stays { self.new.writing ≡ self.old.writing }
    {
        let index = entry(&mut self.table, alloc, location)?;
        let end = self.table[index].source(alloc)?;
        if self.reading.count() {
            return Err(self.refuse(location));
        }
        self.ends = self.ends.saturating_add(1);
        Ok(end)
    }

    #[tactic(auto, using(crate::proofs::Entries::file_location))]
    fn open_write(&mut self, alloc: Global, location: &str) -> Result<MemSink, OpenEnd>
        ensures sink { let file = file_at self.old.table.items location.now in
            IfOk result (IsNewSink location.now file.room file.writes file.cuts) }
        ensures leaves { Opens location.now result self.old self.new }
        ensures fails { FailsWhere result (next_fails self.old.writing) }
        ensures counted { self.new.writing ≡ calls_after result self.old.writing }
        ensures reading_stays { self.new.reading ≡ self.old.reading }
    {
        let index = entry(&mut self.table, alloc, location)?;
        let end = self.table[index].sink(alloc)?;
        if self.writing.count() {
            return Err(self.refuse(location));
        }
        self.ends = self.ends.saturating_add(1);
        Ok(end)
    }

    fn close_read(&mut self, end: MemSource)
        requires opened_here { IsOpened self.old.table.items end.location }
        ensures leaves { Closes end.location end.faults self.old self.new }
        ensures output_stays { (l : List ℕ) → output_at self.new.table.items l ≡ output_at self.old.table.items l }
    {
        self.ends = self.ends.saturating_sub(1);
        self.faults = self.faults.saturating_add(end.faults);
        add_faults(&mut self.table, end.location.as_str(), end.faults);
    }

    fn close_write(&mut self, end: MemSink)
        requires opened_here { IsOpened self.old.table.items end.location }
        ensures leaves { Closes end.location end.faults self.old self.new }
        ensures output { (l : List ℕ)
            → output_at self.new.table.items l ≡ (if is_at (Some end.location) l then Some end.bytes.items else output_at self.old.table.items l) }
    {
        let bytes = Members::from_vec(end.bytes);
        self.ends = self.ends.saturating_sub(1);
        self.faults = self.faults.saturating_add(end.faults);
        add_faults(&mut self.table, end.location.as_str(), end.faults);
        set_output(&mut self.table, end.location.as_str(), bytes);
    }

    fn faults(&self) -> u64 {
        self.faults
    }
}
