//! Sources in memory.
ghost use Rattle.std.specs.Prelude.{◌≡◌, ◌-◌, Some, length, take, drop, min, is_err, IfOk};
ghost use Rattle.gst_outside.specs.Calls.{counted, next_fails};
ghost use Rattle.gst_outside.specs.Causes.{raised};
ghost use Rattle.gst_outside.specs.Ends.{faults_after, new_source};

use crate::calls::Calls;
use crate::failed::Failed;
use crate::source::Source;
use gst_value::{List as Members, Text};

/// A source in memory. The calls whose numbers are listed fail, and no others.
#[derive(Drop)]
pub struct MemSource {
    pub location: Text,
    pub content: Members<u8>,
    pub faults: u64,
    pub reading: Calls,
    pub sizing: Calls,
}

impl MemSource {
    /// A source of these bytes, with the numbers, counted from 1, of the reads and of the looks at its size
    /// that are to fail.
    pub fn new(
        location: Text,
        content: Members<u8>,
        reads: Members<u64>,
        sizes: Members<u64>,
    ) -> MemSource
        ensures { result ≡ new_source location content reads sizes }
    {
        MemSource {
            location,
            content,
            faults: 0,
            reading: Calls::new(reads),
            sizing: Calls::new(sizes),
        }
    }

    fn fail(&mut self) -> Failed
        ensures { self.new ≡ record self.old { faults = raised self.old.faults } }
    {
        self.faults = self.faults.saturating_add(1);
        Failed
    }
}

/// Copies the bytes from `place` on into the front of `into`, as many as there are and as have room.
fn copy_from(kept: &[u8], place: u64, into: &mut [u8]) -> usize
    ensures count { result ≡ min (length into.old) (length kept.now - place) }
    ensures bytes { take result into.new ≡ take result (drop place kept.now) }
{
    if place >= kept.len() as u64 {
        return 0;
    }
    let rest = &kept[place as usize..];
    let count = rest.len().min(into.len());
    into[..count].copy_from_slice(&rest[..count]);
    count
}

impl Source for MemSource {
    ghost content = { λ s. Some s.content };

    ghost location = { λ s. Some s.location };

    ghost faults = { λ s. s.faults };

    fn read_at(&mut self, place: u64, into: &mut [u8]) -> Result<usize, Failed>
        ensures fails { is_err result ≡ next_fails self.old.reading }
        ensures count { IfOk result (λ n. n ≡ min (length into.old) (length self.old.content - place)) }
        ensures bytes { IfOk result (λ n. take n into.new ≡ take n (drop place self.old.content)) }
        ensures leaves { self.new ≡ record self.old { faults = faults_after result self.old.faults; reading = counted self.old.reading } }
    {
        if self.reading.count() {
            return Err(self.fail());
        }
        Ok(copy_from(self.content.as_slice(), place, into))
    }

    fn size(&mut self) -> Result<u64, Failed>
        ensures fails { is_err result ≡ next_fails self.old.sizing }
        ensures size { IfOk result (λ n. n ≡ length self.old.content) }
        ensures leaves { self.new ≡ record self.old { faults = faults_after result self.old.faults; sizing = counted self.old.sizing } }
    {
        if self.sizing.count() {
            return Err(self.fail());
        }
        Ok(self.content.as_slice().len() as u64)
    }

    fn faults(&self) -> u64 {
        self.faults
    }
}
