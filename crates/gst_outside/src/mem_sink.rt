//! Sinks in memory.
ghost use Rattle.std.specs.Prelude.{◌≡◌, ◌≤◌, ◌<◌, ◌+◌, ◌-◌, ◌^◌, ◌++◌, ◌||◌, not, Some, length, take, replicate, is_err, IfOk, vec_capacity};
ghost use Rattle.gst_outside.specs.Bytes.{overwritten, written};
ghost use Rattle.gst_outside.specs.Calls.{counted, next_fails};
ghost use Rattle.gst_outside.specs.Causes.{raised};
ghost use Rattle.gst_outside.specs.Room.{has_room};

use crate::calls::Calls;
use crate::failed::Failed;
use crate::sink::{LARGEST_END, Sink};
use gst_value::{List as Members, OutOfMemory, Text};
use std::alloc::Global;

/// A sink in memory with room for so many bytes. The calls whose numbers are listed fail, and the writes
/// that would pass the room, and no others.
#[derive(Drop)]
pub struct MemSink {
    pub location: Text,
    pub bytes: Vec<u8>,
    pub room: usize,
    pub faults: u64,
    pub writing: Calls,
    pub cutting: Calls,
    ghost reserved: { room ≤ vec_capacity bytes },
    ghost small: { room ≤ 2 ^ 63 },
}

impl MemSink {
    ghost use Rattle.gst_outside.specs.Ends.{IsNewSink};

    /// An empty sink with room for `room` bytes, with the numbers, counted from 1, of the writes and of the
    /// cuts that are to fail.
    pub fn new(
        alloc: Global,
        location: Text,
        room: usize,
        writes: Members<u64>,
        cuts: Members<u64>,
    ) -> Result<MemSink, OutOfMemory>
        ensures { IfOk result (IsNewSink location room writes cuts) }
    {
        if room as u64 > LARGEST_END {
            return Err(OutOfMemory);
        }
        Ok(MemSink {
            location,
            bytes: Vec::with_capacity(alloc, room)?,
            room,
            faults: 0,
            writing: Calls::new(writes),
            cutting: Calls::new(cuts),
        })
    }

    /// The bytes that were written, which are not copied.
    pub fn into_bytes(self) -> Vec<u8>
        ensures { result.items ≡ self.bytes.items }
    {
        self.bytes
    }

    fn fail(&mut self) -> Failed
        ensures { self.new ≡ record self.old { faults = raised self.old.faults } }
    {
        self.faults = self.faults.saturating_add(1);
        Failed
    }
}

/// Whether a piece at a place ends within the room.
fn fits(room: usize, place: u64, piece: &[u8]) -> bool
    requires { room ≤ 2 ^ 63 }
    ensures { result ≡ has_room room place piece.now }
{
    let end = if piece.is_empty() {
        LARGEST_END
    } else {
        room as u64
    };
    matches!(place.checked_add(piece.len() as u64), Some(sum) if sum <= end)
}

/// Puts zeros behind bytes that are fewer than `end`, where there is memory for them.
fn stretch(bytes: &mut Vec<u8>, end: usize)
    requires { end ≤ vec_capacity bytes.old }
    ensures bytes { bytes.new.items ≡ bytes.old.items ++ replicate (end - length bytes.old.items) 0 }
    ensures capacity { vec_capacity bytes.old ≤ vec_capacity bytes.new }
{
    if bytes.len() < end {
        let Ok(()) = bytes.resize(end, 0) else {
            unreachable!()
        };
    }
}

/// Puts a piece over the bytes at a place.
fn overwrite(bytes: &mut [u8], place: usize, piece: &[u8])
    requires { place + length piece.now ≤ length bytes.old }
    ensures { bytes.new ≡ overwritten bytes.old place piece.now }
{
    bytes[place..place + piece.len()].copy_from_slice(piece);
}

/// Writes a piece at a place of bytes that have memory for it.
fn store(bytes: &mut Vec<u8>, place: usize, piece: &[u8])
    requires { 0 < length piece.now → place + length piece.now ≤ vec_capacity bytes.old }
    ensures bytes { bytes.new.items ≡ written bytes.old.items place piece.now }
    ensures capacity { vec_capacity bytes.old ≤ vec_capacity bytes.new }
{
    if !piece.is_empty() {
        stretch(bytes, place + piece.len());
        overwrite(bytes.as_mut_slice(), place, piece);
    }
}

impl Sink for MemSink {
    ghost use Rattle.gst_outside.specs.Ends.{AfterCall};

    ghost bytes = { λ k. Some k.bytes.items };

    ghost location = { λ k. Some k.location };

    ghost faults = { λ k. k.faults };

    fn write_at(&mut self, place: u64, piece: &[u8]) -> Result<usize, Failed>
        ensures fails { is_err result ≡ (next_fails self.old.writing || not (has_room self.old.room place piece.now)) }
        ensures whole { IfOk result (λ n. n ≡ length piece.now) }
        ensures leaves { AfterCall result (written self.old.bytes.items place piece.now) self.old self.new }
        ensures counted { self.new.writing ≡ counted self.old.writing }
        ensures cutting_stays { self.new.cutting ≡ self.old.cutting }
    {
        let fails = self.writing.count();
        if fails || !fits(self.room, place, piece) {
            return Err(self.fail());
        }
        store(&mut self.bytes, place as usize, piece);
        Ok(piece.len())
    }

    fn cut(&mut self, len: u64) -> Result<(), Failed>
        ensures fails { is_err result ≡ next_fails self.old.cutting }
        ensures leaves { AfterCall result (take len self.old.bytes.items) self.old self.new }
        ensures counted { self.new.cutting ≡ counted self.old.cutting }
        ensures writing_stays { self.new.writing ≡ self.old.writing }
    {
        if self.cutting.count() {
            return Err(self.fail());
        }
        self.bytes.truncate(len as usize);
        Ok(())
    }

    fn faults(&self) -> u64 {
        self.faults
    }
}
