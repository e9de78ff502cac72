//! A source that reads ahead.
ghost use Rattle.std.specs.Prelude.{◌≡◌, ◌≤◌, ◌<◌, ◌-◌, if◌then◌else◌, leb, length, take, drop, min, IfOk, vec_len};
ghost use Rattle.std.specs.Option.{ForSome};

use gst_outside::{Failed, Source};
use gst_value::OutOfMemory;
use std::alloc::Global;

/// How many bytes are asked for at once, where a read has room for fewer.
pub const WINDOW: usize = 65_536;

/// A source that asks another one for `WINDOW` bytes at once and gives them out from its own memory, so that many
/// small reads that follow each other cost one call of the system. A read with room for `WINDOW` bytes or more goes to
/// the other source as it is.
///
/// A byte is what the other source gave for its place at some time since this source was opened: what is written there
/// later may not be seen.
#[derive(Drop)]
pub struct AheadSource<S: Source> {
    pub(crate) source: S,
    pub(crate) window: Vec<u8>,
    pub(crate) start: u64,
    pub(crate) len: usize,
    ghost some: { 0 < vec_len window },
    ghost within: { len ≤ vec_len window },
    ghost inside: { ForSome (S.content source) (λ c. len ≤ length c - start) },
    ghost held: { ForSome (S.content source) (λ c. take len window.items ≡ take len (drop start c)) },
}

/// Memory for what is read ahead.
pub(crate) fn new_window(alloc: Global) -> Result<Vec<u8>, OutOfMemory>
    ensures some { IfOk result (λ window. 0 < vec_len window) }
{
    Ok(vec![in alloc; 0; WINDOW]?)
}

/// Gives out what is held of the bytes from `place` on, where those from `start` on are held: as many as have room.
fn give(held: &[u8], start: u64, place: u64, into: &mut [u8]) -> usize
    ensures count { result ≡ (if leb start place then min (length into.old) (length held.now - (place - start)) else 0) }
    ensures bytes { take result into.new ≡ take result (drop (place - start) held.now) }
{
    if start <= place {
        copy_from(held, place - start, into)
    } else {
        0
    }
}

/// Copies the bytes from `place` on into the front of `into`, as many as there are and as have room.
fn copy_from(held: &[u8], place: u64, into: &mut [u8]) -> usize
    ensures count { result ≡ min (length into.old) (length held.now - place) }
    ensures bytes { take result into.new ≡ take result (drop place held.now) }
{
    if place >= held.len() as u64 {
        return 0;
    }
    let rest = &held[place as usize..];
    let count = rest.len().min(into.len());
    into[..count].copy_from_slice(&rest[..count]);
    count
}

impl<S: Source> Source for AheadSource<S> {
    ghost content = { λ s. S.content s.source };

    ghost location = { λ s. S.location s.source };

    ghost faults = { λ s. S.faults s.source };

    fn read_at(&mut self, place: u64, into: &mut [u8]) -> Result<usize, Failed> {
        if into.len() >= WINDOW {
            return self.source.read_at(place, into);
        }
        let given = give(&self.window[..self.len], self.start, place, into);
        if given > 0 {
            return Ok(given);
        }
        self.len = 0;
        self.start = place;
        self.len = self.source.read_at(place, self.window.as_mut_slice())?;
        Ok(give(&self.window[..self.len], self.start, place, into))
    }

    fn size(&mut self) -> Result<u64, Failed> {
        self.source.size()
    }

    fn faults(&self) -> u64 {
        self.source.faults()
    }
}
