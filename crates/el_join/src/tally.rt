//! What a pad's items come to.
ghost use Rattle.std.specs.Prelude.{◌≡◌, max};
ghost use Rattle.el_join.specs.Totals.{added, no_tally, running, running_in};

use crate::sums::Sum;
use gst_time::{Format, Segment};

/// What a pad's items come to: the SEGMENT in force, the greatest running time at which a buffer ends, in
/// nanoseconds, and how many bytes the buffers have.
#[derive(Clone, Copy)]
pub(crate) struct Tally {
    pub(crate) segment: Option<Segment>,
    pub(crate) greatest: u64,
    pub(crate) bytes: Sum,
}

impl Tally {
    /// That of no items.
    pub(crate) fn new() -> Tally
        ensures { result ≡ no_tally }
    {
        Tally {
            segment: None,
            greatest: 0,
            bytes: Sum::Within(0),
        }
    }

    /// Counts a buffer that ends at this time, where it has one, and has so many bytes.
    #[inline]
    pub(crate) fn count(&mut self, end: Option<u64>, bytes: u64)
        ensures segment { self.new.segment ≡ self.old.segment }
        ensures greatest { self.new.greatest ≡ max self.old.greatest (running_in self.old.segment end) }
        ensures bytes { self.new.bytes ≡ added self.old.bytes bytes }
    {
        self.greatest = self.greatest.max(running_in(&self.segment, end));
        self.bytes = self.bytes.with(bytes);
    }
}

/// The running time of an end in a SEGMENT in time, and 0 where there is none.
#[inline]
fn running_in(segment: &Option<Segment>, end: Option<u64>) -> u64
    ensures { result ≡ running_in segment.now end }
{
    let Some(segment) = segment else {
        return 0;
    };
    match end {
        Some(end) => running_at(segment, end),
        None => 0,
    }
}

#[inline]
fn running_at(segment: &Segment, end: u64) -> u64
    ensures { result ≡ running segment.now.format segment.now end }
{
    match segment.format {
        Format::Time => segment.running(end).unwrap_or(0),
        Format::Bytes => 0,
    }
}
