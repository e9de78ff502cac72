//! Segments: the part of a stream that is played, as in GStreamer's design document on segments.
ghost use Rattle.std.specs.Prelude.{◌≡◌, ◌≤◌, None};
ghost use Rattle.std.specs.Option.{ForSome};

use crate::time::LIMIT;

/// What the positions of a segment count.
#[derive(Clone, Copy, Debug, PartialEq, Eq)]
pub enum Format {
    /// Bytes of a file.
    Bytes,
    /// Nanoseconds.
    Time,
}

/// The part of a stream from `start` to `stop`, in bytes or in nanoseconds as `format` says. All its numbers
/// are in that format, but `time` and `base`, where in `Format::Time` the stream time and the running time of
/// `start` stand.
#[derive(Clone, Copy, Debug, PartialEq, Eq)]
pub struct Segment {
    pub format: Format,
    pub start: u64,
    pub stop: Option<u64>,
    pub time: u64,
    pub base: u64,
    pub position: u64,
    ghost ordered: { ForSome stop (λ s. start ≤ s) },
}

impl Segment {
    ghost use Rattle.std.specs.Prelude.{ℕ, ◌<◌, ◌⊎◌, ◌↔◌, ◌+◌, ◌-◌, max, if◌then◌else◌, IsNone, IfSome};
    ghost use Rattle.gst_time.specs.Place.{IsIn, IsOutside, IsPlayed, IsWithin, end_by};

    /// The segment of a whole stream: all its numbers are 0, and it has no stop.
    pub fn new(format: Format) -> Segment
        ensures format { result.format ≡ format }
        ensures start { result.start ≡ 0 }
        ensures stop { result.stop ≡ None }
        ensures time { result.time ≡ 0 }
        ensures base { result.base ≡ 0 }
        ensures position { result.position ≡ 0 }
    {
        Segment {
            format,
            start: 0,
            stop: None,
            time: 0,
            base: 0,
            position: 0,
        }
    }

    /// The running time of a position, which is what the clock shows while it plays. `None` where the position
    /// is outside of the segment, whose stop is still inside, or where the running time is `LIMIT` or more.
    pub fn running(&self, position: u64) -> Option<u64>
        ensures value { IfSome result (λ t. t ≡ position - self.now.start + self.now.base) }
        ensures within { IfSome result (λ _. IsWithin self.now position) }
        ensures below { IfSome result (λ t. t < LIMIT) }
        ensures none { IsNone result ↔ (IsOutside self.now position ⊎ (LIMIT ≤ position - self.now.start + self.now.base)) }
    {
        self.distance(position)?
            .checked_add(self.base)
            .filter(|t| *t < LIMIT)
    }

    /// The stream time of a position, which is the place in the stream that a seek names. `None` where the
    /// position is outside of the segment, whose stop is still inside, or where the stream time is `LIMIT` or
    /// more.
    pub fn stream(&self, position: u64) -> Option<u64>
        ensures value { IfSome result (λ t. t ≡ position - self.now.start + self.now.time) }
        ensures within { IfSome result (λ _. IsWithin self.now position) }
        ensures below { IfSome result (λ t. t < LIMIT) }
        ensures none { IsNone result ↔ (IsOutside self.now position ⊎ (LIMIT ≤ position - self.now.start + self.now.time)) }
    {
        self.distance(position)?
            .checked_add(self.time)
            .filter(|t| *t < LIMIT)
    }

    // How far a position stands behind the start. `None` where it is outside.
    fn distance(&self, position: u64) -> Option<u64>
        ensures value { IfSome result (λ d. d ≡ position - self.now.start) }
        ensures within { IfSome result (λ _. IsWithin self.now position) }
        ensures none { IsNone result ↔ IsOutside self.now position }
    {
        if self.stop.is_some_and(|stop| position > stop) {
            return None;
        }
        position.checked_sub(self.start)
    }

    /// The part of `from..to` that the segment plays. `None` where it plays none of it.
    pub fn clip(&self, from: u64, to: u64) -> Option<(u64, u64)>
        requires { from ≤ to }
        ensures common { (k : ℕ) → IsIn result k ↔ ((from ≤ k) × (k < to) × IsPlayed self.now k) }

        ensures begin { IfSome result (λ part. part.0 ≡ max from self.now.start) }
        ensures end { IfSome result (λ part. part.1 ≡ end_by self.now.stop to) }
        ensures some { IfSome result (λ part. part.0 < part.1) }
        ensures none { IsNone result ↔ (end_by self.now.stop to ≤ max from self.now.start) }
    {
        let begin = from.max(self.start);
        let end = self.stop.map_or(to, |stop| to.min(stop));
        if begin < end {
            Some((begin, end))
        } else {
            None
        }
    }

    /// The segment behind a seek to `start`, up to a `stop` or to the end. Running time begins anew with a
    /// flush; without one it goes on from `reached`.
    pub fn seek(&self, start: u64, stop: Option<u64>, flush: bool, reached: u64) -> Segment
        requires { ForSome stop (λ s. start ≤ s) }
        ensures format { result.format ≡ self.now.format }
        ensures start { result.start ≡ start }
        ensures stop { result.stop ≡ stop }
        ensures time { result.time ≡ start }
        ensures base { result.base ≡ (if flush then 0 else reached) }
        ensures position { result.position ≡ start }
    {
        Segment {
            format: self.format,
            start,
            stop,
            time: start,
            base: if flush { 0 } else { reached },
            position: start,
        }
    }
}
