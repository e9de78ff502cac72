//! What is written to: files and their like.
ghost use Rattle.std.specs.Prelude.{◌≡◌, ◌≤◌, ◌+◌, ◌^◌, ℕ, List, Option, length, take, option_map, IfOk, OnOk, OnErr};
ghost use Rattle.gst_outside.specs.Bytes.{written};
ghost use Rattle.gst_outside.specs.Causes.{Rose};

use crate::failed::Failed;

/// The end of the largest file, in bytes: no write passes it.
pub const LARGEST_END: u64 = 1 << 63;

/// Bytes that are written by their place, as with POSIX `pwrite`.
///
/// Its meanings: `bytes` is what stands in it, where that is told; `location` is the location with which it
/// was opened, where that is told; `faults` is the number of calls that failed, which never falls and stays
/// at the last value of a `u64`. No call changes the location.
pub trait Sink: Drop + 'static {
    ghost bytes: { Self → Option (List ℕ) };

    ghost location: { Self → Option (List ℕ) };

    ghost faults: { Self → ℕ };

    /// Writes the front of `piece` at `place`, and tells how many bytes it wrote, which may be fewer than
    /// there are, but not 0 where there are any. Bytes between the old end and `place` become 0. A write
    /// that would end past 2^63 fails, and one that fails writes nothing.
    fn write_at(&mut self, place: u64, piece: &[u8]) -> Result<usize, Failed>
        ensures location_stays { location self.new ≡ location self.old }
        ensures never_falls { faults self.old ≤ faults self.new }
        ensures failed { OnErr result (Rose (faults self.old) (faults self.new)) }
        ensures kept { OnErr result (bytes self.new ≡ bytes self.old) }
        ensures part { IfOk result (λ n. n ≤ length piece.now) }
        ensures some { IfOk result (λ n. n ≡ 0 → length piece.now ≡ 0) }
        ensures reach { OnOk result (place + length piece.now ≤ 2 ^ 63) }
        ensures wrote { IfOk result (λ n. bytes self.new ≡ option_map (λ b. written b place (take n piece.now)) (bytes self.old)) };

    /// Leaves the first `len` bytes, or all where there are not more. Where it fails it leaves all.
    fn cut(&mut self, len: u64) -> Result<(), Failed>
        ensures location_stays { location self.new ≡ location self.old }
        ensures never_falls { faults self.old ≤ faults self.new }
        ensures failed { OnErr result (Rose (faults self.old) (faults self.new)) }
        ensures kept { OnErr result (bytes self.new ≡ bytes self.old) }
        ensures cut { OnOk result (bytes self.new ≡ option_map (λ b. take len b) (bytes self.old)) };

    /// How many of its calls failed.
    fn faults(&self) -> u64
        ensures { result ≡ faults self.now };
}
