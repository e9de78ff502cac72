//! What is read from: files and their like.
ghost use Rattle.std.specs.Prelude.{◌≡◌, ◌≤◌, ◌<◌, ◌-◌, ℕ, List, Option, length, take, drop, IfOk, OnOk, OnErr};
ghost use Rattle.std.specs.Option.{ForSome};
ghost use Rattle.gst_outside.specs.Causes.{Rose};

use crate::failed::Failed;

/// Bytes that are read by their place, as with POSIX `pread`.
///
/// Its meanings: `content` is the bytes, where they are told; `location` is the location with which it was
/// opened, where that is told; `faults` is the number of calls that failed, which never falls and stays at
/// the last value of a `u64`. No call changes the first two, and none that succeeds the third.
pub trait Source: Drop + 'static {
    ghost content: { Self → Option (List ℕ) };

    ghost location: { Self → Option (List ℕ) };

    ghost faults: { Self → ℕ };

    /// Reads the bytes from `place` on into the front of `into`, and tells how many it read, which may be
    /// fewer than there is room for. With room, 0 means the end of the input.
    fn read_at(&mut self, place: u64, into: &mut [u8]) -> Result<usize, Failed>
        ensures content_stays { content self.new ≡ content self.old }
        ensures location_stays { location self.new ≡ location self.old }
        ensures never_falls { faults self.old ≤ faults self.new }
        ensures failed { OnErr result (Rose (faults self.old) (faults self.new)) }
        ensures faults_stay { OnOk result (faults self.new ≡ faults self.old) }
        ensures room { IfOk result (λ n. n ≤ length into.old) }
        ensures inside { IfOk result (λ n. ForSome (content self.old) (λ c. n ≤ length c - place)) }
        ensures bytes { IfOk result (λ n. ForSome (content self.old) (λ c. take n into.new ≡ take n (drop place c))) }
        ensures end { IfOk result (λ n. n ≡ 0 → 0 < length into.old → ForSome (content self.old) (λ c. length c ≤ place)) };

    /// How many bytes there are.
    fn size(&mut self) -> Result<u64, Failed>
        ensures content_stays { content self.new ≡ content self.old }
        ensures location_stays { location self.new ≡ location self.old }
        ensures never_falls { faults self.old ≤ faults self.new }
        ensures failed { OnErr result (Rose (faults self.old) (faults self.new)) }
        ensures faults_stay { OnOk result (faults self.new ≡ faults self.old) }
        ensures size { IfOk result (λ n. ForSome (content self.old) (λ c. n ≡ length c)) };

    /// How many of its calls failed.
    fn faults(&self) -> u64
        ensures { result ≡ faults self.now };
}
