//! Where sources and sinks are opened and closed.
ghost use Rattle.std.specs.Prelude.{◌≡◌, ℕ, List, [], Some, option_map, if◌then◌else◌, IfOk, OnOk};
ghost use Rattle.gst_outside.specs.Places.{is_at};
ghost use Rattle.gst_outside.specs.Seen.{AfterClosing, AfterOpening, Seen};

use crate::opening::OpenEnd;
use crate::sink::Sink;
use crate::source::Source;
use std::alloc::Global;

/// Files by their locations.
///
/// Its meanings: `seen` is what it tells of its locations, and its counts, which stay at the last value of a
/// `u64`; `opened` says of a location that it was opened here.
pub trait Files {
    type Src: Source + Send;

    type Snk: Sink + Send;

    ghost seen: { Self → Seen };

    ghost opened: { Self → List ℕ → Type 0 };

    /// Opens a location for reading.
    fn open_read(&mut self, alloc: Global, location: &str) -> Result<Self::Src, OpenEnd>
        ensures content { IfOk result (λ s. Self.Src.content s ≡ (seen self.old).input location.now) }
        ensures place { IfOk result (λ s. Self.Src.location s ≡ Some location.now) }
        ensures fresh { IfOk result (λ s. Self.Src.faults s ≡ 0) }
        ensures opened { OnOk result (opened self.new location.now) }
        ensures opened_stays { (l : List ℕ) → opened self.old l → opened self.new l }
        ensures leaves { AfterOpening location.now result (seen self.old) (seen self.new) };

    /// Opens a location for writing. The sink begins empty.
    fn open_write(&mut self, alloc: Global, location: &str) -> Result<Self::Snk, OpenEnd>
        ensures empty { IfOk result (λ k. Self.Snk.bytes k ≡ option_map (λ _. []) ((seen self.old).output location.now)) }
        ensures place { IfOk result (λ k. Self.Snk.location k ≡ Some location.now) }
        ensures fresh { IfOk result (λ k. Self.Snk.faults k ≡ 0) }
        ensures opened { OnOk result (opened self.new location.now) }
        ensures opened_stays { (l : List ℕ) → opened self.old l → opened self.new l }
        ensures leaves { AfterOpening location.now result (seen self.old) (seen self.new) };

    /// Closes a source that was opened here.
    fn close_read(&mut self, end: Self::Src)
        requires opened_here { (l : List ℕ) → Self.Src.location end ≡ Some l → opened self.old l }
        ensures leaves { AfterClosing (Self.Src.location end) (Self.Src.faults end) (seen self.old) (seen self.new) }
        ensures output_stays { (l : List ℕ) → (seen self.new).output l ≡ (seen self.old).output l }
        ensures opened_stays { (l : List ℕ) → opened self.old l → opened self.new l };

    /// Closes a sink that was opened here: its bytes become the output of its location.
    fn close_write(&mut self, end: Self::Snk)
        requires opened_here { (l : List ℕ) → Self.Snk.location end ≡ Some l → opened self.old l }
        ensures leaves { AfterClosing (Self.Snk.location end) (Self.Snk.faults end) (seen self.old) (seen self.new) }
        ensures output { (l : List ℕ)
            → (seen self.new).output l ≡ (if is_at (Self.Snk.location end) l then Self.Snk.bytes end else (seen self.old).output l) }
        ensures opened_stays { (l : List ℕ) → opened self.old l → opened self.new l };

    /// How many openings failed, and calls of ends that are closed.
    fn faults(&self) -> u64
        ensures { result ≡ (seen self.now).faults };
}
