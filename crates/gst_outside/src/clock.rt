//! Clocks.
ghost use Rattle.std.specs.Prelude.{◌≡◌, ℕ, List, Option, Contains, IfOk};
ghost use Rattle.std.specs.Option.{ForSome};
ghost use Rattle.gst_outside.specs.Causes.{raised};

use gst_value::OutOfMemory;
use std::alloc::Global;

/// A clock in nanoseconds.
///
/// Its meanings: `list` is the readings that it may give, where they are told; `reads` is the number of
/// readings that were made, which stays at the last value of a `u64`.
pub trait Clock: Send + Drop + 'static {
    ghost list: { Self → Option (List ℕ) };

    ghost reads: { Self → ℕ };

    /// The next reading, in nanoseconds.
    fn now(&mut self) -> u64
        ensures reading { ForSome (list self.old) (λ all. Contains all result) }
        ensures list_stays { list self.new ≡ list self.old }
        ensures counted { reads self.new ≡ raised (reads self.old) };

    /// How many readings were made.
    fn reads(&self) -> u64
        ensures { result ≡ reads self.now };

    /// Another clock with the same readings, of which none was made yet.
    fn twin(&self, alloc: Global) -> Result<Self, OutOfMemory>
    where
        Self: Sized,
        ensures list { IfOk result (λ t. list t ≡ list self.now) }
        ensures fresh { IfOk result (λ t. reads t ≡ 0) };
}
