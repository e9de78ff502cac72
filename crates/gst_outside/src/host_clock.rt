//! The host's clock.
ghost use Rattle.std.specs.Prelude.{◌≡◌, None};

use crate::clock::Clock;
use gst_value::OutOfMemory;
use std::alloc::Global;
use std::time;

/// The host's monotonic clock in nanoseconds. It tells no list. Where it cannot be read it gives its last
/// reading again.
#[derive(Drop)]
pub struct HostClock<R> {
    pub reads: u64,
    last: u64,
    host: R,
}

impl<R: time::Clock> HostClock<R> {
    /// The clock that a runtime reads.
    pub fn new(host: R) -> HostClock<R>
        ensures { result.reads ≡ 0 }
    {
        HostClock {
            reads: 0,
            last: 0,
            host,
        }
    }
}

impl<R: time::Clock + Copy + Send + 'static> Clock for HostClock<R> {
    ghost list = { λ _. None };

    ghost reads = { λ c. c.reads };

    fn now(&mut self) -> u64 {
        if let Ok(since) = self.host.monotonic() {
            self.last = since
                .as_secs()
                .saturating_mul(1_000_000_000)
                .saturating_add(u64::from(since.subsec_nanos()));
        }
        self.reads = self.reads.saturating_add(1);
        self.last
    }

    fn reads(&self) -> u64 {
        self.reads
    }

    fn twin(&self, _alloc: Global) -> Result<HostClock<R>, OutOfMemory> {
        Ok(HostClock::new(self.host))
    }
}
