//! Clocks whose readings are given beforehand.
ghost use Rattle.std.specs.Prelude.{◌≡◌, ◌<◌, ◌+◌, ◌-◌, ◌∷◌, Some, length, min, slice_index, IfOk, Contains, vec_len};
ghost use Rattle.gst_outside.specs.Causes.{raised};

use crate::clock::Clock;
use gst_value::OutOfMemory;
use std::alloc::Global;

/// A clock with a list of readings, in nanoseconds. It gives them in their order, and the last one again
/// and again.
#[derive(Drop)]
pub struct StepClock {
    pub readings: Vec<u64>,
    pub next: usize,
    pub reads: u64,
    ghost some: { next < vec_len readings },
}

impl StepClock {
    /// A clock with a first reading and those behind it.
    pub fn new(alloc: Global, first: u64, more: &[u64]) -> Result<StepClock, OutOfMemory>
        ensures readings { IfOk result (λ c. c.readings.items ≡ first ∷ more.now) }
        ensures next { IfOk result (λ c. c.next ≡ 0) }
        ensures reads { IfOk result (λ c. c.reads ≡ 0) }
    {
        let mut readings = Vec::new(alloc);
        readings.push(first)?;
        readings.extend_from_slice(more)?;
        Ok(StepClock {
            readings,
            next: 0,
            reads: 0,
        })
    }
}

impl Clock for StepClock {
    ghost list = { λ c. Some c.readings.items };

    ghost reads = { λ c. c.reads };

    fn now(&mut self) -> u64
        ensures reading { result ≡ slice_index self.old.readings.items self.old.next }
        ensures listed { Contains self.old.readings.items result }
        ensures list_stays { self.new.readings.items ≡ self.old.readings.items }
        ensures next { self.new.next ≡ min (self.old.next + 1) (length self.old.readings.items - 1) }
        ensures counted { self.new.reads ≡ raised self.old.reads }
    {
        let reading = self.readings[self.next];
        if self.next + 1 < self.readings.len() {
            self.next += 1;
        }
        self.reads = self.reads.saturating_add(1);
        reading
    }

    fn reads(&self) -> u64 {
        self.reads
    }

    fn twin(&self, alloc: Global) -> Result<StepClock, OutOfMemory>
        ensures readings { IfOk result (λ t. t.readings.items ≡ self.now.readings.items) }
        ensures next { IfOk result (λ t. t.next ≡ self.now.next) }
        ensures reads { IfOk result (λ t. t.reads ≡ 0) }
    {
        Ok(StepClock {
            readings: Vec::from_slice(alloc, self.readings.as_slice())?,
            next: self.next,
            reads: 0,
        })
    }
}
