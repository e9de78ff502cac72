//! Calls that are counted, some of which are to fail.
ghost use Rattle.std.specs.Prelude.{◌≡◌, IfOk};
ghost use Rattle.gst_outside.specs.Calls.{counted, new_calls, next_fails};

use gst_value::{List, OutOfMemory};
use std::alloc::Global;

/// The calls of one kind on one object in memory: how many were made, and the numbers, counted from 1, of
/// those that are to fail.
#[derive(Drop)]
pub struct Calls {
    pub made: u64,
    pub failing: List<u64>,
}

impl Calls {
    /// No call yet, and the numbers of those that are to fail.
    pub fn new(failing: List<u64>) -> Calls
        ensures { result ≡ new_calls failing }
    {
        Calls { made: 0, failing }
    }

    /// Whether the next call is to fail.
    pub fn next_fails(&self) -> bool
        ensures { result ≡ next_fails self.now }
    {
        let next = self.made.saturating_add(1);
        self.failing.as_slice().contains(&next)
    }

    /// Counts the next call, and tells whether it is to fail.
    pub fn count(&mut self) -> bool
        ensures fails { result ≡ next_fails self.old }
        ensures counted { self.new ≡ counted self.old }
    {
        let fails = self.next_fails();
        self.made = self.made.saturating_add(1);
        fails
    }
}

/// A list of bytes or numbers once more.
pub fn copy_list<T: Copy>(alloc: Global, members: &[T]) -> Result<List<T>, OutOfMemory>
    ensures { IfOk result (λ made. made ≡ members.now) }
{
    Ok(List::from_vec(Vec::from_slice(alloc, members)?))
}
