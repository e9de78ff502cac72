//! Room for what is put out.
ghost use Rattle.std.specs.Prelude.{◌≡◌, ◌≤◌, ◌+◌, ◌++◌, vec_len, vec_capacity, IfOk, OnErr};
ghost use Rattle.std.specs.VecDeque.{deque_len};

use gst_item::{Out, Outs};
use gst_value::{List, OutOfMemory};
use std::alloc::Global;
use std::collections::VecDeque;
use std::mem;

/// A sum of counts.
pub(crate) fn sum_of(a: usize, b: usize) -> Result<usize, OutOfMemory>
    ensures { IfOk result (λ sum. sum ≡ a + b) }
{
    match a.checked_add(b) {
        Some(sum) => Ok(sum),
        None => Err(OutOfMemory),
    }
}

/// What was put out, with room for so many items more. Where there is no memory it stays.
pub(crate) fn room_for(
    alloc: Global,
    first: usize,
    more: usize,
    out: &mut Outs,
) -> Result<Vec<Out>, OutOfMemory>
    ensures taken { IfOk result (λ made. made.items ≡ out.old) }
    ensures room { IfOk result (λ made. vec_len made + (first + more) ≤ vec_capacity made) }
    ensures stays { OnErr result (out.new ≡ out.old) }
{
    let count = sum_of(first, more)?;
    let mut outs = mem::replace(out, List::new(alloc)).into_vec();
    match outs.reserve(count) {
        Ok(()) => Ok(outs),
        Err(_) => {
            put_back(out, outs);
            Err(OutOfMemory)
        }
    }
}

/// Hands back what was put out.
pub(crate) fn put_back(out: &mut Outs, outs: Vec<Out>)
    ensures { out.new ≡ outs.items }
{
    *out = List::from_vec(outs);
}

/// Moves what goes out in front into room that was taken before.
pub(crate) fn pour_front(mut from: VecDeque<Out>, into: &mut Vec<Out>)
    requires room { vec_len into.old + deque_len from ≤ vec_capacity into.old }
    ensures into { into.new.items ≡ into.old.items ++ from.items }
    ensures len { vec_len into.new ≡ vec_len into.old + deque_len from }
    ensures capacity { vec_capacity into.new ≡ vec_capacity into.old }
{
    while let Some(one) = from.pop_front() {
        into.push_reserved(one);
    }
}
