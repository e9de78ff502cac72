//! Where the elements of a task stand.
ghost use Rattle.std.specs.Prelude.{◌≡◌, true, map};
ghost use Rattle.task_parts.specs.Ends.{sent_among};
ghost use Rattle.task_parts.specs.Found.{IsAt};
ghost use Rattle.task_parts.specs.Idle.{idle_before};
ghost use Rattle.task_parts.specs.Shape.{has_number, part_shape};

use crate::part::Part;
use flow_model::TaskElement;
use lane_core::Outlet;

/// The most items that cross a pad, and that a source gives.
pub(crate) const MOST_ITEMS: u64 = 1 << 40;

/// The place of the element of a number, which is tried first at `hint`.
#[inline(always)]
pub(crate) fn find<E: TaskElement, O: Outlet>(
    parts: &[Part<E, O>],
    number: u32,
    hint: usize,
) -> usize
    requires named { has_number number (map part_shape parts.now) ≡ true }
    ensures { IsAt parts.now number result }
{
    if hint < parts.len() {
        if parts[hint].number() == number {
            return hint;
        }
    }
    search(parts, number)
}

/// The place of the element of a number.
fn search<E: TaskElement, O: Outlet>(parts: &[Part<E, O>], number: u32) -> usize
    requires named { has_number number (map part_shape parts.now) ≡ true }
    ensures { IsAt parts.now number result }
{
    for place in 0..parts.len() {
        if parts[place].number() == number {
            return place;
        }
    }
    unreachable!()
}

/// How many items went into the lane of a number from the pads of elements. None where none of them leads there.
pub fn sent<E: TaskElement, O: Outlet>(parts: &[Part<E, O>], lane: u32) -> Option<u64>
    ensures { result ≡ sent_among O.Outlet lane parts.now }
{
    for place in 0..parts.len() {
        if let Some(count) = parts[place].sent(lane) {
            return Some(count);
        }
    }
    None
}

/// The place of the first element, from a place on, at which something waits.
pub fn first_busy<E: TaskElement, O: Outlet>(parts: &[Part<E, O>], from: usize) -> usize
    ensures { idle_before from parts.now ≡ true → idle_before result parts.now ≡ true }
{
    for place in from..parts.len() {
        if !parts[place].is_idle() {
            return place;
        }
    }
    parts.len()
}
