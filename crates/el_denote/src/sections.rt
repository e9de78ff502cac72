//! The sections of lists, which FLUSH_STOPs part.
ghost use Rattle.std.specs.Prelude.{◌≡◌, IfOk};
ghost use Rattle.flow_model.specs.Item.{is_flush_stop};
ghost use Rattle.flow_model.specs.Section.{section, flush_stops};
ghost use Rattle.el_denote.specs.Turns.{most_stops, stop_behind, stop_of};

use gst_item::{Event, Item};
use gst_value::{List, OutOfMemory};
use std::alloc::Global;

/// Copies of the items of a section.
pub(crate) fn part(alloc: Global, items: &[Item], number: usize) -> Result<List<Item>, OutOfMemory>
    ensures { IfOk result (λ made. made ≡ section number items.now) }
{
    let mut part = List::new(alloc);
    let mut passed = 0;
    for item in items {
        if item.is_flush_stop() {
            if passed == number {
                return Ok(part);
            }
            passed += 1;
        } else if passed == number {
            part.push(alloc, item.copy(alloc)?)?;
        }
    }
    Ok(part)
}

/// The most FLUSH_STOPs that a list has.
pub(crate) fn most_stops_of(inputs: &[List<Item>]) -> usize
    ensures { result ≡ most_stops inputs.now }
{
    let mut most = 0;
    for input in inputs {
        most = most.max(stops_in(input.as_slice()));
    }
    most
}

fn stops_in(items: &[Item]) -> usize
    ensures { result ≡ flush_stops items.now }
{
    let mut count = 0;
    for item in items {
        if item.is_flush_stop() {
            count += 1;
        }
    }
    count
}

/// The number of the FLUSH_STOP that ends a section: that of the lowest pad that has it.
pub(crate) fn stop_number(inputs: &[List<Item>], number: usize) -> u32
    ensures { result ≡ stop_behind number inputs.now }
{
    for input in inputs {
        if let Some(found) = stop_in(input.as_slice(), number) {
            return found;
        }
    }
    0
}

fn stop_in(items: &[Item], number: usize) -> Option<u32>
    ensures { result ≡ stop_of number items.now }
{
    let mut passed = 0;
    for item in items {
        if let Item::Event(Event::FlushStop { number: found }) = item {
            if passed == number {
                return Some(*found);
            }
            passed += 1;
        }
    }
    None
}
