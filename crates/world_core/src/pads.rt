//! Pads by their numbers, and their names.
ghost use Rattle.std.specs.Prelude.{◌≡◌, ◌≤◌, IfOk};
ghost use Rattle.graph_core.specs.Ends.{name_at};
ghost use Rattle.graph_core.specs.Elements.{all_made};
ghost use Rattle.graph_core.specs.GraphPlan.{pad_id};
ghost use Rattle.graph_parts.specs.MomentLaws.{place_of as place_in};
ghost use Rattle.world_core.specs.Pads.{no_pad, sink_pad, source_pad};

use graph_core::{Elements, PadPlace};
use gst_value::{OutOfMemory, PadName, Text};
use std::alloc::Global;

/// How many numbers an element has for its source pads, and for its sink pads.
pub(crate) const MOST_PADS: u32 = 64;

/// The place of the pad of a number.
pub(crate) fn place_of(number: u32) -> PadPlace
    ensures { result ≡ place_in number }
{
    PadPlace {
        element: number / MOST_PADS,
        pad: number % MOST_PADS,
    }
}

/// The number of the lane into a sink pad.
pub(crate) fn lane_into(sink: PadPlace) -> u32
    requires element { sink.element ≤ 256 }
    requires pad { sink.pad ≤ 64 }
    ensures { result ≡ pad_id sink }
{
    sink.element * MOST_PADS + sink.pad
}

/// The name of an element, and no name where it is not there.
pub(crate) fn name_of(alloc: Global, elements: &Elements, element: u32) -> Result<Text, OutOfMemory>
    ensures { IfOk result (λ name. name ≡ name_at (all_made elements.now) element) }
{
    if element >= elements.count() {
        return Ok(Text::new(alloc));
    }
    Text::from_str(alloc, elements.name(element))
}

/// The name of an element in place of that of a pad which is not there.
fn without_pad(alloc: Global, elements: &Elements, element: u32) -> Result<PadName, OutOfMemory>
    ensures { IfOk result (λ name. name ≡ no_pad (all_made elements.now) element) }
{
    Ok(PadName {
        element: name_of(alloc, elements, element)?,
        pad: Text::new(alloc),
    })
}

/// The name of the source pad of a number.
pub(crate) fn source_named(
    alloc: Global,
    elements: &Elements,
    number: u32,
) -> Result<PadName, OutOfMemory>
    ensures { IfOk result (λ name. name ≡ source_pad (all_made elements.now) number) }
{
    let place = place_of(number);
    match elements.source_name(alloc, place)? {
        Some(name) => Ok(name),
        None => without_pad(alloc, elements, place.element),
    }
}

/// The name of a sink pad.
pub(crate) fn sink_named(
    alloc: Global,
    elements: &Elements,
    place: PadPlace,
) -> Result<PadName, OutOfMemory>
    ensures { IfOk result (λ name. name ≡ sink_pad (all_made elements.now) place) }
{
    match elements.sink_name(alloc, place)? {
        Some(name) => Ok(name),
        None => without_pad(alloc, elements, place.element),
    }
}
