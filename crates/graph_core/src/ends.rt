//! The pads that the ends of a link take.
ghost use Rattle.std.specs.Prelude.{◌≡◌, ◌<◌, ◌≤◌, ◌+◌, Ok, Err, length, IfOk, Some, slice_get};
ghost use Rattle.graph_core.specs.Asked.{declared_by, end_of};
ghost use Rattle.graph_core.specs.Elements.{Made, all_made};
ghost use Rattle.graph_core.specs.Ends.{missing, pad_or_many, dotted, named_pad, IsPadOf, IsEndPad, pad_name, wish_of, PadOrMemory};

use crate::elements::Elements;
use crate::fault::{BuildFault, What};
use el_settings::MadePads;
use graph_pads::{Direction, Pad, PadLink, PadPlace};
use gst_value::{OutOfMemory, PadName, Text};
use launch_text::Node;
use std::alloc::Global;

/// The pad that an end of a link takes, where these links are there already. A node that makes an element makes the one of this
/// number.
pub(crate) fn end_pad(
    alloc: Global,
    elements: &Elements,
    links: &[PadLink],
    wanted: Direction,
    node: &Node,
    number: u32,
) -> Result<Pad, BuildFault>
    requires { number + length (declared_by node.now) ≤ length (all_made elements.now) }
    ensures { PadOrMemory (IsEndPad (all_made elements.now) links.now wanted (end_of number node.now)) result }
{
    match node {
        Node::Element { .. } | Node::Caps(_) => pad_of(
            alloc, elements, links, wanted, number, None,
        ),
        Node::Reference { name, pad } => match elements.find(name.as_str()) {
            Some(element) => pad_of(alloc, elements, links, wanted, element, pad.as_ref()),
            None => Err(no_such(alloc, name.as_str(), What::Element)?),
        },
    }
}

/// The pad that a link takes of an element: the one of this name, or else one of the wanted direction.
fn pad_of(
    alloc: Global,
    elements: &Elements,
    links: &[PadLink],
    wanted: Direction,
    element: u32,
    pad: Option<&Text>,
) -> Result<Pad, BuildFault>
    requires { element < length (all_made elements.now) }
    ensures { PadOrMemory (IsPadOf (all_made elements.now) links.now wanted element (wish_of pad.entry)) result }
{
    let settings = elements.settings(element);
    if wanted.takeable(settings, links, element) == 0 {
        return Err(no_such(alloc, elements.name(element), missing(wanted))?);
    }
    match pad {
        None => pad_or_many(wanted, element, wanted.own_number(settings, links, element)),
        Some(pad) => named_pad(alloc, elements, links, element, pad.as_str()),
    }
}

/// The pad of this name of an element, be it a source pad or a sink pad.
fn named_pad(
    alloc: Global,
    elements: &Elements,
    links: &[PadLink],
    element: u32,
    name: &str,
) -> Result<Pad, BuildFault>
    requires { element < length (all_made elements.now) }
    ensures { PadOrMemory (λ answer. (m : Made) × (slice_get (all_made elements.now) element ≡ Some m)
        × (answer ≡ named_pad links.now m element name.now)) result }
{
    let settings = elements.settings(element);
    if let Some(number) = Direction::Source.pad_number(alloc, settings, links, element, name)? {
        return pad_or_many(Direction::Source, element, number);
    }
    if let Some(number) = Direction::Sink.pad_number(alloc, settings, links, element, name)? {
        return pad_or_many(Direction::Sink, element, number);
    }
    Err(no_such_pad(alloc, elements.name(element), name)?)
}

/// The pad of a number, of which an element has 64 at the most.
fn pad_or_many(direction: Direction, element: u32, number: usize) -> Result<Pad, BuildFault>
    ensures { result ≡ pad_or_many direction element number }
{
    if number >= MadePads::MOST as usize {
        return Err(BuildFault::TooMany {
            count: MadePads::MOST + 1,
        });
    }
    Ok(Pad {
        direction,
        place: PadPlace {
            element,
            pad: number as u32,
        },
    })
}

/// What there is not where an element has no pad of this direction.
pub(crate) fn missing(direction: Direction) -> What
    ensures { result ≡ missing direction }
{
    match direction {
        Direction::Source => What::SrcPad,
        Direction::Sink => What::SinkPad,
    }
}

/// The fault of a line that names something of this name which is not there.
pub(crate) fn no_such(alloc: Global, name: &str, what: What) -> Result<BuildFault, OutOfMemory>
    ensures { IfOk result (λ fault. fault ≡ BuildFault.NoSuch name.now what) }
{
    let name = Text::from_str(alloc, name)?;
    Ok(BuildFault::NoSuch { name, what })
}

/// The fault of a line that names a pad which its element does not have.
///
/// The pad's name is told as one text: its element, a dot and its own name.
fn no_such_pad(alloc: Global, element: &str, pad: &str) -> Result<BuildFault, OutOfMemory>
    ensures { IfOk result (λ fault. fault ≡ BuildFault.NoSuch (dotted element.now pad.now) What.Pad) }
{
    let mut name = Text::from_str(alloc, element)?;
    name.push_str(alloc, ".")?;
    name.push_str(alloc, pad)?;
    let what = What::Pad;
    Ok(BuildFault::NoSuch { name, what })
}

/// The name of a pad.
pub fn pad_name(alloc: Global, elements: &Elements, pad: Pad) -> Result<PadName, OutOfMemory>
    requires { pad.place.element < length (all_made elements.now) }
    ensures { IfOk result (λ name. name ≡ pad_name (all_made elements.now) pad) }
{
    let element = Text::from_str(alloc, elements.name(pad.place.element))?;
    let settings = elements.settings(pad.place.element);
    let number = pad.place.pad as usize;
    let pad = pad.direction.pad_text(alloc, settings, number)?;
    Ok(PadName { element, pad })
}
