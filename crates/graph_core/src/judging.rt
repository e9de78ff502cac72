//! Whether two pads can be linked.
ghost use Rattle.std.specs.Prelude.{◌≡◌, ◌<◌, ◌↔◌, length, IfOk, IsTrue, true, false};
ghost use Rattle.graph_core.specs.Elements.{all_made};
ghost use Rattle.graph_core.specs.Ends.{IsThere, pad_name};
ghost use Rattle.graph_core.specs.Links.{caps_at, HaveCommon, IsJudged};
ghost use Rattle.graph_pads.specs.Links.{is_wrong};

use crate::elements::Elements;
use crate::ends::pad_name;
use crate::fault::BuildFault;
use el_settings::template;
use graph_pads::{Pad, PadLink, is_linked, is_wrong};
use gst_value::OutOfMemory;
use pad_core::LinkReturn;
use std::alloc::Global;

/// Why two pads cannot be linked, but for a loop.
pub(crate) fn refusal(
    alloc: Global,
    elements: &Elements,
    links: &[PadLink],
    left: Pad,
    right: Pad,
) -> Result<Option<LinkReturn>, OutOfMemory>
    requires left { IsThere (all_made elements.now) left }
    requires right { IsThere (all_made elements.now) right }
    ensures { IfOk result (IsJudged (all_made elements.now) links.now left right) }
{
    if is_wrong(left, right) {
        return Ok(Some(LinkReturn::WrongDirection));
    }
    if is_linked(links, left, right) {
        return Ok(Some(LinkReturn::WasLinked));
    }
    if !have_common(alloc, elements, left, right)? {
        return Ok(Some(LinkReturn::NoFormat));
    }
    Ok(None)
}

/// Whether a source pad and a sink pad have common caps: those of their templates, and of a capsfilter its own.
pub fn have_common(
    alloc: Global,
    elements: &Elements,
    left: Pad,
    right: Pad,
) -> Result<bool, OutOfMemory>
    requires left { IsThere (all_made elements.now) left }
    requires right { IsThere (all_made elements.now) right }
    requires directions { is_wrong left right ≡ false }
    ensures { IfOk result (λ common. IsTrue common
        ↔ HaveCommon (caps_at (all_made elements.now) false left.place.element) (caps_at (all_made elements.now) true right.place.element)) }
{
    let source = elements.settings(left.place.element);
    let sink = elements.settings(right.place.element);
    let first = template(alloc, source, false, left.place.pad)?;
    let second = template(alloc, sink, true, right.place.pad)?;
    Ok(first.meets(&second))
}

/// The fault of two pads that cannot be linked.
pub(crate) fn refused(
    alloc: Global,
    elements: &Elements,
    left: Pad,
    right: Pad,
    ret: LinkReturn,
) -> Result<BuildFault, OutOfMemory>
    requires left { left.place.element < length (all_made elements.now) }
    requires right { right.place.element < length (all_made elements.now) }
    ensures { IfOk result (λ fault. fault ≡ BuildFault.LinkRefused (pad_name (all_made elements.now) left) (pad_name (all_made elements.now) right) ret) }
{
    let a = pad_name(alloc, elements, left)?;
    let b = pad_name(alloc, elements, right)?;
    Ok(BuildFault::LinkRefused { a, b, ret })
}
