//! What links between pads lead to, and whether two pads are linked or of the wrong directions.
ghost use Rattle.std.specs.Prelude.{◌≡◌};
ghost use Rattle.graph_pads.specs.Links.{is_same, sink_behind, source_before, is_linked, is_wrong};

use crate::pad::{Direction, Pad, PadLink, PadPlace};

/// Whether two places are the same.
fn is_same(one: PadPlace, other: PadPlace) -> bool
    ensures { result ≡ is_same one other }
{
    one.element == other.element && one.pad == other.pad
}

/// The sink pad to which a source pad is linked, by the first link from it.
pub fn sink_behind(links: &[PadLink], source: PadPlace) -> Option<PadPlace>
    ensures { result ≡ sink_behind links.now source }
{
    for link in links {
        if is_same(link.source, source) {
            return Some(link.sink);
        }
    }
    None
}

/// The source pad that is linked to a sink pad, by the first link to it.
pub fn source_before(links: &[PadLink], sink: PadPlace) -> Option<PadPlace>
    ensures { result ≡ source_before links.now sink }
{
    for link in links {
        if is_same(link.sink, sink) {
            return Some(link.source);
        }
    }
    None
}

/// Whether one of the pads is linked, the left one as a source pad or the right one as a sink pad.
pub fn is_linked(links: &[PadLink], left: Pad, right: Pad) -> bool
    ensures { result ≡ is_linked links.now left right }
{
    sink_behind(links, left.place).is_some() || source_before(links, right.place).is_some()
}

/// Whether two pads are not a source pad and a sink pad.
pub fn is_wrong(left: Pad, right: Pad) -> bool
    ensures { result ≡ is_wrong left right }
{
    !matches!(left.direction, Direction::Source) || matches!(right.direction, Direction::Source)
}
