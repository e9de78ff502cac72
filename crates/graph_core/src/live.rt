//! Which elements are live.
ghost use Rattle.std.specs.Prelude.{◌≡◌, ◌<◌, All, Bool, true, false, length, map, IfOk, List};
ghost use Rattle.graph_order.specs.Links.{IsLink};
ghost use Rattle.graph_order.specs.Marks.{is_marked, unmarked};
ghost use Rattle.graph_core.specs.Elements.{all_made};
ghost use Rattle.graph_core.specs.Links.{ways};
ghost use Rattle.graph_core.specs.Live.{AreLive, IsClosedWithin, IsMarkedOn, IsSpread, IsSpreading, is_source};
ghost use Rattle.graph_pads.specs.declared.pad.PadLink.{PadLink as LinkOf};

use crate::elements::Elements;
use graph_pads::PadLink;
use gst_value::OutOfMemory;
use std::alloc::Global;

/// Marks each source, and what links lead to from these.
pub(crate) fn live_elements(
    alloc: Global,
    elements: &Elements,
    links: &[PadLink],
) -> Result<Vec<bool>, OutOfMemory>
    requires from { All (λ link. link.source.element < length (all_made elements.now)) links.now }
    requires to { All (λ link. link.sink.element < length (all_made elements.now)) links.now }
    ensures { IfOk result (λ live. AreLive (all_made elements.now) links.now live.items) }
{
    let mut live = sources(alloc, elements)?;
    spread_marks(&mut live, links);
    Ok(live)
}

/// Marks each source.
fn sources(alloc: Global, elements: &Elements) -> Result<Vec<bool>, OutOfMemory>
    ensures { IfOk result (λ live. live.items ≡ map is_source (all_made elements.now)) }
{
    let mut live = Vec::new(alloc);
    for element in 0..elements.count() {
        live.push(elements.settings(element).is_source())?;
    }
    Ok(live)
}

/// Marks each element to which links lead from a marked one, over any number of links. A mark is a place of the list;
/// links to elements without one are passed over.
pub fn spread_marks(marks: &mut Vec<bool>, links: &[PadLink])
    ensures { IsSpread links.now marks.old.items marks.new.items }
{
    while spread(marks, links) {}
}

/// Goes once over the links, and marks what each leads to from a marked element. Whether that is anything new.
fn spread(marks: &mut Vec<bool>, links: &[PadLink]) -> bool
    ensures spreads { (was : List Bool) → IsSpreading links.now was marks.old.items → IsSpreading links.now was marks.new.items }
    ensures closed { result ≡ false → IsClosedWithin links.now marks.new.items }
    ensures fewer { result ≡ true → unmarked marks.new.items < unmarked marks.old.items }
{
    let mut is_new = false;
    for link in links {
        is_new |= mark(marks, *link);
    }
    is_new
}

/// Marks what a link leads to from a marked element. Whether that is new.
fn mark(marks: &mut Vec<bool>, link: PadLink) -> bool
    ensures spreads { (links : List LinkOf) (was : List Bool) → IsLink link.source.element link.sink.element (ways links)
        → IsSpreading links was marks.old.items → IsSpreading links was marks.new.items }
    ensures same { result ≡ false → marks.new.items ≡ marks.old.items }
    ensures closed { result ≡ false → IsMarkedOn link marks.old.items }
    ensures fewer { result ≡ true → unmarked marks.new.items < unmarked marks.old.items }
{
    let sink = link.sink.element;
    if sink as usize >= marks.len() {
        return false;
    }
    if !is_marked(marks, link.source.element) {
        return false;
    }
    if is_marked(marks, sink) {
        return false;
    }
    marks[sink as usize] = true;
    true
}

/// Whether an element is marked.
fn is_marked(marks: &[bool], element: u32) -> bool
    ensures { result ≡ is_marked marks.now element }
{
    matches!(marks.get(element as usize), Some(true))
}
