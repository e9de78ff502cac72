//! The pads that links make.
ghost use Rattle.std.specs.Prelude.{◌≡◌, ◌<◌, ◌+◌, length};
ghost use Rattle.graph_core.specs.Allowed.{AreCounted, AreCountedBelow, checked};
ghost use Rattle.graph_core.specs.Elements.{all_made};
ghost use Rattle.graph_core.specs.Links.{AreFew};

use crate::elements::Elements;
use el_settings::MadePads;
use graph_pads::{PadLink, made_direction};

/// Gives each element a pad for each link that makes one.
pub(crate) fn count_pads(elements: &mut Elements, links: &[PadLink])
    requires few { AreFew (all_made elements.old) links.now }
    ensures stay { checked (all_made elements.new) ≡ checked (all_made elements.old) }
    ensures counted { AreCounted (all_made elements.new) links.now }
{
    for element in 0..elements.count() {
        count_one(elements, links, element);
    }
}

/// Gives an element a pad for each link that makes one.
fn count_one(elements: &mut Elements, links: &[PadLink], element: u32)
    requires there { element < length (all_made elements.old) }
    requires few { AreFew (all_made elements.old) links.now }
    ensures stay { checked (all_made elements.new) ≡ checked (all_made elements.old) }
    ensures counted { AreCountedBelow element (all_made elements.old) links.now → AreCountedBelow (element + 1) (all_made elements.new) links.now }
{
    let Some(direction) = made_direction(elements.settings(element)) else {
        return;
    };
    let pads = MadePads::of(direction.links_at(links, element));
    elements.set_pads(element, pads);
}
