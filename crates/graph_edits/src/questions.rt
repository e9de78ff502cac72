//! What is asked of the graph: its elements, its links, and what speaks against a link.
ghost use Rattle.std.specs.Prelude.{◌≡◌};
ghost use Rattle.std.specs.List.{list_any};
ghost use Rattle.graph_edits.specs.Edited.{touches as touches_one};
ghost use Rattle.graph_pads.specs.Links.{is_same};

use crate::graph::EditedGraph;
use crate::marks::is_marked;
use el_settings::Settings;
use graph_core::{Elements, PadLink, PadPlace, have_common, pad_name};
use graph_pads::{Direction, Pad, sink_behind, source_before};
use gst_value::{OutOfMemory, PadName};
use std::alloc::Global;

/// How many numbers an element has for its source pads.
const MOST_PADS: u32 = 64;

impl EditedGraph {
    ghost use Rattle.std.specs.Prelude.{◌<◌, ◌≤◌, ◌↔◌, true, false, Some, length, slice_get, IfOk, IfSome, IsTrue};
    ghost use Rattle.std.specs.Option.{option_map};
    ghost use Rattle.graph_edits.specs.Edited.{Edited, is_active, is_ended, is_there};
    ghost use Rattle.graph_edits.specs.Lawful.{has_link};
    ghost use Rattle.graph_edits.specs.Names.{element_named};
    ghost use Rattle.graph_edits.specs.Plans.{IsOrder};
    ghost use Rattle.graph_edits.specs.Refused.{IsTaken, Loops};
    ghost use Rattle.graph_core.specs.Elements.{Made, all_made, limit};
    ghost use Rattle.graph_core.specs.Ends.{pad_name};
    ghost use Rattle.graph_core.specs.GraphPlan.{most_pads, pad_id};
    ghost use Rattle.graph_core.specs.Links.{HaveCommon, caps_at};
    ghost use Rattle.graph_edits.specs.Graph.{IsEdited, IsPad, made};
    ghost use Rattle.graph_pads.specs.Links.{sink_behind, source_before};
    ghost use Rattle.graph_pads.specs.Pads.{pad_at};

    /// All elements that ever were.
    pub fn elements(&self) -> &Elements
        ensures { all_made result.now ≡ made self.now }
    {
        &self.elements
    }

    /// How many elements ever were.
    pub fn count(&self) -> u32
        ensures made { result ≡ length (made self.now) }
        ensures few { result ≤ limit }
    {
        self.elements.count()
    }

    /// Whether an element was made and was not removed.
    pub fn is_there(&self, element: u32) -> bool
        ensures { (g : Edited) → IsEdited self.now g → result ≡ is_there g element }
    {
        element < self.elements.count() && !is_marked(&self.removed, element)
    }

    /// Whether an element is active: those of the launch line are, and an added one is since a pad of it was first linked.
    pub fn is_active(&self, element: u32) -> bool
        ensures { (g : Edited) → IsEdited self.now g → result ≡ is_active g element }
    {
        element < self.lined || is_marked(&self.touched, element)
    }

    /// The number of a source pad. None for a place at which no element can have one.
    pub fn source_number(&self, source: PadPlace) -> Option<u32>
        ensures number { IfSome result (λ number. number ≡ pad_id source) }
        ensures there { source.element < length (made self.now) → source.pad < most_pads → result ≡ Some (pad_id source) }
    {
        if source.element >= self.count() {
            return None;
        }
        if source.pad >= MOST_PADS {
            return None;
        }
        Some(source.element * MOST_PADS + source.pad)
    }

    /// The number of the element of this name, where it is there.
    pub fn find(&self, name: &str) -> Option<u32>
        ensures found { (g : Edited) → IsEdited self.now g → result ≡ element_named g name.now }
        ensures made { IfSome result (λ element. element < length (made self.now)) }
    {
        let element = self.elements.find(name)?;
        if !self.is_there(element) {
            return None;
        }
        Some(element)
    }

    /// What an element is set to, also where it was removed.
    pub fn settings(&self, element: u32) -> &Settings
        requires { element < length (made self.now) }
        ensures { (g : Edited) → IsEdited self.now g → option_map (λ (m : Made). m.settings) (slice_get g.made element) ≡ Some result.now }
    {
        self.elements.settings(element)
    }

    /// The name of a pad.
    pub fn name(
        &self,
        alloc: Global,
        direction: Direction,
        place: PadPlace,
    ) -> Result<PadName, OutOfMemory>
        requires { place.element < length (made self.now) }
        ensures { (g : Edited) → IsEdited self.now g → IfOk result (λ name. name ≡ pad_name g.made (pad_at direction place.element place.pad)) }
    {
        pad_name(alloc, &self.elements, Pad { direction, place })
    }

    /// The sink pad to which a source pad is linked.
    pub fn sink_behind(&self, source: PadPlace) -> Option<PadPlace>
        ensures { (g : Edited) → IsEdited self.now g → result ≡ sink_behind g.links source }
    {
        sink_behind(&self.links, source)
    }

    /// The source pad that is linked to a sink pad.
    pub fn source_before(&self, sink: PadPlace) -> Option<PadPlace>
        ensures { (g : Edited) → IsEdited self.now g → result ≡ source_before g.links sink }
    {
        source_before(&self.links, sink)
    }

    /// Whether a link to a sink pad was undone with EOS.
    pub fn is_ended(&self, sink: PadPlace) -> bool
        ensures { (g : Edited) → IsEdited self.now g → result ≡ is_ended g sink }
    {
        is_among(&self.ended, sink)
    }

    /// Whether a sink pad is linked.
    pub fn is_taken(&self, sink: PadPlace) -> bool
        ensures { (g : Edited) → IsEdited self.now g → IsTrue result ↔ IsTaken g sink }
    {
        source_before(&self.links, sink).is_some()
    }

    /// Whether a pad of an element is linked.
    pub fn has_link(&self, element: u32) -> bool
        ensures { (g : Edited) → IsEdited self.now g → result ≡ has_link g element }
    {
        some_touches(&self.links, element)
    }

    /// Whether elements would feed themselves by links that ever were made, were the source pad linked to the sink pad.
    pub fn loops(
        &self,
        alloc: Global,
        source: PadPlace,
        sink: PadPlace,
    ) -> Result<bool, OutOfMemory>
        requires source { source.element < length (made self.now) }
        requires sink { sink.element < length (made self.now) }
        ensures { (g : Edited) → IsEdited self.now g → IfOk result (λ loops. IsTrue loops ↔ Loops g source sink) }
    {
        self.order.leads(alloc, sink.element, source.element)
    }

    /// Whether the static caps of the two pads have common fixed caps.
    pub fn have_format(
        &self,
        alloc: Global,
        source: PadPlace,
        sink: PadPlace,
    ) -> Result<bool, OutOfMemory>
        requires source { IsPad self.now Direction.Source source }
        requires sink { IsPad self.now Direction.Sink sink }
        ensures { (g : Edited) → IsEdited self.now g
            → IfOk result (λ common. IsTrue common ↔ HaveCommon (caps_at g.made false source.element) (caps_at g.made true sink.element)) }
    {
        let left = Pad {
            direction: Direction::Source,
            place: source,
        };
        let right = Pad {
            direction: Direction::Sink,
            place: sink,
        };
        have_common(alloc, &self.elements, left, right)
    }

    /// All elements that ever were, each once, in an order in which each link that ever was made goes forward.
    pub fn forward(&self) -> &[u32]
        ensures { (g : Edited) → IsEdited self.now g → IsOrder g result.now }
    {
        self.order.forward()
    }
}

/// Whether one of the links leaves an element or comes to it.
fn some_touches(links: &[PadLink], element: u32) -> bool
    ensures { result ≡ list_any (touches_one element) links.now }
{
    links.iter().any(|link| link.source.element == element || link.sink.element == element)
}

/// Whether a pad is one of these.
fn is_among(pads: &[PadPlace], pad: PadPlace) -> bool
    ensures { result ≡ list_any (is_same pad) pads.now }
{
    pads.iter()
        .any(|one| pad.element == one.element && pad.pad == one.pad)
}
