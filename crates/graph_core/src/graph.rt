//! The graph of a line.
use crate::allowed::allowed_caps;
use crate::elements::Elements;
use crate::links::Links;
use el_settings::Settings;
use graph_order::Order;
use graph_pads::{Direction, PadLink, PadPlace, sink_behind, source_before};
use gst_caps::Caps;
use gst_value::{CapsFault, OutOfMemory, PadName};
use std::alloc::Global;

/// The elements of a launch line, numbered from 0 on in its order, and the links between their pads. The source pads of
/// an element have numbers of their own from 0 on, and so have its sink pads.
#[derive(Drop)]
pub struct Graph {
    pub(crate) elements: Elements,
    pub(crate) links: Links,
    pub(crate) live: Vec<bool>,
}

impl Graph {
    ghost use Rattle.std.specs.Prelude.{◌≡◌, ◌<◌, ◌≤◌, ◌↔◌, ℕ, None, Some, length, slice_get, position, IfOk, IfSome, IsTrue};
    ghost use Rattle.std.specs.Option.{option_map};
    ghost use Rattle.graph_order.specs.Forward.{IsForward, IsMember, GoForward, count_of, links_of};
    ghost use Rattle.graph_order.specs.Marks.{is_marked};
    ghost use Rattle.gst_value.specs.Limit.{TooManyWhere};
    ghost use Rattle.graph_core.specs.Allowed.{Allows};
    ghost use Rattle.graph_core.specs.Elements.{Made, all_made, is_named, limit};
    ghost use Rattle.graph_core.specs.Ends.{pad_name, pads_at};
    ghost use Rattle.graph_pads.specs.Pads.{pad_at};
    ghost use Rattle.graph_core.specs.Links.{ways};
    ghost use Rattle.graph_pads.specs.Links.{sink_behind, source_before};
    ghost use Rattle.graph_core.specs.Live.{Live};
    ghost use Rattle.graph_core.specs.Graph.{made, links, forward, is_live, IsSound};

    /// The elements.
    pub fn elements(&self) -> &Elements
        ensures { all_made result.now ≡ made self.now }
    {
        &self.elements
    }

    /// How many elements there are.
    pub fn count(&self) -> u32
        ensures count { result ≡ length (made self.now) }
        ensures few { result ≤ limit }
    {
        self.elements.count()
    }

    /// The number of the element of this name.
    pub fn find(&self, name: &str) -> Option<u32>
        ensures { result ≡ position (is_named name.now) (made self.now) }
    {
        self.elements.find(name)
    }

    /// The name of an element, where it is there.
    pub fn name(&self, element: u32) -> Option<&str>
        ensures there { IfSome result (λ name. option_map (λ (m : Made). m.name) (slice_get (made self.now) element) ≡ Some name.now) }
        ensures none { result ≡ None → length (made self.now) ≤ element }
    {
        if element < self.count() {
            Some(self.elements.name(element))
        } else {
            None
        }
    }

    /// What an element is set to.
    pub fn settings(&self, element: u32) -> &Settings
        requires { element < length (made self.now) }
        ensures { option_map (λ (m : Made). m.settings) (slice_get (made self.now) element) ≡ Some result.now }
    {
        self.elements.settings(element)
    }

    /// How many source pads an element has; none where it is not there.
    pub fn source_pads(&self, element: u32) -> u32
        ensures { result ≡ pads_at (made self.now) Direction.Source element }
    {
        self.elements.source_pads(element)
    }

    /// How many sink pads an element has; none where it is not there.
    pub fn sink_pads(&self, element: u32) -> u32
        ensures { result ≡ pads_at (made self.now) Direction.Sink element }
    {
        self.elements.sink_pads(element)
    }

    /// The name of a source pad, where it is there.
    pub fn source_name(
        &self,
        alloc: Global,
        place: PadPlace,
    ) -> Result<Option<PadName>, OutOfMemory>
        ensures there { IfOk result (λ found. IfSome found (λ name. name ≡ pad_name (made self.now) (pad_at Direction.Source place.element place.pad))) }
        ensures none { IfOk result (λ found. (found ≡ None) ↔ (pads_at (made self.now) Direction.Source place.element ≤ place.pad)) }
    {
        self.elements.source_name(alloc, place)
    }

    /// The name of a sink pad, where it is there.
    pub fn sink_name(&self, alloc: Global, place: PadPlace) -> Result<Option<PadName>, OutOfMemory>
        ensures there { IfOk result (λ found. IfSome found (λ name. name ≡ pad_name (made self.now) (pad_at Direction.Sink place.element place.pad))) }
        ensures none { IfOk result (λ found. (found ≡ None) ↔ (pads_at (made self.now) Direction.Sink place.element ≤ place.pad)) }
    {
        self.elements.sink_name(alloc, place)
    }

    /// The links, in the order of the line.
    pub fn links(&self) -> &[PadLink]
        ensures { result.now ≡ links self.now }
    {
        self.links.made.as_slice()
    }

    /// The sink pad to which a source pad is linked.
    pub fn sink_behind(&self, source: PadPlace) -> Option<PadPlace>
        ensures pad { result ≡ sink_behind (links self.now) source }
        ensures there { IsSound self.now → IfSome result (λ sink. sink.pad < pads_at (made self.now) Direction.Sink sink.element) }
    {
        sink_behind(self.links.made.as_slice(), source)
    }

    /// The source pad that is linked to a sink pad.
    pub fn source_before(&self, sink: PadPlace) -> Option<PadPlace>
        ensures pad { result ≡ source_before (links self.now) sink }
        ensures there { IsSound self.now → IfSome result (λ source. source.pad < pads_at (made self.now) Direction.Source source.element) }
    {
        source_before(self.links.made.as_slice(), sink)
    }

    /// The caps that a source pad is allowed to have: all where it is not linked, those of the next source pad through
    /// an identity, a valve or a queue, through a capsfilter those of them that are its own too, in the order of its own, and through
    /// a tee those that all its pads are allowed, in the order of its first pad. Before any other element they are what
    /// the sink pad takes.
    ///
    /// Answers `TooMany` where a capsfilter and what is allowed behind it, or the pads of a tee, have too many caps in
    /// common.
    pub fn allowed(&self, alloc: Global, source: PadPlace) -> Result<Caps, CapsFault>
        requires { source.pad < pads_at (made self.now) Direction.Source source.element }
        ensures caps { IfOk result (λ caps. IsSound self.now → Allows (made self.now) (links self.now) source (Some caps)) }
        ensures too_many { IsSound self.now → TooManyWhere result (Allows (made self.now) (links self.now) source None) }
    {
        allowed_caps(alloc, &self.elements, &self.links, source)
    }

    /// The elements, each once, in an order in which each link that was ever made goes forward.
    pub fn forward(&self) -> &[u32]
        ensures order { result.now ≡ forward self.now }
        ensures once { IsSound self.now → length result.now ≡ length (made self.now) }
        ensures whole { IsSound self.now → (e : ℕ) → e < length (made self.now) → IsMember e result.now }
        ensures goes { IsSound self.now → GoForward (ways (links self.now)) result.now }
    {
        self.links.order.forward()
    }

    /// Whether items can come to the element: it is a source, or one of its sink pads is linked to a live element.
    pub fn live(&self, element: u32) -> bool
        ensures mark { result ≡ is_live self.now element }
        ensures live { IsSound self.now → IsTrue result ↔ Live (made self.now) (links self.now) element }
    {
        matches!(self.live.get(element as usize), Some(true))
    }

    /// Whether each element is live, by its number.
    pub fn live_marks(&self) -> &[bool]
        ensures { (element : ℕ) → is_marked result.now element ≡ is_live self.now element }
    {
        self.live.as_slice()
    }

    /// The elements, the links in the order of the line, and the order in which each of these goes forward.
    pub fn into_parts(self) -> (Elements, Vec<PadLink>, Order)
        ensures elements { all_made result.0 ≡ made self }
        ensures links { result.1.items ≡ links self }
        ensures order { IsSound self → IsForward result.2 × (count_of result.2 ≡ length (made self)) × (links_of result.2 ≡ ways (links self)) }
    {
        let Graph {
            elements,
            links,
            ..
        } = self;
        let Links { made, order } = links;
        (elements, made, order)
    }
}
