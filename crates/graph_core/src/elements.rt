//! The elements of a line by their names.
ghost use Rattle.std.specs.Prelude.{◌≡◌, ◌≤◌};
ghost use Rattle.indexmap.specs.IndexMap.{index_map_len};

use crate::element::{Element, NewElement, is_numbered, some_clash};
use crate::ends::pad_name;
use el_settings::{MadePads, Settings};
use graph_pads::{Direction, Pad, PadPlace};
use gst_caps::Caps;
use gst_value::{OutOfMemory, PadName};
use indexmap::IndexMap;
use std::alloc::Global;

/// How many elements a graph has at most.
pub(crate) const LIMIT: u32 = 256;

/// Elements by their names, in the order of their numbers.
#[derive(Drop)]
pub struct Elements {
    by_name: IndexMap<String, Element>,
    ghost few: { index_map_len by_name ≤ 256 },
}

impl Elements {
    ghost use Rattle.std.specs.Prelude.{◌<◌, ◌≤◌, ◌↔◌, ◌++◌, ◌∷◌, [], length, IfOk, IfSome, OnOk, OnErr, slice_get, slice_set, position, None, Some, false};
    ghost use Rattle.std.specs.Option.{option_map};
    ghost use Rattle.graph_core.specs.Allowed.{with_caps, with_made_pads};
    ghost use Rattle.graph_core.specs.Elements.{Made, all_made, made_in, numbered, is_named, is_name_taken, is_location_taken, limit};
    ghost use Rattle.graph_core.specs.Ends.{pad_name, pads_at};
    ghost use Rattle.graph_pads.specs.Pads.{pad_at};

    /// No elements.
    pub(crate) fn new(alloc: Global) -> Elements
        ensures { all_made result ≡ [] }
    {
        Elements {
            by_name: IndexMap::new(alloc),
        }
    }

    /// How many elements there are.
    pub fn count(&self) -> u32
        ensures count { result ≡ length (all_made self.now) }
        ensures few { result ≤ limit }
    {
        self.by_name.len() as u32
    }

    /// The number of the element of this name.
    pub fn find(&self, name: &str) -> Option<u32>
        ensures { result ≡ position (is_named name.now) (all_made self.now) }
    {
        match self.by_name.get_index_of(name) {
            Some(number) => Some(number as u32),
            None => None,
        }
    }

    /// The name of an element.
    pub fn name(&self, element: u32) -> &str
        requires { element < length (all_made self.now) }
        ensures { option_map (λ (m : Made). m.name) (slice_get (all_made self.now) element) ≡ Some result.now }
    {
        match self.by_name.get_index(element as usize) {
            Some((name, _)) => name.as_str(),
            None => unreachable!(),
        }
    }

    /// What an element is set to.
    pub fn settings(&self, element: u32) -> &Settings
        requires { element < length (all_made self.now) }
        ensures { option_map (λ (m : Made). m.settings) (slice_get (all_made self.now) element) ≡ Some result.now }
    {
        match self.by_name.get_index(element as usize) {
            Some((_, element)) => &element.settings,
            None => unreachable!(),
        }
    }

    /// How many source pads an element has; none where it is not there.
    pub fn source_pads(&self, element: u32) -> u32
        ensures { result ≡ pads_at (all_made self.now) Direction.Source element }
    {
        if element < self.count() {
            self.settings(element).source_pads()
        } else {
            0
        }
    }

    /// How many sink pads an element has; none where it is not there.
    pub fn sink_pads(&self, element: u32) -> u32
        ensures { result ≡ pads_at (all_made self.now) Direction.Sink element }
    {
        if element < self.count() {
            self.settings(element).sink_pads()
        } else {
            0
        }
    }

    /// The name of a source pad, where it is there.
    pub fn source_name(
        &self,
        alloc: Global,
        place: PadPlace,
    ) -> Result<Option<PadName>, OutOfMemory>
        ensures there { IfOk result (λ found. IfSome found (λ name. name ≡ pad_name (all_made self.now) (pad_at Direction.Source place.element place.pad))) }
        ensures none { IfOk result (λ found. (found ≡ None) ↔ (pads_at (all_made self.now) Direction.Source place.element ≤ place.pad)) }
    {
        if place.pad >= self.source_pads(place.element) {
            return Ok(None);
        }
        let direction = Direction::Source;
        Ok(Some(pad_name(alloc, self, Pad { direction, place })?))
    }

    /// The name of a sink pad, where it is there.
    pub fn sink_name(&self, alloc: Global, place: PadPlace) -> Result<Option<PadName>, OutOfMemory>
        ensures there { IfOk result (λ found. IfSome found (λ name. name ≡ pad_name (all_made self.now) (pad_at Direction.Sink place.element place.pad))) }
        ensures none { IfOk result (λ found. (found ≡ None) ↔ (pads_at (all_made self.now) Direction.Sink place.element ≤ place.pad)) }
    {
        if place.pad >= self.sink_pads(place.element) {
            return Ok(None);
        }
        let direction = Direction::Sink;
        Ok(Some(pad_name(alloc, self, Pad { direction, place })?))
    }

    /// From now on an element may put out these caps, if it is a converter. All other settings stay.
    pub(crate) fn set_allowed(&mut self, element: u32, caps: Caps)
        requires { element < length (all_made self.old) }
        ensures { (m : Made) → slice_get (all_made self.old) element ≡ Some m → all_made self.new ≡ slice_set (all_made self.old) element (with_caps caps m) }
    {
        match self.by_name.get_index_mut(element as usize) {
            Some(element) => element.settings.set_allowed(caps),
            None => unreachable!(),
        }
    }

    /// From now on an element has so many of the pads that links make, if they make some. All other settings stay.
    pub(crate) fn set_pads(&mut self, element: u32, pads: MadePads)
        requires { element < length (all_made self.old) }
        ensures { (m : Made) → slice_get (all_made self.old) element ≡ Some m
            → all_made self.new ≡ slice_set (all_made self.old) element (with_made_pads pads m) }
    {
        match self.by_name.get_index_mut(element as usize) {
            Some(element) => element.settings.set_pads(pads),
            None => unreachable!(),
        }
    }

    /// How many elements have names that are made of this kind.
    pub(crate) fn count_numbered(&self, kind: &str) -> u32
        ensures { result ≡ numbered kind.now (all_made self.now) }
    {
        self.by_name
            .values()
            .filter(|element| is_numbered(element, kind))
            .count() as u32
    }

    /// Whether an element has the file that one of these settings would have.
    pub(crate) fn is_location_taken(&self, settings: &Settings) -> bool
        ensures { result ≡ is_location_taken settings.now (all_made self.now) }
    {
        some_clash(self.by_name.values().as_slice(), settings)
    }

    /// Puts an element of a new name behind these.
    pub fn put(&mut self, new: NewElement) -> Result<(), OutOfMemory>
        requires free { is_name_taken (made_in new).name (all_made self.old) ≡ false }
        requires room { length (all_made self.old) < limit }
        ensures made { OnOk result (all_made self.new ≡ all_made self.old ++ made_in new ∷ []) }
        ensures stays { OnErr result (all_made self.new ≡ all_made self.old) }
    {
        let NewElement { name, element } = new;
        self.by_name.insert(name, element)?;
        Ok(())
    }
}
