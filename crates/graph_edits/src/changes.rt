//! What commands do to the graph.
ghost use Rattle.std.specs.Prelude.{◌≡◌, ◌+◌, ◌<◌, ◌≤◌, ◌++◌, ◌∷◌, [], true, false, if◌then◌else◌, None, is_some, length, IfOk, OnOk, OnErr, vec_capacity, vec_len};
ghost use Rattle.graph_edits.specs.Edited.{and_sink, without};
ghost use Rattle.graph_core.specs.Elements.{all_made, is_name_taken, limit, made_in};
ghost use Rattle.graph_order.specs.Forward.{IsForward, count_of, links_of};
ghost use Rattle.graph_pads.specs.Links.{sink_behind};

use crate::graph::EditedGraph;
use crate::marks::touch;
use graph_core::{BuildFault, Elements, NewElement, PadLink, PadPlace, new_element};
use graph_order::{Linking, Order};
use graph_pads::sink_behind;
use gst_value::{List, OutOfMemory, Prop};
use std::alloc::Global;

/// What comes of an element that is asked for.
#[derive(Clone, Copy, Debug, PartialEq, Eq)]
pub enum Adding {
    /// It stands behind the others, and has this number.
    Added { number: u32 },
    /// Each link to it would make a sink pad of it. Such an element is not added.
    NotPlain,
}

impl EditedGraph {
    ghost use Rattle.std.specs.Prelude.{ℕ, IfErr};
    ghost use Rattle.graph_edits.specs.Edited.{Edited, unlinked_at, without_element};
    ghost use Rattle.graph_edits.specs.Lawful.{asked};
    ghost use Rattle.graph_edits.specs.Graph.{IsEdited, made};
    ghost use Rattle.graph_edits.specs.Changes.{AfterAdd, AfterFault, AfterLink, AfterRelink, IsNumbered};

    /// Undoes the link of a source pad, where it has one, with EOS or without. Behind EOS the sink pad counts as ended.
    pub fn unlink(&mut self, source: PadPlace, eos: bool)
        ensures edited { (g : Edited) (place : ℕ) → IsEdited self.old g → IsEdited self.new (unlinked_at source place eos g) }
        ensures made { made self.new ≡ made self.old }
    {
        undo(&mut self.links, &mut self.ended, source, eos);
    }

    /// Links a source pad to a sink pad, unless elements would then feed themselves by links that ever were made. Memory is found
    /// before anything changes.
    pub fn link(
        &mut self,
        alloc: Global,
        source: PadPlace,
        sink: PadPlace,
    ) -> Result<Linking, OutOfMemory>
        requires source { source.element < length (made self.old) }
        requires sink { sink.element < length (made self.old) }
        ensures answer { IfOk result (AfterLink self.old source sink self.new) }
        ensures stays { OnErr result ((g : Edited) → IsEdited self.old g → IsEdited self.new g) }
        ensures made { made self.new ≡ made self.old }
    {
        self.links.reserve(1)?;
        self.ended.reserve(self.links.len() + 1)?;
        match self.order.link_once(alloc, source.element, sink.element)? {
            Linking::Loops => Ok(Linking::Loops),
            Linking::Linked => {
                let link = PadLink { source, sink };
                self.links.push_reserved(link);
                touch(&mut self.touched, link);
                Ok(Linking::Linked)
            }
        }
    }

    /// Undoes the link of a source pad, where it has one, and links the pad to a sink pad, unless elements would then feed themselves
    /// by links that ever were made; nothing changes then. Memory is found before anything changes.
    pub fn relink(
        &mut self,
        alloc: Global,
        source: PadPlace,
        sink: PadPlace,
    ) -> Result<Linking, OutOfMemory>
        requires source { source.element < length (made self.old) }
        requires sink { sink.element < length (made self.old) }
        ensures answer { IfOk result (AfterRelink self.old source sink self.new) }
        ensures stays { OnErr result ((g : Edited) → IsEdited self.old g → IsEdited self.new g) }
        ensures made { made self.new ≡ made self.old }
    {
        self.links.reserve(1)?;
        self.ended.reserve(self.links.len() + 1)?;
        match self.order.link_once(alloc, source.element, sink.element)? {
            Linking::Loops => Ok(Linking::Loops),
            Linking::Linked => {
                cut(&mut self.links, source);
                let link = PadLink { source, sink };
                self.links.push_reserved(link);
                touch(&mut self.touched, link);
                Ok(Linking::Linked)
            }
        }
    }

    /// Makes an element of a kind behind all others, without links. Of the faults the first is answered: of its kind, its
    /// properties, its name, its location, and the number of elements. Memory is found before anything changes.
    pub fn add(
        &mut self,
        alloc: Global,
        kind: &str,
        props: &List<Prop>,
    ) -> Result<Adding, BuildFault>
        ensures answer { IfOk result (AfterAdd self.old (asked kind.now props.now) self.new) }
        ensures made { IfOk result (IsNumbered self.new) }
        ensures fault { IfErr result (AfterFault self.old (asked kind.now props.now) self.new) }
    {
        let new = new_element(alloc, &self.elements, kind, props)?;
        if new.settings().makes_sinks() {
            return Ok(Adding::NotPlain);
        }
        let number = put(
            &mut self.elements,
            &mut self.order,
            &mut self.removed,
            &mut self.touched,
            new,
        )?;
        Ok(Adding::Added { number })
    }

    /// Takes an element away. Its name and its location stay taken.
    pub fn remove(&mut self, element: u32)
        requires { element < length (made self.old) }
        ensures edited { (g : Edited) → IsEdited self.old g → IsEdited self.new (without_element element g) }
        ensures made { made self.new ≡ made self.old }
    {
        self.removed[element as usize] = true;
    }
}

/// Takes the links of a source pad away, and behind EOS puts the sink pad among those that ended. There is room for those of all links.
fn undo(links: &mut Vec<PadLink>, ended: &mut Vec<PadPlace>, source: PadPlace, eos: bool)
    requires { vec_len links.old + vec_len ended.old ≤ vec_capacity ended.old }
    ensures links { links.new.items ≡ without source links.old.items }
    ensures ended { ended.new.items ≡ and_sink (if eos then sink_behind links.old.items source else None) ended.old.items }
    ensures room { vec_len links.new + vec_len ended.new ≤ vec_capacity ended.new }
{
    let sink = sink_to_end(links, source, eos);
    cut(links, source);
    mark(ended, sink);
}

/// The sink pad that is given EOS where the link of a source pad is undone.
fn sink_to_end(links: &[PadLink], source: PadPlace, eos: bool) -> Option<PadPlace>
    ensures { result ≡ (if eos then sink_behind links.now source else None) }
{
    if !eos {
        return None;
    }
    sink_behind(links, source)
}

/// Puts a sink pad, where there is one, among those that ended.
fn mark(ended: &mut Vec<PadPlace>, sink: Option<PadPlace>)
    requires { is_some sink ≡ true → vec_len ended.old < vec_capacity ended.old }
    ensures ended { ended.new.items ≡ and_sink sink ended.old.items }
    ensures room { vec_capacity ended.new ≡ vec_capacity ended.old }
{
    if let Some(sink) = sink {
        ended.push_reserved(sink);
    }
}

/// Takes the links of a source pad away.
fn cut(links: &mut Vec<PadLink>, source: PadPlace)
    ensures links { links.new.items ≡ without source links.old.items }
    ensures fewer { vec_len links.new ≤ vec_len links.old }
    ensures room { vec_capacity links.new ≡ vec_capacity links.old }
{
    links.retain(|link| { link.source.element != source.element || link.source.pad != source.pad });
}

/// Puts an element of a new name behind the others. It is not marked. Memory is found before anything changes.
fn put(
    elements: &mut Elements,
    order: &mut Order,
    removed: &mut Vec<bool>,
    touched: &mut Vec<bool>,
    new: NewElement,
) -> Result<u32, OutOfMemory>
    requires free { is_name_taken (made_in new).name (all_made elements.old) ≡ false }
    requires room { length (all_made elements.old) < limit }
    requires ordered { count_of order.old ≡ length (all_made elements.old) }
    ensures number { IfOk result (λ number. number ≡ length (all_made elements.old)) }
    ensures made { OnOk result (all_made elements.new ≡ all_made elements.old ++ made_in new ∷ []) }
    ensures count { OnOk result (count_of order.new ≡ count_of order.old + 1) }
    ensures links { links_of order.new ≡ links_of order.old }
    ensures forward { IsForward order.old → IsForward order.new }
    ensures removed { OnOk result (removed.new.items ≡ removed.old.items ++ false ∷ []) }
    ensures touched { OnOk result (touched.new.items ≡ touched.old.items ++ false ∷ []) }
    ensures made_stays { OnErr result (all_made elements.new ≡ all_made elements.old) }
    ensures count_stays { OnErr result (count_of order.new ≡ count_of order.old) }
    ensures removed_stays { OnErr result (removed.new.items ≡ removed.old.items) }
    ensures touched_stays { OnErr result (touched.new.items ≡ touched.old.items) }
{
    removed.reserve(1)?;
    touched.reserve(1)?;
    order.make_room()?;
    elements.put(new)?;
    removed.push_reserved(false);
    touched.push_reserved(false);
    Ok(order.add_reserved())
}
