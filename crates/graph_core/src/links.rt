//! The links of a line.
ghost use Rattle.std.specs.Prelude.{◌≡◌, ◌⊎◌, ◌≤◌, ◌+◌, ◌∷◌, [], length, map, IfOk, IfErr, OnOk, Ok, Err, None};
ghost use Rattle.graph_core.specs.Asked.{declared_by, chain_elements, chain_links, links_behind, elements_in, links_in, end_of, number_behind};
ghost use Rattle.graph_core.specs.Elements.{all_made};
ghost use Rattle.graph_core.specs.Ends.{IsThere};
ghost use Rattle.graph_core.specs.Links.{all_links, AreOrdered, LinksCome, LinksFollow, LinksStop, IsJudged, IsUnjoined, Joins, one_link};

use crate::elements::Elements;
use crate::ends::{end_pad, no_such};
use crate::fault::{BuildFault, What};
use crate::judging::{refusal, refused};
use graph_order::{Linking, Order};
use graph_pads::{Direction, Pad, PadLink};
use gst_value::OutOfMemory;
use launch_text::{Chain, Node};
use std::alloc::Global;

/// Links between pads, and the elements in an order in which each link goes forward.
#[derive(Drop)]
pub(crate) struct Links {
    pub(crate) made: Vec<PadLink>,
    pub(crate) order: Order,
}

/// The links of a line between its elements. Of the faults the first in the order of the line is answered.
pub(crate) fn links_of(
    alloc: Global,
    elements: &Elements,
    chains: &[&Chain],
) -> Result<Links, BuildFault>
    requires { length (elements_in (map (λ c. c.now) chains.now)) ≡ length (all_made elements.now) }
    ensures ordered { IfOk result (AreOrdered (all_made elements.now)) }
    ensures made { IfOk result (λ links. LinksCome (all_made elements.now) [] (links_in 0 (map (λ c. c.now) chains.now)) (Ok (all_links links))) }
    ensures fault { IfErr result (λ fault. (fault ≡ BuildFault.OutOfMemory)
        ⊎ LinksCome (all_made elements.now) [] (links_in 0 (map (λ c. c.now) chains.now)) (Err fault)) }
{
    let mut links = unlinked(alloc, elements)?;
    let mut number = 0;
    for chain in chains {
        number = add_chain(alloc, elements, &mut links, chain.nodes.as_slice(), number)?;
    }
    Ok(links)
}

/// No links between elements.
fn unlinked(alloc: Global, elements: &Elements) -> Result<Links, BuildFault>
    ensures ordered { IfOk result (AreOrdered (all_made elements.now)) }
    ensures none { IfOk result (λ links. all_links links ≡ []) }
    ensures fault { IfErr result (λ fault. fault ≡ BuildFault.OutOfMemory) }
{
    let mut order = Order::new(alloc);
    for _ in 0..elements.count() {
        order.add()?;
    }
    Ok(Links {
        made: Vec::new(alloc),
        order,
    })
}

/// Makes the links of a chain, before which so many elements stand. How many stand behind it is given.
fn add_chain(
    alloc: Global,
    elements: &Elements,
    links: &mut Links,
    nodes: &[Node],
    first: u32,
) -> Result<u32, BuildFault>
    requires room { first + length (chain_elements nodes.now) ≤ length (all_made elements.now) }
    requires ordered { AreOrdered (all_made elements.now) links.old }
    ensures number { IfOk result (λ number. number ≡ first + length (chain_elements nodes.now)) }
    ensures ordered { OnOk result (AreOrdered (all_made elements.now) links.new) }
    ensures made { OnOk result (LinksFollow (all_made elements.now) (all_links links.old) (chain_links first nodes.now) (all_links links.new)) }
    ensures fault { IfErr result (λ fault. LinksStop (all_made elements.now) (all_links links.old) (chain_links first nodes.now) fault) }
{
    let Some((node, others)) = nodes.split_first() else {
        return Ok(first);
    };
    add_others(alloc, elements, links, node, others, first)
}

/// Makes the links from a node, before which so many elements stand, through the others. How many elements stand behind
/// them is given.
fn add_others(
    alloc: Global,
    elements: &Elements,
    links: &mut Links,
    node: &Node,
    others: &[Node],
    first: u32,
) -> Result<u32, BuildFault>
    requires room { first + length (chain_elements (node.now ∷ others.now)) ≤ length (all_made elements.now) }
    requires ordered { AreOrdered (all_made elements.now) links.old }
    ensures number { IfOk result (λ number. number ≡ first + length (chain_elements (node.now ∷ others.now))) }
    ensures ordered { OnOk result (AreOrdered (all_made elements.now) links.new) }
    ensures made { OnOk result (LinksFollow (all_made elements.now) (all_links links.old) (links_behind first node.now others.now) (all_links links.new)) }
    ensures fault { IfErr result (λ fault. LinksStop (all_made elements.now) (all_links links.old) (links_behind first node.now others.now) fault) }
{
    let mut left = node;
    let mut number = first;
    for right in others {
        add(alloc, elements, links, left, right, number)?;
        number += made_by(left);
        left = right;
    }
    Ok(number + made_by(left))
}

/// How many elements a node makes.
fn made_by(node: &Node) -> u32
    ensures { result ≡ length (declared_by node.now) }
{
    match node {
        Node::Element { .. } | Node::Caps(_) => 1,
        Node::Reference { .. } => 0,
    }
}

/// Makes the link between two nodes, before the first of which so many elements stand.
fn add(
    alloc: Global,
    elements: &Elements,
    links: &mut Links,
    left: &Node,
    right: &Node,
    number: u32,
) -> Result<(), BuildFault>
    requires left { number + length (declared_by left.now) ≤ length (all_made elements.now) }
    requires right { number_behind number left.now + length (declared_by right.now) ≤ length (all_made elements.now) }
    requires ordered { AreOrdered (all_made elements.now) links.old }
    ensures ordered { OnOk result (AreOrdered (all_made elements.now) links.new) }
    ensures made { OnOk result (LinksFollow (all_made elements.now) (all_links links.old)
        (one_link (end_of number left.now) (end_of (number_behind number left.now) right.now)) (all_links links.new)) }
    ensures fault { IfErr result (λ fault. LinksStop (all_made elements.now) (all_links links.old)
        (one_link (end_of number left.now) (end_of (number_behind number left.now) right.now)) fault) }
{
    let made = links.made.as_slice();
    let source = end_pad(alloc, elements, made, Direction::Source, left, number)?;
    let number_behind = number + made_by(left);
    let sink = end_pad(alloc, elements, made, Direction::Sink, right, number_behind)?;
    join(alloc, elements, links, source, sink)
}

/// Links two pads.
fn join(
    alloc: Global,
    elements: &Elements,
    links: &mut Links,
    left: Pad,
    right: Pad,
) -> Result<(), BuildFault>
    requires left { IsThere (all_made elements.now) left }
    requires right { IsThere (all_made elements.now) right }
    requires ordered { AreOrdered (all_made elements.now) links.old }
    ensures ordered { OnOk result (AreOrdered (all_made elements.now) links.new) }
    ensures made { OnOk result (Joins (all_made elements.now) (all_links links.old) left right (all_links links.new)) }
    ensures fault { IfErr result (IsUnjoined (all_made elements.now) (all_links links.old) left right) }
{
    match refusal(alloc, elements, links.made.as_slice(), left, right)? {
        None => push_link(alloc, elements, links, left, right),
        Some(ret) => Err(refused(alloc, elements, left, right, ret)?),
    }
}

/// Puts the link between two pads that are not refused behind the others, unless it would close a loop.
fn push_link(
    alloc: Global,
    elements: &Elements,
    links: &mut Links,
    left: Pad,
    right: Pad,
) -> Result<(), BuildFault>
    requires left { IsThere (all_made elements.now) left }
    requires right { IsThere (all_made elements.now) right }
    requires ordered { AreOrdered (all_made elements.now) links.old }
    requires judged { IsJudged (all_made elements.now) (all_links links.old) left right None }
    ensures ordered { OnOk result (AreOrdered (all_made elements.now) links.new) }
    ensures made { OnOk result (Joins (all_made elements.now) (all_links links.old) left right (all_links links.new)) }
    ensures fault { IfErr result (IsUnjoined (all_made elements.now) (all_links links.old) left right) }
{
    let link = PadLink {
        source: left.place,
        sink: right.place,
    };
    let linking = links
        .order
        .link(alloc, left.place.element, right.place.element)?;
    if let Linking::Loops = linking {
        let name = elements.name(left.place.element);
        return Err(no_such(alloc, name, What::Order)?);
    }
    links.made.push(link)?;
    Ok(())
}
