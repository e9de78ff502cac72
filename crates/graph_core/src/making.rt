//! Makes the elements of a line.
ghost use Rattle.std.specs.Prelude.{◌≡◌, ◌∷◌, [], is_some, map, IfOk, IfErr, OnOk, Ok, Err, true, codes, string_bytes, MatchOption};
ghost use Rattle.gst_value.specs.declared.name.Prop.{Prop as Property};
ghost use Rattle.el_settings.specs.Asked.{location_of};
ghost use Rattle.el_settings.specs.Checked.{IsAnswer};
ghost use Rattle.graph_core.specs.Asked.{Declared, declared_by, chain_elements, elements_in};
ghost use Rattle.graph_core.specs.Elements.{all_made, made_in, name_of, ElementsCome, IsMade, IsPlaced, IsUnmade, settings_fault, Follows, Stops};

use crate::element::{Element, NewElement};
use crate::elements::{Elements, LIMIT};
use crate::fault::{BuildFault, What};
use crate::naming::{given_name, name_for};
use el_settings::{PropFault, Settings, check};
use gst_value::{List, OutOfMemory, Prop, Text};
use launch_text::{Chain, Node};
use std::alloc::Global;

/// The elements of a line. Of the faults the first in the order of the line is answered.
pub(crate) fn elements_of(alloc: Global, chains: &[&Chain]) -> Result<Elements, BuildFault>
    ensures made { IfOk result (λ elements. ElementsCome [] (elements_in (map (λ c. c.now) chains.now)) (Ok (all_made elements))) }
    ensures fault { IfErr result (λ fault. ElementsCome [] (elements_in (map (λ c. c.now) chains.now)) (Err fault)) }
{
    let mut elements = Elements::new(alloc);
    for chain in chains {
        add_chain(alloc, &mut elements, chain.nodes.as_slice())?;
    }
    Ok(elements)
}

/// Makes the elements of a chain.
fn add_chain(alloc: Global, elements: &mut Elements, nodes: &[Node]) -> Result<(), BuildFault>
    ensures made { OnOk result (Follows (all_made elements.old) (chain_elements nodes.now) (all_made elements.new)) }
    ensures fault { IfErr result (λ fault. Stops (all_made elements.old) (chain_elements nodes.now) fault) }
{
    for node in nodes {
        add_node(alloc, elements, node)?;
    }
    Ok(())
}

/// Makes the element that a node stands for.
fn add_node(alloc: Global, elements: &mut Elements, node: &Node) -> Result<(), BuildFault>
    ensures made { OnOk result (Follows (all_made elements.old) (declared_by node.now) (all_made elements.new)) }
    ensures fault { IfErr result (λ fault. Stops (all_made elements.old) (declared_by node.now) fault) }
{
    match node {
        Node::Element { kind, props } => add(alloc, elements, kind.as_str(), props),
        Node::Caps(caps) => add_filter(alloc, elements, caps),
        Node::Reference { .. } => Ok(()),
    }
}

/// Makes a capsfilter of these caps.
fn add_filter(alloc: Global, elements: &mut Elements, caps: &Text) -> Result<(), BuildFault>
    ensures made { OnOk result (Follows (all_made elements.old) (declared_by (Node.Caps caps.now)) (all_made elements.new)) }
    ensures fault { IfErr result (λ fault. Stops (all_made elements.old) (declared_by (Node.Caps caps.now)) fault) }
{
    let props = caps_prop(alloc, caps)?;
    add(alloc, elements, "capsfilter", &props)
}

/// The properties of a capsfilter.
fn caps_prop(alloc: Global, caps: &Text) -> Result<List<Prop>, OutOfMemory>
    ensures { IfOk result (λ props. props ≡ (let prop : Property = record { name = codes "caps"; value = caps.now } in prop) ∷ []) }
{
    let mut props = List::new(alloc);
    let name = Text::from_str(alloc, "caps")?;
    let value = caps.copy(alloc)?;
    props.push(alloc, Prop { name, value })?;
    Ok(props)
}

/// Makes an element of a kind behind those before it.
fn add(
    alloc: Global,
    elements: &mut Elements,
    kind: &str,
    props: &List<Prop>,
) -> Result<(), BuildFault>
    ensures made { OnOk result (Follows (all_made elements.old)
        ((let d : Declared = record { kind = kind.now; props = props.now } in d) ∷ []) (all_made elements.new)) }
    ensures fault { IfErr result (λ fault. Stops (all_made elements.old) ((let d : Declared = record { kind = kind.now; props = props.now } in d) ∷ []) fault) }
{
    let made = new_element(alloc, elements, kind, props)?;
    elements.put(made)?;
    Ok(())
}

/// Makes an element of a kind that has a place behind those before it, and does not put it there. Of the faults the first is
/// answered: of its kind, its properties, its name, its location, and the number of elements.
pub fn new_element(
    alloc: Global,
    before: &Elements,
    kind: &str,
    props: &List<Prop>,
) -> Result<NewElement, BuildFault>
    ensures made { IfOk result (λ new. IsMade (all_made before.now) (record { kind = kind.now; props = props.now }) (made_in new)) }
    ensures fault { IfErr result (λ fault. IsUnmade (all_made before.now) (record { kind = kind.now; props = props.now }) fault) }
{
    let name = name_for(alloc, before, kind, props.as_slice())?;
    match check(alloc, kind, props) {
        Ok(settings) => place_element(alloc, before, name, kind, props, settings),
        Err(fault) => Err(named_fault(alloc, name.as_str(), kind, fault)?),
    }
}

/// An element of these settings, if its name, its location and its number may stand behind those before it.
fn place_element(
    alloc: Global,
    before: &Elements,
    name: String,
    kind: &str,
    props: &List<Prop>,
    settings: Settings,
) -> Result<NewElement, BuildFault>
    requires name { string_bytes name ≡ name_of (all_made before.now) (record { kind = kind.now; props = props.now }) }
    requires set { IsAnswer kind.now props.now (Ok settings) }
    ensures made { IfOk result (λ new. IsMade (all_made before.now) (record { kind = kind.now; props = props.now }) (made_in new)) }
    ensures fault { IfErr result (λ fault. IsUnmade (all_made before.now) (record { kind = kind.now; props = props.now }) fault) }
{
    judge(alloc, before, name.as_str(), &settings)?;
    let element = Element {
        kind: Text::from_str(alloc, kind)?,
        is_numbered: given_name(props.as_slice()).is_none(),
        settings,
    };
    Ok(NewElement { name, element })
}

/// Whether an element of this name and these settings has a place behind those before it.
fn judge(
    alloc: Global,
    before: &Elements,
    name: &str,
    settings: &Settings,
) -> Result<(), BuildFault>
    ensures { IsPlaced (all_made before.now) name.now settings.now result }
{
    if before.find(name).is_some() {
        let name = Text::from_str(alloc, name)?;
        return Err(BuildFault::NameTaken { name });
    }
    if before.is_location_taken(settings) {
        return Err(location_taken(alloc, settings)?);
    }
    if before.count() >= LIMIT {
        return Err(BuildFault::TooMany { count: 257 });
    }
    Ok(())
}

/// The fault of an element whose location is taken.
fn location_taken(alloc: Global, settings: &Settings) -> Result<BuildFault, OutOfMemory>
    requires { is_some (location_of settings.now) ≡ true }
    ensures { IfOk result (λ fault. MatchOption (location_of settings.now) ⊥ (λ location. fault ≡ BuildFault.LocationTaken location)) }
{
    let Some(location) = settings.location() else {
        unreachable!()
    };
    let location = Text::from_str(alloc, location)?;
    Ok(BuildFault::LocationTaken { location })
}

/// The fault of an element of this name whose properties have this fault.
fn named_fault(
    alloc: Global,
    name: &str,
    kind: &str,
    fault: PropFault,
) -> Result<BuildFault, OutOfMemory>
    ensures { IfOk result (λ made. made ≡ settings_fault name.now kind.now fault) }
{
    match fault {
        PropFault::NoSuchKind => Ok(BuildFault::NoSuch {
            name: Text::from_str(alloc, kind)?,
            what: What::Kind,
        }),
        PropFault::NoSuchProperty { name: property } => Ok(BuildFault::NoSuch {
            name: Text::from_str(alloc, name)?,
            what: What::Property(property),
        }),
        PropFault::BadValue { name: property } => Ok(BuildFault::BadValue {
            name: Text::from_str(alloc, name)?,
            property,
        }),
        PropFault::OutOfMemory => Ok(BuildFault::OutOfMemory),
    }
}
