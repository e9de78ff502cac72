//! Reads a line word by word.
ghost use Rattle.std.specs.Prelude.{[], Some};
ghost use Rattle.launch_text.specs.Reading.{Gives, Held, begin_part, behind_caps, behind_element, behind_link, behind_reference, finish_from, go_on, held, step_from, whole, with_property};
ghost use Rattle.launch_text.specs.declared.line.Last.TheVariants.{Element as ElementOf};

use crate::fault::Refusal;
use crate::parts::Parts;
use crate::printing::Marked;
use crate::tree::{Node, Tree};
use crate::value::{begins_caps, read_reference, read_said};
use gst_value::{List, Prop, Text};
use std::alloc::Global;
use text_words::{Class, is_run, split_property};

/// What was read last.
#[derive(Drop)]
pub(crate) enum Last {
    /// Nothing, or an opening bracket: a part must begin.
    Start,
    /// A closing bracket: a part may begin.
    Bin,
    /// A reference at the end of its chain: a part may begin.
    Chain,
    /// An element with its properties.
    Element { kind: Text, props: List<Prop> },
    /// A link: a node must begin.
    Link,
    /// The first words of caps.
    Caps(Text),
    /// A reference at the beginning of a chain: a link must follow.
    Reference(Node),
}

/// Begins a chain or a bin.
#[tactic(auto, unfolding(crate::specs::Reading::begin_part))]
fn begin_part(parts: &mut Parts, alloc: Global, word: &str) -> Result<Last, Refusal>
    ensures { Gives (λ last. (held parts.new, last)) result (begin_part (held parts.old) word.now) }
{
    if word == "(" {
        parts.open(alloc)?;
        return Ok(Last::Start);
    }
    if is_run(Class::Kind, word) {
        return begin_element(alloc, word);
    }
    let first = read_reference(alloc, word)?;
    Ok(Last::Reference(first))
}

/// An element of this kind, without properties.
fn begin_element(alloc: Global, kind: &str) -> Result<Last, Refusal>
    ensures { Gives (λ last. last) result (Some (ElementOf kind.now [])) }
{
    let kind = Text::from_str(alloc, kind)?;
    Ok(Last::Element {
        kind,
        props: List::new(alloc),
    })
}

/// Begins a part behind a whole one, or closes the bracket around it.
#[tactic(auto, unfolding(crate::specs::Reading::go_on))]
fn go_on(parts: &mut Parts, alloc: Global, word: &str) -> Result<Last, Refusal>
    ensures { Gives (λ last. (held parts.new, last)) result (go_on (held parts.old) word.now) }
{
    if word == ")" {
        parts.close(alloc)?;
        return Ok(Last::Bin);
    }
    begin_part(parts, alloc, word)
}

/// Reads a property behind an element.
fn add_property(
    alloc: Global,
    kind: Text,
    mut props: List<Prop>,
    name: &str,
    spelling: &str,
) -> Result<Last, Refusal>
    ensures { (h : Held) → Gives (λ last. (h, last)) result (with_property h kind props (name.now, spelling.now)) }
{
    let value = read_said(alloc, Marked::Value, spelling)?;
    let name = Text::from_str(alloc, name)?;
    props.push(alloc, Prop { name, value })?;
    Ok(Last::Element { kind, props })
}

/// Reads a word behind an element.
#[tactic(auto, unfolding(crate::specs::Reading::behind_element))]
fn behind_element(
    parts: &mut Parts,
    alloc: Global,
    kind: Text,
    props: List<Prop>,
    word: &str,
) -> Result<Last, Refusal>
    ensures { Gives (λ last. (held parts.new, last)) result (behind_element (held parts.old) kind props word.now) }
{
    if let Some((name, spelling)) = split_property(word) {
        return add_property(alloc, kind, props, name, spelling);
    }
    if word == "!" {
        parts.nodes.push(alloc, Node::Element { kind, props })?;
        return Ok(Last::Link);
    }
    parts.end_chain(alloc, Node::Element { kind, props })?;
    go_on(parts, alloc, word)
}

/// Begins the node behind a link.
#[tactic(auto, unfolding(crate::specs::Reading::behind_link))]
fn behind_link(parts: &mut Parts, alloc: Global, word: &str) -> Result<Last, Refusal>
    ensures { Gives (λ last. (held parts.new, last)) result (behind_link (held parts.old) word.now) }
{
    if begins_caps(word) {
        let caps = read_said(alloc, Marked::Caps, word)?;
        return Ok(Last::Caps(caps));
    }
    if is_run(Class::Kind, word) {
        return begin_element(alloc, word);
    }
    let last = read_reference(alloc, word)?;
    parts.end_chain(alloc, last)?;
    Ok(Last::Chain)
}

/// Reads a word behind the first ones of caps.
#[tactic(auto, unfolding(crate::specs::Reading::behind_caps))]
fn behind_caps(
    parts: &mut Parts,
    alloc: Global,
    mut caps: Text,
    word: &str,
) -> Result<Last, Refusal>
    ensures { Gives (λ last. (held parts.new, last)) result (behind_caps (held parts.old) caps word.now) }
{
    if word == "!" {
        parts.nodes.push(alloc, Node::Caps(caps))?;
        return Ok(Last::Link);
    }
    let more = read_said(alloc, Marked::Caps, word)?;
    caps.push_str(alloc, " ")?;
    caps.push_str(alloc, more.as_str())?;
    Ok(Last::Caps(caps))
}

/// Reads a link behind the reference that begins a chain.
#[tactic(auto, unfolding(crate::specs::Reading::behind_reference))]
fn behind_reference(
    parts: &mut Parts,
    alloc: Global,
    first: Node,
    word: &str,
) -> Result<Last, Refusal>
    ensures { Gives (λ last. (held parts.new, last)) result (behind_reference (held parts.old) first word.now) }
{
    if word != "!" {
        return Err(Refusal::Stuck);
    }
    parts.nodes.push(alloc, first)?;
    Ok(Last::Link)
}

/// Reads one word more.
pub(crate) fn read_word(
    parts: &mut Parts,
    alloc: Global,
    last: Last,
    word: &str,
) -> Result<Last, Refusal>
    ensures { Gives (λ next. (held parts.new, next)) result (step_from (held parts.old) last word.now) }
{
    match last {
        Last::Start => begin_part(parts, alloc, word),
        Last::Bin => go_on(parts, alloc, word),
        Last::Chain => go_on(parts, alloc, word),
        Last::Element { kind, props } => behind_element(parts, alloc, kind, props, word),
        Last::Link => behind_link(parts, alloc, word),
        Last::Caps(caps) => behind_caps(parts, alloc, caps, word),
        Last::Reference(first) => behind_reference(parts, alloc, first, word),
    }
}

/// The tree of parts around which no bracket is open.
fn whole(parts: Parts) -> Result<Tree, Refusal>
    ensures { Gives (λ tree. tree) result (whole (held parts)) }
{
    if !parts.outer.is_empty() {
        return Err(Refusal::Stuck);
    }
    let Parts {
        outer: _,
        parts,
        nodes: _,
    } = parts;
    Ok(Tree { parts })
}

/// Ends the line.
pub(crate) fn end_line(mut parts: Parts, alloc: Global, last: Last) -> Result<Tree, Refusal>
    ensures { Gives (λ tree. tree) result (finish_from (held parts) last) }
{
    match last {
        Last::Element { kind, props } => {
            parts.end_chain(alloc, Node::Element { kind, props })?;
            whole(parts)
        }
        Last::Bin => whole(parts),
        Last::Chain => whole(parts),
        _ => Err(Refusal::Stuck),
    }
}
