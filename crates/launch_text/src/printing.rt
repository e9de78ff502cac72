//! Writes a line.
ghost use Rattle.std.specs.Prelude.{◌≡◌, ◌++◌, ◌∷◌, map, IfOk, OnOk};
ghost use Rattle.std.specs.String.{string_bytes};
ghost use Rattle.std.specs.Char.{encode_utf8};
ghost use Rattle.launch_text.specs.Printed.{caps_text, is_marked, line_text, reference_text, spaced, token_text, value_text, with_marks, with_tokens, with_word};
ghost use Rattle.launch_text.specs.Tokens.{Token, chain_tokens, kind, linked, node_tokens, part_tokens, prop_token, tree_tokens};

use crate::tree::{Chain, Node, Part, Tree};
use gst_value::{OutOfMemory, Prop, Text};
use std::alloc::Global;
use text_words::Characters;

/// Puts a space behind the words so far.
fn put_space(into: &mut String) -> Result<(), OutOfMemory>
    ensures { OnOk result (string_bytes into.new ≡ spaced (string_bytes into.old)) }
{
    if !into.is_empty() {
        into.push(' ')?;
    }
    Ok(())
}

/// Puts a word of ordinary characters.
fn put_word(into: &mut String, word: &str) -> Result<(), OutOfMemory>
    ensures { OnOk result (string_bytes into.new ≡ with_word (string_bytes into.old) word.now) }
{
    put_space(into)?;
    into.push_str(word)?;
    Ok(())
}

/// What a text with backslashes is.
#[derive(Clone, Copy)]
pub(crate) enum Marked {
    /// The value of a property.
    Value,
    /// The text of caps.
    Caps,
}

impl Marked {
    /// Whether the character has a backslash before it.
    fn holds(self, character: char) -> bool
        ensures { result ≡ is_marked self character }
    {
        match self {
            Marked::Value => matches!(character, ' ' | '\t' | '\n' | '"' | '\\'),
            Marked::Caps => character == ' ',
        }
    }
}

/// Puts a character of such a text.
fn put_character(into: &mut String, marked: Marked, character: char) -> Result<(), OutOfMemory>
    ensures { OnOk result (string_bytes into.new ≡ string_bytes into.old ++ with_marks marked (encode_utf8 character)) }
{
    if marked.holds(character) {
        into.push('\\')?;
    }
    into.push(character)?;
    Ok(())
}

/// Puts the characters of such a text.
fn put_marked(into: &mut String, marked: Marked, text: &str) -> Result<(), OutOfMemory>
    ensures { OnOk result (string_bytes into.new ≡ string_bytes into.old ++ with_marks marked text.now) }
{
    let mut characters = Characters::new(text);
    while let Some(character) = characters.take() {
        put_character(into, marked, character)?;
    }
    Ok(())
}

/// Puts a value, which is in quotes where it is empty.
fn put_value(into: &mut String, value: &str) -> Result<(), OutOfMemory>
    ensures { OnOk result (string_bytes into.new ≡ string_bytes into.old ++ value_text value.now) }
{
    if value.is_empty() {
        into.push_str("\"\"")?;
        return Ok(());
    }
    put_marked(into, Marked::Value, value)
}

/// Puts the text of caps.
fn put_caps(into: &mut String, caps: &str) -> Result<(), OutOfMemory>
    ensures { OnOk result (string_bytes into.new ≡ with_word (string_bytes into.old) (caps_text caps.now)) }
{
    put_space(into)?;
    put_marked(into, Marked::Caps, caps)
}

/// Puts a property.
fn put_property(into: &mut String, prop: &Prop) -> Result<(), OutOfMemory>
    ensures { OnOk result (string_bytes into.new ≡ with_word (string_bytes into.old) (token_text (prop_token prop.now))) }
{
    put_word(into, prop.name.as_str())?;
    into.push('=')?;
    put_value(into, prop.value.as_str())
}

/// Puts an element with its properties.
fn put_element(into: &mut String, kind: &str, props: &[Prop]) -> Result<(), OutOfMemory>
    ensures { OnOk result (string_bytes into.new ≡ with_tokens (string_bytes into.old) (Token.kind kind.now ∷ map prop_token props.now)) }
{
    put_word(into, kind)?;
    for prop in props {
        put_property(into, prop)?;
    }
    Ok(())
}

/// Puts a reference.
fn put_reference(into: &mut String, name: &str, pad: &Option<Text>) -> Result<(), OutOfMemory>
    ensures { OnOk result (string_bytes into.new ≡ with_word (string_bytes into.old) (reference_text name.now pad.now)) }
{
    put_word(into, name)?;
    into.push('.')?;
    if let Some(pad) = pad {
        into.push_str(pad.as_str())?;
    }
    Ok(())
}

/// Puts a node.
fn put_node(into: &mut String, node: &Node) -> Result<(), OutOfMemory>
    ensures { OnOk result (string_bytes into.new ≡ with_tokens (string_bytes into.old) (node_tokens node.now)) }
{
    match node {
        Node::Element { kind, props } => put_element(into, kind.as_str(), props.as_slice()),
        Node::Caps(caps) => put_caps(into, caps.as_str()),
        Node::Reference { name, pad } => put_reference(into, name.as_str(), pad),
    }
}

/// Puts nodes with `!` before each.
#[tactic(auto, using(crate::proofs::Lines::tokens_append))]
fn put_linked(into: &mut String, nodes: &[Node]) -> Result<(), OutOfMemory>
    ensures { OnOk result (string_bytes into.new ≡ with_tokens (string_bytes into.old) (linked nodes.now)) }
{
    for node in nodes {
        put_word(into, "!")?;
        put_node(into, node)?;
    }
    Ok(())
}

/// Puts the nodes of a chain with `!` between.
#[tactic(auto, using(crate::proofs::Lines::tokens_append))]
fn put_chain(into: &mut String, chain: &Chain) -> Result<(), OutOfMemory>
    ensures { OnOk result (string_bytes into.new ≡ with_tokens (string_bytes into.old) (chain_tokens chain.now.nodes)) }
{
    let Some((first, others)) = chain.nodes.as_slice().split_first() else {
        return Ok(());
    };
    put_node(into, first)?;
    put_linked(into, others)
}

/// Puts a chain, or a bin in brackets.
#[cycle(printed)]
#[tactic(auto, using(crate::proofs::Lines::chain_part, crate::proofs::Lines::bin_part, crate::proofs::Lines::tokens_append))]
fn put_part(into: &mut String, part: &Part) -> Result<(), OutOfMemory>
    ensures { OnOk result (string_bytes into.new ≡ with_tokens (string_bytes into.old) (part_tokens part.now)) }
{
    match part {
        Part::Chain(chain) => put_chain(into, chain),
        Part::Bin(tree) => {
            put_word(into, "(")?;
            put_parts(into, tree)?;
            put_word(into, ")")
        }
    }
}

/// Puts the parts of a tree.
#[cycle(printed)]
fn put_parts(into: &mut String, tree: &Tree) -> Result<(), OutOfMemory>
    ensures { OnOk result (string_bytes into.new ≡ with_tokens (string_bytes into.old) (tree_tokens tree.now)) }
{
    for part in tree.parts.as_slice() {
        put_part(into, part)?;
    }
    Ok(())
}

/// The line of a tree: its words with one space between.
pub fn print(alloc: Global, tree: &Tree) -> Result<Text, OutOfMemory>
    ensures { IfOk result (λ text. text ≡ line_text tree.now) }
{
    let mut into = String::new(alloc);
    put_parts(&mut into, tree)?;
    Ok(Text::from_string(into))
}
