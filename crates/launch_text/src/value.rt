//! What words stand for.
ghost use Rattle.std.specs.Prelude.{◌≡◌, ◌++◌, IfOk, OnOk};
ghost use Rattle.std.specs.String.{string_bytes};
ghost use Rattle.std.specs.Char.{encode_utf8};
ghost use Rattle.text_words.specs.Words.{is_closed, plain};
ghost use Rattle.launch_text.specs.Reading.{Gives, pad_of, reference_of, said};
ghost use Rattle.launch_text.specs.Words.{begins_caps, kept, taken};

use crate::fault::Refusal;
use crate::printing::Marked;
use crate::tree::Node;
use gst_value::{OutOfMemory, Text};
use std::alloc::Global;
use text_words::{Characters, Class, Mode, cut, is_run};

/// Puts what a character of a word adds to a value or to caps.
fn put_kept(
    into: &mut String,
    marked: Marked,
    escaped: bool,
    character: char,
) -> Result<(), OutOfMemory>
    ensures { OnOk result (string_bytes into.new ≡ string_bytes into.old ++ kept marked escaped character (encode_utf8 character)) }
{
    match marked {
        Marked::Value => put_value_part(into, escaped, character),
        Marked::Caps => put_caps_part(into, escaped, character),
    }
}

/// To a value double quotes and backslashes add nothing but behind a backslash.
fn put_value_part(into: &mut String, escaped: bool, character: char) -> Result<(), OutOfMemory>
    ensures { OnOk result (string_bytes into.new ≡ string_bytes into.old ++ kept Marked.Value escaped character (encode_utf8 character)) }
{
    if !escaped && matches!(character, '"' | '\\') {
        return Ok(());
    }
    into.push(character)?;
    Ok(())
}

/// To caps only a backslash before a space adds nothing.
fn put_caps_part(into: &mut String, escaped: bool, character: char) -> Result<(), OutOfMemory>
    ensures { OnOk result (string_bytes into.new ≡ string_bytes into.old ++ kept Marked.Caps escaped character (encode_utf8 character)) }
{
    if !escaped && character == '\\' {
        return Ok(());
    }
    if escaped && character != ' ' {
        into.push('\\')?;
        into.push(character)?;
        return Ok(());
    }
    into.push(character)?;
    Ok(())
}

/// Puts what a word says of a value or of caps.
fn put_said(into: &mut String, marked: Marked, word: &str) -> Result<bool, OutOfMemory>
    ensures says { OnOk result (string_bytes into.new ≡ string_bytes into.old ++ taken marked plain word.now) }
    ensures closed { IfOk result (λ closed. closed ≡ is_closed word.now) }
{
    let mut mode = Mode::PLAIN;
    let mut characters = Characters::new(word);
    while let Some(character) = characters.take() {
        put_kept(into, marked, mode.escaped, character)?;
        mode = mode.after_character(character);
    }
    Ok(mode.is_plain())
}

/// What a word says of a value or of caps. It has to be closed.
#[tactic(auto, unfolding(crate::specs::Reading::said))]
pub(crate) fn read_said(alloc: Global, marked: Marked, word: &str) -> Result<Text, Refusal>
    ensures { Gives (λ x. x) result (said marked word.now) }
{
    let mut told = String::new(alloc);
    if put_said(&mut told, marked, word)? {
        Ok(Text::from_string(told))
    } else {
        Err(Refusal::Stuck)
    }
}

/// Whether the word begins caps: it has `/` before any `=`.
pub(crate) fn begins_caps(word: &str) -> bool
    ensures { result ≡ begins_caps word.now }
{
    let bytes = word.as_bytes();
    for byte in bytes {
        match *byte {
            b'/' => return true,
            b'=' => return false,
            _ => {}
        }
    }
    false
}

/// The name of a pad, where one stands there.
#[tactic(auto, unfolding(crate::specs::Reading::pad_of))]
fn read_pad(alloc: Global, text: &str) -> Result<Option<Text>, Refusal>
    ensures { Gives (λ x. x) result (pad_of text.now) }
{
    if text.is_empty() {
        return Ok(None);
    }
    if is_run(Class::Name, text) {
        let pad = Text::from_str(alloc, text)?;
        return Ok(Some(pad));
    }
    Err(Refusal::Stuck)
}

/// A reference: the name of an element, a point, and maybe the name of a pad.
#[tactic(auto, unfolding(crate::specs::Reading::reference_of))]
pub(crate) fn read_reference(alloc: Global, word: &str) -> Result<Node, Refusal>
    ensures { Gives (λ x. x) result (reference_of word.now) }
{
    let Some((name, pad)) = cut(word, '.') else {
        return Err(Refusal::Stuck);
    };
    if !is_run(Class::Name, name) {
        return Err(Refusal::Stuck);
    }
    let pad = read_pad(alloc, pad)?;
    let name = Text::from_str(alloc, name)?;
    Ok(Node::Reference { name, pad })
}
