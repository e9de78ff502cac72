//! What words stand for.
ghost use Rattle.std.specs.Prelude.{◌≡◌, ◌++◌, ◌<◌, IfOk, OnOk};
ghost use Rattle.std.specs.String.{string_bytes};
ghost use Rattle.std.specs.Option.{option_map};
ghost use Rattle.std.specs.Char.{encode_utf8};
ghost use Rattle.text_words.specs.Values.{Gives, cut, kept, pad_of, prop_of, property_of, said, taken};
ghost use Rattle.text_words.specs.Words.{is_closed, plain};

use crate::characters::Characters;
use crate::class::{Class, is_run};
use crate::fault::WordFault;
use crate::word::Mode;
use gst_value::{OutOfMemory, PadName, Prop, Text};
use std::alloc::Global;

/// Puts what a character of a word adds to a value: double quotes and backslashes add nothing but behind a backslash.
fn put_kept(into: &mut String, escaped: bool, character: char) -> Result<(), OutOfMemory>
    ensures { OnOk result (string_bytes into.new ≡ string_bytes into.old ++ kept escaped character (encode_utf8 character)) }
{
    if !escaped && matches!(character, '"' | '\\') {
        return Ok(());
    }
    into.push(character)?;
    Ok(())
}

/// Puts what a word says of a value, and tells whether the word is closed.
fn put_said(into: &mut String, word: &str) -> Result<bool, OutOfMemory>
    ensures says { OnOk result (string_bytes into.new ≡ string_bytes into.old ++ taken plain word.now) }
    ensures closed { IfOk result (λ closed. closed ≡ is_closed word.now) }
{
    let mut mode = Mode::PLAIN;
    let mut characters = Characters::new(word);
    while let Some(character) = characters.take() {
        put_kept(into, mode.escaped, character)?;
        mode = mode.after_character(character);
    }
    Ok(mode.is_plain())
}

/// What a word says of a value. A word that ends in double quotes or behind a backslash is not closed, and is misspelt.
#[tactic(auto, unfolding(crate::specs::Values::said))]
pub fn read_value(alloc: Global, word: &str) -> Result<Text, WordFault>
    ensures { Gives (λ x. x) result (said word.now) }
{
    let mut told = String::new(alloc);
    if put_said(&mut told, word)? {
        Ok(Text::from_string(told))
    } else {
        Err(WordFault::Misspelt)
    }
}

/// What stands before and behind the first such ASCII character.
pub fn cut(word: &str, mark: char) -> Option<(&str, &str)>
    requires { mark < 128 }
    ensures { option_map (λ p. (p.0.now, p.1.now)) result ≡ cut mark word.now }
{
    word.split_once(mark)
}

/// The name of a property and the word of its value.
#[tactic(auto, unfolding(crate::specs::Values::property_of))]
pub fn split_property(word: &str) -> Option<(&str, &str)>
    ensures { option_map (λ p. (p.0.now, p.1.now)) result ≡ property_of word.now }
{
    let (name, value) = cut(word, '=')?;
    if is_run(Class::Property, name) {
        Some((name, value))
    } else {
        None
    }
}

/// A property with its value, as `blocksize=16`.
#[tactic(auto, unfolding(crate::specs::Values::prop_of))]
pub fn read_prop(alloc: Global, word: &str) -> Result<Prop, WordFault>
    ensures { Gives (λ x. x) result (prop_of word.now) }
{
    let Some((name, spelling)) = split_property(word) else {
        return Err(WordFault::Misspelt);
    };
    let value = read_value(alloc, spelling)?;
    let name = Text::from_str(alloc, name)?;
    Ok(Prop { name, value })
}

/// The name of an element's pad, as `identity0.src`.
#[tactic(auto, unfolding(crate::specs::Values::pad_of))]
pub fn read_pad(alloc: Global, word: &str) -> Result<PadName, WordFault>
    ensures { Gives (λ x. x) result (pad_of word.now) }
{
    let Some((element, pad)) = cut(word, '.') else {
        return Err(WordFault::Misspelt);
    };
    if !is_run(Class::Name, element) {
        return Err(WordFault::Misspelt);
    }
    if !is_run(Class::Name, pad) {
        return Err(WordFault::Misspelt);
    }
    let element = Text::from_str(alloc, element)?;
    let pad = Text::from_str(alloc, pad)?;
    Ok(PadName { element, pad })
}
