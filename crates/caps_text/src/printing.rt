//! Writes caps.
ghost use Rattle.std.specs.Prelude.{◌≡◌, ◌++◌, ◌∷◌, [], codes, slice_get, IfOk, OnOk};
ghost use Rattle.std.specs.String.{string_bytes};
ghost use Rattle.std.specs.Char.{encode_utf8};
ghost use Rattle.std.specs.List.{list_all};
ghost use Rattle.caps_text.specs.Bytes.{in_class, is_word};
ghost use Rattle.caps_text.specs.Printed.{caps_text, escaped, joined, one_text, string_text, structure_text, text_at, typed_text, value_text};

use crate::class::Class;
use crate::kind::{kind_of, word_of};
use crate::scanner::Scanner;
use gst_caps::{Caps, Structure, Value};
use gst_value::{Fixed, One, OutOfMemory, Text};
use std::alloc::Global;
use std::fmt::Write;

/// Whether each byte is one of a value without quotes.
fn has_word_bytes(text: &str) -> bool
    ensures { result ≡ list_all (in_class Class.Word) text.now }
{
    text.bytes().all(|byte| Class::Word.holds(byte))
}

/// Whether a string stands without quotes: it is not empty, and each byte of it is one of a word.
fn is_word(text: &str) -> bool
    ensures { result ≡ is_word text.now }
{
    !text.is_empty() && has_word_bytes(text)
}

/// Writes a character of a quoted string: a double quote and a backslash have a backslash before them.
fn put_character(into: &mut String, character: char) -> Result<(), OutOfMemory>
    ensures { OnOk result (string_bytes into.new ≡ string_bytes into.old ++ escaped (encode_utf8 character)) }
{
    if character == '"' {
        into.push_str("\\\"")?;
        return Ok(());
    }
    if character == '\\' {
        into.push_str("\\\\")?;
        return Ok(());
    }
    into.push(character)?;
    Ok(())
}

/// Writes a string in double quotes.
fn put_quoted(into: &mut String, text: &str) -> Result<(), OutOfMemory>
    ensures { OnOk result (string_bytes into.new ≡ string_bytes into.old ++ (34 ∷ (escaped text.now ++ 34 ∷ []))) }
{
    into.push('"')?;
    let mut scanner = Scanner::new(text);
    while let Some(character) = scanner.take() {
        put_character(into, character)?;
    }
    into.push('"')?;
    Ok(())
}

/// Writes a string.
fn put_string(into: &mut String, text: &str) -> Result<(), OutOfMemory>
    ensures { OnOk result (string_bytes into.new ≡ string_bytes into.old ++ string_text text.now) }
{
    if is_word(text) {
        into.push_str(text)?;
        Ok(())
    } else {
        put_quoted(into, text)
    }
}

/// Writes a single value or a range.
fn put_one(into: &mut String, one: &One) -> Result<(), OutOfMemory>
    ensures { OnOk result (string_bytes into.new ≡ string_bytes into.old ++ one_text one.now) }
{
    match one {
        One::Int(number) => write!(into, "{number}")?,
        One::Bool(truth) => write!(into, "{truth}")?,
        One::Text(text) => put_string(into, text.as_str())?,
        One::Fraction(num, den) => write!(into, "{num}/{den}")?,
        One::IntRange(low, high) => write!(into, "[ {low}, {high} ]")?,
    }
    Ok(())
}

/// Writes the members of a list with commas between.
fn put_members(into: &mut String, members: &[One]) -> Result<(), OutOfMemory>
    ensures { OnOk result (string_bytes into.new ≡ string_bytes into.old ++ joined (codes ", ") one_text members.now) }
{
    let Some((first, others)) = members.split_first() else {
        return Ok(());
    };
    put_one(into, first)?;
    for other in others {
        into.push_str(", ")?;
        put_one(into, other)?;
    }
    Ok(())
}

/// Writes a value with its type.
fn put_typed(into: &mut String, one: &One) -> Result<(), OutOfMemory>
    ensures { OnOk result (string_bytes into.new ≡ string_bytes into.old ++ typed_text one.now) }
{
    into.push_str(word_of(kind_of(one)))?;
    put_one(into, one)
}

/// Writes a list with the type of its first member.
fn put_list(into: &mut String, members: &[One]) -> Result<(), OutOfMemory>
    ensures { OnOk result (string_bytes into.new ≡ string_bytes into.old ++ value_text (Value.Many members.now)) }
{
    if let Some(first) = members.first() {
        into.push_str(word_of(kind_of(first)))?;
    }
    into.push_str("{ ")?;
    put_members(into, members)?;
    into.push_str(" }")?;
    Ok(())
}

/// Writes a value or list with its type.
fn put_value(into: &mut String, value: &Value) -> Result<(), OutOfMemory>
    ensures { OnOk result (string_bytes into.new ≡ string_bytes into.old ++ value_text value.now) }
{
    match value {
        Value::One(one) => put_typed(into, one),
        Value::Many(members) => put_list(into, members.as_slice()),
    }
}

/// Writes what stands before a field's value.
fn put_name(into: &mut String, name: &str) -> Result<(), OutOfMemory>
    ensures { OnOk result (string_bytes into.new ≡ string_bytes into.old ++ (codes ", " ++ name.now ++ codes "=")) }
{
    into.push_str(", ")?;
    into.push_str(name)?;
    into.push_str("=")?;
    Ok(())
}

/// Writes the field at this place.
fn put_field(into: &mut String, structure: &Structure, place: u32) -> Result<(), OutOfMemory>
    ensures { OnOk result (string_bytes into.new ≡ string_bytes into.old ++ text_at value_text (slice_get structure.now.fields place)) }
{
    match structure.field(place) {
        Some((name, value)) => {
            put_name(into, name)?;
            put_value(into, value)
        }
        None => Ok(()),
    }
}

/// Writes a structure: its media type and its fields in the order of their names.
fn put_structure(into: &mut String, structure: &Structure) -> Result<(), OutOfMemory>
    ensures { OnOk result (string_bytes into.new ≡ string_bytes into.old ++ structure_text value_text structure.now) }
{
    into.push_str(structure.media())?;
    for place in 0..structure.fields() {
        put_field(into, structure, place)?;
    }
    Ok(())
}

/// Writes structures with `; ` between.
fn put_structures(into: &mut String, structures: &[Structure]) -> Result<(), OutOfMemory>
    ensures { OnOk result (string_bytes into.new ≡ string_bytes into.old ++ joined (codes "; ") (structure_text value_text) structures.now) }
{
    let Some((first, others)) = structures.split_first() else {
        return Ok(());
    };
    put_structure(into, first)?;
    for other in others {
        into.push_str("; ")?;
        put_structure(into, other)?;
    }
    Ok(())
}

/// The text of caps: `ANY`, `EMPTY`, or the structures with `; ` between. Each has its media type and then, in the
/// order of names, its fields as `, name=(type)value`.
pub fn print(alloc: Global, caps: &Caps) -> Result<Text, OutOfMemory>
    ensures { IfOk result (λ text. text ≡ caps_text caps.now) }
{
    let Caps::Of(structures) = caps else {
        return Text::from_str(alloc, "ANY");
    };
    if structures.as_slice().is_empty() {
        return Text::from_str(alloc, "EMPTY");
    }
    let mut into = String::new(alloc);
    put_structures(&mut into, structures.as_slice())?;
    Ok(Text::from_string(into))
}

/// Writes the field at this place.
fn put_fixed_field(into: &mut String, caps: &Fixed, place: u32) -> Result<(), OutOfMemory>
    ensures { OnOk result (string_bytes into.new ≡ string_bytes into.old ++ text_at typed_text (slice_get caps.now.fields place)) }
{
    match caps.field(place) {
        Some((name, one)) => {
            put_name(into, name)?;
            put_typed(into, one)
        }
        None => Ok(()),
    }
}

/// The text of fixed caps: the media type and then, in the order of names, the fields as `, name=(type)value`.
pub fn print_fixed(alloc: Global, caps: &Fixed) -> Result<Text, OutOfMemory>
    ensures { IfOk result (λ text. text ≡ structure_text typed_text caps.now) }
{
    let mut into = String::new(alloc);
    into.push_str(caps.media())?;
    for place in 0..caps.fields() {
        put_fixed_field(&mut into, caps, place)?;
    }
    Ok(Text::from_string(into))
}
