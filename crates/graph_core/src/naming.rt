//! The names of elements.
ghost use Rattle.std.specs.Prelude.{◌≡◌, ◌++◌, IfOk, OnOk, string_bytes};
ghost use Rattle.std.specs.Option.{option_map};
ghost use Rattle.graph_core.specs.Elements.{all_made, given_name, made_name, name_of, without_dashes};

use crate::elements::Elements;
use gst_value::{OutOfMemory, Prop};
use std::alloc::Global;
use std::fmt::Write;

/// The name that properties give. The last one counts.
pub(crate) fn given_name(props: &[Prop]) -> Option<&str>
    ensures { option_map (λ text. text.now) result ≡ given_name props.now }
{
    let mut found = None;
    for prop in props {
        if prop.name.as_str() == "name" {
            found = Some(prop.value.as_str());
        }
    }
    found
}

/// The name of an element behind others: the one that is given, or else one that is made of its kind.
pub(crate) fn name_for(
    alloc: Global,
    before: &Elements,
    kind: &str,
    props: &[Prop],
) -> Result<String, OutOfMemory>
    ensures { IfOk result (λ name. string_bytes name ≡ name_of (all_made before.now) (record { kind = kind.now; props = props.now })) }
{
    match given_name(props) {
        Some(name) => Ok(String::from_str(alloc, name)?),
        None => made_name(alloc, kind, before.count_numbered(kind)),
    }
}

/// The name that is made of a kind and a number.
fn made_name(alloc: Global, kind: &str, number: u32) -> Result<String, OutOfMemory>
    ensures { IfOk result (λ name. string_bytes name ≡ made_name kind.now number) }
{
    let mut name = String::new(alloc);
    put_without_dashes(&mut name, kind)?;
    write!(name, "{number}")?;
    Ok(name)
}

/// Puts a text, but for its dashes.
fn put_without_dashes(into: &mut String, text: &str) -> Result<(), OutOfMemory>
    ensures { OnOk result (string_bytes into.new ≡ string_bytes into.old ++ without_dashes text.now) }
{
    let mut rest = text;
    while let Some((before, after)) = rest.split_once('-') {
        into.push_str(before)?;
        rest = after;
    }
    into.push_str(rest)?;
    Ok(())
}
