//! What a command does.
ghost use Rattle.std.specs.Prelude.{◌≡◌, Some};
ghost use Rattle.std.specs.Option.{option_map};
ghost use Rattle.text_words.specs.Left.{left};
ghost use Rattle.text_words.specs.Values.{Gives};
ghost use Rattle.script_text.specs.Commands.{act_of, add_of, has_name, is_pad_act, only, props_of, relink_of, remove_of, unlink_of};

use crate::command::Act;
use gst_value::{List, Prop, Text};
use std::alloc::Global;
use text_words::{Class, WordFault, Words, is_run, read_pad, read_prop};

/// The one word that is left.
fn only_word<'a>(words: &mut Words<'a>) -> Option<&'a str>
    ensures { only (left words.old) ≡ option_map (λ word. word.now) result }
{
    let word = words.take()?;
    if words.take().is_some() {
        return None;
    }
    Some(word)
}

/// What stands behind `relink`: the sink pad.
fn read_relink(alloc: Global, words: &mut Words<'_>) -> Result<Act, WordFault>
    ensures { Gives (λ act. act) result (relink_of (left words.old)) }
{
    let Some(word) = only_word(words) else {
        return Err(WordFault::Misspelt);
    };
    let sink = read_pad(alloc, word)?;
    Ok(Act::Relink { sink })
}

/// What stands behind `unlink`: nothing or `eos`.
fn read_unlink(words: &mut Words<'_>) -> Result<Act, WordFault>
    ensures { Gives (λ act. act) result (unlink_of (left words.old)) }
{
    let Some(word) = words.take() else {
        return Ok(Act::Unlink { eos: false });
    };
    if word != "eos" {
        return Err(WordFault::Misspelt);
    }
    if words.take().is_some() {
        return Err(WordFault::Misspelt);
    }
    Ok(Act::Unlink { eos: true })
}

/// The properties that all words which are left say.
fn read_props(alloc: Global, words: &mut Words<'_>) -> Result<List<Prop>, WordFault>
    ensures { Gives (λ props. props) result (props_of (left words.old)) }
{
    let mut props = List::new(alloc);
    while let Some(word) = words.take() {
        let prop = read_prop(alloc, word)?;
        props.push(alloc, prop)?;
    }
    Ok(props)
}

/// Whether one of the properties is a name.
fn has_name(props: &[Prop]) -> bool
    ensures { result ≡ has_name props.now }
{
    props.iter().any(|prop| prop.name.as_str() == "name")
}

/// What stands behind `add`: a kind and properties, of which one is a name.
fn read_add(alloc: Global, words: &mut Words<'_>) -> Result<Act, WordFault>
    ensures { Gives (λ act. act) result (add_of (left words.old)) }
{
    let Some(kind) = words.take() else {
        return Err(WordFault::Misspelt);
    };
    if !is_run(Class::Kind, kind) {
        return Err(WordFault::Misspelt);
    }
    let props = read_props(alloc, words)?;
    if !has_name(props.as_slice()) {
        return Err(WordFault::Misspelt);
    }
    let kind = Text::from_str(alloc, kind)?;
    Ok(Act::Add { kind, props })
}

/// What stands behind `remove`: the name of an element.
fn read_remove(alloc: Global, words: &mut Words<'_>) -> Result<Act, WordFault>
    ensures { Gives (λ act. act) result (remove_of (left words.old)) }
{
    let Some(word) = only_word(words) else {
        return Err(WordFault::Misspelt);
    };
    if !is_run(Class::Name, word) {
        return Err(WordFault::Misspelt);
    }
    let element = Text::from_str(alloc, word)?;
    Ok(Act::Remove { element })
}

/// What a command does, which the words say that are left.
#[tactic(auto, unfolding(crate::specs::Commands::act_of))]
pub(crate) fn read_act(alloc: Global, words: &mut Words<'_>) -> Result<Act, WordFault>
    ensures { Gives (λ act. act) result (act_of (left words.old)) }
{
    let Some(word) = words.take() else {
        return Err(WordFault::Misspelt);
    };
    match word {
        "relink" => read_relink(alloc, words),
        "unlink" => read_unlink(words),
        "add" => read_add(alloc, words),
        "remove" => read_remove(alloc, words),
        _ => Err(WordFault::Misspelt),
    }
}

impl Act {
    /// Whether the act is done at a pad.
    pub(crate) fn is_at_pad(&self) -> bool
        ensures { result ≡ is_pad_act self.now }
    {
        match self {
            Act::Relink { .. } | Act::Unlink { .. } => true,
            Act::Add { .. } | Act::Remove { .. } => false,
        }
    }
}
