//! Structures and caps.
ghost use Rattle.std.specs.Prelude.{◌≡◌, ℕ, List as Items, is_some, slice_get};
ghost use Rattle.gst_caps.specs.Accepts.{value_at};
ghost use Rattle.caps_text.specs.Answers.{Gives, Reads};
ghost use Rattle.caps_text.specs.Reading.{again, few_structures, names, read_field, read_head, read_media, read_more, read_name, read_structures};

use crate::class::{Class, is_letter};
use crate::fault::{Misspelt, Refusal};
use crate::list::read_whole_value;
use crate::scanner::Scanner;
use gst_caps::Structure;
use gst_value::{List, Text};
use std::alloc::Global;

/// The most structures of caps.
const LIMIT: usize = 64;

/// Reads a media type: two names with `/` between.
#[tactic(auto, unfolding(crate::specs::Reading::read_media))]
fn read_media(scanner: &mut Scanner<'_>, alloc: Global) -> Result<Text, Refusal>
    ensures { Gives (λ x. x) result scanner.new.rest.now (read_media scanner.old.rest.now) }
{
    let above = scanner.some_run(Class::Media)?;
    scanner.expect('/')?;
    let below = scanner.some_run(Class::Media)?;
    let mut media = Text::from_str(alloc, above)?;
    media.push_str(alloc, "/")?;
    media.push_str(alloc, below)?;
    Ok(media)
}

/// Whether the field at this place has this name.
fn is_named(structure: &Structure, place: u32, name: &str) -> bool
    ensures { result ≡ names name.now (slice_get structure.now.fields place) }
{
    match structure.field(place) {
        Some((known, _)) => known == name,
        None => false,
    }
}

/// Whether the structure has a field of this name.
fn has_field(structure: &Structure, name: &str) -> bool
    ensures { result ≡ is_some (value_at name.now structure.now.fields) }
{
    for place in 0..structure.fields() {
        if is_named(structure, place, name) {
            return true;
        }
    }
    false
}

/// Reads the name of a field, which begins with a letter.
#[tactic(auto, unfolding(crate::specs::Reading::read_name))]
fn read_name<'a>(scanner: &mut Scanner<'a>) -> Result<&'a str, Misspelt>
    ensures { Reads (λ x. x.now) result scanner.new.rest.now (read_name scanner.old.rest.now) }
{
    match scanner.rest.as_bytes().first() {
        Some(byte) if is_letter(*byte) => Ok(scanner.run(Class::Name)),
        _ => Err(Misspelt),
    }
}

/// Reads a field whose name the structure does not have.
#[tactic(auto, unfolding(crate::specs::Reading::read_field))]
fn read_field(
    scanner: &mut Scanner<'_>,
    alloc: Global,
    structure: &mut Structure,
) -> Result<(), Refusal>
    ensures { Gives (λ _. structure.new) result scanner.new.rest.now (read_field structure.old scanner.old.rest.now) }
{
    let name = read_name(scanner)?;
    if has_field(structure, name) {
        return Err(Refusal::Misspelt);
    }
    scanner.mark('=')?;
    let value = read_whole_value(scanner, alloc)?;
    structure.set(alloc, name, value)?;
    Ok(())
}

/// Reads a structure's media type.
#[tactic(auto, unfolding(crate::specs::Reading::read_head))]
fn read_head(scanner: &mut Scanner<'_>, alloc: Global) -> Result<Structure, Refusal>
    ensures { Gives (λ x. x) result scanner.new.rest.now (read_head scanner.old.rest.now) }
{
    let media = read_media(scanner, alloc)?;
    Ok(Structure::new(alloc, media.as_str())?)
}

/// The structures that are whole, and the one that is being read.
#[derive(Drop)]
struct Made {
    whole: List<Structure>,
    structure: Structure,
}

impl Made {
    /// The structures with the last one, which is whole now.
    fn finish(self, alloc: Global) -> Result<List<Structure>, Refusal>
        ensures { (rest : Items ℕ) → Gives (λ x. x) result rest (few_structures (self.whole, self.structure) rest) }
    {
        let Made {
            mut whole,
            structure,
        } = self;
        if whole.as_slice().len() >= LIMIT {
            return Err(Refusal::TooMany);
        }
        whole.push(alloc, structure)?;
        Ok(whole)
    }
}

/// Reads a comma and a field, or a semicolon and a structure.
#[tactic(auto, unfolding(crate::specs::Reading::read_more))]
fn read_more(scanner: &mut Scanner<'_>, alloc: Global, made: Made) -> Result<Made, Refusal>
    ensures { Gives (λ m. again (m.whole, m.structure)) result scanner.new.rest.now (read_more (made.whole, made.structure) scanner.old.rest.now) }
{
    scanner.skip_spaces();
    if scanner.takes(',') {
        scanner.skip_spaces();
        let Made {
            whole,
            mut structure,
        } = made;
        read_field(scanner, alloc, &mut structure)?;
        return Ok(Made { whole, structure });
    }
    scanner.expect(';')?;
    let whole = made.finish(alloc)?;
    scanner.skip_spaces();
    let structure = read_head(scanner, alloc)?;
    Ok(Made { whole, structure })
}

/// Reads structures up to the end of the text.
#[tactic(auto, unfolding(crate::specs::Reading::read_structures))]
pub(crate) fn read_structures(
    scanner: &mut Scanner<'_>,
    alloc: Global,
) -> Result<List<Structure>, Refusal>
    ensures { Gives (λ x. x) result scanner.new.rest.now (read_structures scanner.old.rest.now) }
{
    let structure = read_head(scanner, alloc)?;
    let mut made = Made {
        whole: List::new(alloc),
        structure,
    };
    while !scanner.is_at_end() {
        match read_more(scanner, alloc, made) {
            Ok(more) => made = more,
            Err(refusal) => return Err(refusal),
        }
    }
    made.finish(alloc)
}
