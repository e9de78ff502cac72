//! The types of values, and the words for them.
ghost use Rattle.std.specs.Prelude.{◌≡◌};
ghost use Rattle.caps_text.specs.Answers.{Reads};
ghost use Rattle.caps_text.specs.Kinds.{kind_of, kind_text};
ghost use Rattle.caps_text.specs.Reading.{read_kind, read_kind_word};

use crate::fault::Misspelt;
use crate::scanner::Scanner;
use gst_value::One;

/// The type of a value. A range is of the type of its numbers.
#[derive(Clone, Copy)]
pub(crate) enum Kind {
    Int,
    Text,
    Bool,
    Fraction,
}

/// The type of a value or range.
pub(crate) fn kind_of(one: &One) -> Kind
    ensures { result ≡ kind_of one.now }
{
    match one {
        One::Int(_) | One::IntRange(_, _) => Kind::Int,
        One::Text(_) => Kind::Text,
        One::Bool(_) => Kind::Bool,
        One::Fraction(_, _) => Kind::Fraction,
    }
}

/// The word of a type, with its brackets.
pub(crate) fn word_of(kind: Kind) -> &'static str
    ensures { result.now ≡ kind_text kind }
{
    match kind {
        Kind::Int => "(int)",
        Kind::Text => "(string)",
        Kind::Bool => "(boolean)",
        Kind::Fraction => "(fraction)",
    }
}

/// Reads the word of a type behind its opening bracket.
#[tactic(auto, unfolding(crate::specs::Reading::read_kind_word))]
fn read_kind_word(scanner: &mut Scanner<'_>) -> Result<Kind, Misspelt>
    ensures { Reads (λ x. x) result scanner.new.rest.now (read_kind_word scanner.old.rest.now) }
{
    if scanner.begins(b'i') {
        scanner.word("int)")?;
        return Ok(Kind::Int);
    }
    if scanner.begins(b's') {
        scanner.word("string)")?;
        return Ok(Kind::Text);
    }
    if scanner.begins(b'b') {
        scanner.word("boolean)")?;
        return Ok(Kind::Bool);
    }
    scanner.word("fraction)")?;
    Ok(Kind::Fraction)
}

/// Reads the word of a type.
#[tactic(auto, unfolding(crate::specs::Reading::read_kind))]
pub(crate) fn read_kind(scanner: &mut Scanner<'_>) -> Result<Kind, Misspelt>
    ensures { Reads (λ x. x) result scanner.new.rest.now (read_kind scanner.old.rest.now) }
{
    scanner.expect('(')?;
    read_kind_word(scanner)
}
