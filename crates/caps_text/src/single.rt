//! Single values and ranges.
ghost use Rattle.std.specs.Prelude.{◌≡◌, ℕ, List, false, []};
ghost use Rattle.caps_text.specs.Answers.{Gives, Reads, found};
ghost use Rattle.caps_text.specs.Reading.{judge, judge_words, range, read_member, read_quoted, read_range, read_single, read_string, read_truth, read_untyped, takes_ranges};

use crate::class::Class;
use crate::fault::{Misspelt, Refusal};
use crate::kind::Kind;
use crate::number::{
    Wanted, ratio, read_any, read_fraction, read_number, whole_number, whole_pair,
};
use crate::scanner::Scanner;
use gst_value::{One, Text};
use std::alloc::Global;

/// Reads `true` or `false`.
#[tactic(auto, unfolding(crate::specs::Reading::read_truth))]
fn read_truth(scanner: &mut Scanner<'_>) -> Result<bool, Misspelt>
    ensures { Reads (λ x. x) result scanner.new.rest.now (read_truth scanner.old.rest.now) }
{
    if scanner.begins(b't') {
        scanner.word("true")?;
        return Ok(true);
    }
    scanner.word("false")?;
    Ok(false)
}

/// Reads the characters behind a double quote, up to the next one. A backslash takes the next character as it is.
fn read_quoted(scanner: &mut Scanner<'_>, alloc: Global) -> Result<Text, Refusal>
    ensures { Gives (λ x. x) result scanner.new.rest.now (read_quoted false [] scanner.old.rest.now) }
{
    let mut characters = String::new(alloc);
    while let Some(next) = scanner.take() {
        match next {
            '"' => return Ok(Text::from_string(characters)),
            '\\' => match scanner.take() {
                Some(escaped) => characters.push(escaped)?,
                None => return Err(Refusal::Misspelt),
            },
            _ => characters.push(next)?,
        }
    }
    Err(Refusal::Misspelt)
}

/// Reads a string.
#[tactic(auto, unfolding(crate::specs::Reading::read_string))]
fn read_string(scanner: &mut Scanner<'_>, alloc: Global) -> Result<Text, Refusal>
    ensures { Gives (λ x. x) result scanner.new.rest.now (read_string scanner.old.rest.now) }
{
    if scanner.takes('"') {
        return read_quoted(scanner, alloc);
    }
    let word = scanner.some_run(Class::Word)?;
    Ok(Text::from_str(alloc, word)?)
}

/// What a value without type and quotes is that is no number: a truth value, or else a string.
fn judge_words(alloc: Global, word: &str) -> Result<One, Refusal>
    ensures { (rest : List ℕ) → Gives (λ x. x) result rest (found (Some (judge_words word.now)) rest) }
{
    match word {
        "true" => Ok(One::Bool(true)),
        "false" => Ok(One::Bool(false)),
        _ => Ok(One::Text(Text::from_str(alloc, word)?)),
    }
}

/// What a value without type and quotes is: a number, a fraction, a truth value, or else a string.
#[tactic(auto, unfolding(crate::specs::Reading::judge))]
fn judge(alloc: Global, word: &str) -> Result<One, Refusal>
    ensures { (rest : List ℕ) → Gives (λ x. x) result rest (found (judge word.now) rest) }
{
    if let Some(number) = whole_number(word) {
        return Ok(One::Int(number));
    }
    if let Some((num, den)) = whole_pair(word) {
        return ratio(num, den).ok_or(Refusal::Misspelt);
    }
    judge_words(alloc, word)
}

/// Reads a value without type.
#[tactic(auto, unfolding(crate::specs::Reading::read_untyped))]
fn read_untyped(scanner: &mut Scanner<'_>, alloc: Global) -> Result<One, Refusal>
    ensures { Gives (λ x. x) result scanner.new.rest.now (read_untyped scanner.old.rest.now) }
{
    if scanner.takes('"') {
        return Ok(One::Text(read_quoted(scanner, alloc)?));
    }
    let word = scanner.some_run(Class::Word)?;
    judge(alloc, word)
}

/// Reads a single value of this type, or of the type that it reads as.
#[tactic(auto, unfolding(crate::specs::Reading::read_single))]
fn read_single(scanner: &mut Scanner<'_>, alloc: Global, kind: Option<Kind>) -> Result<One, Refusal>
    ensures { Gives (λ x. x) result scanner.new.rest.now (read_single kind scanner.old.rest.now) }
{
    match kind {
        None => read_untyped(scanner, alloc),
        Some(Kind::Int) => Ok(One::Int(read_any(scanner)?)),
        Some(Kind::Text) => Ok(One::Text(read_string(scanner, alloc)?)),
        Some(Kind::Bool) => Ok(One::Bool(read_truth(scanner)?)),
        Some(Kind::Fraction) => Ok(read_fraction(scanner)?),
    }
}

/// The range with these ends; one number where they are equal.
fn range(low: i32, high: i32) -> One
    ensures { result ≡ range low high }
{
    if low == high {
        One::Int(low)
    } else {
        One::IntRange(low, high)
    }
}

/// Reads a range behind its opening bracket.
#[tactic(auto, unfolding(crate::specs::Reading::read_range))]
fn read_range(scanner: &mut Scanner<'_>) -> Result<One, Misspelt>
    ensures { Reads (λ x. x) result scanner.new.rest.now (read_range scanner.old.rest.now) }
{
    scanner.skip_spaces();
    let low = read_any(scanner)?;
    scanner.mark(',')?;
    let high = read_number(scanner, Wanted::AtLeast(low))?;
    scanner.skip_spaces();
    scanner.expect(']')?;
    Ok(range(low, high))
}

/// Whether a range may stand for a value of this type.
fn takes_ranges(kind: Option<Kind>) -> bool
    ensures { result ≡ takes_ranges kind }
{
    matches!(kind, None | Some(Kind::Int))
}

/// Reads a single value or a range.
#[tactic(auto, unfolding(crate::specs::Reading::read_member))]
pub(crate) fn read_member(
    scanner: &mut Scanner<'_>,
    alloc: Global,
    kind: Option<Kind>,
) -> Result<One, Refusal>
    ensures { Gives (λ x. x) result scanner.new.rest.now (read_member kind scanner.old.rest.now) }
{
    if takes_ranges(kind) {
        if scanner.takes('[') {
            return Ok(read_range(scanner)?);
        }
    }
    read_single(scanner, alloc, kind)
}
