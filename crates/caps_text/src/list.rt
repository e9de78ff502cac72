//! Values: single ones, ranges and lists.
ghost use Rattle.std.specs.Prelude.{◌≡◌, ◌≤◌, ℕ, List, length};
ghost use Rattle.std.specs.List.{list_any};
ghost use Rattle.gst_caps.specs.Common.{as_value};
ghost use Rattle.gst_value.specs.Common.{same};
ghost use Rattle.caps_text.specs.Answers.{Gives, Reads};
ghost use Rattle.caps_text.specs.Reading.{again, kept_member, list_step, next, read_list, read_members, read_type, read_value, read_whole_member, read_whole_value, within_limit};

use crate::fault::{Misspelt, Refusal};
use crate::kind::{Kind, kind_of, read_kind};
use crate::scanner::Scanner;
use crate::single::read_member;
use gst_caps::Value;
use gst_value::{List, One};
use std::alloc::Global;

/// The most members of a list.
const LIMIT: usize = 64;

/// Whether two values or ranges are equal.
fn is_same(one: &One, other: &One) -> bool
    ensures { result ≡ same one.now other.now }
{
    match (one, other) {
        (One::Int(number), One::Int(wanted)) => number == wanted,
        (One::Bool(truth), One::Bool(wanted)) => truth == wanted,
        (One::Text(text), One::Text(wanted)) => text.as_str() == wanted.as_str(),
        (One::Fraction(num, den), One::Fraction(above, below)) => num == above && den == below,
        (One::IntRange(low, high), One::IntRange(least, most)) => low == least && high == most,
        _ => false,
    }
}

/// Whether one of the members is equal.
fn has_equal(members: &[One], one: &One) -> bool
    ensures { result ≡ list_any (λ known. same known one.now) members.now }
{
    members.iter().any(|known| is_same(known, one))
}

/// Puts a member behind the others where none of them is equal.
fn add_member(members: &mut Vec<One>, member: One) -> Result<(), Refusal>
    requires { length members.old.items ≤ 64 }
    ensures { (rest : List ℕ) → Gives (λ _. again members.new.items) result rest (within_limit (kept_member members.old.items member) rest) }
{
    if has_equal(members.as_slice(), &member) {
        return Ok(());
    }
    if members.len() >= LIMIT {
        return Err(Refusal::TooMany);
    }
    members.push(member)?;
    Ok(())
}

/// The members as a value: a single one stands alone.
fn as_value(mut members: Vec<One>) -> Value
    ensures { result ≡ as_value members.items }
{
    if members.len() == 1 {
        if let Some(member) = members.pop() {
            return Value::One(member);
        }
    }
    Value::Many(List::from_vec(members))
}

/// Reads a member behind which no byte of a word stands.
#[tactic(auto, unfolding(crate::specs::Reading::read_whole_member))]
fn read_whole_member(
    scanner: &mut Scanner<'_>,
    alloc: Global,
    kind: Option<Kind>,
) -> Result<One, Refusal>
    ensures { Gives (λ x. x) result scanner.new.rest.now (read_whole_member kind scanner.old.rest.now) }
{
    let member = read_member(scanner, alloc, kind)?;
    scanner.end_word()?;
    Ok(member)
}

/// Reads the end of a list, or a comma and a member. Says whether it was the end.
#[tactic(auto, unfolding(crate::specs::Reading::list_step))]
fn list_step(
    scanner: &mut Scanner<'_>,
    alloc: Global,
    kind: Kind,
    members: &mut Vec<One>,
) -> Result<bool, Refusal>
    requires { length members.old.items ≤ 64 }
    ensures { Gives (λ closed. next closed members.new.items) result scanner.new.rest.now (list_step kind members.old.items scanner.old.rest.now) }
{
    scanner.skip_spaces();
    if scanner.takes('}') {
        return Ok(true);
    }
    scanner.expect(',')?;
    scanner.skip_spaces();
    let member = read_whole_member(scanner, alloc, Some(kind))?;
    add_member(members, member)?;
    Ok(false)
}

/// Reads what stands behind the first member of a list, up to its closing bracket.
#[tactic(auto, unfolding(crate::specs::Reading::read_members))]
fn read_members(scanner: &mut Scanner<'_>, alloc: Global, first: One) -> Result<Vec<One>, Refusal>
    ensures { Gives (λ x. x.items) result scanner.new.rest.now (read_members first scanner.old.rest.now) }
{
    let kind = kind_of(&first);
    let mut members = Vec::new(alloc);
    members.push(first)?;
    loop {
        match list_step(scanner, alloc, kind, &mut members) {
            Ok(true) => return Ok(members),
            Ok(false) => {}
            Err(refusal) => return Err(refusal),
        }
    }
}

/// Reads a list behind its opening bracket.
#[tactic(auto, unfolding(crate::specs::Reading::read_list))]
fn read_list(scanner: &mut Scanner<'_>, alloc: Global, kind: Option<Kind>) -> Result<Value, Refusal>
    ensures { Gives (λ x. x) result scanner.new.rest.now (read_list kind scanner.old.rest.now) }
{
    scanner.skip_spaces();
    let first = read_member(scanner, alloc, kind)?;
    Ok(as_value(read_members(scanner, alloc, first)?))
}

/// Reads the type of a value, where one stands there.
#[tactic(auto, unfolding(crate::specs::Reading::read_type))]
fn read_type(scanner: &mut Scanner<'_>) -> Result<Option<Kind>, Misspelt>
    ensures { Reads (λ x. x) result scanner.new.rest.now (read_type scanner.old.rest.now) }
{
    if !scanner.begins(b'(') {
        return Ok(None);
    }
    let kind = read_kind(scanner)?;
    scanner.skip_spaces();
    Ok(Some(kind))
}

/// Reads a value with or without type.
#[tactic(auto, unfolding(crate::specs::Reading::read_value))]
pub(crate) fn read_value(scanner: &mut Scanner<'_>, alloc: Global) -> Result<Value, Refusal>
    ensures { Gives (λ x. x) result scanner.new.rest.now (read_value scanner.old.rest.now) }
{
    let kind = read_type(scanner)?;
    if scanner.takes('{') {
        return read_list(scanner, alloc, kind);
    }
    Ok(Value::One(read_member(scanner, alloc, kind)?))
}

/// Reads a value behind which no byte of a word stands.
#[tactic(auto, unfolding(crate::specs::Reading::read_whole_value))]
pub(crate) fn read_whole_value(scanner: &mut Scanner<'_>, alloc: Global) -> Result<Value, Refusal>
    ensures { Gives (λ x. x) result scanner.new.rest.now (read_whole_value scanner.old.rest.now) }
{
    let value = read_value(scanner, alloc)?;
    scanner.end_word()?;
    Ok(value)
}
