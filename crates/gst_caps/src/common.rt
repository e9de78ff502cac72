//! What two values have in common.
ghost use Rattle.std.specs.Prelude.{◌≡◌, ◌<◌, ◌≤◌, ◌∷◌, [], length, IfOk, OnOk};
ghost use Rattle.std.specs.List.{filter_map, list_any};
ghost use Rattle.std.specs.Option.{option_to_list};
ghost use Rattle.gst_caps.specs.Common.{as_value, common, members};
ghost use Rattle.gst_value.specs.Common.{common_one, same};
ghost use Rattle.gst_value.specs.Limit.{TooManyWhere};
ghost use Rattle.gst_value.specs.Kept.{kept};

use crate::value::Value;
use gst_value::field::LIMIT;
use gst_value::{CapsFault, List, One};
use std::alloc::Global;

/// Whether one of the members is equal.
fn has_equal(members: &[One], one: &One) -> bool
    ensures { result ≡ list_any (λ known. same known one.now) members.now }
{
    members.iter().any(|known| known.is_same(one))
}

/// Puts a member behind the others where none of them is equal.
fn add_member(members: &mut Vec<One>, member: One) -> Result<(), CapsFault>
    requires { length members.old.items ≤ 64 }
    ensures ok { OnOk result (members.new.items ≡ kept members.old.items (member ∷ [])) }
    ensures few { OnOk result (length members.new.items ≤ 64) }
    ensures too_many { TooManyWhere result (64 < length (kept members.old.items (member ∷ []))) }
{
    if has_equal(members.as_slice(), &member) {
        return Ok(());
    }
    if members.len() >= LIMIT {
        return Err(CapsFault::TooMany { count: 65 });
    }
    members.push(member)?;
    Ok(())
}

/// Puts what was found behind the members where none of them is equal.
fn add_found(members: &mut Vec<One>, found: Option<One>) -> Result<(), CapsFault>
    requires { length members.old.items ≤ 64 }
    ensures ok { OnOk result (members.new.items ≡ kept members.old.items (option_to_list found)) }
    ensures few { OnOk result (length members.new.items ≤ 64) }
    ensures too_many { TooManyWhere result (64 < length (kept members.old.items (option_to_list found))) }
{
    match found {
        None => Ok(()),
        Some(member) => add_member(members, member),
    }
}

/// Puts behind the members what one has in common with each of the others, equal ones once.
fn add_commons(
    alloc: Global,
    members: &mut Vec<One>,
    one: &One,
    others: &[One],
) -> Result<(), CapsFault>
    requires { length members.old.items ≤ 64 }
    ensures ok { OnOk result (members.new.items ≡ kept members.old.items (filter_map (common_one one.now) others.now)) }
    ensures few { OnOk result (length members.new.items ≤ 64) }
    ensures too_many { TooManyWhere result (64 < length (kept members.old.items (filter_map (common_one one.now) others.now))) }
{
    for other in others {
        let found = one.common(alloc, other)?;
        add_found(members, found)?;
    }
    Ok(())
}

/// The common members of two values, equal ones once.
fn common_members(alloc: Global, value: &Value, other: &Value) -> Result<Vec<One>, CapsFault>
    ensures ok { IfOk result (λ made. made.items ≡ common value.now other.now) }
    ensures few { IfOk result (λ made. length made.items ≤ 64) }
    ensures too_many { TooManyWhere result (64 < length (common value.now other.now)) }
{
    let mut made = Vec::new(alloc);
    let others = other.members();
    for member in value.members() {
        add_commons(alloc, &mut made, member, others)?;
    }
    Ok(made)
}

/// The members as a value: a single one stands alone.
fn as_value(mut members: Vec<One>) -> Value
    ensures { result ≡ as_value members.items }
{
    if members.len() == 1 {
        if let Some(member) = members.pop() {
            return Value::One(member);
        }
    }
    Value::Many(List::from_vec(members))
}

/// The value of the common members of two values that meet.
pub(crate) fn common_value(alloc: Global, value: &Value, other: &Value) -> Result<Value, CapsFault>
    ensures ok { IfOk result (λ made. made ≡ as_value (common value.now other.now)) }
    ensures few { IfOk result (λ made. length (members made) ≤ 64) }
    ensures too_many { TooManyWhere result (64 < length (common value.now other.now)) }
{
    Ok(as_value(common_members(alloc, value, other)?))
}
