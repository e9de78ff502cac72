//! The fields of two structures in one list, in the order of their names.
ghost use Rattle.std.specs.Prelude.{◌≡◌, ◌+◌, ◌<◌, ◌≤◌, ◌++◌, ◌∷◌, [], true, false, length, IfOk, IfErr, OnOk};
ghost use Rattle.gst_caps.specs.Accepts.{merged};
ghost use Rattle.gst_caps.specs.Passes.{fields_pass};
ghost use Rattle.gst_value.specs.Limit.{IsFaultWhere, TooManyWhere};
ghost use Rattle.gst_caps.specs.Merge.{IsShort, merged_from};
ghost use Rattle.gst_value.specs.Names.{Each, Rises};

use crate::common::common_value;
use crate::value::Value;
use crate::walk::compare;
use gst_value::field::LIMIT;
use gst_value::{CapsFault, Text};
use std::alloc::Global;
use std::cmp::Ordering;

/// Puts a field behind the others.
fn add_field(
    alloc: Global,
    fields: &mut Vec<(Text, Value)>,
    name: &Text,
    value: Value,
) -> Result<(), CapsFault>
    requires short { IsShort value }
    requires within { fields_pass fields.old.items ≡ false }
    ensures ok { OnOk result (fields.new.items ≡ fields.old.items ++ (name.now, value) ∷ []) }
    ensures within { OnOk result (fields_pass fields.new.items ≡ false) }
    ensures too_many { TooManyWhere result (64 ≤ length fields.old.items) }
{
    if fields.len() >= LIMIT {
        return Err(CapsFault::TooMany { count: 65 });
    }
    fields.push((name.copy(alloc)?, value))?;
    Ok(())
}

/// Puts the next field of the two lists behind those that were merged, and gives the places behind it.
fn merge_next(
    alloc: Global,
    made: &mut Vec<(Text, Value)>,
    fields: &[(Text, Value)],
    others: &[(Text, Value)],
    field: usize,
    place: usize,
) -> Result<(usize, usize), CapsFault>
    requires fields { Rises fields.now }
    requires others { Rises others.now }
    requires short { Each (λ f. IsShort f.1) fields.now }
    requires short_others { Each (λ f. IsShort f.1) others.now }
    requires within { fields_pass made.old.items ≡ false }
    requires field { field < length fields.now }
    requires place { place < length others.now }
    ensures ok { IfOk result (λ next. made.new.items ++ merged_from next.0 next.1 fields.now others.now
        ≡ made.old.items ++ merged_from field place fields.now others.now) }
    ensures within { OnOk result (fields_pass made.new.items ≡ false) }
    ensures forth { IfOk result (λ next. (field ≤ next.0) × (place ≤ next.1) × (field + place < next.0 + next.1) × (next.0 ≤ length fields.now)
        × (next.1 ≤ length others.now)) }
    ensures too_many { IfErr result (λ fault. IsFaultWhere fault (fields_pass (made.old.items ++ merged_from field place fields.now others.now) ≡ true)) }
{
    let one = &fields[field];
    let other = &others[place];
    match compare(one, other) {
        Ordering::Less => {
            let value = one.1.copy(alloc)?;
            add_field(alloc, made, &one.0, value)?;
            Ok((field + 1, place))
        }
        Ordering::Greater => {
            let value = other.1.copy(alloc)?;
            add_field(alloc, made, &other.0, value)?;
            Ok((field, place + 1))
        }
        Ordering::Equal => {
            let value = common_value(alloc, &one.1, &other.1)?;
            add_field(alloc, made, &one.0, value)?;
            Ok((field + 1, place + 1))
        }
    }
}

/// Puts fields behind those that were merged.
fn add_rest(
    alloc: Global,
    made: &mut Vec<(Text, Value)>,
    rest: &[(Text, Value)],
) -> Result<(), CapsFault>
    requires short { Each (λ f. IsShort f.1) rest.now }
    requires within { fields_pass made.old.items ≡ false }
    ensures ok { OnOk result (made.new.items ≡ made.old.items ++ rest.now) }
    ensures within { OnOk result (fields_pass made.new.items ≡ false) }
    ensures too_many { IfErr result (λ fault. IsFaultWhere fault (fields_pass (made.old.items ++ rest.now) ≡ true)) }
{
    for field in rest {
        let value = field.1.copy(alloc)?;
        add_field(alloc, made, &field.0, value)?;
    }
    Ok(())
}

/// The fields of both, in the order of their names: a field of both with the values common to it and the
/// other.
pub(crate) fn merged_fields(
    alloc: Global,
    fields: &[(Text, Value)],
    others: &[(Text, Value)],
) -> Result<Vec<(Text, Value)>, CapsFault>
    requires fields { Rises fields.now }
    requires others { Rises others.now }
    requires short { Each (λ f. IsShort f.1) fields.now }
    requires short_others { Each (λ f. IsShort f.1) others.now }
    ensures ok { IfOk result (λ made. made.items ≡ merged fields.now others.now) }
    ensures too_many { TooManyWhere result (fields_pass (merged fields.now others.now) ≡ true) }
{
    let mut made = Vec::new(alloc);
    let mut field = 0;
    let mut place = 0;
    while field < fields.len() && place < others.len() {
        (field, place) = merge_next(alloc, &mut made, fields, others, field, place)?;
    }
    add_rest(alloc, &mut made, &fields[field..])?;
    add_rest(alloc, &mut made, &others[place..])?;
    Ok(made)
}
