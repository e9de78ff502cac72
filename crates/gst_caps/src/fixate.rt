//! The fixation of fields: the first of each list, and the least of each range.
ghost use Rattle.std.specs.Prelude.{◌≡◌, ◌+◌, ◌<◌, ◌≤◌, ◌++◌, ◌∷◌, [], Option, length, map, IfOk, OnOk};
ghost use Rattle.std.specs.List.{filter_map};
ghost use Rattle.gst_caps.specs.Accepts.{merged};
ghost use Rattle.gst_value.specs.Common.{common_one, commons, first_least, first_of};
ghost use Rattle.gst_caps.specs.Common.{least, members};
ghost use Rattle.gst_caps.specs.Merge.{fixed_field, merged_from};
ghost use Rattle.gst_value.specs.Names.{Rises};

use crate::value::Value;
use crate::walk::compare;
use gst_value::{One, OutOfMemory, Text};
use std::alloc::Global;
use std::cmp::Ordering;

/// The first of a list, and the least of a range.
fn least(alloc: Global, value: &Value) -> Result<One, OutOfMemory>
    ensures { IfOk result (λ made. made ≡ least value.now) }
{
    match value.members().first() {
        Some(first) => first.least(alloc),
        None => Ok(One::Int(0)),
    }
}

/// The first that one has in common with one of the others.
fn find_common(alloc: Global, one: &One, others: &[One]) -> Result<Option<One>, OutOfMemory>
    ensures { IfOk result (λ made. made ≡ first_of (filter_map (common_one one.now) others.now)) }
{
    for other in others {
        if one.meets(other) {
            return one.common(alloc, other);
        }
    }
    Ok(None)
}

/// The least of the first common member of two values. Two that have none give 0.
fn least_common(alloc: Global, value: &Value, other: &Value) -> Result<One, OutOfMemory>
    ensures { IfOk result (λ made. made ≡ first_least (commons (members value.now) (members other.now))) }
{
    let others = other.members();
    for member in value.members() {
        if let Some(found) = find_common(alloc, member, others)? {
            return found.least(alloc);
        }
    }
    Ok(One::Int(0))
}

/// Puts a field behind the others.
fn add_fixed(
    alloc: Global,
    fields: &mut Vec<(Text, One)>,
    name: &Text,
    value: One,
) -> Result<(), OutOfMemory>
    ensures { OnOk result (fields.new.items ≡ fields.old.items ++ (name.now, value) ∷ []) }
{
    fields.push((name.copy(alloc)?, value))?;
    Ok(())
}

/// Fixes the next field of the two lists, and gives the places behind it.
fn fix_next(
    alloc: Global,
    made: &mut Vec<(Text, One)>,
    fields: &[(Text, Value)],
    others: &[(Text, Value)],
    field: usize,
    place: usize,
) -> Result<(usize, usize), OutOfMemory>
    requires fields { Rises fields.now }
    requires others { Rises others.now }
    requires field { field < length fields.now }
    requires place { place < length others.now }
    ensures ok { IfOk result (λ next. made.new.items ++ map fixed_field (merged_from next.0 next.1 fields.now others.now)
        ≡ made.old.items ++ map fixed_field (merged_from field place fields.now others.now)) }
    ensures forth { IfOk result (λ next. (field ≤ next.0) × (place ≤ next.1) × (field + place < next.0 + next.1) × (next.0 ≤ length fields.now)
        × (next.1 ≤ length others.now)) }
{
    let one = &fields[field];
    let other = &others[place];
    match compare(one, other) {
        Ordering::Less => {
            let value = least(alloc, &one.1)?;
            add_fixed(alloc, made, &one.0, value)?;
            Ok((field + 1, place))
        }
        Ordering::Greater => {
            let value = least(alloc, &other.1)?;
            add_fixed(alloc, made, &other.0, value)?;
            Ok((field, place + 1))
        }
        Ordering::Equal => {
            let value = least_common(alloc, &one.1, &other.1)?;
            add_fixed(alloc, made, &one.0, value)?;
            Ok((field + 1, place + 1))
        }
    }
}

/// Fixes fields and puts them behind the others.
fn fix_rest(
    alloc: Global,
    made: &mut Vec<(Text, One)>,
    rest: &[(Text, Value)],
) -> Result<(), OutOfMemory>
    ensures { OnOk result (made.new.items ≡ made.old.items ++ map fixed_field rest.now) }
{
    for field in rest {
        let value = least(alloc, &field.1)?;
        add_fixed(alloc, made, &field.0, value)?;
    }
    Ok(())
}

/// The fixation of fields.
pub(crate) fn fixed_fields(
    alloc: Global,
    fields: &[(Text, Value)],
) -> Result<Vec<(Text, One)>, OutOfMemory>
    ensures { IfOk result (λ made. made.items ≡ map fixed_field fields.now) }
{
    let mut made = Vec::new(alloc);
    fix_rest(alloc, &mut made, fields)?;
    Ok(made)
}

/// The fixation of the merged fields of two lists, which are not merged for it.
pub(crate) fn fixed_merge(
    alloc: Global,
    fields: &[(Text, Value)],
    others: &[(Text, Value)],
) -> Result<Vec<(Text, One)>, OutOfMemory>
    requires fields { Rises fields.now }
    requires others { Rises others.now }
    ensures { IfOk result (λ made. made.items ≡ map fixed_field (merged fields.now others.now)) }
{
    let mut made = Vec::new(alloc);
    let mut field = 0;
    let mut place = 0;
    while field < fields.len() && place < others.len() {
        (field, place) = fix_next(alloc, &mut made, fields, others, field, place)?;
    }
    fix_rest(alloc, &mut made, &fields[field..])?;
    fix_rest(alloc, &mut made, &others[place..])?;
    Ok(made)
}
