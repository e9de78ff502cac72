//! Fields in the order of their names.
ghost use Rattle.std.specs.Prelude.{◌≡◌, ◌+◌, ◌<◌, ◌≤◌, ℕ, List, true, false, length, slice_index_or, slice_set, OnOk, OnErr, IfOk, IfErr, MatchResult, take};
ghost use Rattle.std.specs.List.{insert};
ghost use Rattle.gst_value.specs.Names.{Each, Rises, is_before, fields_with};
ghost use Rattle.gst_value.specs.Limit.{TooManyWhere};

use crate::fault::CapsFault;
use crate::text::Text;
use std::alloc::Global;

/// The most fields of a structure, members of a list and structures of caps.
pub const LIMIT: usize = 64;

/// The number of fields with a name before `name`.
fn count_before<V>(fields: &[(Text, V)], name: &str) -> usize
    ensures within { result ≤ length fields.now }
    ensures before { Each (λ f. is_before f.0 name.now ≡ true) (take result fields.now) }
    ensures behind { (d : List ℕ × V) → result < length fields.now → is_before (slice_index_or fields.now result d).0 name.now ≡ false }
{
    let mut place = 0;
    while place < fields.len() && fields[place].0.as_str() < name {
        place += 1;
    }
    place
}

/// `Ok` with the place of the field of this name, or `Err` with the place where it would stand.
fn place_of<V>(fields: &[(Text, V)], name: &str) -> Result<usize, usize>
    requires { Rises fields.now }
    ensures within { MatchResult result (λ place. place < length fields.now) (λ place. place ≤ length fields.now) }
    ensures count { MatchResult result (λ _. (v : V) → length (fields_with name.now v fields.now) ≡ length fields.now)
        (λ _. (v : V) → length (fields_with name.now v fields.now) ≡ length fields.now + 1) }
    ensures found { IfOk result (λ place. (v : V) (d : List ℕ × V)
        → slice_set fields.now place ((slice_index_or fields.now place d).0, v) ≡ fields_with name.now v fields.now) }
    ensures absent { IfErr result (λ place. (v : V) → insert fields.now place (name.now, v) ≡ fields_with name.now v fields.now) }
{
    let place = count_before(fields, name);
    if place < fields.len() && fields[place].0.as_str() == name {
        Ok(place)
    } else {
        Err(place)
    }
}

/// Sets the field of this name, or replaces its value.
pub fn set_field<V: Drop>(
    alloc: Global,
    fields: &mut Vec<(Text, V)>,
    name: &str,
    value: V,
) -> Result<(), CapsFault>
    requires { Rises fields.old.items }
    ensures ok { OnOk result (fields.new.items ≡ fields_with name.now value fields.old.items) }
    ensures err { OnErr result (fields.new.items ≡ fields.old.items) }
    ensures too_many { TooManyWhere result (64 < length (fields_with name.now value fields.old.items)) }
{
    match place_of(fields.as_slice(), name) {
        Ok(place) => {
            if fields.len() > LIMIT {
                return Err(CapsFault::TooMany { count: 65 });
            }
            fields[place].1 = value;
        }
        Err(place) => {
            if fields.len() >= LIMIT {
                return Err(CapsFault::TooMany { count: 65 });
            }
            fields.insert(place, (Text::from_str(alloc, name)?, value))?;
        }
    }
    Ok(())
}
