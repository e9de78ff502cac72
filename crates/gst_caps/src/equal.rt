//! Whether two fixed caps are equal.
ghost use Rattle.std.specs.Prelude.{◌≡◌};
ghost use Rattle.std.specs.Option.{option_map};
ghost use Rattle.gst_caps.specs.Same.{same_caps as same_caps_of, same_given};

use gst_value::{Fixed, One};

/// Whether two fixed caps are equal.
pub fn same_caps(one: &Fixed, other: &Fixed) -> bool
    ensures { result ≡ same_caps_of one.now other.now }
{
    if one.media() != other.media() {
        return false;
    }
    if one.fields() != other.fields() {
        return false;
    }
    for place in 0..one.fields() {
        if !same_at(one.field(place), other.field(place)) {
            return false;
        }
    }
    true
}

/// Whether two fields are there and have the same name and the same value.
fn same_at(one: Option<(&str, &One)>, other: Option<(&str, &One)>) -> bool
    ensures { result ≡ same_given (option_map (λ f. (f.0.now, f.1.now)) one.entry) (option_map (λ f. (f.0.now, f.1.now)) other.entry) }
{
    match (one, other) {
        (Some((name, value)), Some((wanted, other))) => name == wanted && value.is_same(other),
        _ => false,
    }
}
