//! Walks over the fields of two structures in step, in the order of their names.
ghost use Rattle.std.specs.Prelude.{◌≡◌};
ghost use Rattle.std.specs.Cmp.Lexicographic.{slice_cmp};
ghost use Rattle.std.specs.Ordering.{nat_cmp};
ghost use Rattle.gst_caps.specs.Accepts.{agrees, contains_given, each_at};
ghost use Rattle.gst_value.specs.Names.{Rises};

use crate::value::Value;
use gst_value::{One, Text};
use std::cmp::Ordering;

/// How the names of two fields stand.
pub(crate) fn compare<V, W>(first: &(Text, V), second: &(Text, W)) -> Ordering
    ensures { result ≡ slice_cmp nat_cmp first.now.0 second.now.0 }
{
    first.0.as_str().cmp(second.0.as_str())
}

/// Whether each field contains the value that is given under its name.
pub(crate) fn all_given(fields: &[(Text, Value)], given: &[(Text, One)]) -> bool
    requires fields { Rises fields.now }
    requires given { Rises given.now }
    ensures { result ≡ each_at contains_given fields.now given.now }
{
    let mut field = 0;
    let mut place = 0;
    while field < fields.len() {
        if place >= given.len() {
            return false;
        }
        let wanted = &fields[field];
        let one = &given[place];
        match compare(one, wanted) {
            Ordering::Less => place += 1,
            Ordering::Equal => {
                if !wanted.1.takes(&one.1) {
                    return false;
                }
                field += 1;
                place += 1;
            }
            Ordering::Greater => return false,
        }
    }
    true
}

/// Whether each two fields of one name have something in common.
pub(crate) fn all_agree(fields: &[(Text, Value)], others: &[(Text, Value)]) -> bool
    requires fields { Rises fields.now }
    requires others { Rises others.now }
    ensures { result ≡ each_at agrees fields.now others.now }
{
    let mut field = 0;
    let mut place = 0;
    while field < fields.len() && place < others.len() {
        let one = &fields[field];
        let other = &others[place];
        match compare(other, one) {
            Ordering::Less => place += 1,
            Ordering::Equal => {
                if !one.1.meets(&other.1) {
                    return false;
                }
                field += 1;
                place += 1;
            }
            Ordering::Greater => field += 1,
        }
    }
    true
}
