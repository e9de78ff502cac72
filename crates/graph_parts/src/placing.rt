//! Values that are put at the places of a list.
ghost use Rattle.graph_parts.specs.Put.{PutBack};
ghost use Rattle.graph_parts.specs.Single.{IsValue};

/// Puts a value at a place, where there is one and the list has the place.
pub(crate) fn put_some<T: Drop>(list: &mut Vec<T>, place: usize, value: Option<T>)
    ensures { PutBack (IsValue place value) list.old.items list.new.items }
{
    if let Some(value) = value {
        if place < list.len() {
            list[place] = value;
        }
    }
}
