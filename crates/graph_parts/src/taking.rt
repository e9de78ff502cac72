//! What stands under numbers.
ghost use Rattle.std.specs.Prelude.{◌≡◌, None, slice_set};
ghost use Rattle.graph_parts.specs.Ends.{at};

/// Takes what stands under a number. Nothing stands there behind that.
pub(crate) fn taken<T>(slots: &mut Vec<Option<T>>, number: u32) -> Option<T>
    ensures taken { result ≡ at slots.old.items number }
    ensures left { slots.new.items ≡ slice_set slots.old.items number None }
{
    let place = number as usize;
    if place >= slots.len() {
        return None;
    }
    slots[place].take()
}

/// Puts a value at a place, where the list has that.
pub(crate) fn place_at<T: Drop>(list: &mut Vec<T>, place: u32, value: T)
    ensures { list.new.items ≡ slice_set list.old.items place value }
{
    let place = place as usize;
    if place < list.len() {
        list[place] = value;
    }
}
