//! What stands under numbers.
ghost use Rattle.std.specs.Prelude.{◌≡◌, [], ◌∷◌, None, slice_index_or, slice_set};
ghost use Rattle.graph_tasks.specs.Plan.{without};
ghost use Rattle.graph_tasks.specs.Tasks.{IsOf};

/// Takes what stands under a number. Nothing stands there behind that.
pub(crate) fn taken<T>(slots: &mut Vec<Option<T>>, number: u32) -> Option<T>
    ensures taken { result ≡ slice_index_or slots.old.items number None }
    ensures left { slots.new.items ≡ slice_set slots.old.items number None }
{
    let place = number as usize;
    if place >= slots.len() {
        return None;
    }
    slots[place].take()
}

/// The same, where something stands there.
pub(crate) fn take_there<T>(slots: &mut Vec<Option<T>>, number: u32) -> T
    requires there { (x : _) × IsOf slots.old.items number x }
    ensures taken { IsOf slots.old.items number result }
    ensures left { slots.new.items ≡ without (number ∷ []) slots.old.items }
{
    taken(slots, number).unwrap()
}
