//! What stands behind an element inside of its task.
ghost use Rattle.std.specs.Prelude.{◌≡◌, ◌≢◌, ◌<◌, ◌≤◌, ◌+◌, ◌++◌, ◌∷◌, [], ℕ, true, false, None, IfSome, length, vec_len, vec_capacity, if◌then◌else◌};
ghost use Rattle.task_pads.specs.Behind.{goes, inside};
ghost use Rattle.net_groups.specs.Behind.{FlaggedAt, FlaggedLeads, HasFlag, HasFlagAt, IsLed, IsNext, LeadFlagged, LeadTo, NoneIsNext, NoneSet, OtherAt, TellBehind, flagged, unflagged};

use flow_model::TaskElement;
use lane_core::Outlet;
use std::collections::VecDeque;
use task_pads::{Behind, Pad};
use task_parts::Part;

/// Which of the elements of a task are behind that of a number, it itself among them: a flag for each place, in room that was taken before.
pub(crate) fn behind<E: TaskElement, O: Outlet>(
    parts: &[Part<E, O>],
    element: u32,
    flags: Vec<bool>,
) -> Vec<bool>
    requires empty { flags.items ≡ [] }
    requires room { length parts.now ≤ vec_capacity flags }
    ensures tell { TellBehind parts.now element result.items }
    ensures len { length result.items ≡ length parts.now }
{
    let mut flags = unset(flags, parts.len());
    while let Some(place) = find_next(parts, flags.as_slice(), element) {
        flags[place] = true;
    }
    flags
}

/// So many flags, none of them set.
fn unset(mut flags: Vec<bool>, count: usize) -> Vec<bool>
    requires empty { flags.items ≡ [] }
    requires room { count ≤ vec_capacity flags }
    ensures len { length result.items ≡ count }
    ensures none { NoneSet result.items }
{
    for _ in 0..count {
        flags.push_reserved(false);
    }
    flags
}

/// The place of an element without a flag that is that of a number, or to which a pad of a flagged one leads.
fn find_next<E: TaskElement, O: Outlet>(
    parts: &[Part<E, O>],
    flags: &[bool],
    element: u32,
) -> Option<usize>
    requires len { length flags.now ≡ length parts.now }
    ensures there { IfSome result (IsNext parts.now flags.now element) }
    ensures none { result ≡ None → NoneIsNext parts.now flags.now element }
{
    for place in 0..parts.len() {
        if is_next(parts, flags, element, place) {
            return Some(place);
        }
    }
    None
}

/// Whether the element at a place has no flag, and is that of a number or one to which a pad of a flagged one leads.
fn is_next<E: TaskElement, O: Outlet>(
    parts: &[Part<E, O>],
    flags: &[bool],
    element: u32,
    place: usize,
) -> bool
    requires len { length flags.now ≡ length parts.now }
    requires place { place < length parts.now }
    ensures next { result ≡ true → IsNext parts.now flags.now element place }
    ensures not { result ≡ false → IsNext parts.now flags.now element place → ⊥ }
{
    if flags[place] {
        return false;
    }
    is_led(parts, flags, element, parts[place].number())
}

/// Whether a number is that of an element, or a pad of a flagged element leads to it.
fn is_led<E: TaskElement, O: Outlet>(
    parts: &[Part<E, O>],
    flags: &[bool],
    element: u32,
    number: u32,
) -> bool
    requires len { length flags.now ≡ length parts.now }
    ensures led { result ≡ true → IsLed parts.now flags.now element number }
    ensures none { result ≡ false → IsLed parts.now flags.now element number → ⊥ }
{
    if number == element {
        return true;
    }
    flagged_lead(parts, flags, number)
}

/// Whether a pad of a flagged element leads to the element of a number.
pub(crate) fn flagged_lead<E: TaskElement, O: Outlet>(
    parts: &[Part<E, O>],
    flags: &[bool],
    number: u32,
) -> bool
    requires len { length flags.now ≡ length parts.now }
    ensures led { result ≡ true → FlaggedLeads parts.now flags.now number }
    ensures none { result ≡ false → (place : ℕ) → FlaggedAt parts.now flags.now number place → ⊥ }
{
    for place in 0..parts.len() {
        if flagged_leads(parts, flags, number, place) {
            return true;
        }
    }
    false
}

/// Whether the element at a place has a flag, and a pad of it leads to the element of a number.
fn flagged_leads<E: TaskElement, O: Outlet>(
    parts: &[Part<E, O>],
    flags: &[bool],
    number: u32,
    place: usize,
) -> bool
    requires len { length flags.now ≡ length parts.now }
    requires place { place < length parts.now }
    ensures led { result ≡ true → FlaggedAt parts.now flags.now number place }
    ensures none { result ≡ false → FlaggedAt parts.now flags.now number place → ⊥ }
{
    if !flags[place] {
        return false;
    }
    lead_to(parts[place].pads(), number)
}

/// Whether one of these pads leads inside of the task to the element of a number.
fn lead_to<O: Outlet>(pads: &[Pad<O>], number: u32) -> bool
    ensures led { result ≡ true → (port : ℕ) × LeadTo pads.now number port }
    ensures none { result ≡ false → (port : ℕ) → LeadTo pads.now number port → ⊥ }
{
    for port in 0..pads.len() {
        if leads_to(pads[port].behind(), number) {
            return true;
        }
    }
    false
}

/// Whether a pad leads inside of the task to the element of a number.
fn leads_to<O>(behind: &Behind<O>, number: u32) -> bool
    ensures led { result ≡ true → (sink : ℕ) × (goes behind.now ≡ inside number sink) }
    ensures none { result ≡ false → (sink : ℕ) → goes behind.now ≢ inside number sink }
{
    match behind {
        Behind::Element { number: to, .. } => *to == number,
        Behind::Nothing => false,
        Behind::Lane { .. } => false,
    }
}

/// Whether a pad of an element without a flag leads inside of the task to one with a flag.
pub(crate) fn others_lead<E: TaskElement, O: Outlet>(parts: &[Part<E, O>], flags: &[bool]) -> bool
    requires len { length flags.now ≡ length parts.now }
    ensures led { result ≡ true → (place : ℕ) × OtherAt parts.now flags.now place }
    ensures none { result ≡ false → (place : ℕ) → OtherAt parts.now flags.now place → ⊥ }
{
    for place in 0..parts.len() {
        if other_leads(parts, flags, place) {
            return true;
        }
    }
    false
}

/// Whether the element at a place has no flag, and a pad of it leads inside of the task to one with a flag.
fn other_leads<E: TaskElement, O: Outlet>(
    parts: &[Part<E, O>],
    flags: &[bool],
    place: usize,
) -> bool
    requires len { length flags.now ≡ length parts.now }
    requires place { place < length parts.now }
    ensures led { result ≡ true → OtherAt parts.now flags.now place }
    ensures none { result ≡ false → OtherAt parts.now flags.now place → ⊥ }
{
    if flags[place] {
        return false;
    }
    lead_flagged(parts, flags, parts[place].pads())
}

/// Whether one of these pads leads inside of the task to an element with a flag.
fn lead_flagged<E: TaskElement, O: Outlet>(
    parts: &[Part<E, O>],
    flags: &[bool],
    pads: &[Pad<O>],
) -> bool
    requires len { length flags.now ≡ length parts.now }
    ensures led { result ≡ true → (port : ℕ) × LeadFlagged parts.now flags.now pads.now port }
    ensures none { result ≡ false → (port : ℕ) → LeadFlagged parts.now flags.now pads.now port → ⊥ }
{
    for port in 0..pads.len() {
        if leads_flagged(parts, flags, pads[port].behind()) {
            return true;
        }
    }
    false
}

/// Whether a pad leads inside of the task to an element with a flag.
pub(crate) fn leads_flagged<E: TaskElement, O: Outlet>(
    parts: &[Part<E, O>],
    flags: &[bool],
    behind: &Behind<O>,
) -> bool
    requires len { length flags.now ≡ length parts.now }
    ensures led { result ≡ true → (n : ℕ) × (sink : ℕ) × (goes behind.now ≡ inside n sink) × HasFlag parts.now flags.now n }
    ensures none { result ≡ false → (n sink : ℕ) → goes behind.now ≡ inside n sink → HasFlag parts.now flags.now n → ⊥ }
{
    match behind {
        Behind::Element { number, .. } => has_flag(parts, flags, *number),
        Behind::Nothing => false,
        Behind::Lane { .. } => false,
    }
}

/// Whether an element of a number has a flag.
pub(crate) fn has_flag<E: TaskElement, O: Outlet>(
    parts: &[Part<E, O>],
    flags: &[bool],
    number: u32,
) -> bool
    requires len { length flags.now ≡ length parts.now }
    ensures has { result ≡ true → HasFlag parts.now flags.now number }
    ensures none { result ≡ false → (place : ℕ) → HasFlagAt parts.now flags.now number place → ⊥ }
{
    for place in 0..parts.len() {
        if has_flag_at(parts, flags, number, place) {
            return true;
        }
    }
    false
}

/// Whether the element at a place has a flag and this number.
fn has_flag_at<E: TaskElement, O: Outlet>(
    parts: &[Part<E, O>],
    flags: &[bool],
    number: u32,
    place: usize,
) -> bool
    requires len { length flags.now ≡ length parts.now }
    requires place { place < length parts.now }
    ensures has { result ≡ true → HasFlagAt parts.now flags.now number place }
    ensures none { result ≡ false → HasFlagAt parts.now flags.now number place → ⊥ }
{
    if !flags[place] {
        return false;
    }
    if parts[place].number() == number {
        return true;
    }
    false
}

/// Deals items, in their order: those at flagged places go, and the others are kept.
pub(crate) fn deal<T: Drop>(items: Vec<T>, flags: &[bool], kept: &mut Vec<T>, gone: &mut Vec<T>)
    requires len { length flags.now ≡ vec_len items }
    requires kept { (kept.old.items ≡ []) × (vec_len items ≤ vec_capacity kept.old) }
    requires gone { (gone.old.items ≡ []) × (vec_len items ≤ vec_capacity gone.old) }
    ensures kept { kept.new.items ≡ unflagged flags.now items.items }
    ensures gone { gone.new.items ≡ flagged flags.now items.items }
{
    let mut rest = VecDeque::from_vec(items);
    let mut place = 0;
    while let Some(item) = rest.pop_front() {
        put(item, flags[place], kept, gone);
        place += 1;
    }
}

/// Puts an item behind those that go, or behind those that are kept.
fn put<T>(item: T, goes: bool, kept: &mut Vec<T>, gone: &mut Vec<T>)
    requires kept { vec_len kept.old < vec_capacity kept.old }
    requires gone { vec_len gone.old < vec_capacity gone.old }
    ensures kept { kept.new.items ≡ (if goes then kept.old.items else kept.old.items ++ item ∷ []) }
    ensures gone { gone.new.items ≡ (if goes then gone.old.items ++ item ∷ [] else gone.old.items) }
    ensures kept_len { vec_len kept.new ≤ vec_len kept.old + 1 }
    ensures gone_len { vec_len gone.new ≤ vec_len gone.old + 1 }
    ensures kept_room { vec_capacity kept.new ≡ vec_capacity kept.old }
    ensures gone_room { vec_capacity gone.new ≡ vec_capacity gone.old }
{
    if goes {
        gone.push_reserved(item);
    } else {
        kept.push_reserved(item);
    }
}
