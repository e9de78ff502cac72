//! Caps: sets of fixed caps.
ghost use Rattle.std.specs.Prelude.{◌≡◌, ◌≢◌, ◌↔◌, ◌≤◌, ◌&&◌, ◌++◌, ◌∷◌, [], true, length, IfOk, IfSome, OnOk, OnErr, IsTrue};
ghost use Rattle.std.specs.List.{list_any};
ghost use Rattle.std.specs.Option.{option_map};
ghost use Rattle.gst_caps.specs.Accepts.{accepts, all_meets, first_structure, fixation, fixed, intersection, passes, takes};
ghost use Rattle.gst_caps.specs.Caps.{structures};
ghost use Rattle.gst_value.specs.Description.{Description, IsFixed};
ghost use Rattle.gst_caps.specs.Description.{IsStructure};
ghost use Rattle.gst_value.specs.Limit.{TooManyWhere};
ghost use Rattle.gst_value.specs.Names.{Each};
ghost use Rattle.gst_caps.specs.Passes.{structures_pass};
ghost use Rattle.gst_value.specs.declared.one.One.{One as FieldOne};

use crate::structure::Structure;
use gst_value::field::LIMIT;
use gst_value::{CapsFault, Fixed, List, OutOfMemory};
use std::alloc::Global;

/// A set of fixed caps, as in GStreamer's design document on caps.
#[derive(Drop)]
pub enum Caps {
    /// All fixed caps.
    Any,
    /// The fixed caps that one of these structures takes. Without structures there are none.
    Of(List<Structure>),
}

impl Caps {
    /// Puts a structure behind the others.
    pub fn push(&mut self, alloc: Global, one: Structure) -> Result<(), CapsFault>
        requires { self.old ≢ Caps.Any }
        ensures ok { OnOk result (self.new ≡ Caps.Of (structures self.old ++ one ∷ [])) }
        ensures err { OnErr result (self.new ≡ self.old) }
        ensures too_many { TooManyWhere result (64 ≤ length (structures self.old)) }
    {
        match self {
            Caps::Any => unreachable!(),
            Caps::Of(structures) => {
                if structures.as_slice().len() >= LIMIT {
                    return Err(CapsFault::TooMany { count: 65 });
                }
                structures.push(alloc, one)?;
                Ok(())
            }
        }
    }

    /// Whether these caps stand for the fixed ones: one of the structures takes them.
    pub fn accepts(&self, fixed: &Fixed) -> bool
        ensures { result ≡ accepts self.now fixed.now }
    {
        match self {
            Caps::Any => true,
            Caps::Of(structures) => some_takes(structures.as_slice(), fixed),
        }
    }

    /// Whether these are the caps of no structures.
    pub fn is_empty(&self) -> bool
        ensures { IsTrue result ↔ (self.now ≡ Caps.Of []) }
    {
        match self {
            Caps::Any => false,
            Caps::Of(structures) => structures.as_slice().is_empty(),
        }
    }

    /// The meets of each structure of these caps in order and of each of the others in order, as
    /// `GST_CAPS_INTERSECT_FIRST` of GStreamer orders them.
    pub fn intersect(&self, alloc: Global, other: &Caps) -> Result<Caps, CapsFault>
        ensures order { IfOk result (λ made. made ≡ intersection self.now other.now) }
        ensures members { OnOk result ((x : Description FieldOne) → accepts (intersection self.now other.now) x ≡ (accepts self.now x && accepts other.now x)) }
        ensures too_many { TooManyWhere result (passes (intersection self.now other.now) ≡ true) }
    {
        match (self, other) {
            (Caps::Any, Caps::Any) => Ok(Caps::Any),
            (Caps::Any, Caps::Of(structures)) => {
                Ok(Caps::Of(within_limit(alloc, structures.as_slice())?))
            }
            (Caps::Of(structures), Caps::Any) => {
                Ok(Caps::Of(within_limit(alloc, structures.as_slice())?))
            }
            (Caps::Of(first), Caps::Of(second)) => Ok(Caps::Of(all_meets(
                alloc,
                first.as_slice(),
                second.as_slice(),
            )?)),
        }
    }

    /// Whether some fixed caps are in both.
    pub fn meets(&self, other: &Caps) -> bool
        ensures { IsTrue result ↔ ((x : Description FieldOne) × IsFixed x × IsTrue (accepts self.now x) × IsTrue (accepts other.now x)) }
    {
        match (self, other) {
            (Caps::Any, Caps::Any) => true,
            (Caps::Any, Caps::Of(structures)) => has_structure(structures.as_slice()),
            (Caps::Of(structures), Caps::Any) => has_structure(structures.as_slice()),
            (Caps::Of(first), Caps::Of(second)) => some_meet(first.as_slice(), second.as_slice()),
        }
    }

    /// The first structure with the first of each list and the least of each range. None where these caps are
    /// `Any` or have no structures.
    pub fn fixate(&self, alloc: Global) -> Result<Option<Fixed>, OutOfMemory>
        ensures first { IfOk result (λ made. made ≡ fixation self.now) }
        ensures member { IfOk result (λ made. IfSome made (λ x. IsTrue (accepts self.now x))) }
    {
        let Caps::Of(structures) = self else {
            return Ok(None);
        };
        match structures.as_slice().first() {
            None => Ok(None),
            Some(structure) => Ok(Some(structure.fixate(alloc)?)),
        }
    }

    /// The same caps once more.
    pub fn copy(&self, alloc: Global) -> Result<Caps, OutOfMemory>
        ensures { IfOk result (λ made. made ≡ self.now) }
    {
        match self {
            Caps::Any => Ok(Caps::Any),
            Caps::Of(structures) => Ok(Caps::Of(copy_structures(alloc, structures.as_slice())?)),
        }
    }
}

/// Whether one of the structures takes the fixed caps.
fn some_takes(structures: &[Structure], fixed: &Fixed) -> bool
    ensures { result ≡ list_any (λ s. takes s fixed.now) structures.now }
{
    structures.iter().any(|structure| structure.takes(fixed))
}

fn copy_structures(alloc: Global, structures: &[Structure]) -> Result<List<Structure>, OutOfMemory>
    ensures same { IfOk result (λ made. made ≡ structures.now) }
    ensures well_formed { OnOk result (Each IsStructure structures.now) }
{
    let mut made = List::new(alloc);
    for structure in structures {
        let one = structure.copy(alloc)?;
        made.push(alloc, one)?;
    }
    Ok(made)
}

/// The structures once more, where they are not more than 64.
fn within_limit(alloc: Global, structures: &[Structure]) -> Result<List<Structure>, CapsFault>
    ensures same { IfOk result (λ made. made ≡ structures.now) }
    ensures too_many { TooManyWhere result (structures_pass structures.now ≡ true) }
{
    if structures.len() > LIMIT {
        return Err(CapsFault::TooMany { count: 65 });
    }
    Ok(copy_structures(alloc, structures)?)
}

/// The meets of each structure of the first in order and of each of the second in order.
fn all_meets(
    alloc: Global,
    first: &[Structure],
    second: &[Structure],
) -> Result<List<Structure>, CapsFault>
    ensures order { IfOk result (λ made. made ≡ all_meets first.now second.now) }
    ensures members { OnOk result ((x : Description FieldOne)
        → list_any (λ s. takes s x) (all_meets first.now second.now) ≡ (list_any (λ s. takes s x) first.now && list_any (λ s. takes s x) second.now)) }
    ensures too_many { TooManyWhere result (structures_pass (all_meets first.now second.now) ≡ true) }
{
    let mut made = List::new(alloc);
    for one in first {
        one.add_meets(alloc, second, &mut made)?;
    }
    Ok(made)
}

/// Whether there is a structure, and so fixed caps that it takes.
fn has_structure(structures: &[Structure]) -> bool
    ensures { IsTrue result ↔ ((x : Description FieldOne) × IsFixed x × IsTrue (list_any (λ s. takes s x) structures.now)) }
{
    match structures.first() {
        None => false,
        Some(structure) => {
            let _ = structure.fields();
            true
        }
    }
}

/// Whether a structure of the first meets one of the second.
fn some_meet(first: &[Structure], second: &[Structure]) -> bool
    ensures { IsTrue result ↔ ((x : Description FieldOne) × IsFixed x × IsTrue (list_any (λ s. takes s x) first.now)
        × IsTrue (list_any (λ s. takes s x) second.now)) }
{
    for one in first {
        if one.meets_one(second) {
            return true;
        }
    }
    false
}

/// The fixation of the first structure of the intersection, which is not made for it and has no limit. None
/// where the intersection is empty, or where both are `Any`.
pub fn choose(alloc: Global, options: &Caps, allowed: &Caps) -> Result<Option<Fixed>, OutOfMemory>
    ensures { IfOk result (λ chosen. chosen ≡ fixation (intersection options.now allowed.now)) }
{
    match (options, allowed) {
        (Caps::Any, _) => allowed.fixate(alloc),
        (_, Caps::Any) => options.fixate(alloc),
        (Caps::Of(first), Caps::Of(second)) => {
            first_meet(alloc, first.as_slice(), second.as_slice())
        }
    }
}

/// The fixation of the first meet.
fn first_meet(
    alloc: Global,
    first: &[Structure],
    second: &[Structure],
) -> Result<Option<Fixed>, OutOfMemory>
    ensures { IfOk result (λ made. made ≡ option_map fixed (first_structure (all_meets first.now second.now))) }
{
    for one in first {
        if let Some(found) = one.first_meet(alloc, second)? {
            return Ok(Some(found));
        }
    }
    Ok(None)
}
