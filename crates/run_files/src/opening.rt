//! The files of a run are opened.
ghost use Rattle.std.specs.Prelude.{◌≡◌, ◌∷◌, ◌≤◌, ℕ, List, [], Option, Some, IfOk, IfErr, OnOk, length, option_map, vec_capacity};
ghost use Rattle.gst_outside.specs.Seen.{Seen};
ghost use Rattle.run_files.specs.declared.end.Opening.{Opening as Openings};
ghost use Rattle.run_files.specs.Ends.{AllOpened, Known, known_end, known_ends};
ghost use Rattle.run_files.specs.Opening.{IsUnopened, Opens};
ghost use Rattle.run_files.specs.Stopping.{RefusedBy, Stops, StopsAt};

use crate::closing::close_all;
use crate::end::{End, Opening, Unopened};
use gst_outside::{Files, OpenEnd};
use std::alloc::Global;

/// Opens a location.
fn open<F: Files>(
    alloc: Global,
    files: &mut F,
    opening: &Opening,
) -> Result<End<F::Src, F::Snk>, OpenEnd>
    ensures opened { IfOk result (λ end. Opens (Some opening.now ∷ []) (Some (known_end F.Src.Source F.Snk.Sink end) ∷ [])
        (F.seen files.old) (F.seen files.new)) }
    ensures here { IfOk result (λ end. AllOpened (F.opened files.new) (Some (known_end F.Src.Source F.Snk.Sink end) ∷ [])) }
    ensures refused { IfErr result (λ why. RefusedBy (Some opening.now) (F.seen files.old) (F.seen files.new) why) }
    ensures opened_stays { (l : List ℕ) → F.opened files.old l → F.opened files.new l }
{
    match opening {
        Opening::Read(location) => match files.open_read(alloc, location.as_str()) {
            Ok(source) => Ok(End::Src(source)),
            Err(why) => Err(why),
        },
        Opening::Write(location) => match files.open_write(alloc, location.as_str()) {
            Ok(sink) => Ok(End::Snk(sink)),
            Err(why) => Err(why),
        },
    }
}

/// Opens what an element asks for, if anything.
fn open_entry<F: Files>(
    alloc: Global,
    files: &mut F,
    entry: &Option<Opening>,
) -> Result<Option<End<F::Src, F::Snk>>, OpenEnd>
    ensures opened { IfOk result (λ end. Opens (entry.now ∷ []) (option_map (known_end F.Src.Source F.Snk.Sink) end ∷ [])
        (F.seen files.old) (F.seen files.new)) }
    ensures here { IfOk result (λ end. AllOpened (F.opened files.new) (option_map (known_end F.Src.Source F.Snk.Sink) end ∷ [])) }
    ensures refused { IfErr result (λ why. RefusedBy entry.now (F.seen files.old) (F.seen files.new) why) }
    ensures opened_stays { (l : List ℕ) → F.opened files.old l → F.opened files.new l }
{
    match entry {
        None => Ok(None),
        Some(opening) => match open(alloc, files, opening) {
            Ok(end) => Ok(Some(end)),
            Err(why) => Err(why),
        },
    }
}

/// Why the opening at a place gave no end.
fn unopened(place: usize, why: OpenEnd) -> Unopened
    ensures { (openings : List (Option Openings)) (opened : List (Option Known)) (before after : Seen)
        → StopsAt openings opened before after place why → Stops openings opened before after result }
{
    match why {
        OpenEnd::Failed => Unopened::Failed { place },
        OpenEnd::OutOfMemory => Unopened::OutOfMemory,
    }
}

/// Opens what the elements of a run ask for, in their order, up to the first that can't be opened, into an empty
/// list that has room for all ends.
fn open_each<F: Files>(
    alloc: Global,
    files: &mut F,
    openings: &[Option<Opening>],
    ends: &mut Vec<Option<End<F::Src, F::Snk>>>,
) -> Result<(), Unopened>
    requires empty { ends.old.items ≡ [] }
    requires room { length openings.now ≤ vec_capacity ends.old }
    ensures opened { OnOk result (Opens openings.now (known_ends F.Src.Source F.Snk.Sink ends.new.items) (F.seen files.old) (F.seen files.new)) }
    ensures stopped { IfErr result (λ why. Stops openings.now (known_ends F.Src.Source F.Snk.Sink ends.new.items)
        (F.seen files.old) (F.seen files.new) why) }
    ensures here { AllOpened (F.opened files.new) (known_ends F.Src.Source F.Snk.Sink ends.new.items) }
    ensures opened_stays { (l : List ℕ) → F.opened files.old l → F.opened files.new l }
{
    for (place, entry) in openings.iter().enumerate() {
        match open_entry(alloc, files, entry) {
            Ok(end) => ends.push_reserved(end),
            Err(why) => return Err(unopened(place, why)),
        }
    }
    Ok(())
}

/// Opens what the elements of a run ask for, in their order: there is an entry for each of them, which is None for
/// one that asks for nothing. Where a location can't be opened, or memory is wanting, the ends that were opened
/// before are given back.
///
/// A file that is opened for writing begins empty, and is left so where a later opening fails.
pub fn open_all<F: Files>(
    alloc: Global,
    files: &mut F,
    openings: &[Option<Opening>],
) -> Result<Vec<Option<End<F::Src, F::Snk>>>, Unopened>
    ensures opened { IfOk result (λ ends. Opens openings.now (known_ends F.Src.Source F.Snk.Sink ends.items) (F.seen files.old) (F.seen files.new)) }
    ensures here { IfOk result (λ ends. AllOpened (F.opened files.new) (known_ends F.Src.Source F.Snk.Sink ends.items)) }
    ensures unopened { IfErr result (λ why. IsUnopened openings.now (F.seen files.old) (F.seen files.new) why) }
    ensures opened_stays { (l : List ℕ) → F.opened files.old l → F.opened files.new l }
{
    let Ok(mut ends) = Vec::with_capacity(alloc, openings.len()) else {
        return Err(Unopened::OutOfMemory);
    };
    match open_each(alloc, files, openings, &mut ends) {
        Ok(()) => Ok(ends),
        Err(unopened) => {
            close_all(files, ends);
            Err(unopened)
        }
    }
}
