//! The ends of a run are given back.
ghost use Rattle.std.specs.Prelude.{◌≡◌, ◌∷◌, ◌≤◌, ℕ, List, [], Contains, IsTrue, Some, option_map, count_by};
ghost use Rattle.gst_outside.specs.Causes.{Rose};
ghost use Rattle.gst_outside.specs.Seen.{ToldRose};
ghost use Rattle.run_files.specs.Closing.{Closes};
ghost use Rattle.run_files.specs.Ends.{AllOpened, Known, is_sink_at, known_end, known_ends, present};

use crate::end::End;
use gst_outside::Files;

/// Gives an end back.
fn close<F: Files>(files: &mut F, end: Option<End<F::Src, F::Snk>>)
    requires opened_here { AllOpened (F.opened files.old) (option_map (known_end F.Src.Source F.Snk.Sink) end ∷ []) }
    ensures closes { Closes (present (option_map (known_end F.Src.Source F.Snk.Sink) end ∷ [])) (F.seen files.old) (F.seen files.new) }
    ensures opened_stays { (l : List ℕ) → F.opened files.old l → F.opened files.new l }
{
    match end {
        None => {}
        Some(End::Src(source)) => files.close_read(source),
        Some(End::Snk(sink)) => files.close_write(sink),
    }
}

/// Gives ends back, the last one first.
fn close_each<F: Files>(files: &mut F, mut ends: Vec<Option<End<F::Src, F::Snk>>>)
    requires opened_here { AllOpened (F.opened files.old) (known_ends F.Src.Source F.Snk.Sink ends.items) }
    ensures closes { Closes (present (known_ends F.Src.Source F.Snk.Sink ends.items)) (F.seen files.old) (F.seen files.new) }
    ensures opened_stays { (l : List ℕ) → F.opened files.old l → F.opened files.new l }
{
    while let Some(end) = ends.pop() {
        close(files, end);
    }
}

/// Gives the ends of a run back, in whatever order they stand. It takes no memory.
///
/// Each was opened by these files. A location of sinks is left with the bytes of the first of them; every other
/// output stays, and so does every input. The failures of calls of the ends are added to those of the files and of
/// their locations.
pub fn close_all<F: Files>(files: &mut F, ends: Vec<Option<End<F::Src, F::Snk>>>)
    requires opened_here { AllOpened (F.opened files.old) (known_ends F.Src.Source F.Snk.Sink ends.items) }
    ensures closes { Closes (present (known_ends F.Src.Source F.Snk.Sink ends.items)) (F.seen files.old) (F.seen files.new) }
    ensures alone { let given = present (known_ends F.Src.Source F.Snk.Sink ends.items) in (l : List ℕ) (end : Known) → Contains given end
        → IsTrue (is_sink_at l end) → count_by (is_sink_at l) given ≡ 1 → (F.seen files.new).output l ≡ end.bytes }
    ensures others { (l : List ℕ) → count_by (is_sink_at l) (present (known_ends F.Src.Source F.Snk.Sink ends.items)) ≡ 0
        → (F.seen files.new).output l ≡ (F.seen files.old).output l }
    ensures rose { (end : Known) → Contains (present (known_ends F.Src.Source F.Snk.Sink ends.items)) end → Rose 0 end.faults
        → Rose (F.seen files.old).faults (F.seen files.new).faults }
    ensures rose_of { (l : List ℕ) (end : Known) → Contains (present (known_ends F.Src.Source F.Snk.Sink ends.items)) end → Rose 0 end.faults
        → end.location ≡ Some l → ToldRose ((F.seen files.old).faults_of l) ((F.seen files.new).faults_of l) }
    ensures never_falls { (F.seen files.old).faults ≤ (F.seen files.new).faults }
    ensures opened_stays { (l : List ℕ) → F.opened files.old l → F.opened files.new l }
{
    close_each(files, ends);
}
