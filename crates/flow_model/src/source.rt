//! Sources.
ghost use Rattle.std.specs.Prelude.{◌≡◌, ◌<◌, ◌^◌, ◌++◌, ℕ, List, Option, IfOk, IfErr, OnOk, OnErr};
ghost use Rattle.flow_model.specs.Item.{Item};
ghost use Rattle.flow_model.specs.declared.refusal.Unread.{Unread};
ghost use Rattle.flow_model.specs.Gives.{Gives, count_after};
ghost use Rattle.flow_model.specs.Failures.{IsReadCause};
ghost use Rattle.gst_outside.specs.Causes.{NeverFalls};
ghost use Rattle.flow_model.specs.Short.{StopsShort};

use crate::refusal::Unread;
use gst_item::Item;
use std::alloc::Global;

/// An element with one source pad and no sink pad.
pub trait TaskSource: Drop {
    /// It owes the first list, and gave the second, which begins the first, since the start or the last seek.
    ghost gave: { Self → List Item → List Item → Type 0 };

    /// How many items it gave since the start or the last seek.
    ghost count: { Self → ℕ };

    /// The location of the file that it reads, where it reads one and the location is told.
    ghost file: { Self → Option (Option (List ℕ)) };

    /// The count of failed calls of what it reads, where it reads.
    ghost failures: { Self → Option ℕ };

    /// The next item; none where all was given, EOS last. Where it fails nothing was given. Each read that failed is told in
    /// its call, which is one for a buffer that is still owed: EOS was not given before.
    fn next(&mut self, alloc: Global) -> Result<Option<Item>, Unread>
        requires few { count self.old < 2 ^ 41 }
        ensures gives { IfOk result (λ next. (owed given : List Item) → gave self.old owed given → Gives (gave self.new) owed given next) }
        ensures kept { OnErr result ((owed given : List Item) → gave self.old owed given → gave self.new owed given) }
        ensures counted { count self.new ≡ count_after result (count self.old) }
        ensures cause { IfErr result (IsReadCause (failures self.old) (failures self.new)) }
        ensures failures_stay { OnOk result (failures self.new ≡ failures self.old) }
        ensures short { IfErr result (λ unread. (owed given : List Item) → gave self.old owed given → StopsShort owed given unread) }
        ensures never_falls { NeverFalls (failures self.old) (failures self.new) }
        ensures file { file self.new ≡ file self.old };

    /// What was given begins what is owed.
    ghost begins: { (source : Self) (owed given : List Item) → gave source owed given → (rest : List Item) × (owed ≡ given ++ rest) };
}
