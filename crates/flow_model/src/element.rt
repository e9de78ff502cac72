//! Elements with sink pads.
ghost use Rattle.std.specs.Prelude.{◌≡◌, ℕ, false, List, Option, IfErr, OnOk, OnErr};
ghost use Rattle.flow_model.specs.Item.{Item, is_flush_stop};
ghost use Rattle.flow_model.specs.Call.{Call};
ghost use Rattle.flow_model.specs.Moment.{Behavior};
ghost use Rattle.flow_model.specs.Takes.{Takes};
ghost use Rattle.flow_model.specs.Refuses.{RefusesBy};
ghost use Rattle.flow_model.specs.Failures.{IsWriteCause};
ghost use Rattle.gst_outside.specs.Causes.{NeverFalls};

use crate::refusal::Refused;
use gst_item::{Item, Outs};
use std::alloc::Global;

/// An element with sink pads: a filter, a queue, a tee, a fan-in element, or a sink, which has no source pads.
pub trait TaskElement: Drop {
    /// For which behavior it stands, and what it took at each of its sink pads.
    ghost stands: { Self → Behavior → List (List Call) → Type 0 };

    /// For which behavior and which lists it stands, behind an item for one of its sink pads that it refused.
    ghost fell: { Self → Behavior → List (List Call) → ℕ → Item → Type 0 };

    /// How many source pads it has.
    ghost ports: { Self → ℕ };

    /// The sink pad from whose inlet it wants its next item, where it is fed from inlets. None: all of them had EOS.
    ghost wanted: { Self → Option ℕ };

    /// The location of the file that it writes, where it writes one and the location is told.
    ghost file: { Self → Option (Option (List ℕ)) };

    /// The count of failed calls of what it writes to, where it writes.
    ghost failures: { Self → Option ℕ };

    /// Takes an item on a sink pad, and appends what it owes for it. An item for a sink pad that it has not changes
    /// nothing. Where it refuses the item, nothing is put out.
    fn feed(&mut self, alloc: Global, pad: u32, item: Item, out: &mut Outs) -> Result<(), Refused>
        requires no_flush { is_flush_stop item ≡ false }
        ensures took { OnOk result (Takes (stands self.old) (stands self.new) (ports self.old) pad item out.old out.new) }
        ensures fell { OnErr result ((behavior : Behavior) (took : List (List Call)) → stands self.old behavior took
            → fell self.new behavior took pad item) }
        ensures refused { IfErr result (λ refusal. (behavior : Behavior) (took : List (List Call)) → stands self.old behavior took
            → RefusesBy behavior took pad item refusal) }
        ensures out { OnErr result (out.new ≡ out.old) }
        ensures cause { IfErr result (IsWriteCause (failures self.old) (failures self.new)) }
        ensures never_falls { NeverFalls (failures self.old) (failures self.new) }
        ensures ports { ports self.new ≡ ports self.old }
        ensures file { file self.new ≡ file self.old };

    /// The sink pad from whose inlet it wants its next item.
    fn wants(&self) -> Option<u32>
        ensures { result ≡ wanted self.now };
}
