//! Filters that stand for some rule.
ghost use Rattle.std.specs.Prelude.{◌≡◌, false, List, None, IfErr, OnOk, OnErr};
ghost use Rattle.flow_model.specs.Item.{is_flush_stop};
ghost use Rattle.task_elements.specs.Ruled.{IsRuled};

use el_set::FilterElement;
use flow_model::Refused;
use gst_item::{Item, Outs};
use std::alloc::Global;

/// An element with one sink pad and one source pad, both of number 0, that stands for some rule. So it puts out no
/// FLUSH_STOP of its own.
#[derive(Drop)]
pub struct StreamFilter {
    pub filter: FilterElement,
    ghost ruled: { ∥ IsRuled filter ∥₁ },
}

impl StreamFilter {
    ghost use Rattle.flow_model.specs.Call.{Call};
    ghost use Rattle.flow_model.specs.Moment.{Behavior};
    ghost use Rattle.flow_model.specs.Takes.{Takes};
    ghost use Rattle.flow_model.specs.Refuses.{RefusesBy};
    ghost use Rattle.flow_model.specs.Failures.{IsWriteCause};
    ghost use Rattle.task_elements.specs.Stands.{FilterTook};

    /// A filter that stands for a rule, for what it was given and for what it put out.
    pub fn new(filter: FilterElement) -> StreamFilter
        requires { IsRuled filter }
        ensures { result.filter ≡ filter }
    {
        StreamFilter { filter }
    }

    /// Takes an item on its sink pad, and appends what it owes for it. Where it refuses it, it is as before.
    #[inline(always)]
    pub(crate) fn feed(&mut self, alloc: Global, item: Item, out: &mut Outs) -> Result<(), Refused>
        requires no_flush { is_flush_stop item ≡ false }
        ensures took { OnOk result (Takes (FilterTook self.old.filter) (FilterTook self.new.filter) 1 0 item out.old out.new) }
        ensures stays { OnErr result ((behavior : Behavior) (took : List (List Call)) → FilterTook self.old.filter behavior took
            → FilterTook self.new.filter behavior took) }
        ensures refused { IfErr result (λ refusal. (behavior : Behavior) (took : List (List Call)) → FilterTook self.old.filter behavior took
            → RefusesBy behavior took 0 item refusal) }
        ensures cause { IfErr result (IsWriteCause None None) }
        ensures out { OnErr result (out.new ≡ out.old) }
    {
        match self.filter.feed(alloc, 0, item, out) {
            Ok(_) => Ok(()),
            Err(fault) => Err(Refused::fault(alloc, fault)),
        }
    }
}
