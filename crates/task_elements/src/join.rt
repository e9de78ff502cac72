//! Elements with several sink pads that stand for some lists.
ghost use Rattle.std.specs.Prelude.{◌≡◌, false, List, None, IfErr, OnOk, OnErr};
ghost use Rattle.flow_model.specs.declared.fault.ElementFault.TheVariants.{OutOfMemory as Wanting};
ghost use Rattle.flow_model.specs.Item.{is_flush_stop};
ghost use Rattle.flow_model.specs.declared.refusal.Refusal.TheVariants.{Fault};
ghost use Rattle.task_elements.specs.Ruled.{IsJoined};

use el_set::JoinElement;
use flow_model::{ElementFault, Refused};
use gst_item::{Item, Outs};
use std::alloc::Global;

/// An element with several sink pads and one source pad, of number 0, that stands for some lists. So it may take an item on the
/// sink pad that it wants.
#[derive(Drop)]
pub struct StreamJoin {
    pub join: JoinElement,
    ghost joined: { ∥ IsJoined join ∥₁ },
}

impl StreamJoin {
    ghost use Rattle.flow_model.specs.Call.{Call};
    ghost use Rattle.flow_model.specs.Moment.{Behavior};
    ghost use Rattle.flow_model.specs.Takes.{Takes};
    ghost use Rattle.flow_model.specs.Refuses.{RefusesBy};
    ghost use Rattle.flow_model.specs.Failures.{IsWriteCause};
    ghost use Rattle.task_elements.specs.Stands.{JoinTook};

    /// An element that stands for what its sink pads were given and for what it put out.
    pub fn new(join: JoinElement) -> StreamJoin
        requires { IsJoined join }
        ensures { result.join ≡ join }
    {
        StreamJoin { join }
    }

    /// Takes an item on the sink pad that it wants, and appends what it owes for it. Where it refuses it, it is as before. On any
    /// other pad the answer is want of memory, since an interleave has to be fed in order; a head asks which pad is wanted
    /// before it feeds, so that it does not come to that.
    pub(crate) fn feed(
        &mut self,
        alloc: Global,
        pad: u32,
        item: Item,
        out: &mut Outs,
    ) -> Result<(), Refused>
        requires no_flush { is_flush_stop item ≡ false }
        ensures took { OnOk result (Takes (JoinTook self.old.join) (JoinTook self.new.join) 1 pad item out.old out.new) }
        ensures stays { OnErr result ((behavior : Behavior) (took : List (List Call)) → JoinTook self.old.join behavior took
            → JoinTook self.new.join behavior took) }
        ensures refused { IfErr result (λ refusal. (behavior : Behavior) (took : List (List Call)) → JoinTook self.old.join behavior took
            → RefusesBy behavior took pad item refusal) }
        ensures cause { IfErr result (IsWriteCause None None) }
        ensures out { OnErr result (out.new ≡ out.old) }
    {
        let Some(wanted) = self.join.wants() else {
            return Err(unwanted(alloc));
        };
        if wanted != pad {
            return Err(unwanted(alloc));
        }
        match self.join.feed(alloc, pad, item, out) {
            Ok(_) => Ok(()),
            Err(fault) => Err(Refused::fault(alloc, fault)),
        }
    }
}

/// The answer to an item on a sink pad that is not wanted.
#[cold]
fn unwanted(alloc: Global) -> Refused
    ensures { result ≡ Fault Wanting }
{
    Refused::fault(alloc, ElementFault::OutOfMemory)
}
