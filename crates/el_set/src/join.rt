//! The elements with several sink pads.
ghost use Rattle.std.specs.Prelude.{◌≡◌, ◌<◌, List, true, false, IfOk, IfErr, OnOk, OnErr};
ghost use Rattle.flow_model.specs.Item.{Item, is_flush_stop};
ghost use Rattle.flow_model.specs.Call.{Call};
ghost use Rattle.flow_model.specs.Feeding.{flow_behind, IsFaultOf};
ghost use Rattle.flow_model.specs.SinkPads.{calls_at};

use el_join::Concat;
use el_mix::Mix;
use flow_model::ElementFault;
use gst_item::{Flow, Item, Outs};
use std::alloc::Global;

/// An element with several sink pads and one source pad, each numbered from 0.
#[derive(Drop)]
pub enum JoinElement {
    /// It puts the streams of its sink pads one behind the other.
    Concat(Concat),
    /// It mixes the streams of its sink pads, each a channel of its own.
    Mix(Mix),
}

impl JoinElement {
    ghost use Rattle.el_set.specs.Joins.{JoinStands, JoinPuts, join_answers, join_pads, join_wanted, may_take};

    /// Takes an item on a sink pad, and appends what it owes for it. Behind the EOS of that pad, up to the next flush, the
    /// answer is `Flow::Eos` and nothing is put out, and else it is `Flow::Ok`. A fault is that of the element's rule at
    /// this item, or want of memory. An interleave is fed in order: each pad below has CAPS or had EOS, as on the pad that
    /// it wants.
    #[inline(always)]
    pub fn feed(
        &mut self,
        alloc: Global,
        pad: u32,
        item: Item,
        out: &mut Outs,
    ) -> Result<Flow, ElementFault>
        requires pad { pad < join_pads self.old }
        requires order { may_take pad self.old ≡ true }
        requires no_flush { is_flush_stop item ≡ false }
        ensures puts { OnOk result (JoinPuts self.old self.new pad item out.old out.new) }
        ensures flow { IfOk result (λ flow. (took : List (List Call)) (put : List Item) → JoinStands self.old took put
            → flow ≡ flow_behind (calls_at pad took)) }
        ensures stays { OnErr result ((self.new ≡ self.old) × (out.new ≡ out.old)) }
        ensures fault { IfErr result
            (λ fault. (took : List (List Call)) (put : List Item) → JoinStands self.old took put → IsFaultOf (join_answers self.old took pad item) fault) }
    {
        match self {
            JoinElement::Concat(concat) => concat.feed(alloc, pad, item, out),
            JoinElement::Mix(mix) => mix.feed(alloc, pad, item, out),
        }
    }

    /// The sink pad from which it wants its next item: for a concat the lowest one without EOS since the last flush, and for
    /// an interleave the lowest one of those whose frames are waited for. None: all of them had EOS.
    pub fn wants(&self) -> Option<u32>
        ensures { result ≡ join_wanted self.now }
    {
        match self {
            JoinElement::Concat(concat) => concat.wants(),
            JoinElement::Mix(mix) => mix.wants(),
        }
    }
}
