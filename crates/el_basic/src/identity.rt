//! The element that passes all, as GStreamer's identity.
ghost use Rattle.std.specs.Prelude.{◌≡◌, ◌++◌, ◌∷◌, [], ℕ, List, false, IfOk, OnErr, IfErr, IsOk};
ghost use Rattle.flow_model.specs.Item.{Item, Ev, FlushStop, is_flush_stop};
ghost use Rattle.flow_model.specs.Call.{Call, Feed, Act, Drain};
ghost use Rattle.flow_model.specs.Rule.{passes};
ghost use Rattle.flow_model.specs.Feeding.{flow_behind, passed, on_pad, next_owed, IsFaultOf};
ghost use Rattle.el_basic.specs.Passed.{Passed, has_ended};

use flow_model::{ElementFault, put_out};
use gst_item::{Flow, Item, Outs};
use gst_value::OutOfMemory;
use std::alloc::Global;

/// Puts each item out as it is. It has one sink pad and one source pad, both of number 0.
#[derive(Drop)]
pub struct Identity {
    ended: bool,
}

impl Identity {
    /// An element that was fed nothing yet.
    pub fn new() -> Identity
        ensures passed { Passed result [] [] }
        ensures open { has_ended result ≡ false }
    {
        Identity { ended: false }
    }

    /// Takes an item. Behind EOS, up to the next flush, the answer is `Flow::Eos` and nothing is put out, and
    /// else it is `Flow::Ok` and the item is put out. The only fault is want of memory.
    #[inline(always)]
    pub fn feed(
        &mut self,
        alloc: Global,
        _pad: u32,
        item: Item,
        out: &mut Outs,
    ) -> Result<Flow, ElementFault>
        requires pad { _pad ≡ 0 }
        requires no_flush { is_flush_stop item ≡ false }
        ensures out { IfOk result (λ flow. out.new ≡ out.old ++ on_pad 0 (passed flow item)) }
        ensures fed { IfOk result (λ flow. (calls : List Call) (put : List Item) → Passed self.old calls put
            → Passed self.new (calls ++ Feed item ∷ []) (put ++ passed flow item)) }
        ensures flow { IfOk result (λ flow. (calls : List Call) (put : List Item) → Passed self.old calls put → flow ≡ flow_behind calls) }
        ensures stays { OnErr result ((self.new ≡ self.old) × (out.new ≡ out.old)) }
        ensures fault { IfErr result
            (λ fault. (calls : List Call) (put : List Item) → Passed self.old calls put → IsFaultOf (next_owed passes calls item) fault) }
    {
        if self.ended {
            return Ok(Flow::Eos);
        }
        let ends = item.is_eos();
        put_out(alloc, item, out)?;
        self.ended = ends;
        Ok(Flow::Ok)
    }

    /// Begins a new section, behind a FLUSH_STOP of any number that crosses its source pad.
    pub fn flush(&mut self)
        ensures { (calls : List Call) (put : List Item) (number : ℕ) → Passed self.old calls put
            → Passed self.new (calls ++ Feed (Ev (FlushStop number)) ∷ []) (put ++ Ev (FlushStop number) ∷ []) }
    {
        self.ended = false;
    }

    /// Puts out what it holds back, which is nothing.
    pub fn drain(&mut self, _alloc: Global, _out: &mut Outs) -> Result<(), ElementFault>
        ensures ok { IsOk result }
        ensures out { _out.new ≡ _out.old }
        ensures drained { (calls : List Call) (put : List Item) → Passed self.old calls put → Passed self.new (calls ++ Act Drain ∷ []) put }
    {
        Ok(())
    }

    /// Whether its section is over: EOS came, and no flush behind it.
    #[inline(always)]
    pub fn is_over(&self) -> bool
        ensures { result ≡ has_ended self.now }
    {
        self.ended
    }

    /// The same element once more.
    pub fn copy(&self, _alloc: Global) -> Result<Identity, OutOfMemory>
        ensures { IfOk result (λ made. made ≡ self.now) }
    {
        Ok(Identity { ended: self.ended })
    }
}
