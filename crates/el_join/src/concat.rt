//! The element that puts streams one behind the other, as GStreamer's concat.
ghost use Rattle.std.specs.Prelude.{◌≡◌, ◌<◌, ◌^◌, vec_len};

use crate::pad::Pad;
use crate::pads::{clear_all, end_turn, new_pads};
use crate::sums::Sums;
use flow_model::ElementFault;
use gst_item::{Event, Flow, Item, Outs};
use gst_value::OutOfMemory;
use std::alloc::Global;

/// Puts the streams of its sink pads out one behind the other, by number. It has one source pad, of number 0.
#[derive(Drop)]
pub struct Concat {
    pads: Vec<Pad>,
    /// The lowest pad that has had no EOS in this section, and the number of pads where there is none.
    turn: usize,
    /// What the pads before it came to.
    sums: Sums,
    ghost few: { vec_len pads < 2 ^ 32 },
}

impl Concat {
    ghost use Rattle.std.specs.Prelude.{◌≢◌, ◌∷◌, [], ℕ, List, true, false, Some, replicate, IfOk, IfErr, OnOk, OnErr, IsOk};
    ghost use Rattle.gst_item.specs.declared.out.Out.{Out};
    ghost use Rattle.flow_model.specs.Item.{Item, Ev, Eos, FlushStop, is_flush_stop, is_eos};
    ghost use Rattle.flow_model.specs.Call.{Call, Feed};
    ghost use Rattle.flow_model.specs.Feeding.{flow_behind, IsFaultOf};
    ghost use Rattle.flow_model.specs.SinkPads.{push_calls, push_each, calls_at};
    ghost use Rattle.el_join.specs.declared.pad.Pad.{Pad};
    ghost use Rattle.el_join.specs.Concats.{concat_answers};
    ghost use Rattle.el_join.specs.Joins.{Joins, JoinPuts, Remembers, HasNoEos, sink_pads, wanted, first_open};
    ghost use Rattle.flow_model.specs.Inherited.{is_inherited};

    /// An element of so many sink pads, at most 64, that was fed nothing yet.
    pub fn new(alloc: Global, pads: u32) -> Result<Concat, OutOfMemory>
        ensures pads { IfOk result (λ made. sink_pads made ≡ pads) }
        ensures joins { IfOk result (λ made. Joins made (replicate pads []) []) }
    {
        Ok(Concat {
            pads: new_pads(alloc, pads)?,
            turn: 0,
            sums: Sums::new(),
        })
    }

    /// Takes an item on a sink pad. Behind the EOS of that pad, up to the next flush, the answer is `Flow::Eos` and
    /// nothing is put out, and else it is `Flow::Ok`. The pads' items go out in the order of the pads, and a pad's items
    /// wait until each pad before it had EOS; behind the EOS of the last pad EOS goes out. With the first item of a
    /// section the STREAM_START, CAPS and TAG that the pad had before go out. A SEGMENT in time goes out with its base
    /// raised by the sum, over the earlier pads, of the greatest running time of the end of a buffer, in nanoseconds, and
    /// one in bytes with start, position and stop raised by the bytes in their buffers. Where a sum is `LIMIT` or more,
    /// the item at which the SEGMENT would go out is `TooLong`, with what stood before and what is added.
    pub fn feed(
        &mut self,
        alloc: Global,
        pad: u32,
        item: Item,
        out: &mut Outs,
    ) -> Result<Flow, ElementFault>
        requires pad { pad < sink_pads self.old }
        requires no_flush { is_flush_stop item ≡ false }
        ensures puts { OnOk result (JoinPuts self.old self.new pad item out.old out.new) }
        ensures flow { IfOk result (λ flow. (took : List (List Call)) (put : List Item) → Joins self.old took put → flow ≡ flow_behind (calls_at pad took)) }
        ensures stays { OnErr result ((self.new ≡ self.old) × (out.new ≡ out.old)) }
        ensures fault { IfErr result
            (λ fault. (took : List (List Call)) (put : List Item) → Joins self.old took put → IsFaultOf (concat_answers took pad item) fault) }
        ensures pads { sink_pads self.new ≡ sink_pads self.old }
    {
        let place = pad as usize;
        if self.pads[place].has_ended() {
            return Ok(Flow::Eos);
        }
        self.take(alloc, place, item, out)?;
        Ok(Flow::Ok)
    }

    /// Takes an event that only the next section has of it: STREAM_START, CAPS or TAG. It counts as the last item that
    /// the pad was given before the next flush.
    pub fn lay(&mut self, pad: u32, event: Event)
        requires pad { pad < sink_pads self.old }
        requires inherited { is_inherited event ≡ true }
        ensures laid { (took : List (List Call)) → Remembers self.old took → Remembers self.new (push_calls pad (Feed (Ev event) ∷ []) took) }
        ensures pads { sink_pads self.new ≡ sink_pads self.old }
    {
        self.pads[pad as usize].lay(event);
    }

    /// Begins a new section, behind a FLUSH_STOP of any number that crosses its source pad.
    pub fn flush(&mut self)
        ensures flushed { (took : List (List Call)) (number : ℕ) → Remembers self.old took
            → Joins self.new (push_each (Feed (Ev (FlushStop number)) ∷ []) took) [] }
        ensures pads { sink_pads self.new ≡ sink_pads self.old }
    {
        clear_all(&mut self.pads);
        self.turn = 0;
        self.sums = Sums::new();
    }

    /// Puts out what it holds back, which is nothing: what came early waits for its turn.
    pub fn drain(&mut self, _alloc: Global, _out: &mut Outs) -> Result<(), ElementFault>
        ensures ok { IsOk result }
        ensures same { self.new ≡ self.old }
        ensures out { _out.new ≡ _out.old }
    {
        Ok(())
    }

    /// How many sink pads it has.
    pub fn pad_count(&self) -> u32
        ensures { result ≡ sink_pads self.now }
    {
        self.pads.len() as u32
    }

    /// The pad in turn: the lowest one that has had no EOS since the last flush. None: all of them had one.
    pub fn wants(&self) -> Option<u32>
        ensures wanted { result ≡ wanted self.now }
        ensures first { (took : List (List Call)) (put : List Item) → Joins self.now took put → result ≡ first_open 0 took }
    {
        if self.turn < self.pads.len() {
            Some(self.turn as u32)
        } else {
            None
        }
    }

    /// Takes an item on a pad that had no EOS.
    fn take(
        &mut self,
        alloc: Global,
        pad: usize,
        item: Item,
        out: &mut Outs,
    ) -> Result<(), ElementFault>
        requires pad { pad < sink_pads self.old }
        requires no_flush { is_flush_stop item ≡ false }
        requires runs { HasNoEos self.old pad }
        ensures puts { OnOk result (JoinPuts self.old self.new pad item out.old out.new) }
        ensures stays { OnErr result ((self.new ≡ self.old) × (out.new ≡ out.old)) }
        ensures fault { IfErr result
            (λ fault. (took : List (List Call)) (put : List Item) → Joins self.old took put → IsFaultOf (concat_answers took pad item) fault) }
        ensures pads { sink_pads self.new ≡ sink_pads self.old }
    {
        if pad != self.turn {
            self.keep(alloc, pad, item)?;
            return Ok(());
        }
        if item.is_eos() {
            return self.end(alloc, out);
        }
        self.pass(alloc, item, out)
    }

    /// Keeps an item until its pad is in turn.
    fn keep(&mut self, alloc: Global, pad: usize, item: Item) -> Result<(), OutOfMemory>
        requires pad { pad < sink_pads self.old }
        requires no_flush { is_flush_stop item ≡ false }
        requires runs { HasNoEos self.old pad }
        requires other { pad ≢ self.old.turn }
        ensures puts { OnOk result ((out : List Out) → JoinPuts self.old self.new pad item out out) }
        ensures stays { OnErr result (self.new ≡ self.old) }
        ensures pads { sink_pads self.new ≡ sink_pads self.old }
    {
        self.pads[pad].keep(alloc, item)
    }

    /// Takes EOS on the pad in turn.
    fn end(&mut self, alloc: Global, out: &mut Outs) -> Result<(), ElementFault>
        requires turn { self.old.turn < sink_pads self.old }
        requires runs { HasNoEos self.old self.old.turn }
        ensures puts { OnOk result (JoinPuts self.old self.new self.old.turn (Ev Eos) out.old out.new) }
        ensures stays { OnErr result ((self.new ≡ self.old) × (out.new ≡ out.old)) }
        ensures fault { IfErr result (λ fault. (took : List (List Call)) (put : List Item) → Joins self.old took put
            → IsFaultOf (concat_answers took self.old.turn (Ev Eos)) fault) }
        ensures pads { sink_pads self.new ≡ sink_pads self.old }
    {
        end_turn(alloc, &mut self.pads, &mut self.turn, &mut self.sums, out)
    }

    /// Puts an item that is not EOS out on the pad in turn.
    fn pass(&mut self, alloc: Global, item: Item, out: &mut Outs) -> Result<(), ElementFault>
        requires turn { self.old.turn < sink_pads self.old }
        requires no_flush { is_flush_stop item ≡ false }
        requires no_end { is_eos item ≡ false }
        requires runs { HasNoEos self.old self.old.turn }
        ensures puts { OnOk result (JoinPuts self.old self.new self.old.turn item out.old out.new) }
        ensures stays { OnErr result ((self.new ≡ self.old) × (out.new ≡ out.old)) }
        ensures fault { IfErr result
            (λ fault. (took : List (List Call)) (put : List Item) → Joins self.old took put → IsFaultOf (concat_answers took self.old.turn item) fault) }
        ensures pads { sink_pads self.new ≡ sink_pads self.old }
    {
        self.pads[self.turn].pass(alloc, self.sums, item, out)
    }
}
