//! The elements between one sink pad and one source pad.
ghost use Rattle.std.specs.Prelude.{◌≡◌, ◌++◌, ◌∷◌, [], ℕ, List, false, IfOk, OnOk, OnErr, IfErr};
ghost use Rattle.flow_model.specs.Item.{Item, Ev, FlushStop, is_flush_stop};
ghost use Rattle.flow_model.specs.Call.{Call, Feed, Act, Drain};
ghost use Rattle.flow_model.specs.Rule.{Response};
ghost use Rattle.flow_model.specs.Feeding.{flow_behind, next_owed, IsFaultOf};

use el_basic::{CapsFilter, Identity, Valve};
use el_convert::Convert;
use el_law::Law;
use el_parse::{RawParse, Split};
use el_wav::WavParse;
use el_wavenc::WavEnc;
use flow_model::ElementFault;
use gst_item::{Flow, Item, Outs};
use gst_value::OutOfMemory;
use std::alloc::Global;

/// An element with one sink pad and one source pad, both of number 0.
#[derive(Drop)]
pub enum FilterElement {
    Identity(Identity),
    CapsFilter(CapsFilter),
    Valve(Valve),
    Convert(Convert),
    Law(Law),
    RawParse(RawParse),
    Split(Split),
    WavParse(WavParse),
    WavEnc(WavEnc),
}

impl FilterElement {
    ghost use Rattle.el_set.specs.Stands.{Stands, StandsAs, PutsOut, has_passed_eos};
    ghost use Rattle.flow_model.specs.Owed.{owed_at};

    /// Takes an item, and appends what it owes for it. Behind EOS, up to the next flush, the answer is `Flow::Eos`
    /// and nothing is put out, and else it is `Flow::Ok`. A fault is that of the element's rule at this item, or
    /// want of memory.
    #[inline(always)]
    pub fn feed(
        &mut self,
        alloc: Global,
        pad: u32,
        item: Item,
        out: &mut Outs,
    ) -> Result<Flow, ElementFault>
        requires pad { pad ≡ 0 }
        requires no_flush { is_flush_stop item ≡ false }
        ensures fed { IfOk result (λ flow. PutsOut self.old self.new (Feed item) out.old out.new) }
        ensures flow { IfOk result (λ flow. (respond : Response) (calls : List Call) (put : List Item) → Stands respond self.old calls put
            → flow ≡ flow_behind calls) }
        ensures stays { OnErr result (StandsAs self.old self.new) }
        ensures out { OnErr result (out.new ≡ out.old) }
        ensures fault { IfErr result
            (λ fault. (respond : Response) (calls : List Call) (put : List Item) → Stands respond self.old calls put
            → IsFaultOf (next_owed respond calls item) fault) }
    {
        match self {
            FilterElement::Identity(identity) => identity.feed(alloc, pad, item, out),
            FilterElement::CapsFilter(filter) => filter.feed(alloc, pad, item, out),
            FilterElement::Valve(valve) => valve.feed(alloc, pad, item, out),
            FilterElement::Convert(convert) => convert.feed(alloc, pad, item, out),
            FilterElement::Law(law) => law.feed(alloc, pad, item, out),
            FilterElement::RawParse(parser) => parser.feed(alloc, pad, item, out),
            FilterElement::Split(split) => split.feed(alloc, pad, item, out),
            FilterElement::WavParse(parser) => parser.feed(alloc, pad, item, out),
            FilterElement::WavEnc(encoder) => encoder.feed(alloc, pad, item, out),
        }
    }

    /// Begins a new section, behind a FLUSH_STOP of any number that crosses its source pad.
    pub fn flush(&mut self)
        ensures { (respond : Response) (calls : List Call) (put : List Item) (number : ℕ) → Stands respond self.old calls put
            → Stands respond self.new (calls ++ Feed (Ev (FlushStop number)) ∷ []) (put ++ Ev (FlushStop number) ∷ []) }
    {
        match self {
            FilterElement::Identity(identity) => identity.flush(),
            FilterElement::CapsFilter(filter) => filter.flush(),
            FilterElement::Valve(valve) => valve.flush(),
            FilterElement::Convert(convert) => convert.flush(),
            FilterElement::Law(law) => law.flush(),
            FilterElement::RawParse(parser) => parser.flush(),
            FilterElement::Split(split) => split.flush(),
            FilterElement::WavParse(parser) => parser.flush(),
            FilterElement::WavEnc(encoder) => encoder.flush(),
        }
    }

    /// Appends what EOS would make it put out, without the EOS. A fault is that of EOS.
    pub fn drain(&mut self, alloc: Global, out: &mut Outs) -> Result<(), ElementFault>
        ensures drained { OnOk result (PutsOut self.old self.new (Act Drain) out.old out.new) }
        ensures stays { OnErr result (StandsAs self.old self.new) }
        ensures out { OnErr result (out.new ≡ out.old) }
        ensures fault { IfErr result
            (λ fault. (respond : Response) (calls : List Call) (put : List Item) → Stands respond self.old calls put
            → IsFaultOf (owed_at respond calls (Act Drain)) fault) }
    {
        match self {
            FilterElement::Identity(identity) => identity.drain(alloc, out),
            FilterElement::CapsFilter(filter) => filter.drain(alloc, out),
            FilterElement::Valve(valve) => valve.drain(alloc, out),
            FilterElement::Convert(convert) => convert.drain(alloc, out),
            FilterElement::Law(law) => law.drain(alloc, out),
            FilterElement::RawParse(parser) => parser.drain(alloc, out),
            FilterElement::Split(split) => split.drain(alloc, out),
            FilterElement::WavParse(parser) => parser.drain(alloc, out),
            FilterElement::WavEnc(encoder) => encoder.drain(alloc, out),
        }
    }

    /// Whether it passes all, and EOS came since the last flush. Of the other elements it is not told.
    #[inline(always)]
    pub fn has_passed_eos(&self) -> bool
        ensures { result ≡ has_passed_eos self.now }
    {
        match self {
            FilterElement::Identity(identity) => identity.is_over(),
            _ => false,
        }
    }

    /// The same element once more.
    pub fn copy(&self, alloc: Global) -> Result<FilterElement, OutOfMemory>
        ensures { IfOk result (StandsAs self.now) }
    {
        match self {
            FilterElement::Identity(identity) => Ok(FilterElement::Identity(identity.copy(alloc)?)),
            FilterElement::CapsFilter(filter) => Ok(FilterElement::CapsFilter(filter.copy(alloc)?)),
            FilterElement::Valve(valve) => Ok(FilterElement::Valve(valve.copy(alloc)?)),
            FilterElement::Convert(convert) => Ok(FilterElement::Convert(convert.copy(alloc)?)),
            FilterElement::Law(law) => Ok(FilterElement::Law(law.copy(alloc)?)),
            FilterElement::RawParse(parser) => Ok(FilterElement::RawParse(parser.copy(alloc)?)),
            FilterElement::Split(split) => Ok(FilterElement::Split(split.copy(alloc)?)),
            FilterElement::WavParse(parser) => Ok(FilterElement::WavParse(parser.copy(alloc)?)),
            FilterElement::WavEnc(encoder) => Ok(FilterElement::WavEnc(encoder.copy(alloc)?)),
        }
    }
}
