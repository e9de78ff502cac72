//! Sink pads.
ghost use Rattle.std.specs.Prelude.{◌≡◌, ◌≤◌, ◌+◌, ◌++◌, ◌∷◌, [], false, if◌then◌else◌, Ok, None, Some, map, length, vec_len, vec_capacity, IfOk, OnOk, OnErr, IfErr};
ghost use Rattle.flow_model.specs.Sticky.{has_flush_stop};
ghost use Rattle.flow_model.specs.Item.{is_flush_stop};
ghost use Rattle.flow_model.specs.Feeding.{on_pad};
ghost use Rattle.flow_model.specs.Rule.{TooLong};
ghost use Rattle.el_join.specs.Outs.{items_of, fault_in, IsDue};
ghost use Rattle.el_join.specs.Totals.{raised, lifted, with_tally};

use crate::inherited::Inherited;
use crate::note::Note;
use crate::sums::{Excess, Sums};
use crate::tally::Tally;
use crate::waiting::Waiting;
use flow_model::ElementFault;
use gst_item::{Event, Item, Out, Outs};
use gst_value::OutOfMemory;
use std::alloc::Global;
use std::collections::VecDeque;

/// What a sink pad knows of the items that it was given.
#[derive(Drop)]
pub(crate) struct Facts {
    pub(crate) inherited: Inherited,
    /// Whether it was given an item in this section.
    pub(crate) begun: bool,
    pub(crate) ended: bool,
    pub(crate) tally: Tally,
}

impl Facts {
    ghost use Rattle.el_join.specs.Pads.{opening_of, note_of, noted, ended, cleared, no_facts, laid};

    /// That it was given nothing.
    pub(crate) fn new() -> Facts
        ensures { result ≡ no_facts }
    {
        Facts {
            inherited: Inherited::new(),
            begun: false,
            ended: false,
            tally: Tally::new(),
        }
    }

    /// What goes out in front of the next item.
    pub(crate) fn opening(&self, alloc: Global) -> Result<VecDeque<Out>, OutOfMemory>
        ensures { IfOk result (λ made. made.items ≡ on_pad 0 (opening_of self.now.begun self.now.inherited)) }
    {
        if self.begun {
            return Ok(VecDeque::new(alloc));
        }
        self.inherited.events(alloc)
    }

    /// Puts an item out that is not EOS, behind the earlier pads. It is this pad's turn.
    pub(crate) fn pass(
        &mut self,
        alloc: Global,
        sums: Sums,
        item: Item,
        out: &mut Outs,
    ) -> Result<(), ElementFault>
        ensures out { OnOk result (out.new ≡ out.old ++ on_pad 0 (opening_of self.old.begun self.old.inherited ++ lifted sums item ∷ [])) }
        ensures fits { OnOk result (raised sums item ≡ Ok (lifted sums item)) }
        ensures noted { OnOk result (self.new ≡ noted self.old (note_of item)) }
        ensures stays { OnErr result ((self.new ≡ self.old) × (out.new ≡ out.old)) }
        ensures fault { IfErr result (λ fault. IsDue (fault_in (raised sums item ∷ [])) fault) }
    {
        sums.check(&item)?;
        let note = Note::of(alloc, &item)?;
        self.put_out(alloc, sums.lift(item), out)?;
        self.note(note);
        Ok(())
    }

    /// Puts an item out, and in front of the first one what is inherited.
    fn put_out(&self, alloc: Global, item: Item, out: &mut Outs) -> Result<(), OutOfMemory>
        ensures ok { OnOk result (out.new ≡ out.old ++ on_pad 0 (opening_of self.now.begun self.now.inherited ++ item ∷ [])) }
        ensures err { OnErr result (out.new ≡ out.old) }
    {
        if self.begun {
            return out.push(alloc, Out { pad: 0, item });
        }
        let mut line = self.inherited.events(alloc)?;
        line.push_back(Out { pad: 0, item })?;
        out.pour(alloc, &mut line)
    }

    /// Takes EOS.
    pub(crate) fn end(&mut self)
        ensures { self.new ≡ ended self.old }
    {
        self.begun = true;
        self.ended = true;
    }

    /// Begins a new section.
    pub(crate) fn clear(&mut self)
        ensures { self.new ≡ cleared self.old }
    {
        self.begun = false;
        self.ended = false;
        self.tally = Tally::new();
    }

    /// Takes an event that only the next section has of it.
    pub(crate) fn lay(&mut self, event: Event)
        ensures { self.new ≡ laid self.old event }
    {
        if self.ended {
            return;
        }
        match event {
            Event::StreamStart { id } => put(&mut self.inherited.stream_start, Some(id)),
            Event::Caps(caps) => put(&mut self.inherited.caps, Some(caps)),
            Event::Tag { title } => put(&mut self.inherited.tag, Some(title)),
            _ => {}
        }
    }

    /// Notes an item that it was given.
    #[inline]
    fn note(&mut self, note: Note)
        ensures { self.new ≡ noted self.old note }
    {
        self.begun = true;
        match note {
            Note::Buffer { end, bytes } => self.tally.count(end, bytes),
            Note::StreamStart(id) => put(&mut self.inherited.stream_start, Some(id)),
            Note::Caps(caps) => put(&mut self.inherited.caps, Some(caps)),
            Note::Segment(segment) => put(&mut self.tally.segment, Some(segment)),
            Note::Tag(title) => put(&mut self.inherited.tag, Some(title)),
            Note::Other => {}
        }
    }
}

/// A sink pad.
#[derive(Drop)]
pub(crate) struct Pad {
    pub(crate) facts: Facts,
    /// What came before it was its turn.
    pub(crate) waiting: Waiting,
}

impl Pad {
    ghost use Rattle.el_join.specs.Pads.{opening_of, note_of, noted, ended, cleared, no_facts, laid, taken, brought};

    /// A pad that was given nothing.
    pub(crate) fn new(alloc: Global) -> Pad
        ensures facts { result.facts ≡ no_facts }
        ensures waiting { result.waiting ≡ [] }
    {
        Pad {
            facts: Facts::new(),
            waiting: Waiting::new(alloc),
        }
    }

    /// Whether it had EOS in this section.
    #[inline(always)]
    pub(crate) fn has_ended(&self) -> bool
        ensures { result ≡ self.now.facts.ended }
    {
        self.facts.ended
    }

    /// What goes out in front of the next item.
    pub(crate) fn opening(&self, alloc: Global) -> Result<VecDeque<Out>, OutOfMemory>
        ensures { IfOk result (λ made. made.items ≡ on_pad 0 (opening_of self.now.facts.begun self.now.facts.inherited)) }
    {
        self.facts.opening(alloc)
    }

    /// What the earlier pads came to, with this one.
    pub(crate) fn add_to(&self, sums: Sums) -> Sums
        ensures { result ≡ with_tally sums self.now.facts.tally }
    {
        sums.with(&self.facts.tally)
    }

    /// Puts an item out that is not EOS, behind the earlier pads. It is this pad's turn.
    #[inline(always)]
    pub(crate) fn pass(
        &mut self,
        alloc: Global,
        sums: Sums,
        item: Item,
        out: &mut Outs,
    ) -> Result<(), ElementFault>
        ensures out { OnOk result (out.new
            ≡ out.old ++ on_pad 0 (opening_of self.old.facts.begun self.old.facts.inherited ++ lifted sums item ∷ [])) }
        ensures fits { OnOk result (raised sums item ≡ Ok (lifted sums item)) }
        ensures facts { OnOk result (self.new.facts ≡ noted self.old.facts (note_of item)) }
        ensures waiting { OnOk result (self.new.waiting ≡ self.old.waiting) }
        ensures stays { OnErr result ((self.new ≡ self.old) × (out.new ≡ out.old)) }
        ensures fault { IfErr result (λ fault. IsDue (fault_in (raised sums item ∷ [])) fault) }
    {
        self.facts.pass(alloc, sums, item, out)
    }

    /// Takes EOS. It is this pad's turn.
    pub(crate) fn end(&mut self)
        ensures facts { self.new.facts ≡ ended self.old.facts }
        ensures waiting { self.new.waiting ≡ self.old.waiting }
    {
        self.facts.end();
    }

    /// How many items wait.
    pub(crate) fn waits(&self) -> usize
        ensures { result ≡ length self.now.waiting }
    {
        self.waiting.len()
    }

    /// Whether all that waits fits behind earlier pads.
    pub(crate) fn check(&self, sums: Sums) -> Result<(), Excess>
        ensures ok { OnOk result (fault_in (map (raised sums) (items_of self.now.waiting)) ≡ None) }
        ensures err { IfErr result (λ excess. fault_in (map (raised sums) (items_of self.now.waiting)) ≡ Some (TooLong excess.a excess.b)) }
    {
        self.waiting.check(sums)
    }

    /// Moves what waits behind what was put out, as it goes out behind earlier pads. Where it had EOS the answer is what
    /// these came to, with this one.
    pub(crate) fn pour(&mut self, sums: Sums, into: &mut Vec<Out>) -> Option<Sums>
        requires room { vec_len into.old + length self.old.waiting ≤ vec_capacity into.old }
        ensures behind { result ≡ (if self.old.facts.ended then Some (with_tally sums self.old.facts.tally) else None) }
        ensures into { into.new.items ≡ into.old.items ++ on_pad 0 (map (lifted sums) (items_of self.old.waiting)) }
        ensures len { vec_len into.new ≡ vec_len into.old + length self.old.waiting }
        ensures capacity { vec_capacity into.new ≡ vec_capacity into.old }
        ensures free { has_flush_stop (items_of self.old.waiting) ≡ false }
        ensures taken { self.new.waiting ≡ [] }
        ensures facts { self.new.facts ≡ self.old.facts }
    {
        self.waiting.pour(sums, into);
        if self.facts.ended {
            Some(self.add_to(sums))
        } else {
            None
        }
    }

    /// Takes an event that only the next section has of it.
    pub(crate) fn lay(&mut self, event: Event)
        ensures facts { self.new.facts ≡ laid self.old.facts event }
        ensures waiting { self.new.waiting ≡ self.old.waiting }
    {
        self.facts.lay(event);
    }

    /// Keeps an item until it is this pad's turn.
    pub(crate) fn keep(&mut self, alloc: Global, item: Item) -> Result<(), OutOfMemory>
        requires { is_flush_stop item ≡ false }
        ensures waiting { OnOk result (self.new.waiting ≡ self.old.waiting ++ on_pad 0 (brought self.old.facts item)) }
        ensures facts { OnOk result (self.new.facts ≡ taken self.old.facts item) }
        ensures stays { OnErr result (self.new ≡ self.old) }
    {
        if item.is_eos() {
            return self.keep_end(alloc);
        }
        self.keep_item(alloc, item)
    }

    fn keep_item(&mut self, alloc: Global, item: Item) -> Result<(), OutOfMemory>
        requires { is_flush_stop item ≡ false }
        ensures waiting { OnOk result (self.new.waiting
            ≡ self.old.waiting ++ on_pad 0 (opening_of self.old.facts.begun self.old.facts.inherited ++ item ∷ [])) }
        ensures facts { OnOk result (self.new.facts ≡ noted self.old.facts (note_of item)) }
        ensures stays { OnErr result (self.new ≡ self.old) }
    {
        let note = Note::of(alloc, &item)?;
        let mut line = self.facts.opening(alloc)?;
        line.push_back(Out { pad: 0, item })?;
        self.waiting.add(line)?;
        self.facts.note(note);
        Ok(())
    }

    fn keep_end(&mut self, alloc: Global) -> Result<(), OutOfMemory>
        ensures waiting { OnOk result (self.new.waiting ≡ self.old.waiting ++ on_pad 0 (opening_of self.old.facts.begun self.old.facts.inherited)) }
        ensures facts { OnOk result (self.new.facts ≡ ended self.old.facts) }
        ensures stays { OnErr result (self.new ≡ self.old) }
    {
        let line = self.facts.opening(alloc)?;
        self.waiting.add(line)?;
        self.facts.end();
        Ok(())
    }

    /// Begins a new section.
    pub(crate) fn clear(&mut self)
        ensures facts { self.new.facts ≡ cleared self.old.facts }
        ensures waiting { self.new.waiting ≡ [] }
    {
        self.facts.clear();
        self.waiting.clear();
    }
}

/// Gives up what a slot holds for something else.
fn put<T: Drop>(slot: &mut Option<T>, value: Option<T>)
    ensures { slot.new ≡ value }
{
    *slot = value;
}
