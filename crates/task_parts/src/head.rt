//! Where the items of a task come from.
ghost use Rattle.std.specs.Prelude.{◌≡◌, ◌≤◌, ◌^◌, List, IfOk, IfErr, OnErr};
ghost use Rattle.flow_model.specs.Failures.{IsReadCause};
ghost use Rattle.gst_outside.specs.Causes.{NeverFalls};
ghost use Rattle.flow_model.specs.Gives.{Gives, count_after};
ghost use Rattle.flow_model.specs.Short.{StopsShort};
ghost use Rattle.task_parts.specs.declared.head.Given.TheVariants.{FlushStop as FlushGiven};
ghost use Rattle.flow_model.specs.Item.{Item};

use crate::find::MOST_ITEMS;
use flow_model::{TaskSource, Unread};
use gst_item::Item;
use inlet_row::InletRow;
use lane_core::{Inlet, Outlet};
use std::alloc::Global;
use task_pads::{Behind, Pad};

/// A source with its pad.
#[derive(Drop)]
pub struct SourceHead<S: TaskSource, O> {
    /// The number of the source in the graph.
    pub(crate) number: u32,
    pub(crate) source: S,
    pub(crate) pad: Pad<O>,
    /// How many items it gave.
    pub(crate) given: u64,
    ghost few: { S.count source ≤ given },
}

/// What feeds an element of the task: a queue, or a fan-in element.
#[derive(Drop)]
pub struct InletHead<I> {
    /// The number of the element in the graph, which is looked for first at the place `hint`.
    pub(crate) number: u32,
    pub(crate) hint: usize,
    /// What each of its sink pads is fed from, by number.
    pub(crate) rows: Vec<InletRow<I>>,
}

/// Where the items of a task come from.
#[derive(Drop)]
pub enum Head<S: TaskSource, I, O> {
    Source(SourceHead<S, O>),
    Inlets(InletHead<I>),
}

/// What a source that was asked did.
#[derive(Clone, Copy)]
pub(crate) enum Given {
    /// It gave an item, which waits at its pad.
    Item,
    /// It gave a FLUSH_STOP, which is dropped: no source gives one by itself.
    FlushStop,
    /// It has given all.
    Ended,
    /// It has given more than 2^40 items.
    AtLimit,
}

impl<S: TaskSource, O: Outlet> SourceHead<S, O> {
    ghost use Rattle.std.specs.Prelude.{None, Some};
    ghost use Rattle.task_pads.specs.Pads.{IsLed, IsProbed, rest_of};
    ghost use Rattle.task_parts.specs.Head.{IsSameSource, SourceGives, SourceKept};

    /// A source of this number that gave nothing, with its pad, which nothing crossed.
    pub fn new(number: u32, source: S, pad: Pad<O>) -> SourceHead<S, O>
        requires fresh { S.count source ≡ 0 }
        ensures number { result.number ≡ number }
        ensures source { result.source ≡ source }
        ensures pad { result.pad ≡ pad }
        ensures given { result.given ≡ 0 }
    {
        SourceHead {
            number,
            source,
            pad,
            given: 0,
        }
    }

    /// The source gives its next item, which waits at its pad. The memory for that is taken before it is asked.
    pub(crate) fn give(&mut self, alloc: Global) -> Result<Given, Unread>
        ensures gives { IfOk result (SourceGives self.old self.new) }
        ensures kept { OnErr result (SourceKept self.old self.new) }
        ensures cause { IfErr result (IsReadCause (S.failures self.old.source) (S.failures self.new.source)) }
        ensures short { IfErr result (λ unread. (owed given : List Item) → S.gave self.old.source owed given → StopsShort owed given unread) }
        ensures never_falls { NeverFalls (S.failures self.old.source) (S.failures self.new.source) }
        ensures file { S.file self.new.source ≡ S.file self.old.source }
        ensures number { self.new.number ≡ self.old.number }
        ensures rest { rest_of self.new.pad ≡ rest_of self.old.pad }
    {
        if self.given > MOST_ITEMS {
            return Ok(Given::AtLimit);
        }
        if self.pad.make_room().is_err() {
            return Err(Unread::OutOfMemory);
        }
        match ask(alloc, &mut self.source, &mut self.given) {
            Ok(Some(item)) => {
                if item.is_flush_stop() {
                    return Ok(give_up(item));
                }
                self.pad.push_reserved(item);
                Ok(Given::Item)
            }
            Ok(None) => Ok(Given::Ended),
            Err(unread) => Err(unread),
        }
    }

    /// The number of the source in the graph.
    pub fn number(&self) -> u32
        ensures { result ≡ self.now.number }
    {
        self.number
    }

    /// The source itself.
    pub fn source(&self) -> &S
        ensures { result.now ≡ self.now.source }
    {
        &self.source
    }

    /// Its source pad.
    pub fn pad(&self) -> &Pad<O>
        ensures { result.now ≡ self.now.pad }
    {
        &self.pad
    }

    /// Sets the probe of a command at its pad, which stops the buffer behind so many.
    pub fn block(&mut self, command: u32, buffers: u64)
        ensures probed { IsProbed self.old.pad self.new.pad (Some (record { command = command; buffers = buffers })) }
        ensures same { IsSameSource self.old self.new }
    {
        self.pad.block(command, buffers);
    }

    /// Takes the probe at its pad away.
    pub fn unblock(&mut self)
        ensures probed { IsProbed self.old.pad self.new.pad None }
        ensures same { IsSameSource self.old self.new }
    {
        self.pad.unblock();
    }

    /// Its pad leads elsewhere from now on. Where it led is given back; what waits at it stays.
    pub fn lead(&mut self, behind: Behind<O>) -> Behind<O>
        ensures led { IsLed self.old.pad self.new.pad behind }
        ensures was { result ≡ (rest_of self.old.pad).behind }
        ensures same { IsSameSource self.old self.new }
    {
        self.pad.lead(behind)
    }

    /// The source. What waited at its pad is given up.
    pub fn into_source(self) -> S
        ensures { result ≡ self.source }
    {
        let SourceHead { source, .. } = self;
        source
    }
}

impl<I> InletHead<I> {
    /// What feeds the element of this number, by its sink pads; it is looked for first at the place `hint`.
    pub fn new(number: u32, hint: usize, rows: Vec<InletRow<I>>) -> InletHead<I>
        ensures number { result.number ≡ number }
        ensures hint { result.hint ≡ hint }
        ensures rows { result.rows ≡ rows }
    {
        InletHead { number, hint, rows }
    }

    /// The number of the element, the place at which it is looked for first, and what its sink pads are fed from.
    pub fn into_parts(self) -> (u32, usize, Vec<InletRow<I>>)
        ensures number { result.0 ≡ self.number }
        ensures hint { result.1 ≡ self.hint }
        ensures rows { result.2 ≡ self.rows }
    {
        let InletHead { number, hint, rows } = self;
        (number, hint, rows)
    }
}

impl<I> InletHead<I> {
    /// The number of the element in the graph.
    pub fn number(&self) -> u32
        ensures { result ≡ self.now.number }
    {
        self.number
    }

    /// What its sink pads are fed from, by number.
    pub fn rows(&self) -> &[InletRow<I>]
        ensures { result.now ≡ self.now.rows.items }
    {
        self.rows.as_slice()
    }
}

impl<I: Inlet> InletHead<I> {
    ghost use Rattle.task_parts.specs.Ends.{received_among};

    /// How many items were received from the lane of this number. None where none of its sink pads is fed from it.
    pub fn received(&self, lane: u32) -> Option<u64>
        ensures { result ≡ received_among I.Inlet lane self.now.rows.items }
    {
        for port in 0..self.rows.len() {
            if let Some(count) = self.rows[port].received(lane) {
                return Some(count);
            }
        }
        None
    }
}

/// A source gives its next item, which is counted.
fn ask<S: TaskSource>(
    alloc: Global,
    source: &mut S,
    given: &mut u64,
) -> Result<Option<Item>, Unread>
    requires counts { S.count source.old ≤ given.old }
    requires few { given.old ≤ 2 ^ 40 }
    ensures gives { IfOk result (λ next. (owed given : List Item) → S.gave source.old owed given → Gives (S.gave source.new) owed given next) }
    ensures kept { OnErr result ((owed given : List Item) → S.gave source.old owed given → S.gave source.new owed given) }
    ensures counted { given.new ≡ count_after result given.old }
    ensures counts { S.count source.new ≤ given.new }
    ensures cause { IfErr result (IsReadCause (S.failures source.old) (S.failures source.new)) }
    ensures short { IfErr result (λ unread. (owed given : List Item) → S.gave source.old owed given → StopsShort owed given unread) }
    ensures never_falls { NeverFalls (S.failures source.old) (S.failures source.new) }
    ensures file { S.file source.new ≡ S.file source.old }
{
    match source.next(alloc) {
        Ok(Some(item)) => {
            *given += 1;
            Ok(Some(item))
        }
        Ok(None) => Ok(None),
        Err(unread) => Err(unread),
    }
}

/// A FLUSH_STOP is given up.
fn give_up(item: Item) -> Given
    ensures { result ≡ FlushGiven }
{
    drop(item);
    Given::FlushStop
}
