//! Tasks.
ghost use Rattle.std.specs.Prelude.{◌≡◌, true};
ghost use Rattle.task_parts.specs.Idle.{idle_before};
ghost use Rattle.task_parts.specs.Shape.{is_closed, shape_of};

use crate::answers::{step_of, with_next};
use flow_model::{TaskElement, TaskSource};
use lane_core::{Inlet, Outlet};
use std::alloc::Global;
use task_parts::{
    Failure, Head, Part, Step, Tried, cross_part, cross_source, first_busy, give, sent, settle,
    take,
};

/// A task: a head, and elements with their source pads, in the order in which these are tried: those that stand farthest
/// from the head first, and the pads of one element by number. Nothing waits at those before the place `from`.
#[derive(Drop)]
pub struct Task<S: TaskSource, E: TaskElement, I: Inlet<Out = O>, O: Outlet<Lanes = I::Lanes>> {
    head: Head<S, I, O>,
    parts: Vec<Part<E, O>>,
    from: usize,
    ghost closed: { is_closed (shape_of head parts.items) ≡ true },
    ghost idle: { idle_before from parts.items ≡ true },
}

impl<S: TaskSource, E: TaskElement, I: Inlet<Out = O>, O: Outlet<Lanes = I::Lanes>> Task<
    S,
    E,
    I,
    O,
> {
    ghost use Rattle.std.specs.Prelude.{◌≤◌, ◌<◌, IfOk, IfErr, OnOk, vec_len};
    ghost use Rattle.flow_model.specs.Moment.{Moment};
    ghost use Rattle.task_parts.specs.Passing.{HasPort};
    ghost use Rattle.inlet_row.specs.Feed.{first_some};
    ghost use Rattle.task_parts.specs.Ends.{sent_among};
    ghost use Rattle.net_task.specs.Counted.{received_by, sent_by_head};
    ghost use Rattle.net_task.specs.Failed.{HasFailed};
    ghost use Rattle.net_task.specs.Frame.{frame_of};
    ghost use Rattle.net_task.specs.Fuel.{Burns, moves_left};
    ghost use Rattle.net_task.specs.Moves.{Steps};
    ghost use Rattle.net_task.specs.Ready.{IsReady, LeavesReady};
    ghost use Rattle.net_task.specs.Reasons.{HeadIdle, Why};
    ghost use Rattle.net_task.specs.Ties.{Ties};
    ghost use Rattle.net_task.specs.Tries.{AskFault, AsksHead, PadFault, PadTries, PadsTry, SettledAt, StaysSettled};
    ghost use Rattle.net_task.specs.Tries.{PartFault, PartTries, PartsFault, PartsTry, SourceFault, SourceTries};

    /// A task of these parts that moved nothing yet. Each element that a pad or the head names is one of them.
    pub fn new(head: Head<S, I, O>, parts: Vec<Part<E, O>>) -> Task<S, E, I, O>
        requires closed { is_closed (shape_of head parts.items) ≡ true }
        ensures head { result.head ≡ head }
        ensures parts { result.parts ≡ parts }
    {
        Task {
            head,
            parts,
            from: 0,
        }
    }

    /// One step: an item that waits crosses its pad, or, where none waits, the head gives or takes its next one.
    ///
    /// The elements' pads are tried in their order, and then the pad of a source; the first item that can cross does. A
    /// refused put into a full lane does not keep items at other pads from moving on.
    pub fn step(&mut self, alloc: Global, lanes: &mut I::Lanes) -> Result<Step, Failure>
        requires ready { IsReady (O.tells lanes.old) self.old }
        ensures steps { IfOk result (λ step. (m : Moment) → Ties self.old m → Steps (O.tells lanes.old) (O.tells lanes.new) self.old self.new m step) }
        ensures why { IfOk result (λ step. (m : Moment) → Ties self.old m → Why (O.tells lanes.old) self.old self.new m step) }
        ensures faults { IfErr result (HasFailed (O.tells lanes.old) (O.tells lanes.new) self.old self.new) }
        ensures frame { (frame_of self.new ≡ frame_of self.old) × OnOk result (LeavesReady (O.tells lanes.old) (O.tells lanes.new) self.old self.new) }
        ensures counts { IfOk result (Burns (moves_left self.old) (moves_left self.new)) }
    {
        match self.try_pads(alloc, lanes) {
            Ok(Tried::Idle) => self.ask_head(alloc, lanes),
            Ok(Tried::Stuck(step)) => Ok(step),
            Ok(Tried::Moved) => Ok(Step::Moved),
            Err(failure) => Err(failure),
        }
    }

    /// The first item that can cross a pad does: one of an element, or else that of the source.
    fn try_pads(&mut self, alloc: Global, lanes: &mut I::Lanes) -> Result<Tried, Failure>
        requires ready { IsReady (O.tells lanes.old) self.old }
        ensures tries { IfOk result (PadsTry (O.tells lanes.old) (O.tells lanes.new) self.old self.new) }
        ensures faults { IfErr result (HasFailed (O.tells lanes.old) (O.tells lanes.new) self.old self.new) }
        ensures frame { frame_of self.new ≡ frame_of self.old }
    {
        let tried = self.try_parts(alloc, lanes)?;
        if let Tried::Moved = tried {
            return Ok(tried);
        }
        let next = self.try_head(alloc, lanes)?;
        Ok(with_next(tried, next))
    }

    /// The first item that can cross a pad of the elements does.
    fn try_parts(&mut self, alloc: Global, lanes: &mut I::Lanes) -> Result<Tried, Failure>
        requires ready { IsReady (O.tells lanes.old) self.old }
        ensures tries { IfOk result (PartsTry (O.tells lanes.old) (O.tells lanes.new) self.old self.new) }
        ensures faults { IfErr result (PartsFault (O.tells lanes.old) (O.tells lanes.new) self.old self.new) }
        ensures frame { frame_of self.new ≡ frame_of self.old }
        ensures head { self.new.head ≡ self.old.head }
    {
        self.from = first_busy(self.parts.as_slice(), self.from);
        let mut tried = Tried::Idle;
        for place in self.from..self.parts.len() {
            tried = with_next(tried, self.try_part(alloc, lanes, place)?);
            if let Tried::Moved = tried {
                return Ok(tried);
            }
        }
        Ok(tried)
    }

    /// The first item that can cross a pad of the element at a place does.
    fn try_part(
        &mut self,
        alloc: Global,
        lanes: &mut I::Lanes,
        place: usize,
    ) -> Result<Tried, Failure>
        requires place { place < vec_len self.old.parts }
        requires from { self.old.from ≤ place }
        requires ready { IsReady (O.tells lanes.old) self.old }
        ensures tries { IfOk result (PartTries (O.tells lanes.old) (O.tells lanes.new) self.old self.new place) }
        ensures from { self.new.from ≤ self.old.from }
        ensures faults { IfErr result (PartFault (O.tells lanes.old) (O.tells lanes.new) self.old self.new place) }
        ensures frame { frame_of self.new ≡ frame_of self.old }
        ensures head { self.new.head ≡ self.old.head }
    {
        if settle(alloc, &mut self.parts, place).is_err() {
            return Err(Failure::out_of_memory());
        }
        let first = self.parts[place].first_waiting();
        let mut tried = Tried::Idle;
        for port in first..self.parts[place].pads().len() {
            tried = with_next(tried, self.try_pad(alloc, lanes, place, port)?);
            if let Tried::Moved = tried {
                return Ok(tried);
            }
        }
        Ok(tried)
    }

    /// The oldest item that waits at the pad of a port of the element at a place crosses it, if it can.
    fn try_pad(
        &mut self,
        alloc: Global,
        lanes: &mut I::Lanes,
        place: usize,
        port: usize,
    ) -> Result<Tried, Failure>
        requires at { HasPort self.old.parts.items place port }
        requires from { self.old.from ≤ place }
        requires settled { SettledAt self.old.parts.items place }
        requires ready { IsReady (O.tells lanes.old) self.old }
        ensures tries { IfOk result (PadTries (O.tells lanes.old) (O.tells lanes.new) self.old self.new place port) }
        ensures settled { IfOk result (StaysSettled self.new.parts.items place) }
        ensures from { self.new.from ≤ self.old.from }
        ensures faults { IfErr result (PadFault (O.tells lanes.old) (O.tells lanes.new) self.old self.new place port) }
        ensures frame { frame_of self.new ≡ frame_of self.old }
        ensures head { self.new.head ≡ self.old.head }
    {
        cross_part(alloc, &mut self.parts, lanes, place, port, &mut self.from)
    }

    /// The item that waits at a source's pad crosses it, if it can.
    fn try_head(&mut self, alloc: Global, lanes: &mut I::Lanes) -> Result<Tried, Failure>
        requires ready { IsReady (O.tells lanes.old) self.old }
        ensures tries { IfOk result (SourceTries (O.tells lanes.old) (O.tells lanes.new) self.old self.new) }
        ensures faults { IfErr result (SourceFault (O.tells lanes.old) (O.tells lanes.new) self.old self.new) }
        ensures frame { frame_of self.new ≡ frame_of self.old }
    {
        match &mut self.head {
            Head::Source(head) => {
                cross_source(alloc, head, &mut self.parts, lanes, &mut self.from)
            }
            Head::Inlets(_) => Ok(Tried::Idle),
        }
    }

    /// Where nothing waits at any pad: the head gives or takes its next item, if there is one now.
    fn ask_head(&mut self, alloc: Global, lanes: &mut I::Lanes) -> Result<Step, Failure>
        requires ready { IsReady (O.tells lanes.old) self.old }
        requires idle { HeadIdle self.old.head }
        ensures asks { IfOk result (AsksHead (O.tells lanes.old) (O.tells lanes.new) self.old self.new) }
        ensures faults { IfErr result (AskFault (O.tells lanes.old) (O.tells lanes.new) self.old self.new) }
        ensures frame { frame_of self.new ≡ frame_of self.old }
    {
        match &mut self.head {
            Head::Source(head) => step_of(give(alloc, head)),
            Head::Inlets(head) => {
                step_of(take(alloc, head, &mut self.parts, lanes, &mut self.from))
            }
        }
    }

    /// How many items it sent into the lane of this number. None where none of its pads leads there.
    pub fn sent(&self, lane: u32) -> Option<u64>
        ensures { result ≡ first_some (sent_by_head O.Outlet lane self.now.head) (sent_among O.Outlet lane self.now.parts.items) }
    {
        if let Head::Source(head) = &self.head {
            if let Some(count) = head.pad().sent(lane) {
                return Some(count);
            }
        }
        sent(self.parts.as_slice(), lane)
    }

    /// How many items it received from the lane of this number. None where its head is not fed from it.
    pub fn received(&self, lane: u32) -> Option<u64>
        ensures { result ≡ received_by I.Inlet lane self.now.head }
    {
        match &self.head {
            Head::Source(_) => None,
            Head::Inlets(head) => head.received(lane),
        }
    }

    /// Where its items come from.
    pub fn head(&self) -> &Head<S, I, O>
        ensures { result.now ≡ self.now.head }
    {
        &self.head
    }

    /// Its elements with their source pads, in the order in which these are tried.
    pub fn parts(&self) -> &[Part<E, O>]
        ensures { result.now ≡ self.now.parts.items }
    {
        self.parts.as_slice()
    }

    /// The head and the elements.
    pub fn into_parts(self) -> (Head<S, I, O>, Vec<Part<E, O>>)
        ensures head { result.0 ≡ self.head }
        ensures parts { result.1 ≡ self.parts }
    {
        let Task { head, parts, .. } = self;
        (head, parts)
    }
}
