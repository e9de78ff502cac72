//! How control answers the next command of a run.
ghost use Rattle.std.specs.Prelude.{◌≡◌, ◌<◌, true, false, Ok, Some, None, IfErr, IfOk, OnOk, vec_len, vec_capacity};
ghost use Rattle.net_turns.specs.Net.{NetReady};
ghost use Rattle.graph_edits.specs.Edited.{Edited};
ghost use Rattle.graph_edits.specs.Graph.{IsEdited};
ghost use Rattle.edit_core.specs.declared.deciding.Deed.TheVariants.{Relink};
ghost use Rattle.world_core.specs.Answering.{ActFails, ActsOn, CanBeAnswered, CarryFails, IsCarriedOut, IsEntered, NothingCanBeDone, RulesNext, SetsAside, room_for, room_into};
ghost use Rattle.world_core.specs.Running.{IsSetAside, KeepsElements, KeepsTurns, commands_left, tells_of};
ghost use Rattle.world_core.specs.declared.watching.Watch.TheVariants.{Unasked};

use crate::able::{AskedLane, asked_lane, can_do};
use crate::lanes::new_link;
use crate::running::{RunFault, Running};
use crate::watching::Watch;
use edit_acts::{Outcome, TakenOut, do_deed, relink_over};
use edit_core::laws::deeds_are_answers;
use edit_core::{Deed, Ruling, decide};
use flow_model::{TaskElement, TaskSource};
use gst_value::{List, OutOfMemory};
use lane_core::{Inlet, MemInlet, MemOutlet, Outlet};
use net_edits::EditFault;
use net_edits::laws::{lane_is_new, lane_more_ready, lane_more_stands};
use script_text::{Answer, Entry, Place};
use std::alloc::Global;

impl<S: TaskSource, E: TaskElement> Running<S, E, MemInlet, MemOutlet> {
    /// Answers the next command, if it can be answered now. Tells whether it was.
    pub(crate) fn answer_next(&mut self, alloc: Global) -> Result<bool, RunFault>
        requires ready { NetReady self.old.tasks.items (tells_of self.old) }
        ensures ready { OnOk result (NetReady self.new.tasks.items (tells_of self.new)) }
        ensures acted { result ≡ Ok true → ActsOn self.old self.new }
        ensures waits { result ≡ Ok false → NothingCanBeDone self.old × (self.new ≡ self.old) }
        ensures failed { IfErr result (ActFails self.old self.new) }
        ensures less { result ≡ Ok true → commands_left self.new < commands_left self.old }
        ensures unasked { result ≡ Ok true → self.new.watch ≡ Unasked }
        ensures probing { self.new.probing ≡ self.old.probing }
        ensures elements { KeepsElements self.old self.new }
    {
        deeds_are_answers();
        match self.rule_next(alloc) {
            Ok(None) => Ok(false),
            Ok(Some(Ruling::Waits)) => Ok(false),
            Ok(Some(Ruling::Answered { answer })) => {
                self.enter(answer);
                Ok(true)
            }
            Ok(
                Some(
                    Ruling::ToDo {
                        deed,
                        items,
                        places,
                    },
                ),
            ) => self.carry_out(alloc, deed, items, places),
            Err(_) => Err(RunFault::OutOfMemory),
        }
    }

    /// Does what the next command asks for.
    fn carry_out(
        &mut self,
        alloc: Global,
        deed: Deed,
        items: u64,
        places: List<Place>,
    ) -> Result<bool, RunFault>
        requires some { vec_len self.old.entries < vec_len self.old.script }
        requires ready { NetReady self.old.tasks.items (tells_of self.old) }
        ensures ready { OnOk result (NetReady self.new.tasks.items (tells_of self.new)) }
        ensures done { IfOk result (λ done. (done ≡ true) × IsCarriedOut self.old self.new deed items places) }
        ensures aside { OnOk result (SetsAside self.old self.new deed) }
        ensures unasked { OnOk result (self.new.watch ≡ Unasked) }
        ensures failed { IfErr result (CarryFails self.old self.new deed items places) }
        ensures probing { self.new.probing ≡ self.old.probing }
        ensures elements { KeepsElements self.old self.new }
    {
        if !can_do(&self.graph, deed) {
            return Err(RunFault::Undone);
        }
        match asked_lane(&self.graph, deed) {
            Some(asked) => self.link_over_lane(alloc, asked, items, places),
            None => self.do_without_lane(alloc, deed, items, places),
        }
    }

    /// Links a source pad over a new lane, as the next command asks for. Where that can't be done the lane stays in the table.
    fn link_over_lane(
        &mut self,
        alloc: Global,
        asked: AskedLane,
        items: u64,
        places: List<Place>,
    ) -> Result<bool, RunFault>
        requires some { vec_len self.old.entries < vec_len self.old.script }
        requires ready { NetReady self.old.tasks.items (tells_of self.old) }
        requires can { (g : Edited) → IsEdited self.old.graph g → CanBeAnswered g (Relink asked.source asked.sink) }
        requires fed { (g : Edited) → IsEdited self.old.graph g → room_into g asked.sink.element ≡ Some asked.room }
        ensures ready { OnOk result (NetReady self.new.tasks.items (tells_of self.new)) }
        ensures done { IfOk result (λ done. (done ≡ true) × IsCarriedOut self.old self.new (Relink asked.source asked.sink) items places) }
        ensures turns { KeepsTurns self.old self.new }
        ensures unasked { OnOk result (self.new.watch ≡ Unasked) }
        ensures failed { IfErr result (CarryFails self.old self.new (Relink asked.source asked.sink) items places) }
        ensures probing { self.new.probing ≡ self.old.probing }
        ensures elements { KeepsElements self.old self.new }
    {
        lane_more_stands::<S, E, MemInlet, MemOutlet>();
        lane_more_ready::<S, E, MemInlet, MemOutlet>();
        lane_is_new::<S, E, MemInlet, MemOutlet>();
        let to = match new_link(alloc, &mut self.lanes, asked.sink, asked.room) {
            Ok(to) => to,
            Err(_) => return Err(RunFault::OutOfMemory),
        };
        match relink_over(
            alloc,
            &mut self.graph,
            &mut self.feeds,
            &mut self.tasks,
            asked.source,
            asked.sink,
            items,
            to,
        ) {
            Ok(true) => {
                self.enter(Answer::Done { places });
                Ok(true)
            }
            Ok(false) => Err(RunFault::Undone),
            Err(_) => Err(RunFault::OutOfMemory),
        }
    }
}

impl<S: TaskSource, E: TaskElement, I: Inlet<Out = O>, O: Outlet<Lanes = I::Lanes>> Running<
    S,
    E,
    I,
    O,
> {
    /// What becomes of the next command. None where no command is left.
    fn rule_next(&self, alloc: Global) -> Result<Option<Ruling>, OutOfMemory>
        ensures { IfOk result (RulesNext self.now) }
    {
        match self.script.get(self.entries.len()) {
            Some(command) => {
                let ruling = decide(alloc, &self.graph, &self.feeds, &self.tasks, command)?;
                Ok(Some(ruling))
            }
            None => Ok(None),
        }
    }

    /// Does what the next command asks for, where that makes no lane.
    fn do_without_lane(
        &mut self,
        alloc: Global,
        deed: Deed,
        items: u64,
        places: List<Place>,
    ) -> Result<bool, RunFault>
        requires some { vec_len self.old.entries < vec_len self.old.script }
        requires can { (g : Edited) → IsEdited self.old.graph g → CanBeAnswered g deed }
        requires unfed { (g : Edited) → IsEdited self.old.graph g → room_for g deed ≡ None }
        ensures ready { NetReady self.old.tasks.items (tells_of self.old) → NetReady self.new.tasks.items (tells_of self.new) }
        ensures done { IfOk result (λ done. (done ≡ true) × IsCarriedOut self.old self.new deed items places) }
        ensures aside { OnOk result (SetsAside self.old self.new deed) }
        ensures unasked { OnOk result (self.new.watch ≡ Unasked) }
        ensures failed { IfErr result (CarryFails self.old self.new deed items places) }
        ensures probing { self.new.probing ≡ self.old.probing }
        ensures elements { KeepsElements self.old self.new }
    {
        if self.removed.reserve(1).is_err() {
            return Err(RunFault::OutOfMemory);
        }
        match do_deed(
            alloc,
            &mut self.graph,
            &mut self.feeds,
            &mut self.tasks,
            deed,
            items,
        ) {
            Ok(Outcome::Done) => {
                self.enter(Answer::Done { places });
                Ok(true)
            }
            Ok(Outcome::TakenOut { taken }) => {
                self.set_aside(taken);
                self.enter(Answer::Done { places });
                Ok(true)
            }
            Ok(Outcome::Undone) => Err(RunFault::Undone),
            Err(EditFault::OutOfMemory) => Err(RunFault::OutOfMemory),
            Err(EditFault::Failed(stopped)) => {
                self.enter(Answer::Done { places });
                Err(RunFault::Stopped { stopped })
            }
        }
    }

    /// Keeps a task that was taken out to the end of the run, with the file that it has open.
    fn set_aside(&mut self, taken: TakenOut<S, E, I, O>)
        requires room { vec_len self.old.removed < vec_capacity self.old.removed }
        ensures { IsSetAside self.old self.new taken }
    {
        if taken.place < self.taking {
            self.taking -= 1;
        }
        self.removed.push_reserved(taken.task);
    }

    /// The next command is answered so, and the one behind it is still to be looked up.
    fn enter(&mut self, answer: Answer)
        requires some { vec_len self.old.entries < vec_len self.old.script }
        ensures { IsEntered self.old self.new answer }
    {
        self.entries.push_reserved(Entry { answer });
        self.watch = Watch::Unasked;
    }
}
