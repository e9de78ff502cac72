//! What commands make of a graph: the elements that were added, the links that were made and undone, and at which places; the plan by
//! which it is evaluated; and why two pads are not linked.

ghost use Rattle.graph_edits.specs.Ended.{EndsAreTold, StaysOpen};
ghost use Rattle.graph_edits.specs.Growing.{GrowthJoins, LinksStayExact, OneMoreEntry, StaysKept, StaysLawful};
ghost use Rattle.graph_edits.specs.Laws.{ActsAreEdits, NothingDone, RelinkSplits};
ghost use Rattle.graph_edits.specs.Rows.{FallingRows, FeederRows, LawfulRows, LoopRows, RelinkRows};

/// Links that commands undo and make change the plan of a graph as control's acts change that of a moment.
#[tactic(auto, using(crate::proofs::Laws::acts_are_edits))]
pub fn acts_are_edits()
    ensures { ActsAreEdits }
{}

/// A graph to which nothing was done has the rules and the links of its line.
#[tactic(auto, using(crate::proofs::Laws::nothing_done))]
pub fn nothing_done()
    ensures { NothingDone }
{}

/// A relink loses no item and gives none twice.
#[tactic(auto, using(crate::proofs::Laws::relink_splits))]
pub fn relink_splits()
    ensures { RelinkSplits }
{}

/// Relinks before a buffer, there and back, and a link that is undone with EOS.
#[tactic(auto, using(crate::proofs::Rows::relink_rows))]
pub fn relink_rows()
    ensures { RelinkRows }
{}

/// What a report may say of a relink: the place of the buffer, and neither one late nor one early.
#[tactic(auto, using(crate::proofs::Rows::lawful_rows))]
pub fn lawful_rows()
    ensures { LawfulRows }
{}

/// An answer alone may stand before the one before it: only a whole report tells that places never fall.
#[tactic(auto, using(crate::proofs::Rows::falling_rows))]
pub fn falling_rows()
    ensures { FallingRows }
{}

/// A link that was undone closes a loop too.
#[tactic(auto, using(crate::proofs::Rows::loop_rows))]
pub fn loop_rows()
    ensures { LoopRows }
{}

/// A sink that one task has fed is not linked to another task's pad.
#[tactic(auto, using(crate::proofs::Rows::feeder_rows))]
pub fn feeder_rows()
    ensures { FeederRows }
{}

/// Growth of what crossed the pads and is owed to them, and growth behind it, is growth.
#[tactic(auto, using(crate::proofs::Staying::growth_joins))]
pub fn growth_joins()
    ensures { GrowthJoins }
{}

/// From the start on the spans of a sink pad are within the histories, and no link stands among them but that of the graph.
#[tactic(auto, using(crate::proofs::Keeping::stays_kept))]
pub fn stays_kept()
    ensures { StaysKept }
{}

/// Where pads are linked once, a link stands among the spans of a sink pad exactly where the graph has one, behind each answer too.
#[tactic(auto, using(crate::proofs::LinksStanding::links_stay_exact))]
pub fn links_stay_exact()
    ensures { LinksStayExact }
{}

/// What was answered lawfully at a moment is lawful when more has crossed.
#[tactic(auto, using(crate::proofs::Staying::stays_lawful))]
pub fn stays_lawful()
    ensures { StaysLawful }
{}

/// The next command of a script is answered behind the others.
#[tactic(auto, using(crate::proofs::Following::one_more_entry))]
pub fn one_more_entry()
    ensures { OneMoreEntry }
{}

/// No link is made or undone behind EOS, and a sink pad is marked where its link was undone with EOS, behind each answer too.
#[tactic(auto, using(crate::proofs::Ended::stays_open))]
pub fn stays_open()
    ensures { StaysOpen }
{}

/// A sink pad has had EOS where EOS crossed the source pad of its link, and one without a link where a link to it was undone with EOS.
#[tactic(auto, using(crate::proofs::Ended::ends_are_told))]
pub fn ends_are_told()
    ensures { EndsAreTold }
{}
