//! Worked rows: what the definitions of flow_model give for small cases, computed by the checker.
#![tactic(auto)]

ghost use Rattle.model_rows.specs.Rows.{SourceRows, SinkRows, SectionRows, StickyRows, RuleRows, ChainRows};

/// What a file source owes for small contents and block sizes.
#[tactic(auto, using(crate::proofs::Rows::source_rows))]
pub fn source_rows()
    ensures { SourceRows }
{}

/// What the file of a sink holds: at a place, behind a hole, behind a flush and behind EOS.
#[tactic(auto, using(crate::proofs::Rows::sink_rows))]
pub fn sink_rows()
    ensures { SinkRows }
{}

/// What stands in the sections of a list, and what counts of it.
#[tactic(auto, using(crate::proofs::Rows::section_rows))]
pub fn section_rows()
    ensures { SectionRows }
{}

/// Which sticky events are in force.
#[tactic(auto, using(crate::proofs::Rows::sticky_rows))]
pub fn sticky_rows()
    ensures { StickyRows }
{}

/// What an element that passes all owes.
#[tactic(auto, using(crate::proofs::Rows::rule_rows))]
pub fn rule_rows()
    ensures { RuleRows }
{}

/// The histories of a chain with one passing element.
#[tactic(auto, using(crate::proofs::Rows::chain_rows))]
pub fn chain_rows()
    ensures { ChainRows }
{}
