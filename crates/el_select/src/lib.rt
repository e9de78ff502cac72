//! The element that passes on the items of one of its sink pads.
#![tactic(auto)]

ghost use Rattle.std.specs.Prelude.{◌≡◌, ℕ, List, [], replicate};
ghost use Rattle.flow_model.specs.Call.{Call};
ghost use Rattle.flow_model.specs.Section.{IsPlain};
ghost use Rattle.el_select.specs.Selections.{Selection, select_rule};
ghost use Rattle.el_select.specs.Laws.{FlushEnds, HandsEosOn, OnlyOpenGrows, PutsAll, SelectionGrows, SelectsInOrder};

pub mod fault;
mod pad;
mod pads;
pub mod selector;

pub use fault::SelectFault;
pub use selector::Selector;

/// What is owed for beginnings of what the sink pads are given, which reach the places of the selections, begins what is owed
/// for the whole.
pub fn selects_in_order()
    ensures { SelectsInOrder }
{}

/// Whatever the sink pads are given, and wherever pads are selected, no section has a FLUSH_STOP, or anything behind an EOS; and
/// where they are given nothing, nothing is owed.
pub fn selector_owes_plain()
    ensures plain { (selections : List Selection) (took : List (List Call)) (port j : ℕ) → IsPlain (select_rule selections took port j) }
    ensures opens { (pads port j : ℕ) → select_rule [] (replicate pads []) port j ≡ [] }
{}

/// What was put out in the section that is open is all that is owed there.
pub fn selector_puts_all()
    ensures { PutsAll }
{}

/// One more item adds to what is owed in the section that is open alone, and what is answered to it is what is owed more.
#[tactic(auto, using(crate::proofs::Ordered::only_open_grows))]
pub fn only_open_grows()
    ensures { OnlyOpenGrows }
{}

/// A selection adds to what is owed in the section that is open alone: the sticky events in force of its pad.
#[tactic(auto, using(crate::proofs::Ordered::selection_grows))]
pub fn selections_grow()
    ensures { SelectionGrows }
{}

/// Where EOS came on each sink pad, the section that is open has EOS.
pub fn selector_hands_eos_on()
    ensures { HandsEosOn }
{}

/// A flush ends the section that is open, and nothing is owed in the next.
#[tactic(auto, using(crate::proofs::Ordered::flush_ends))]
pub fn flushes_end_sections()
    ensures { FlushEnds }
{}
