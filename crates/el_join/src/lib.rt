//! Elements that join streams.
#![tactic(auto)]

ghost use Rattle.std.specs.Prelude.{◌≡◌, ℕ, List, [], replicate};
ghost use Rattle.flow_model.specs.Call.{Call};
ghost use Rattle.flow_model.specs.Prefix.{IsPrefix, ArePrefixes};
ghost use Rattle.flow_model.specs.Section.{IsPlain};
ghost use Rattle.el_join.specs.Concats.{concat_rule};
ghost use Rattle.el_join.specs.Laws.{FlushEnds, HandsEosOn, OnlyOpenGrows, PutsInOrder, WantsOpenPads};

pub mod concat;
mod inherited;
mod note;
mod pad;
mod pads;
mod room;
mod sums;
mod tally;
mod waiting;

pub use concat::Concat;

/// What streams one behind the other come to for beginnings of what the sink pads are given begins, in each section,
/// what they come to for the whole.
pub fn concat_in_order()
    ensures { (took more : List (List Call)) → ArePrefixes took more → (port j : ℕ) → IsPrefix (concat_rule took port j) (concat_rule more port j) }
{}

/// What was put out in the section that is open is all that is owed there, and begins what is owed for whatever the sink pads
/// are given further.
#[tactic(auto, using(crate::proofs::Sectioning::puts_in_order))]
pub fn puts_in_order()
    ensures { PutsInOrder }
{}

/// One more item adds to what is owed in the section that is open alone, and what is answered to it is what is owed more.
#[tactic(auto, using(crate::proofs::Sectioning::only_open_grows))]
pub fn only_open_grows()
    ensures { OnlyOpenGrows }
{}

/// Whatever the sink pads are given, no section has a FLUSH_STOP, or anything behind an EOS; and where they are given nothing,
/// nothing is owed.
pub fn concat_owes_plain()
    ensures plain { (took : List (List Call)) (port j : ℕ) → IsPlain (concat_rule took port j) }
    ensures opens { (pads port j : ℕ) → concat_rule (replicate pads []) port j ≡ [] }
{}

/// Where EOS came on each sink pad, the section that is open has EOS.
pub fn concat_hands_eos_on()
    ensures { HandsEosOn }
{}

/// The sink pad that is wanted is there; where none is, EOS came on each.
#[tactic(auto, using(crate::proofs::Handing::wants_open_pads))]
pub fn concat_wants_open_pads()
    ensures { WantsOpenPads }
{}

/// A flush ends the section that is open, and nothing is owed in the next.
#[tactic(auto, using(crate::proofs::Sectioning::flush_ends))]
pub fn flushes_end_sections()
    ensures { FlushEnds }
{}
