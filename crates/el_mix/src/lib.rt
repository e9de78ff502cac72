//! The element that mixes channels, as GStreamer's interleave: worked rows of its rule, laws that it rests on, and its calls.
#![tactic(auto)]

mod channel;
mod due;
mod judge;
pub mod mix;
mod position;
mod stream;
mod template;
mod turns;
mod waiting;

ghost use Rattle.std.specs.Prelude.{◌≡◌, ℕ, List, [], replicate};
ghost use Rattle.flow_model.specs.Call.{Call};
ghost use Rattle.flow_model.specs.Section.{IsPlain};
ghost use Rattle.el_mix.specs.Handing.{HandsEosOn, WantsOpenPads};
ghost use Rattle.el_mix.specs.Law.{OwesBeginnings, OwesInOrder};
ghost use Rattle.el_mix.specs.Mixes.{mixes};
ghost use Rattle.el_mix.specs.Pieces.{BuffersGoOn, NextBuffer};
ghost use Rattle.el_mix.specs.Rows.{MixRows, RefusedRows, SectionRows, AnswerRows};
ghost use Rattle.el_mix.specs.Sections.{PadGoesOn, OwesMore, AnswersOwe, RefusedOwes, FlushEnds, KeepsOrder};

pub use mix::Mix;
pub use template::mono_template;

/// What the rule owes for two pads: where the output is cut, what is silent, and what waits.
#[tactic(auto, using(crate::proofs::Rows::mix_rows))]
pub fn mix_rows()
    ensures { MixRows }
{}

/// What is owed where an item is refused.
#[tactic(auto, using(crate::proofs::Rows::refused_rows))]
pub fn refused_rows()
    ensures { RefusedRows }
{}

/// What is owed before a flush and behind it.
#[tactic(auto, using(crate::proofs::Rows::section_rows))]
pub fn section_rows()
    ensures { SectionRows }
{}

/// What is answered to an item: what is owed more, nothing behind EOS, and why it is refused.
#[tactic(auto, using(crate::proofs::Rows::answer_rows))]
pub fn answer_rows()
    ensures { AnswerRows }
{}

/// What is owed for beginnings of the pads' lists begins what is owed for the whole lists, where in each section of which items
/// are left out the pads were fed in order.
#[tactic(auto, using(crate::proofs::Owing::owes_beginnings))]
pub fn owes_beginnings()
    ensures { OwesBeginnings }
{}

/// So what is owed for pads that were fed in order begins what is owed for whatever they are fed further.
#[tactic(auto, using(crate::proofs::Owing::owes_in_order))]
pub fn owes_in_order()
    ensures { OwesInOrder }
{}

/// One more item on a pad stands at the end of the pad's list in the open section. Behind EOS it does not count.
#[tactic(auto, using(crate::proofs::Opening::pad_goes_on))]
pub fn pads_go_on()
    ensures { PadGoesOn }
{}

/// With one more item the sections that are over stay as they were, and in the open one more is owed.
#[tactic(auto, using(crate::proofs::Opening::owes_more))]
pub fn items_owe_more()
    ensures { OwesMore }
{}

/// What is answered to an item is what is owed more for it.
#[tactic(auto, using(crate::proofs::Answering::answers_owe))]
pub fn answers_owe()
    ensures { AnswersOwe }
{}

/// What is refused owes nothing.
#[tactic(auto, using(crate::proofs::Refusing::refused_owes))]
pub fn refusals_owe_nothing()
    ensures { RefusedOwes }
{}

/// A flush ends the open section, and nothing is owed in the next.
#[tactic(auto, using(crate::proofs::Ordering::flush_ends))]
pub fn flushes_end_sections()
    ensures { FlushEnds }
{}

/// Pads were fed in order where each item is fed on a pad below which each pad has CAPS, inherited ones counted, or had EOS.
#[tactic(auto, using(crate::proofs::Ordering::keeps_order))]
pub fn feeding_keeps_order()
    ensures { KeepsOrder }
{}

/// How the output buffers go on: what is owed for longer lists is what was owed, and then the buffers from the place up to which
/// frames were owed. Each reaches from one cut point to the next.
pub fn buffers_go_on()
    ensures more { BuffersGoOn }
    ensures next { NextBuffer }
{}

/// Whatever the pads are given, no section has a FLUSH_STOP, or anything behind an EOS; and where they are given nothing, nothing
/// is owed.
pub fn mix_owes_plain()
    ensures plain { (took : List (List Call)) (port j : ℕ) → IsPlain (mixes took port j) }
    ensures opens { (pads port j : ℕ) → mixes (replicate pads []) port j ≡ [] }
{}

/// Where EOS came on each pad, the section that is open has EOS.
pub fn mix_hands_eos_on()
    ensures { HandsEosOn }
{}

/// The pad that is wanted is there, and each lower one has CAPS or had EOS; where none is wanted, EOS came on each.
#[tactic(auto, using(crate::proofs::Wanting::wants_open_pads))]
pub fn mix_wants_open_pads()
    ensures { WantsOpenPads }
{}
