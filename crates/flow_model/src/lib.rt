//! The definitions of histories, rules and evaluation that all crates share, and the laws over them.
#![tactic(auto)]

ghost use Rattle.std.specs.Prelude.{◌≡◌, ℕ, List, []};
ghost use Rattle.flow_model.specs.Item.{Item};
ghost use Rattle.flow_model.specs.Prefix.{IsPrefix};
ghost use Rattle.flow_model.specs.Call.{Call};
ghost use Rattle.flow_model.specs.Rule.{Response, owed_for};
ghost use Rattle.flow_model.specs.Eval.{Plan, eval};
ghost use Rattle.flow_model.specs.Account.{GoesForward, Each, Agrees, IsMember};

pub mod element;
pub mod fault;
pub mod moments;
mod outputs;
pub mod refusal;
pub mod source;

pub use element::TaskElement;
pub use fault::{ElementFault, StreamKind};
pub use moments::{
    acts_keep, elements_begin, ends_are_whole, eos_comes, faults_keep, moments_are_eval,
    openings_stand, others_may_move, single_elements_owe, sources_owe, steps_keep,
    tasks_come_together,
};
pub use outputs::{on_pad, put_out};
pub use refusal::{Mismatch, Refusal, Refused, Unread, Why};
pub use source::TaskSource;

/// What an element with one sink pad owes for a beginning of what it is given begins what it owes for the whole.
#[tactic(auto, using(crate::proofs::Sections::owed_for_prefix))]
pub fn owes_in_order()
    ensures { (respond : Response) (calls more : List Call) → IsPrefix calls more → IsPrefix (owed_for respond calls) (owed_for respond more) }
{}

/// From the parts to the whole: lists that agree at each element of a graph are the histories of its evaluation.
#[tactic(auto, using(crate::proofs::Whole::parts_to_whole))]
pub fn parts_to_whole()
    ensures { (plan : Plan) (h : ℕ → List Item) → GoesForward plan [] plan.forward → Each (Agrees plan h) plan.forward
        → (p : ℕ) → IsMember (plan.owner p) plan.forward → eval plan p ≡ h p }
{}
