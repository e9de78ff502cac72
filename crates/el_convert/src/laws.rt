//! Laws of a converter. Each function does nothing: its contract is the law.
ghost use Rattle.std.specs.Prelude.{◌≡◌, List};
ghost use Rattle.gst_caps.specs.declared.caps.Caps.{Caps};
ghost use Rattle.flow_model.specs.Item.{Item};
ghost use Rattle.flow_model.specs.Call.{Call};
ghost use Rattle.flow_model.specs.Rule.{unfed, owed_for};
ghost use Rattle.flow_model.specs.Feeding.{next_owed};
ghost use Rattle.el_convert.specs.Converts.{converts};
ghost use Rattle.el_convert.specs.Placed.{converts_placed, settings_in, unset, TakesAll};

/// A setting of the allowed caps counts from its place in what is put out, the number of the items that were put out
/// before it. Where no item among the calls is a fault, the rule that finds settings among the calls and the one that
/// finds them by their places owe the same, and so they do for the next item, which may be a fault. Behind a fault a
/// stream goes no further, and a setting that comes there has the same place as the item at fault.
#[tactic(auto, using(crate::proofs::Placing::settings_count))]
pub fn settings_count_in_output()
    ensures owed { (first : Caps) (calls : List Call) → TakesAll (converts first) unfed calls
        → owed_for (converts first) calls ≡ owed_for (converts_placed first (settings_in first unfed calls)) (unset calls) }
    ensures next { (first : Caps) (calls : List Call) (x : Item) → TakesAll (converts first) unfed calls
        → next_owed (converts first) calls x ≡ next_owed (converts_placed first (settings_in first unfed calls)) (unset calls) x }
{}
