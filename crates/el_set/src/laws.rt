//! Laws of elements. Each function does nothing: its contract is the law.
ghost use Rattle.std.specs.Prelude.{◌≡◌, ◌<◌, ◌∷◌, ℕ, List, [], Ok, Some, None, true, false, All, length, replicate};
ghost use Rattle.gst_caps.specs.declared.caps.Caps.{Caps};
ghost use Rattle.el_basic.specs.Filters.{filters};
ghost use Rattle.audio_info.specs.Templates.{raw_template as split_template};
ghost use Rattle.el_settings.specs.Asked.{template_of};
ghost use Rattle.el_set.specs.Denoted.{response_of};
ghost use Rattle.el_settings.specs.declared.settings.AudioBufferSplitSettings.{AudioBufferSplitSettings};
ghost use Rattle.el_settings.specs.declared.settings.Settings.{Settings};
ghost use Rattle.el_settings.specs.declared.settings.Settings.TheVariants.{AudioBufferSplit as Splitting, WavEnc as WritingWav};
ghost use Rattle.audio_info.specs.Templates.{wav_template as wavenc_template};
ghost use Rattle.flow_model.specs.Item.{Item, eos_among, is_flush_stop};
ghost use Rattle.flow_model.specs.Call.{Call, Feed, feeds};
ghost use Rattle.flow_model.specs.Prefix.{IsPrefix, ArePrefixes};
ghost use Rattle.flow_model.specs.SinkPads.{InSection, push_calls};
ghost use Rattle.flow_model.specs.Sticky.{has_flush_stop, in_force};
ghost use Rattle.flow_model.specs.Section.{section, IsPlain};
ghost use Rattle.flow_model.specs.Rule.{Response, unfed, all_called, owed_for, passes};
ghost use Rattle.flow_model.specs.Feeding.{has_eos, next_owed};
ghost use Rattle.gst_item.specs.Item.{has_item};
ghost use Rattle.el_set.specs.declared.filter.FilterElement.{FilterElement};
ghost use Rattle.el_set.specs.declared.join.JoinElement.{JoinElement};
ghost use Rattle.el_set.specs.Joins.{EachEnded, JoinStands, OpenGrows, join_answers, join_pads, join_rule, join_wanted, may_take};
ghost use Rattle.el_set.specs.Stands.{Stands};
ghost use Rattle.el_set.specs.Ends.{MeetsNoFault, EndsWithEos, RowEndsWithEos};

/// What an element put out is what its rule owes for what it was given.
#[tactic(auto, using(crate::proofs::Elements::elements_owe))]
pub fn elements_owe()
    ensures { (respond : Response) (element : FilterElement) (calls : List Call) (put : List Item) → Stands respond element calls put
        → put ≡ owed_for respond calls }
{}

/// A section of an element is over exactly where it was fed EOS, and by no fault of the rule.
#[tactic(auto, using(crate::proofs::Elements::sections_end_by_eos))]
pub fn sections_end_by_eos()
    ensures { (respond : Response) (element : FilterElement) (calls : List Call) (put : List Item) → Stands respond element calls put
        → (all_called respond unfed calls).over ≡ has_eos calls }
{}

/// Behind EOS, up to the next flush, an element owes nothing for an item.
#[tactic(auto, using(crate::proofs::Elements::nothing_behind_eos))]
pub fn nothing_behind_eos()
    ensures { (respond : Response) (element : FilterElement) (calls : List Call) (put : List Item) (x : Item) → Stands respond element calls put
        → has_eos calls ≡ true → next_owed respond calls x ≡ Ok [] }
{}

/// EOS was put out since the last FLUSH_STOP exactly where it was fed since.
#[tactic(auto, using(crate::proofs::Elements::eos_goes_through))]
pub fn eos_goes_through()
    ensures { (respond : Response) (element : FilterElement) (calls : List Call) (put : List Item) → Stands respond element calls put
        → has_item (in_force put).eos ≡ has_eos calls }
{}

/// In no section an element puts out anything behind EOS.
#[tactic(auto, using(crate::proofs::Elements::nothing_goes_behind_eos))]
pub fn nothing_goes_behind_eos()
    ensures { (respond : Response) (element : FilterElement) (calls : List Call) (put : List Item) (j : ℕ) → Stands respond element calls put
        → IsPlain (section j put) }
{}

/// What an element put out for a list has EOS exactly where the list has it.
#[tactic(auto, using(crate::proofs::Elements::put_has_eos))]
pub fn put_has_eos()
    ensures { (respond : Response) (element : FilterElement) (list put : List Item) → Stands respond element (feeds list) put → eos_among put ≡ eos_among list }
{}

/// What an element put out for a list without FLUSH_STOP has none, and nothing behind an EOS.
#[tactic(auto, using(crate::proofs::Elements::put_is_plain))]
pub fn put_is_plain()
    ensures { (respond : Response) (element : FilterElement) (list put : List Item) → has_flush_stop list ≡ false → Stands respond element (feeds list) put
        → IsPlain put }
{}

/// Of the rule of an element alone: behind an EOS it owes nothing, and where it meets no fault it owes an EOS exactly
/// where one was fed.
#[tactic(auto, using(crate::proofs::Elements::rules_end_with_eos))]
pub fn rules_end_with_eos()
    ensures { (respond : Response) (element : FilterElement) (calls : List Call) (put : List Item) → Stands respond element calls put → EndsWithEos respond }
{}

/// The same of the rule that passes all, of each filter's, and of the rule of all settings.
#[tactic(auto, using(crate::proofs::Ends::passes_ends, crate::proofs::Ends::filters_ends, crate::proofs::SettingRules::settings_end))]
pub fn every_rule_ends_with_eos()
    ensures passing { EndsWithEos passes }
    ensures filtering { (first : Caps) → EndsWithEos (filters first) }
    ensures settings { (settings : Settings) → EndsWithEos (response_of settings) }
{}

/// The same along a row of such rules, each of which is fed all that the one before it owes.
#[tactic(auto, using(crate::proofs::Ends::rows_end_with_eos))]
pub fn rows_end_with_eos()
    ensures { (rules : List Response) → All EndsWithEos rules → RowEndsWithEos rules }
{}

/// An element that took a list without FLUSH_STOP met no fault at any item of it.
#[tactic(auto, using(crate::proofs::Elements::no_fault_was_met))]
pub fn no_fault_was_met()
    ensures { (respond : Response) (element : FilterElement) (list put : List Item) → has_flush_stop list ≡ false → Stands respond element (feeds list) put
        → MeetsNoFault respond list }
{}

/// Whatever the sink pads of an element with several of them are given, in no section it owes a FLUSH_STOP, or anything behind
/// an EOS; and where they are given nothing, it owes nothing.
pub fn joins_owe_plain()
    ensures plain { (join : JoinElement) (given : List (List Call)) (port j : ℕ) → IsPlain (join_rule join given port j) }
    ensures opens { (join : JoinElement) (pads port j : ℕ) → join_rule join (replicate pads []) port j ≡ [] }
{}

/// What such an element owes for what it took begins what it owes for whatever its sink pads are given further.
pub fn joins_owe_in_order()
    ensures { (join : JoinElement) (took whole : List (List Call)) (put : List Item) → JoinStands join took put → ArePrefixes took whole
        → (port j : ℕ) → IsPrefix (join_rule join took port j) (join_rule join whole port j) }
{}

/// What such an element answers to an item is what it owes more, in the section that is open.
pub fn joins_owe_more()
    ensures { (join : JoinElement) (pad : ℕ) (item : Item) (more : List Item) (took : List (List Call)) (put : List Item) (n : ℕ) → JoinStands join took put
        → pad < length took → is_flush_stop item ≡ false → InSection n took → join_answers join took pad item ≡ Ok more
        → OpenGrows (join_rule join) took (push_calls pad (Feed item ∷ []) took) n more }
{}

/// Such an element hands EOS on: where EOS came on each of its sink pads, the section that is open has EOS.
pub fn joins_end_with_eos()
    ensures { (join : JoinElement) (took : List (List Call)) (put : List Item) (n : ℕ) → JoinStands join took put → 0 < length took → InSection n took
        → EachEnded took → (port : ℕ) → eos_among (join_rule join took port n) ≡ true }
{}

/// The sink pad that such an element wants is there, and it may take an item on it; where it wants none, EOS came on each.
pub fn joins_want_open_pads()
    ensures pads { (join : JoinElement) (took : List (List Call)) (put : List Item) → JoinStands join took put → length took ≡ join_pads join }
    ensures within { (join : JoinElement) (pad : ℕ) → join_wanted join ≡ Some pad → pad < join_pads join }
    ensures order { (join : JoinElement) (took : List (List Call)) (put : List Item) (pad : ℕ) → JoinStands join took put → join_wanted join ≡ Some pad
        → may_take pad join ≡ true }
    ensures none { (join : JoinElement) (took : List (List Call)) (put : List Item) → JoinStands join took put → join_wanted join ≡ None → EachEnded took }
{}

/// The template of a sink pad is the one that its element tells where it refuses caps: wavenc before its CAPS are
/// settled, audiobuffersplit always.
#[tactic(auto, using(crate::proofs::ToldTemplates::wavenc_tells, crate::proofs::ToldTemplates::split_tells))]
pub fn templates_are_told()
    ensures wavenc { template_of WritingWav true ≡ wavenc_template }
    ensures split { (settings : AudioBufferSplitSettings) → template_of (Splitting settings) true ≡ split_template }
{}
