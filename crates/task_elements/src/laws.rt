//! Laws of the elements of a stream. Each function does nothing: its contract is the law.
ghost use Rattle.std.specs.Prelude.{◌≡◌, ◌<◌, ◌⊎◌, ℕ, true, false, List, [], None, Some, length, replicate};
ghost use Rattle.flow_model.specs.Call.{Call};
ghost use Rattle.flow_model.specs.Section.{IsPlain};
ghost use Rattle.flow_model.specs.Moment.{Behavior};
ghost use Rattle.flow_model.specs.Whole.{OwesInOrder};
ghost use Rattle.flow_model.specs.Over.{list_ended, AllEnded};
ghost use Rattle.flow_model.specs.Feeding.{has_eos};
ghost use Rattle.flow_model.specs.SinkPads.{InSection, calls_at};
ghost use Rattle.el_set.specs.Passing.{PassesEach};
ghost use Rattle.task_elements.specs.Ended.{FirstEnded};
ghost use Rattle.task_elements.specs.Stands.{StreamStands, is_join, pads_of, sinks_of, wanted_of};
ghost use Rattle.task_elements.specs.declared.element.StreamElement.{StreamElement};

use gst_outside::Sink;

/// Of the rule of what an element stands for: whatever it is given, in no section it owes anything behind an EOS, nor a
/// FLUSH_STOP; what it owes for what it took begins what it owes for more; and for nothing it owes nothing.
pub fn rules_of_elements<K: Sink>()
    ensures plain { (element : StreamElement K) (behavior : Behavior) (took : List (List Call)) → StreamStands K.bytes element behavior took
        → (given : List (List Call)) (port j : ℕ) → IsPlain (behavior.owes given port j) }
    ensures in_order { (element : StreamElement K) (behavior : Behavior) (took : List (List Call)) → StreamStands K.bytes element behavior took
        → OwesInOrder behavior.owes took }
    ensures opens { (element : StreamElement K) (behavior : Behavior) (took : List (List Call)) → StreamStands K.bytes element behavior took
        → (pads port j : ℕ) → behavior.owes (replicate pads []) port j ≡ [] }
{}

/// An element hands EOS on: where it took EOS at each of its sink pads, of which it has one at least, and no FLUSH_STOP, what it
/// owes at each of its source pads has EOS. Of one that has one sink pad that is so in its first section, whatever it took
/// behind it. A sink has no pad to which it could owe it.
pub fn eos_goes_on<K: Sink>()
    ensures first { (element : StreamElement K) (behavior : Behavior) (took : List (List Call)) → StreamStands K.bytes element behavior took
        → is_join element ≡ false → FirstEnded took → (port : ℕ) → port < pads_of element → list_ended (behavior.owes took port 0) ≡ true }
    ensures whole { (element : StreamElement K) (behavior : Behavior) (took : List (List Call)) → StreamStands K.bytes element behavior took
        → 0 < length took → InSection 0 took → AllEnded took → (port : ℕ) → port < pads_of element → list_ended (behavior.owes took port 0) ≡ true }
{}

/// An element took a list at each of its sink pads, of which only those of `is_join` have another number than one. The pad that
/// it wants is one of them; where it wants none, EOS came on each since its last FLUSH_STOP. One that passes all, or is of those, wants
/// no pad on which EOS came.
pub fn elements_want_open_pads<K: Sink>()
    ensures pads { (element : StreamElement K) (behavior : Behavior) (took : List (List Call)) → StreamStands K.bytes element behavior took
        → length took ≡ sinks_of element }
    ensures single { (element : StreamElement K) → is_join element ≡ false → sinks_of element ≡ 1 }
    ensures within { (element : StreamElement K) (pad : ℕ) → wanted_of element ≡ Some pad → pad < sinks_of element }
    ensures none { (element : StreamElement K) (behavior : Behavior) (took : List (List Call)) → StreamStands K.bytes element behavior took
        → wanted_of element ≡ None → AllEnded took }
    ensures open { (element : StreamElement K) (behavior : Behavior) (took : List (List Call)) (pad : ℕ) → StreamStands K.bytes element behavior took
        → (is_join element ≡ true) ⊎ PassesEach behavior.owes → wanted_of element ≡ Some pad → has_eos (calls_at pad took) ≡ false }
{}
