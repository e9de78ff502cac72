//! What is printed is read again.
ghost use Rattle.std.specs.Prelude.{◌≡◌, ℕ, List, ◌∷◌, []};
ghost use Rattle.gst_value.specs.Description.{Description};
ghost use Rattle.gst_caps.specs.declared.caps.Caps.{Caps};
ghost use Rattle.gst_caps.specs.declared.caps.Caps.TheVariants.{Of};
ghost use Rattle.gst_value.specs.declared.one.One.{One};
ghost use Rattle.caps_text.specs.Grammar.{IsCapsText};
ghost use Rattle.caps_text.specs.Printed.{caps_text, structure_text, typed_text};
ghost use Rattle.caps_text.specs.Singles.{of_singles};

/// The text that `print` writes of caps for which some text stands, stands for these caps, so that `parse` gives
/// them again. The same holds of `print_fixed` and the structure that has the values of the fixed caps.
pub fn printed_again()
    ensures caps { (text : List ℕ) (caps : Caps) → IsCapsText text caps → IsCapsText (caps_text caps) caps }
    ensures fixed { (text : List ℕ) (x : Description One) → IsCapsText text (Of (of_singles x ∷ []))
        → IsCapsText (structure_text typed_text x) (Of (of_singles x ∷ [])) }
{}

/// A text stands for the caps of one description.
pub fn one_reading()
    ensures { (text : List ℕ) (a b : Caps) → IsCapsText text a → IsCapsText text b → a ≡ b }
{}
