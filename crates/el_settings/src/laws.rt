//! Laws of properties. Each function does nothing: its contract is the law.
ghost use Rattle.std.specs.Prelude.{ℕ, List, Result};
ghost use Rattle.gst_value.specs.declared.name.Prop.{Prop};
ghost use Rattle.el_settings.specs.Alike.{AreAlike};
ghost use Rattle.el_settings.specs.Checked.{IsAnswer};
ghost use Rattle.el_settings.specs.declared.fault.PropFault.{PropFault};
ghost use Rattle.el_settings.specs.declared.settings.Settings.{Settings};

/// Properties have one answer, but for want of memory.
pub fn one_answer()
    ensures { (kind : List ℕ) (props : List Prop) (a b : Result Settings PropFault) → IsAnswer kind props a → IsAnswer kind props b → AreAlike a b }
{
    caps_text::one_reading();
}
