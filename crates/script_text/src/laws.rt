//! A text is a script, or it is refused for one fault.
ghost use Rattle.script_text.specs.Laws.{EachHasOne, HasNoCommands, NeverBoth, OneRefusal, OneScript};
ghost use Rattle.script_text.specs.Rows.{ScriptRows};

use crate::acts::Acts;

/// Each text is a script or is refused and not both, and of either it has one. So `parse` and `read` give commands
/// exactly where the text is a script, and a fault exactly where it is refused, unless memory is wanting. This is so for
/// whichever acts can be done. Where none can be, a script has no commands.
pub fn one_answer()
    ensures each { EachHasOne }
    ensures both { NeverBoth }
    ensures script { OneScript }
    ensures refusal { OneRefusal }
    ensures none { HasNoCommands Acts.NONE }
{}

/// Worked rows of the definitions.
pub fn script_rows()
    ensures { ScriptRows }
{}
