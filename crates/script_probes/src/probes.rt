//! The probes of a script.
ghost use Rattle.std.specs.Prelude.{◌<◌, ◌≤◌, ◌^◌, ℕ, List, length, IfOk};
ghost use Rattle.script_probes.specs.Stops.{IsStop};
ghost use Rattle.script_text.specs.declared.command.Command.{Command as CommandOf};

use crate::pads::{Elements, at_pads, next_at};
use crate::stops::ordered_stops;
use gst_value::{OutOfMemory, PadName};
use pad_core::Probe;
use script_text::Command;
use std::alloc::Global;

/// The blocking probes that the commands of a script set at source pads, one at a time at each pad.
///
/// A command `at PAD n ..` stops the buffer behind `n` others at its pad until it is answered. Commands are answered in
/// their order. Of those of a pad that are not answered the one with the least number stops, and of those with one
/// number the first.
#[derive(Drop)]
pub struct ScriptProbes {
    elements: Elements,
}

impl ScriptProbes {
    ghost use Rattle.script_probes.specs.Stands.{StandsFor};

    /// The probes of these commands.
    pub fn new(alloc: Global, commands: &[Command]) -> Result<ScriptProbes, OutOfMemory>
        requires { length commands.now < 2 ^ 32 }
        ensures { IfOk result (λ probes. StandsFor probes commands.now 0) }
    {
        let stops = ordered_stops(alloc, commands)?;
        Ok(ScriptProbes {
            elements: at_pads(alloc, commands, &stops)?,
        })
    }

    /// The probe of a source pad when so many commands are answered, no fewer than at the call before; none where no
    /// other command waits there. Over all calls no more steps are taken than there are commands.
    pub fn probe(&mut self, pad: &PadName, answered: u32) -> Option<Probe>
        ensures stop { (commands : List CommandOf) (before : ℕ) → before ≤ answered → StandsFor self.old commands before
            → IsStop commands answered pad.now result }
        ensures stands { (commands : List CommandOf) (before : ℕ) → before ≤ answered → StandsFor self.old commands before
            → StandsFor self.new commands answered }
    {
        next_at(&mut self.elements, pad, answered)
    }
}
