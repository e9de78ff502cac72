//! For how many buffers of each pad the commands wait.
ghost use Rattle.std.specs.Prelude.{◌≡◌, ◌++◌, [], ◌∷◌, IfOk, OnOk};
ghost use Rattle.std.specs.String.{string_bytes};
ghost use Rattle.script_text.specs.Commands.{spelled};
ghost use Rattle.script_text.specs.Latest.{IsLatest, Noted, NotedWhen};
ghost use Rattle.script_text.specs.Refusals.{Answers, and_then};
ghost use Rattle.script_text.specs.Scripts.{in_order};

use crate::command::{Command, When};
use crate::fault::{Refusal, ScriptKind};
use gst_value::{List, OutOfMemory, PadName};
use std::alloc::Global;
use std::collections::BTreeMap;

/// The last number of buffers for which commands wait, by the pad's name.
pub(crate) type Latest = BTreeMap<String, u64>;

/// The name of the pad in one text.
fn spelled(alloc: Global, pad: &PadName) -> Result<String, OutOfMemory>
    ensures { IfOk result (λ text. string_bytes text ≡ spelled pad.now) }
{
    let mut text = String::from_str(alloc, pad.element.as_str())?;
    text.push('.')?;
    text.push_str(pad.pad.as_str())?;
    Ok(text)
}

/// Notes the number of buffers of a pad, which is not smaller than the last one.
fn note_pad(alloc: Global, latest: &mut Latest, pad: &PadName, buffers: u64) -> Result<(), Refusal>
    ensures { Noted latest.old latest.new (spelled pad.now) buffers result }
{
    let name = spelled(alloc, pad)?;
    let last = latest.get(name.as_str()).copied().unwrap_or(0);
    if buffers < last {
        return Err(Refusal::Bad(ScriptKind::Backwards));
    }
    latest.insert(name, buffers)?;
    Ok(())
}

/// Notes when a command is done.
fn note(alloc: Global, latest: &mut Latest, when: &When) -> Result<(), Refusal>
    ensures { NotedWhen latest.old latest.new when.now result }
{
    match when {
        When::At { pad, buffers } => note_pad(alloc, latest, pad, *buffers),
        When::NowPad { .. } => Ok(()),
        When::Now => Ok(()),
    }
}

/// Puts a command behind the others, where it does not go back.
pub(crate) fn put_command(
    alloc: Global,
    commands: &mut List<Command>,
    latest: &mut Latest,
    command: Command,
) -> Result<(), Refusal>
    requires { IsLatest latest.old commands.old }
    ensures latest { OnOk result (IsLatest latest.new commands.new) }
    ensures answer { Answers (λ _. commands.new) result (and_then (in_order commands.old command) (λ command. Ok (commands.old ++ command ∷ []))) }
{
    match note(alloc, latest, &command.when) {
        Ok(()) => {}
        Err(refusal) => return Err(refusal),
    }
    commands.push(alloc, command)?;
    Ok(())
}
