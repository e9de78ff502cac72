//! Reads scripts.
ghost use Rattle.std.specs.Prelude.{◌≡◌, ◌<◌, ◌≤◌, ◌∷◌, ◌==◌, false, length, IfErr, IfOk, OnOk};
ghost use Rattle.std.specs.List.{take_while};
ghost use Rattle.script_text.specs.Latest.{IsLatest};
ghost use Rattle.script_text.specs.Lines.{in_line, lines};
ghost use Rattle.script_text.specs.Refusals.{Answers};
ghost use Rattle.script_text.specs.Scripts.{AreCommands, IsFault, IsRefusal, IsScript, step};

use crate::acts::Acts;
use crate::command::Command;
use crate::fault::{Refusal, ScriptFault, ScriptKind};
use crate::latest::{Latest, put_command};
use crate::line::{read_command, says_nothing};
use gst_value::List;
use std::alloc::Global;
use std::collections::BTreeMap;
use std::str;

/// The longest script, in bytes.
const LONGEST: usize = 1_048_576;

/// The most commands of a script.
const MOST_COMMANDS: usize = 4096;

/// How many bytes the line at the front has, its line end not among them.
fn line_length(bytes: &[u8]) -> usize
    ensures { result ≡ length (take_while in_line bytes.now) }
{
    bytes.iter().take_while(|byte| **byte != b'\n').count()
}

/// The line at the front, and what stands behind its line end.
fn split_line(bytes: &[u8]) -> (&[u8], &[u8])
    requires { (length bytes.now == 0) ≡ false }
    ensures lines { lines bytes.now ≡ result.0.now ∷ lines result.1.now }
    ensures shorter { length result.1.now < length bytes.now }
{
    let (line, behind) = bytes.split_at(line_length(bytes));
    match behind.split_first() {
        Some((_, rest)) => (line, rest),
        None => (line, behind),
    }
}

/// Puts the command of a line behind the others, where the line has one.
fn read_line(
    alloc: Global,
    acts: Acts,
    commands: &mut List<Command>,
    latest: &mut Latest,
    line: &[u8],
) -> Result<(), Refusal>
    requires { IsLatest latest.old commands.old }
    ensures latest { OnOk result (IsLatest latest.new commands.new) }
    ensures step { Answers (λ _. commands.new) result (step acts commands.old line.now) }
{
    let Ok(text) = str::from_utf8(line) else {
        return Err(Refusal::Bad(ScriptKind::NotText));
    };
    if says_nothing(text) {
        return Ok(());
    }
    if commands.as_slice().len() >= MOST_COMMANDS {
        return Err(Refusal::Bad(ScriptKind::TooLong));
    }
    let command = match read_command(alloc, acts, text) {
        Ok(command) => command,
        Err(refusal) => return Err(refusal),
    };
    put_command(alloc, commands, latest, command)
}

/// Reads all lines of a text that is not too long.
fn read_lines(alloc: Global, acts: Acts, bytes: &[u8]) -> Result<List<Command>, ScriptFault>
    requires { length bytes.now ≤ 1048576 }
    ensures said { IfOk result (AreCommands acts (lines bytes.now)) }
    ensures fault { IfErr result (IsFault acts (lines bytes.now)) }
{
    let mut commands = List::new(alloc);
    let mut latest = BTreeMap::new(alloc);
    let mut rest = bytes;
    let mut number: u32 = 0;
    while !rest.is_empty() {
        let (line, behind) = split_line(rest);
        number += 1;
        match read_line(alloc, acts, &mut commands, &mut latest, line) {
            Ok(()) => {}
            Err(refusal) => return Err(refusal.at(number)),
        }
        rest = behind;
    }
    Ok(commands)
}

/// The commands of a script, as `at identity0.src 100 relink filesink1.sink`, one in each line.
///
/// Lines end with a line end, which the last one may lack, and count from 1. A line that is empty, has only spaces or
/// begins with `#` is passed over. A script has at most 1,048,576 bytes and 4,096 commands. A line that is not UTF-8 is
/// `NotText`, and one with an act that is none of `acts` is `BadAct`.
pub fn read(alloc: Global, acts: Acts, bytes: &[u8]) -> Result<List<Command>, ScriptFault>
    ensures script { IfOk result (IsScript acts bytes.now) }
    ensures refused { IfErr result (IsRefusal acts bytes.now) }
{
    if bytes.len() > LONGEST {
        return Err(ScriptFault::BadScript {
            line: 0,
            kind: ScriptKind::TooLong,
        });
    }
    read_lines(alloc, acts, bytes)
}

/// The commands of a script, as `read` gives them of its bytes.
pub fn parse(alloc: Global, acts: Acts, text: &str) -> Result<List<Command>, ScriptFault>
    ensures script { IfOk result (IsScript acts text.now) }
    ensures refused { IfErr result (IsRefusal acts text.now) }
{
    read(alloc, acts, text.as_bytes())
}
