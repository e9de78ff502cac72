//! The command of one line.
ghost use Rattle.std.specs.Prelude.{◌≡◌, ok_or};
ghost use Rattle.text_words.specs.Left.{left};
ghost use Rattle.text_words.specs.Words.{words_of};
ghost use Rattle.script_text.specs.Commands.{command_of, done_act, misfit};
ghost use Rattle.script_text.specs.Lines.{is_blank, is_comment, says_nothing};
ghost use Rattle.script_text.specs.Refusals.{Answers};

use crate::act::read_act;
use crate::acts::Acts;
use crate::command::{Act, Command, When};
use crate::fault::{Refusal, ScriptKind};
use crate::when::read_when;
use std::alloc::Global;
use text_words::{Separator, Words};

/// Whether the line has only spaces.
fn is_blank(line: &str) -> bool
    ensures { result ≡ is_blank line.now }
{
    line.bytes().all(|byte| byte == b' ')
}

/// Whether the line begins with `#`.
fn is_comment(line: &str) -> bool
    ensures { result ≡ is_comment line.now }
{
    match line.as_bytes().first() {
        Some(byte) => *byte == b'#',
        None => false,
    }
}

/// Whether the line has no command to say.
pub(crate) fn says_nothing(line: &str) -> bool
    ensures { result ≡ says_nothing line.now }
{
    if is_blank(line) {
        return true;
    }
    is_comment(line)
}

/// What is wrong with this act at this time.
fn misfit(when: &When, act: &Act) -> Option<ScriptKind>
    ensures { result ≡ misfit when.now act.now }
{
    match when {
        When::At { .. } => None,
        When::NowPad { .. } => {
            if act.is_at_pad() {
                None
            } else {
                Some(ScriptKind::StrayPad)
            }
        }
        When::Now => {
            if act.is_at_pad() {
                Some(ScriptKind::NeedsPad)
            } else {
                None
            }
        }
    }
}

/// The act of a line, which all words have to say that are left, and which has to be one of these.
fn act_behind(alloc: Global, acts: Acts, words: &mut Words<'_>) -> Result<Act, Refusal>
    ensures { Answers (λ act. act) result (ok_or (done_act acts (left words.old)) ScriptKind.BadAct) }
{
    match read_act(alloc, words) {
        Ok(act) => {
            if acts.does(&act) {
                Ok(act)
            } else {
                Err(Refusal::Bad(ScriptKind::BadAct))
            }
        }
        Err(fault) => Err(Refusal::of(fault, ScriptKind::BadAct)),
    }
}

/// The command that a line says by itself, of these acts.
#[tactic(auto, unfolding(crate::specs::Commands::command_of))]
pub(crate) fn read_command(alloc: Global, acts: Acts, line: &str) -> Result<Command, Refusal>
    ensures { Answers (λ command. command) result (command_of acts (words_of Separator.Space line.now)) }
{
    let mut words = Words::new(Separator::Space, line);
    let when = read_when(alloc, &mut words)?;
    let act = act_behind(alloc, acts, &mut words)?;
    if let Some(kind) = misfit(&when, &act) {
        return Err(Refusal::Bad(kind));
    }
    Ok(Command { when, act })
}
