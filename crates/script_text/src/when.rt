//! When a command is done.
ghost use Rattle.std.specs.Prelude.{◌≡◌, ok_or};
ghost use Rattle.text_words.specs.Left.{left};
ghost use Rattle.text_words.specs.Values.{pad_of};
ghost use Rattle.script_text.specs.Commands.{at_of, buffers_of, has_point, now_of, when_of};
ghost use Rattle.script_text.specs.Refusals.{Answers};

use crate::command::When;
use crate::fault::{Refusal, ScriptKind};
use gst_value::PadName;
use std::alloc::Global;
use text_words::{Words, read_number, read_pad};

/// What numbers of buffers are below.
const BUFFERS_END: u64 = 1 << 63;

/// Whether a point stands in the word.
fn has_point(word: &str) -> bool
    ensures { result ≡ has_point word.now }
{
    word.bytes().any(|byte| byte == b'.')
}

/// The name of a pad, which has to be one.
fn pad_at(alloc: Global, word: &str) -> Result<PadName, Refusal>
    ensures { Answers (λ pad. pad) result (ok_or (pad_of word.now) ScriptKind.BadWhen) }
{
    match read_pad(alloc, word) {
        Ok(pad) => Ok(pad),
        Err(fault) => Err(Refusal::of(fault, ScriptKind::BadWhen)),
    }
}

/// The number of buffers, which has to be next.
fn buffers_at(pad: PadName, words: &mut Words<'_>) -> Result<When, Refusal>
    ensures { Answers (λ when. (when, left words.new)) result (buffers_of pad (left words.old)) }
{
    let Some(word) = words.take() else {
        return Err(Refusal::Bad(ScriptKind::BadNumber));
    };
    match read_number(BUFFERS_END, word) {
        Some(buffers) => Ok(When::At { pad, buffers }),
        None => Err(Refusal::Bad(ScriptKind::BadNumber)),
    }
}

/// What stands behind `at`: a pad and a number of buffers.
fn read_at(alloc: Global, words: &mut Words<'_>) -> Result<When, Refusal>
    ensures { Answers (λ when. (when, left words.new)) result (at_of (left words.old)) }
{
    let Some(word) = words.take() else {
        return Err(Refusal::Bad(ScriptKind::BadWhen));
    };
    let pad = pad_at(alloc, word)?;
    buffers_at(pad, words)
}

/// What stands behind `now`: a pad, where the next word has a point.
fn read_now(alloc: Global, words: &mut Words<'_>) -> Result<When, Refusal>
    ensures { Answers (λ when. (when, left words.new)) result (now_of (left words.old)) }
{
    let mut behind = *words;
    let Some(word) = behind.take() else {
        return Ok(When::Now);
    };
    if !has_point(word) {
        return Ok(When::Now);
    }
    let pad = pad_at(alloc, word)?;
    *words = behind;
    Ok(When::NowPad { pad })
}

/// When a command is done, which its first words say.
#[tactic(auto, unfolding(crate::specs::Commands::when_of))]
pub(crate) fn read_when(alloc: Global, words: &mut Words<'_>) -> Result<When, Refusal>
    ensures { Answers (λ when. (when, left words.new)) result (when_of (left words.old)) }
{
    let Some(word) = words.take() else {
        return Err(Refusal::Bad(ScriptKind::BadWhen));
    };
    if word == "at" {
        return read_at(alloc, words);
    }
    if word == "now" {
        return read_now(alloc, words);
    }
    Err(Refusal::Bad(ScriptKind::BadWhen))
}
