//! Reads the program's words.
ghost use Rattle.std.specs.Prelude.{◌≡◌, ◌≢◌, false, [], map, IfOk, OnOk, IsTrue, Err};
ghost use Rattle.std.specs.String.{string_bytes};
ghost use Rattle.run_words.specs.Said.{line_words, options_of, takes_words};

use crate::command::{line_of, match_words, order_of, quiet_of, script_of, threads_of};
use crate::fault::WordsFault;
use gst_value::Text;
use std::alloc::Global;

/// What the program's words say.
#[derive(Drop)]
pub struct Options {
    /// The location of the script's file, where one is named.
    pub script: Option<Text>,
    /// Whether tasks have threads of their own.
    pub threads: bool,
    /// The number from which the turns of tasks without threads are drawn.
    pub order: u64,
    /// Whether the report is to be short.
    pub quiet: bool,
    /// The launch line.
    pub line: Text,
}

/// Reads the program's words, its name not among them:
/// `[--script FILE] [--threads on|off] [--order N] [--quiet] WORD...`.
///
/// Any text is a FILE, also an empty one. Where it begins with a hyphen and is more than that, it is written
/// `--script=FILE`.
///
/// Options may stand behind words of the line too, up to a `--`. A word that begins with a hyphen stands behind a `--`,
/// except for a hyphen alone. Where the command does not take the words, or a value is none of its option's, the answer
/// is `Words`; where it takes them and no word of a line is there, it is `NoLine`.
pub fn read_words(alloc: Global, words: &[String]) -> Result<Options, WordsFault>
    ensures said { IfOk result (λ options. options ≡ options_of (map string_bytes words.now)) }
    ensures taken { OnOk result (IsTrue (takes_words (map string_bytes words.now))) }
    ensures line { OnOk result (line_words (map string_bytes words.now) ≢ []) }
    ensures words { result ≡ Err WordsFault.Words → takes_words (map string_bytes words.now) ≡ false }
    ensures no_line { result ≡ Err WordsFault.NoLine → IsTrue (takes_words (map string_bytes words.now)) × (line_words (map string_bytes words.now) ≡ []) }
{
    let matches = match_words(alloc, words)?;
    let threads = threads_of(&matches).ok_or(WordsFault::Words)?;
    let order = order_of(&matches).ok_or(WordsFault::Words)?;
    let line = line_of(alloc, &matches)?;
    let script = script_of(alloc, &matches)?;
    Ok(Options {
        script,
        threads,
        order,
        quiet: quiet_of(&matches),
        line,
    })
}
