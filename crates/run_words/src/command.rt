//! The command whose words the program takes, and what its matches say.
ghost use Rattle.std.specs.Prelude.{◌≡◌, ◌≢◌, [], true, false, IfOk, IfErr, map, MatchOption};
ghost use Rattle.std.specs.String.{string_bytes};
ghost use Rattle.std.specs.Str.Parse.{digits_value};
ghost use Rattle.clap.specs.Words.{app_of, found_of, matches_of, rows_of, takes};
ghost use Rattle.run_words.specs.Command.{the_app};
ghost use Rattle.run_words.specs.Line.{joined};
ghost use Rattle.run_words.specs.Refused.{LacksLine, RefusedFor};
ghost use Rattle.run_words.specs.Said.{is_bare, is_number, is_on, is_switch, line_words_in, order_holds, order_in, quiet_in, script_in, threads_hold, threads_in};

use crate::fault::WordsFault;
use crate::line::join_words;
use clap::{Arg, ArgAction, ArgMatches, Command, value_parser};
use gst_value::{OutOfMemory, Text};
use std::alloc::{AllocError, Global};

/// The program's command: `[--script FILE] [--threads on|off] [--order N] [--quiet] WORD...`.
fn command<'a>(alloc: Global) -> Result<Command<'a>, AllocError>
    ensures { IfOk result (λ command. app_of command ≡ the_app) }
{
    let script = Arg::new(alloc, "script").long("script");
    let threads = Arg::new(alloc, "threads").long("threads");
    let order = Arg::new(alloc, "order")
        .long("order")
        .value_parser(value_parser!(u64));
    let quiet = Arg::new(alloc, "quiet")
        .long("quiet")
        .action(ArgAction::SetTrue);
    let word = Arg::new(alloc, "WORD").num_args(0..);
    let plain = Command::new(alloc, "gst_run")
        .no_binary_name(true)
        .disable_help_flag(true)
        .disable_version_flag(true);
    plain
        .arg(script)?
        .arg(threads)?
        .arg(order)?
        .arg(quiet)?
        .arg(word)
}

/// The matches of the command on the words.
pub(crate) fn match_words<'a>(
    alloc: Global,
    words: &'a [String],
) -> Result<ArgMatches<'a>, WordsFault>
    ensures taken { IfOk result (λ _. takes the_app (map string_bytes words.now) ≡ true) }
    ensures rows { IfOk result (λ matches. rows_of (found_of matches) ≡ matches_of the_app (map string_bytes words.now)) }
    ensures refused { IfErr result (RefusedFor (map string_bytes words.now)) }
{
    let command = command(alloc)?;
    let matches = command.try_get_matches_from(words)?;
    Ok(matches)
}

/// The location of the script's file, where one is named.
pub(crate) fn script_of(
    alloc: Global,
    matches: &ArgMatches<'_>,
) -> Result<Option<Text>, OutOfMemory>
    ensures { IfOk result (λ script. script ≡ script_in (rows_of (found_of matches.now))) }
{
    match matches.get_str("script") {
        None => Ok(None),
        Some(location) => Ok(Some(Text::from_str(alloc, location)?)),
    }
}

/// Whether the value of a switch is `on`.
fn read_switch(text: &str) -> Option<bool>
    ensures { MatchOption result (is_switch text.now ≡ false) (λ on. (is_switch text.now ≡ true) × (on ≡ is_on text.now)) }
{
    match text {
        "on" => Some(true),
        "off" => Some(false),
        _ => None,
    }
}

/// Whether tasks have threads of their own: where `off` is not said.
pub(crate) fn threads_of(matches: &ArgMatches<'_>) -> Option<bool>
    ensures { MatchOption result (threads_hold (rows_of (found_of matches.now)) ≡ false)
        (λ threads. (threads_hold (rows_of (found_of matches.now)) ≡ true) × (threads ≡ threads_in (rows_of (found_of matches.now)))) }
{
    match matches.get_str("threads") {
        None => Some(true),
        Some(text) => read_switch(text),
    }
}

/// No plus sign stands before the digits, and no zero before other digits.
fn is_bare(digits: &str) -> bool
    ensures { result ≡ is_bare digits.now }
{
    match digits.as_bytes() {
        [] | [b'+', ..] => false,
        [b'0', rest @ ..] => rest.is_empty(),
        _ => true,
    }
}

/// The number that decimal digits write.
fn read_number(digits: &str) -> Option<u64>
    ensures { MatchOption result (is_number digits.now ≡ false) (λ number. (is_number digits.now ≡ true) × (number ≡ digits_value 10 digits.now)) }
{
    if !is_bare(digits) {
        return None;
    }
    digits.parse::<u64>().ok()
}

/// The number from which turns are drawn: 0 where nothing is said.
pub(crate) fn order_of(matches: &ArgMatches<'_>) -> Option<u64>
    ensures { MatchOption result (order_holds (rows_of (found_of matches.now)) ≡ false)
        (λ order. (order_holds (rows_of (found_of matches.now)) ≡ true) × (order ≡ order_in (rows_of (found_of matches.now)))) }
{
    match matches.get_str("order") {
        None => Some(0),
        Some(digits) => read_number(digits),
    }
}

/// Whether the report is to be short.
pub(crate) fn quiet_of(matches: &ArgMatches<'_>) -> bool
    ensures { result ≡ quiet_in (rows_of (found_of matches.now)) }
{
    match matches.get_str("quiet") {
        None => false,
        Some(text) => text == "true",
    }
}

/// The line that the words make.
pub(crate) fn line_of(alloc: Global, matches: &ArgMatches<'_>) -> Result<Text, WordsFault>
    ensures line { IfOk result (λ line. (line_words_in (rows_of (found_of matches.now)) ≢ [])
        × (line ≡ joined (line_words_in (rows_of (found_of matches.now))))) }
    ensures missing { IfErr result (LacksLine (line_words_in (rows_of (found_of matches.now)))) }
{
    match matches.get_strs("WORD") {
        Some(words) if !words.is_empty() => Ok(join_words(alloc, words)?),
        _ => Err(WordsFault::NoLine),
    }
}
