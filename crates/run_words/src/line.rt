//! The line that the program's words make.
ghost use Rattle.std.specs.Prelude.{◌≡◌, ◌++◌, IfOk, OnOk, map};
ghost use Rattle.std.specs.String.{string_bytes};
ghost use Rattle.std.specs.Char.{encode_utf8};
ghost use Rattle.run_words.specs.Line.{joined, with_backslashes, with_more};

use gst_value::{OutOfMemory, Text};
use std::alloc::Global;

/// What stands between two words, and behind a backslash inside of a word.
const SPACE: char = ' ';

/// Puts a character, with a backslash before it where it is a space.
fn put_character(into: &mut String, character: char) -> Result<(), OutOfMemory>
    ensures { OnOk result (string_bytes into.new ≡ string_bytes into.old ++ with_backslashes (encode_utf8 character)) }
{
    if character == SPACE {
        into.push('\\')?;
    }
    into.push(character)?;
    Ok(())
}

/// Puts a word with a backslash before each of its spaces.
fn put_word(into: &mut String, word: &str) -> Result<(), OutOfMemory>
    ensures { OnOk result (string_bytes into.new ≡ string_bytes into.old ++ with_backslashes word.now) }
{
    for character in word.chars() {
        put_character(into, character)?;
    }
    Ok(())
}

/// Puts a space and a word for each of the words.
fn put_more(into: &mut String, words: &[&str]) -> Result<(), OutOfMemory>
    ensures { OnOk result (string_bytes into.new ≡ string_bytes into.old ++ with_more (map (λ word. word.now) words.now)) }
{
    for word in words {
        into.push(' ')?;
        put_word(into, word)?;
    }
    Ok(())
}

/// The words with one space between each two, and a backslash before every space inside of a word.
pub fn join_words(alloc: Global, words: &[&str]) -> Result<Text, OutOfMemory>
    ensures { IfOk result (λ line. line ≡ joined (map (λ word. word.now) words.now)) }
{
    let mut line = String::new(alloc);
    if let Some((first, others)) = words.split_first() {
        put_word(&mut line, first)?;
        put_more(&mut line, others)?;
    }
    Ok(Text::from_string(line))
}
