//! The words of a line, between white space.
ghost use Rattle.std.specs.Prelude.{◌≡◌, ◌==◌, ◌++◌, ◌<◌, ◌≤◌, false, ℕ, List, length, true};
ghost use Rattle.std.specs.List.{list_all, take_while};
ghost use Rattle.text_words.specs.Bytes.{is_white};
ghost use Rattle.text_words.specs.Words.{plain};
ghost use Rattle.launch_text.specs.Reading.{behind_word, first_word};
ghost use Rattle.launch_text.specs.Words.{is_start, word_length};

use crate::class::is_white;
use text_words::Mode;

/// How many bytes the word at the front has.
fn word_length(text: &str) -> usize
    ensures { result ≡ word_length plain text.now }
{
    let mut mode = Mode::PLAIN;
    let bytes = text.as_bytes();
    for (length, byte) in bytes.iter().enumerate() {
        if mode.is_plain() && is_white(*byte) {
            return length;
        }
        mode = mode.after(*byte);
    }
    text.len()
}

/// How many bytes of white space stand at the front.
fn white_length(text: &str) -> usize
    ensures { result ≡ length (take_while is_white text.now) }
{
    text.bytes().take_while(|byte| is_white(*byte)).count()
}

/// What stands behind the white space.
pub(crate) fn behind_white(text: &str) -> &str
    ensures cut { (front : List ℕ) × (text.now ≡ front ++ result.now) × (list_all is_white front ≡ true) }
    ensures start { is_start result.now ≡ true }
    ensures within { length result.now ≤ length text.now }
{
    text.split_at(white_length(text)).1
}

/// The word at the front, up to white space or the end, and what stands behind it.
pub(crate) fn split_word(text: &str) -> (&str, &str)
    requires start { is_start text.now ≡ true }
    requires some { (length text.now == 0) ≡ false }
    ensures word { result.0.now ≡ first_word text.now }
    ensures behind { result.1.now ≡ behind_word text.now }
    ensures shorter { length result.1.now < length text.now }
    ensures within { length result.0.now ≤ length text.now }
{
    text.split_at(word_length(text))
}
