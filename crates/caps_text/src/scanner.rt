//! What of a text is still to be read.
ghost use Rattle.std.specs.Prelude.{◌≡◌, ◌<◌, ◌==◌, true, length, IsTrue, IsFalse, ◌++◌, [], MatchOption};
ghost use Rattle.std.specs.Char.{encode_utf8};
ghost use Rattle.std.specs.Option.{option_map};
ghost use Rattle.std.specs.List.{list_all, take_while};
ghost use Rattle.caps_text.specs.Answers.{Reads};
ghost use Rattle.caps_text.specs.Bytes.{in_class, is_ascii};
ghost use Rattle.caps_text.specs.Reading.{after_byte, begins, begins_run, behind_run, behind_spaces, digit_at, end_word, expect, read_literal, read_mark, run_of, some_run};

use crate::class::{Class, is_digit};
use crate::fault::Misspelt;

/// What of a text is still to be read. Where a part is refused, this is what stands behind the longest front
/// with which the part can begin.
#[derive(Drop)]
pub(crate) struct Scanner<'a> {
    pub(crate) rest: &'a str,
}

impl<'a> Scanner<'a> {
    pub(crate) fn new(text: &'a str) -> Scanner<'a>
        ensures { result.rest.now ≡ text.now }
    {
        Scanner { rest: text }
    }

    /// Whether all is read.
    pub(crate) fn is_at_end(&self) -> bool
        ensures { result ≡ (length self.now.rest.now == 0) }
    {
        self.rest.is_empty()
    }

    /// Whether this ASCII byte stands next.
    pub(crate) fn begins(&self, mark: u8) -> bool
        ensures { result ≡ begins mark self.now.rest.now }
    {
        match self.rest.as_bytes().first() {
            Some(byte) => *byte == mark,
            None => false,
        }
    }

    /// Passes this ASCII character, where it stands next.
    pub(crate) fn takes(&mut self, mark: char) -> bool
        requires { mark < 128 }
        ensures taken { IsTrue result → after_byte mark self.old.rest.now ≡ Some self.new.rest.now }
        ensures left { IsFalse result → (after_byte mark self.old.rest.now ≡ None) × (self.new.rest.now ≡ self.old.rest.now) }
    {
        match after_byte(self.rest, mark) {
            Some(behind) => {
                self.rest = behind;
                true
            }
            None => false,
        }
    }

    /// Passes this ASCII character.
    #[tactic(auto, unfolding(crate::specs::Reading::expect))]
    pub(crate) fn expect(&mut self, mark: char) -> Result<(), Misspelt>
        requires { mark < 128 }
        ensures { Reads (λ x. x) result self.new.rest.now (expect mark self.old.rest.now) }
    {
        if self.takes(mark) {
            Ok(())
        } else {
            Err(Misspelt)
        }
    }

    /// Passes the spaces that stand next.
    pub(crate) fn skip_spaces(&mut self)
        ensures { self.new.rest.now ≡ behind_spaces self.old.rest.now }
    {
        self.rest = behind_spaces(self.rest);
    }

    /// Passes this ASCII character with the spaces before and behind it.
    #[tactic(auto, unfolding(crate::specs::Reading::read_mark))]
    pub(crate) fn mark(&mut self, mark: char) -> Result<(), Misspelt>
        requires { mark < 128 }
        ensures { Reads (λ x. x) result self.new.rest.now (read_mark mark self.old.rest.now) }
    {
        self.skip_spaces();
        self.expect(mark)?;
        self.skip_spaces();
        Ok(())
    }

    /// Passes the bytes of this class that stand next.
    pub(crate) fn run(&mut self, class: Class) -> &'a str
        ensures run { result.now ≡ run_of class self.old.rest.now }
        ensures rest { self.new.rest.now ≡ behind_run class self.old.rest.now }
    {
        let (run, behind) = split_run(self.rest, class);
        self.rest = behind;
        run
    }

    /// Passes the bytes of this class that stand next, of which there has to be one.
    #[tactic(auto, unfolding(crate::specs::Reading::some_run))]
    pub(crate) fn some_run(&mut self, class: Class) -> Result<&'a str, Misspelt>
        ensures { Reads (λ x. x.now) result self.new.rest.now (some_run class self.old.rest.now) }
    {
        let run = self.run(class);
        if run.is_empty() {
            Err(Misspelt)
        } else {
            Ok(run)
        }
    }

    /// Whether a byte of this class stands next.
    fn begins_run(&self, class: Class) -> bool
        ensures { result ≡ begins_run class self.now.rest.now }
    {
        match self.rest.as_bytes().first() {
            Some(byte) => class.holds(*byte),
            None => false,
        }
    }

    /// Refuses a byte of a word, where one stands next.
    #[tactic(auto, unfolding(crate::specs::Reading::end_word))]
    pub(crate) fn end_word(&self) -> Result<(), Misspelt>
        ensures { Reads (λ x. x) result self.now.rest.now (end_word self.now.rest.now) }
    {
        if self.begins_run(Class::Word) {
            Err(Misspelt)
        } else {
            Ok(())
        }
    }

    /// Passes this ASCII word.
    pub(crate) fn word(&mut self, word: &str) -> Result<(), Misspelt>
        requires { list_all is_ascii word.now ≡ true }
        ensures { Reads (λ x. x) result self.new.rest.now (read_literal word.now self.old.rest.now) }
    {
        for byte in word.as_bytes() {
            self.expect(char::from(*byte))?;
        }
        Ok(())
    }

    /// Passes one character, where there is one.
    pub(crate) fn take(&mut self) -> Option<char>
        ensures { MatchOption result ((self.old.rest.now ≡ []) × (self.new.rest.now ≡ [])) (λ c. self.old.rest.now ≡ encode_utf8 c ++ self.new.rest.now) }
    {
        let mut characters = self.rest.chars();
        let next = characters.next()?;
        self.rest = characters.as_str();
        Some(next)
    }
}

/// What stands behind this ASCII character, where it stands first.
fn after_byte(text: &str, mark: char) -> Option<&str>
    requires { mark < 128 }
    ensures { option_map (λ r. r.now) result ≡ after_byte mark text.now }
{
    text.strip_prefix(mark)
}

/// What stands behind the spaces.
fn behind_spaces(text: &str) -> &str
    ensures { result.now ≡ behind_spaces text.now }
{
    let mut rest = text;
    while let Some(behind) = after_byte(rest, ' ') {
        rest = behind;
    }
    rest
}

/// The digit that stands first, with what stands behind it.
pub(crate) fn digit_at(text: &str) -> Option<(u64, &str)>
    ensures { option_map (λ d. (d.0, d.1.now)) result ≡ digit_at text.now }
{
    match text.as_bytes().first() {
        Some(byte) if is_digit(*byte) => Some(((*byte - b'0') as u64, &text[1..])),
        _ => None,
    }
}

/// How many bytes of this class stand at the front.
fn run_length(text: &str, class: Class) -> usize
    ensures { result ≡ length (take_while (in_class class) text.now) }
{
    text.bytes().take_while(|byte| class.holds(*byte)).count()
}

/// The bytes of this class that stand first, and what stands behind them.
fn split_run(text: &str, class: Class) -> (&str, &str)
    ensures run { result.0.now ≡ run_of class text.now }
    ensures behind { result.1.now ≡ behind_run class text.now }
{
    text.split_at(run_length(text, class))
}
