//! The words of a text, between separators.
ghost use Rattle.std.specs.Prelude.{◌≡◌, ◌==◌, ◌<◌, [], ◌∷◌, MatchOption, false, length, true};
ghost use Rattle.std.specs.List.{take_while};
ghost use Rattle.text_words.specs.Bytes.{separates};
ghost use Rattle.text_words.specs.Words.{after, is_closed, is_plain, is_start, plain, word_length, words_of};
ghost use Rattle.text_words.specs.Left.{left};

/// Which bytes stand between words.
#[derive(Clone, Copy)]
pub enum Separator {
    /// White space: spaces, tabs and line ends.
    White,
    /// Spaces alone.
    Space,
}

impl Separator {
    /// Whether the byte stands between words.
    fn separates(self, byte: u8) -> bool
        ensures { result ≡ separates self byte }
    {
        match self {
            Separator::White => matches!(byte, b' ' | b'\t' | b'\n'),
            Separator::Space => byte == b' ',
        }
    }
}

/// How the byte before a place of a word lets the next one stand.
#[derive(Clone, Copy, PartialEq, Eq)]
pub struct Mode {
    /// In double quotes, where separators are a part of the word.
    pub quoted: bool,
    /// Behind a backslash, where any byte stands for itself.
    pub escaped: bool,
}

impl Mode {
    /// Where a word begins.
    pub const PLAIN: Mode = Mode {
        quoted: false,
        escaped: false,
    };

    /// Whether a word may end here.
    pub fn is_plain(self) -> bool
        ensures { result ≡ is_plain self }
    {
        !self.quoted && !self.escaped
    }

    /// Behind one byte more.
    pub fn after(self, byte: u8) -> Mode
        ensures { result ≡ after self byte }
    {
        self.after_character(char::from(byte))
    }

    /// Behind one character more.
    pub fn after_character(self, character: char) -> Mode
        ensures { result ≡ after self character }
    {
        if self.escaped {
            return Mode {
                quoted: self.quoted,
                escaped: false,
            };
        }
        match character {
            '"' => Mode {
                quoted: !self.quoted,
                escaped: false,
            },
            '\\' => Mode {
                quoted: self.quoted,
                escaped: true,
            },
            _ => Mode {
                quoted: self.quoted,
                escaped: false,
            },
        }
    }
}

/// How many bytes the word at the front has.
fn word_length(separator: Separator, text: &str) -> usize
    ensures { result ≡ word_length separator plain text.now }
{
    let mut mode = Mode::PLAIN;
    let bytes = text.as_bytes();
    for (length, byte) in bytes.iter().enumerate() {
        if mode.is_plain() && separator.separates(*byte) {
            return length;
        }
        mode = mode.after(*byte);
    }
    text.len()
}

/// Whether a word ends out of quotes and not behind a backslash.
pub fn is_closed(word: &str) -> bool
    ensures { result ≡ is_closed word.now }
{
    let mut mode = Mode::PLAIN;
    let bytes = word.as_bytes();
    for byte in bytes {
        mode = mode.after(*byte);
    }
    mode.is_plain()
}

/// How many separators stand at the front.
fn separators_length(separator: Separator, text: &str) -> usize
    ensures { result ≡ length (take_while (separates separator) text.now) }
{
    text.bytes()
        .take_while(|byte| separator.separates(*byte))
        .count()
}

/// What stands behind the separators.
fn behind_separators(separator: Separator, text: &str) -> &str
    ensures words { words_of separator result.now ≡ words_of separator text.now }
    ensures start { is_start separator result.now ≡ true }
{
    text.split_at(separators_length(separator, text)).1
}

/// The word at the front, up to a separator or the end, and what stands behind it.
fn split_word(separator: Separator, text: &str) -> (&str, &str)
    requires start { is_start separator text.now ≡ true }
    requires some { (length text.now == 0) ≡ false }
    ensures { words_of separator text.now ≡ result.0.now ∷ words_of separator result.1.now }
{
    text.split_at(word_length(separator, text))
}

/// The words of a text that are left to be taken.
#[derive(Clone, Copy)]
pub struct Words<'a> {
    separator: Separator,
    rest: &'a str,
}

impl<'a> Words<'a> {
    /// All words of the text.
    pub fn new(separator: Separator, text: &'a str) -> Words<'a>
        ensures { left result ≡ words_of separator text.now }
    {
        Words {
            separator,
            rest: text,
        }
    }

    /// Takes the first of the words that are left.
    pub fn take(&mut self) -> Option<&'a str>
        ensures { MatchOption result ((left self.old ≡ []) × (left self.new ≡ [])) (λ word. left self.old ≡ word.now ∷ left self.new) }
    {
        let text = behind_separators(self.separator, self.rest);
        if text.is_empty() {
            self.rest = text;
            return None;
        }
        let (word, behind) = split_word(self.separator, text);
        self.rest = behind;
        Some(word)
    }
}
