//! Texts.
ghost use Rattle.std.specs.Prelude.{◌≡◌, [], ◌++◌, IfOk, OnOk, OnErr};

use crate::memory::OutOfMemory;
use std::alloc::Global;
use std::marker::Model;

/// A text in UTF-8, seen as the list of its bytes.
#[derive(Drop)]
pub struct Text {
    characters: String,
}

impl Model for Text {
    ghost use Rattle.std.specs.Prelude.{ℕ, List};
    ghost use Rattle.std.specs.String.{string_bytes};

    ghost Value = { List ℕ };

    ghost view = { λ s. string_bytes s.characters };
}

impl Text {
    ghost use Rattle.std.specs.String.{string_bytes};

    /// The empty text.
    pub fn new(alloc: Global) -> Text
        ensures { result ≡ [] }
    {
        Text {
            characters: String::new(alloc),
        }
    }

    /// A text of these characters.
    pub fn from_str(alloc: Global, text: &str) -> Result<Text, OutOfMemory>
        ensures { IfOk result (λ made. made ≡ text.now) }
    {
        Ok(Text {
            characters: String::from_str(alloc, text)?,
        })
    }

    /// The text that a string holds, which is not copied.
    pub fn from_string(characters: String) -> Text
        ensures { result ≡ string_bytes characters }
    {
        Text { characters }
    }

    /// The characters.
    pub fn as_str(&self) -> &str
        ensures { result.now ≡ self.now }
    {
        self.characters.as_str()
    }

    /// Puts characters behind the text. Where there is no memory the text stays.
    pub fn push_str(&mut self, _alloc: Global, text: &str) -> Result<(), OutOfMemory>
        ensures ok { OnOk result (self.new ≡ self.old ++ text.now) }
        ensures err { OnErr result (self.new ≡ self.old) }
    {
        self.characters.push_str(text)?;
        Ok(())
    }

    /// The same text once more.
    pub fn copy(&self, alloc: Global) -> Result<Text, OutOfMemory>
        ensures { IfOk result (λ made. made ≡ self.now) }
    {
        Text::from_str(alloc, self.as_str())
    }
}
