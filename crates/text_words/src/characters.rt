//! The characters of a text, from the front on.
ghost use Rattle.std.specs.Prelude.{◌≡◌, ◌++◌, [], MatchOption};
ghost use Rattle.std.specs.Char.{encode_utf8};

/// The characters of a text, from the front on.
#[derive(Drop)]
pub struct Characters<'a> {
    /// What is left of them.
    pub rest: &'a str,
}

impl<'a> Characters<'a> {
    /// All characters of the text.
    pub fn new(text: &'a str) -> Characters<'a>
        ensures { result.rest.now ≡ text.now }
    {
        Characters { rest: text }
    }

    /// Passes one character, where there is one.
    pub fn take(&mut self) -> Option<char>
        ensures { MatchOption result ((self.old.rest.now ≡ []) × (self.new.rest.now ≡ [])) (λ c. self.old.rest.now ≡ encode_utf8 c ++ self.new.rest.now) }
    {
        let mut characters = self.rest.chars();
        let next = characters.next()?;
        self.rest = characters.as_str();
        Some(next)
    }
}
