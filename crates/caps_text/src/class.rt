//! Which bytes stand in which part of a text.
ghost use Rattle.std.specs.Prelude.{◌≡◌};
ghost use Rattle.caps_text.specs.Bytes.{in_class, is_digit, is_letter, is_sign};

/// What a run of bytes is part of.
#[derive(Clone, Copy)]
pub(crate) enum Class {
    /// One of the two names of a media type.
    Media,
    /// The name of a field.
    Name,
    /// A value without quotes.
    Word,
}

/// An ASCII letter.
pub(crate) fn is_letter(byte: u8) -> bool
    ensures { result ≡ is_letter byte }
{
    matches!(byte, b'a'..=b'z' | b'A'..=b'Z')
}

/// A decimal digit.
pub(crate) fn is_digit(byte: u8) -> bool
    ensures { result ≡ is_digit byte }
{
    matches!(byte, b'0'..=b'9')
}

impl Class {
    /// Whether the byte stands in such a part.
    pub(crate) fn holds(self, byte: u8) -> bool
        ensures { result ≡ in_class self byte }
    {
        is_letter(byte) || is_digit(byte) || self.has_sign(byte)
    }

    /// Whether the byte is one of the signs that stand in such a part.
    fn has_sign(self, byte: u8) -> bool
        ensures { result ≡ is_sign self byte }
    {
        match self {
            Class::Media => matches!(byte, b'-' | b'+' | b'.' | b'_'),
            Class::Name => matches!(byte, b'-' | b'_'),
            Class::Word => matches!(byte, b'_' | b'+' | b'.' | b':' | b'/' | b'-'),
        }
    }
}
