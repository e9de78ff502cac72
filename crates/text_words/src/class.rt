//! Which bytes stand in which part of a text.
ghost use Rattle.std.specs.Prelude.{◌≡◌};
ghost use Rattle.std.specs.List.{list_all};
ghost use Rattle.text_words.specs.Bytes.{in_class, is_run};

/// What a run of bytes is.
#[derive(Clone, Copy)]
pub enum Class {
    /// The kind of an element.
    Kind,
    /// The name of an element or of a pad.
    Name,
    /// The name of a property.
    Property,
}

impl Class {
    /// Whether the byte stands in such a run.
    pub fn holds(self, byte: u8) -> bool
        ensures { result ≡ in_class self byte }
    {
        match self {
            Class::Kind => matches!(byte, b'a'..=b'z' | b'0'..=b'9' | b'-' | b'_'),
            Class::Name => matches!(byte, b'a'..=b'z' | b'A'..=b'Z' | b'0'..=b'9' | b'-' | b'_'),
            Class::Property => matches!(byte, b'a'..=b'z' | b'A'..=b'Z' | b'0'..=b'9' | b'-'),
        }
    }
}

/// Whether each byte is one of this class.
fn has_bytes(class: Class, text: &str) -> bool
    ensures { result ≡ list_all (in_class class) text.now }
{
    text.bytes().all(|byte| class.holds(byte))
}

/// Whether the text is one or more bytes of this class.
pub fn is_run(class: Class, text: &str) -> bool
    ensures { result ≡ is_run class text.now }
{
    !text.is_empty() && has_bytes(class, text)
}
