//! Which bytes stand in which part of a line.
ghost use Rattle.std.specs.Prelude.{◌≡◌, length};
ghost use Rattle.std.specs.List.{take_while};
ghost use Rattle.text_words.specs.Bytes.{in_class, is_white};

use text_words::Class;

/// White space: a space, a tab or a line end.
pub(crate) fn is_white(byte: u8) -> bool
    ensures { result ≡ is_white byte }
{
    matches!(byte, b' ' | b'\t' | b'\n')
}

/// How many bytes of this class stand at the front.
pub(crate) fn run_length(class: Class, text: &str) -> usize
    ensures { result ≡ length (take_while (in_class class) text.now) }
{
    text.bytes().take_while(|byte| class.holds(*byte)).count()
}
