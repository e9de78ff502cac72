//! Decimal numbers.
ghost use Rattle.std.specs.Prelude.{◌≡◌};
ghost use Rattle.std.specs.List.{list_all};
ghost use Rattle.text_words.specs.Bytes.{is_digit};
ghost use Rattle.text_words.specs.Values.{are_digits, number_of};

/// Whether each byte is a digit.
fn has_digits(text: &str) -> bool
    ensures { result ≡ list_all is_digit text.now }
{
    text.bytes().all(|byte| byte.is_ascii_digit())
}

/// Whether the text is one or more decimal digits.
fn are_digits(text: &str) -> bool
    ensures { result ≡ are_digits text.now }
{
    !text.is_empty() && has_digits(text)
}

/// The number below the limit that decimal digits write. Zeros may stand before other digits, and no sign.
#[tactic(auto, unfolding(crate::specs::Values::number_of))]
pub fn read_number(limit: u64, text: &str) -> Option<u64>
    ensures { result ≡ number_of limit text.now }
{
    if !are_digits(text) {
        return None;
    }
    let Ok(number) = text.parse::<u64>() else {
        return None;
    };
    if number < limit { Some(number) } else { None }
}
