//! Bytes as hexadecimal digits.
ghost use Rattle.std.specs.Prelude.{◌≡◌, ◌<◌, IfOk};
ghost use Rattle.item_letters.specs.Letters.{bytes_of_digits, digit_of};

use gst_value::OutOfMemory;
use std::alloc::Global;

/// The bytes whose hexadecimal digits stand in a text, two for each. A last digit without a second one is left out, and
/// what is no digit counts as 0. `OutOfMemory` where there is no memory for them.
pub fn bytes_by(alloc: Global, digits: &str) -> Result<Vec<u8>, OutOfMemory>
    ensures { IfOk result (λ bytes. bytes.items ≡ bytes_of_digits digits.now) }
{
    let mut bytes = Vec::new(alloc);
    let mut rest = digits.as_bytes();
    while let [high, low, more @ ..] = rest {
        bytes.push(digit_of(*high) * 16 + digit_of(*low))?;
        rest = more;
    }
    Ok(bytes)
}

fn digit_of(byte: u8) -> u8
    ensures digit { result ≡ digit_of byte }
    ensures small { result < 16 }
{
    match byte {
        b'0'..=b'9' => byte - b'0',
        b'A'..=b'F' => byte - b'A' + 10,
        b'a'..=b'f' => byte - b'a' + 10,
        _ => 0,
    }
}
