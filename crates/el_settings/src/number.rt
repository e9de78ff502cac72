//! Numbers in values.
ghost use Rattle.std.specs.Prelude.{ℕ, MatchOption};
ghost use Rattle.el_settings.specs.Numbers.{IsNumber};

/// The most digits of a number.
const MOST_DIGITS: usize = 20;

/// The number that 1 to 20 decimal digits write. Zeros may stand in front.
pub(crate) fn read_number(digits: &str) -> Option<u128>
    ensures { MatchOption result ((n : ℕ) → ¬ IsNumber digits.now n) (IsNumber digits.now) }
{
    if digits.starts_with('+') || digits.len() > MOST_DIGITS {
        return None;
    }
    digits.parse::<u128>().ok()
}
