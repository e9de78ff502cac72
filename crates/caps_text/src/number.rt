//! Whole numbers and fractions.
ghost use Rattle.std.specs.Prelude.{◌≡◌, ◌<◌, ◌≤◌, ◌^◌, All};
ghost use Rattle.std.specs.List.{list_any};
ghost use Rattle.gst_value.specs.Fractions.{signed};
ghost use Rattle.caps_text.specs.Answers.{Reads};
ghost use Rattle.caps_text.specs.Ratio.{fits, ratio};
ghost use Rattle.caps_text.specs.Reading.{can_begin, is_wanted, least_number, minus, reaches, reaches_by, read_digits, read_fraction, read_number, read_pair, read_size, wanted_number, whole_number, whole_pair};

use crate::fault::Misspelt;
use crate::scanner::{Scanner, digit_at};
use gst_value::{One, fraction};

/// The most that a positive number is.
const MOST: u64 = 2_147_483_647;

/// The size of the least number.
const LEAST_SIZE: u64 = 2_147_483_648;

/// The powers of ten with which digits can make a number longer.
const POWERS: [u64; 11] = [
    1,
    10,
    100,
    1_000,
    10_000,
    100_000,
    1_000_000,
    10_000_000,
    100_000_000,
    1_000_000_000,
    10_000_000_000,
];

/// The most to which one more digit can be put, so that each digit makes a number of 32 bits.
const MOST_TENTH: u64 = 214_748_364;

/// Which 32-bit numbers may stand at a place.
#[derive(Clone, Copy)]
pub(crate) enum Wanted {
    /// Those from this one on.
    AtLeast(i32),
    /// Those that are the denominator of a fraction with this numerator.
    Denominator(i32),
}

/// The fraction `num / den` in lowest terms, where there is one.
pub(crate) fn ratio(num: i32, den: i32) -> Option<One>
    ensures { result ≡ ratio num den }
{
    fraction(num, den)
}

/// Whether the digits of some number from `least` on begin with those of `size`, where so many digits follow
/// that `power` is the power of ten for them.
fn reaches_by(power: u64, size: u64, least: i64) -> bool
    requires some { 0 < power }
    requires few { power ≤ 10000000000 }
    ensures { result ≡ reaches_by size least power }
{
    size <= MOST / power && least <= (size * power + (power - 1)) as i64
}

fn some_reaches(powers: &[u64], size: u64, least: i64) -> bool
    requires { All (λ p. (0 < p) × (p ≤ 10000000000)) powers.now }
    ensures { result ≡ list_any (reaches_by size least) powers.now }
{
    powers.iter().any(|power| reaches_by(*power, size, least))
}

/// Whether the digits of some number from `least` on begin with those of `size`.
#[tactic(auto, unfolding(crate::specs::Reading::reaches))]
fn reaches(size: u64, least: i64) -> bool
    ensures { result ≡ reaches size least }
{
    some_reaches(&POWERS, size, least)
}

/// Whether a size of this sign is a number of 32 bits.
fn fits(negative: bool, size: u64) -> bool
    ensures { result ≡ fits negative size }
{
    if negative {
        size <= LEAST_SIZE
    } else {
        size <= MOST
    }
}

/// The number of this size and sign.
fn signed(negative: bool, size: u64) -> i64
    requires { size < 2 ^ 63 }
    ensures { result ≡ signed negative size }
{
    if negative {
        -(size as i64)
    } else {
        size as i64
    }
}

impl Wanted {
    /// Whether the number is one of those that are wanted.
    fn takes(self, number: i32) -> bool
        ensures { result ≡ is_wanted self number }
    {
        match self {
            Wanted::AtLeast(least) => least <= number,
            Wanted::Denominator(num) => ratio(num, number).is_some(),
        }
    }
}

/// The number of this size and sign, where it is one of those that are wanted.
#[tactic(auto, unfolding(crate::specs::Reading::wanted_number))]
fn wanted_number(wanted: Wanted, negative: bool, size: u64) -> Option<i32>
    ensures { result ≡ wanted_number wanted negative size }
{
    if !fits(negative, size) {
        return None;
    }
    let number = signed(negative, size) as i32;
    if wanted.takes(number) {
        Some(number)
    } else {
        None
    }
}

/// Whether some digits behind those of `size`, or none, make a number that is wanted.
#[tactic(auto, unfolding(crate::specs::Reading::can_begin))]
fn can_begin(wanted: Wanted, negative: bool, size: u64) -> bool
    ensures same { result ≡ can_begin wanted negative size }
{
    match wanted {
        Wanted::AtLeast(least) if negative => {
            size <= LEAST_SIZE && least as i64 <= signed(true, size)
        }
        Wanted::AtLeast(least) => reaches(size, least as i64),
        Wanted::Denominator(_) => {
            size <= MOST_TENTH || wanted_number(wanted, negative, size).is_some()
        }
    }
}

/// Reads digits, and says what size they write.
fn read_digits(scanner: &mut Scanner<'_>, wanted: Wanted, negative: bool) -> Result<u64, Misspelt>
    ensures { Reads (λ x. x) result scanner.new.rest.now (read_digits wanted negative 0 scanner.old.rest.now) }
{
    let mut size = 0;
    while let Some((digit, behind)) = digit_at(scanner.rest) {
        let longer = size * 10 + digit;
        if !can_begin(wanted, negative, longer) {
            return Err(Misspelt);
        }
        scanner.rest = behind;
        size = longer;
    }
    Ok(size)
}

/// Passes a minus, where numbers with a minus are wanted.
#[tactic(auto, unfolding(crate::specs::Reading::minus))]
fn takes_minus(scanner: &mut Scanner<'_>, wanted: Wanted) -> bool
    ensures { (result, scanner.new.rest.now) ≡ minus wanted scanner.old.rest.now }
{
    if can_begin(wanted, true, 0) {
        scanner.takes('-')
    } else {
        false
    }
}

/// Reads digits, of which there has to be one, and says what number they write with this sign.
#[tactic(auto, unfolding(crate::specs::Reading::read_size))]
fn read_size(scanner: &mut Scanner<'_>, wanted: Wanted, negative: bool) -> Result<i32, Misspelt>
    ensures { Reads (λ x. x) result scanner.new.rest.now (read_size wanted (negative, scanner.old.rest.now)) }
{
    if digit_at(scanner.rest).is_none() {
        return Err(Misspelt);
    }
    let size = read_digits(scanner, wanted, negative)?;
    wanted_number(wanted, negative, size).ok_or(Misspelt)
}

/// Reads an optional `-` and digits, which write a number that is wanted.
#[tactic(auto, unfolding(crate::specs::Reading::read_number))]
pub(crate) fn read_number(scanner: &mut Scanner<'_>, wanted: Wanted) -> Result<i32, Misspelt>
    ensures { Reads (λ x. x) result scanner.new.rest.now (read_number wanted scanner.old.rest.now) }
{
    let negative = takes_minus(scanner, wanted);
    read_size(scanner, wanted, negative)
}

/// Reads any number.
pub(crate) fn read_any(scanner: &mut Scanner<'_>) -> Result<i32, Misspelt>
    ensures { Reads (λ x. x) result scanner.new.rest.now (read_number (Wanted.AtLeast least_number) scanner.old.rest.now) }
{
    read_number(scanner, Wanted::AtLeast(i32::MIN))
}

/// Reads a fraction: two numbers with `/` between.
#[tactic(auto, unfolding(crate::specs::Reading::read_fraction))]
pub(crate) fn read_fraction(scanner: &mut Scanner<'_>) -> Result<One, Misspelt>
    ensures { Reads (λ x. x) result scanner.new.rest.now (read_fraction scanner.old.rest.now) }
{
    let num = read_any(scanner)?;
    scanner.expect('/')?;
    let den = read_number(scanner, Wanted::Denominator(num))?;
    ratio(num, den).ok_or(Misspelt)
}

/// The number that the whole text writes.
#[tactic(auto, unfolding(crate::specs::Reading::whole_number))]
pub(crate) fn whole_number(text: &str) -> Option<i32>
    ensures { result ≡ whole_number text.now }
{
    let mut scanner = Scanner::new(text);
    match read_any(&mut scanner) {
        Ok(number) if scanner.is_at_end() => Some(number),
        _ => None,
    }
}

/// Reads two numbers with `/` between.
#[tactic(auto, unfolding(crate::specs::Reading::read_pair))]
fn read_pair(scanner: &mut Scanner<'_>) -> Result<(i32, i32), Misspelt>
    ensures { Reads (λ x. x) result scanner.new.rest.now (read_pair scanner.old.rest.now) }
{
    let num = read_any(scanner)?;
    scanner.expect('/')?;
    let den = read_any(scanner)?;
    Ok((num, den))
}

/// The two numbers that the whole text writes, with `/` between.
#[tactic(auto, unfolding(crate::specs::Reading::whole_pair))]
pub(crate) fn whole_pair(text: &str) -> Option<(i32, i32)>
    ensures { result ≡ whole_pair text.now }
{
    let mut scanner = Scanner::new(text);
    match read_pair(&mut scanner) {
        Ok(pair) if scanner.is_at_end() => Some(pair),
        _ => None,
    }
}
