//! Fractions in lowest terms.
ghost use Rattle.std.specs.Prelude.{◌≡◌, ◌<◌, ◌/◌, ℤ, pos, ◌⊎◌, IfSome, IfNone, SomeIff, FitsSigned, unsigned_abs};
ghost use Rattle.std.specs.Int.{IsGcd, w32};
ghost use Rattle.gst_value.specs.Fractions.{IsReduced, IsTooWide, signed};
ghost use Rattle.gst_value.specs.Parts.{HasParts};
ghost use Rattle.gst_value.specs.Values.{IsSingle};

use crate::one::One;

/// The greatest common divisor, by Euclid's algorithm.
fn greatest_common_divisor(first: u32, second: u32) -> u32
    ensures { IsGcd first second result }
{
    let mut larger = first;
    let mut smaller = second;
    while smaller != 0 {
        let rest = larger % smaller;
        larger = smaller;
        smaller = rest;
    }
    larger
}

/// A size with a sign, where it fits.
fn with_sign(negative: bool, size: u32) -> Option<i32>
    ensures { SomeIff result (FitsSigned w32 (signed negative size)) (signed negative size) }
{
    if negative {
        0i32.checked_sub_unsigned(size)
    } else {
        0i32.checked_add_unsigned(size)
    }
}

/// A fraction of these parts, where they fit.
fn parts(negative: bool, above: u32, below: u32) -> Option<One>
    ensures { SomeIff result (FitsSigned w32 (signed negative above) × FitsSigned w32 (pos below)) (One.Fraction (signed negative above) (pos below)) }
{
    let above = with_sign(negative, above)?;
    let below = with_sign(false, below)?;
    Some(One::Fraction(above, below))
}

/// The fraction `num / den` in lowest terms, with a denominator above 0. None where `den` is 0 or where one
/// of the reduced parts is no `i32`.
pub fn fraction(num: i32, den: i32) -> Option<One>
    ensures reduced { IfSome result (λ one. (above : ℤ) × (below : ℤ) × (one ≡ One.Fraction above below) × IsReduced num den above below) }
    ensures lowest { IfSome result IsSingle }
    ensures fit { IfSome result HasParts }
    ensures none { IfNone result ((den ≡ pos 0) ⊎ IsTooWide num den) }
{
    let above = num.unsigned_abs();
    let below = den.unsigned_abs();
    if below == 0 {
        return None;
    }
    let divisor = greatest_common_divisor(above, below);
    let negative = num.is_negative() != den.is_negative();
    parts(negative, above / divisor, below / divisor)
}
