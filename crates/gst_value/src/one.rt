//! The single values that the fields of caps have.
ghost use Rattle.std.specs.Prelude.{◌≡◌, IfOk, is_some};
ghost use Rattle.gst_value.specs.Common.{common_one, ends, holds, least_of, same, span};

use crate::memory::OutOfMemory;
use crate::text::Text;
use std::alloc::Global;

/// A single value, or a range of whole numbers, as in GStreamer's design document on caps.
#[derive(Drop)]
pub enum One {
    /// A whole number.
    Int(i32),
    Bool(bool),
    Text(Text),
    /// A numerator and a denominator above 0, without a common divisor but 1.
    Fraction(i32, i32),
    /// All whole numbers from the first to the second, which is not less.
    IntRange(i32, i32),
}

impl One {
    /// The same value once more.
    pub fn copy(&self, alloc: Global) -> Result<One, OutOfMemory>
        ensures { IfOk result (λ made. made ≡ self.now) }
    {
        Ok(match self {
            One::Int(number) => One::Int(*number),
            One::Bool(truth) => One::Bool(*truth),
            One::Text(text) => One::Text(text.copy(alloc)?),
            One::Fraction(num, den) => One::Fraction(*num, *den),
            One::IntRange(low, high) => One::IntRange(*low, *high),
        })
    }
}

impl One {
    /// Whether the two are equal.
    pub fn is_same(&self, other: &One) -> bool
        ensures { result ≡ same self.now other.now }
    {
        match (self, other) {
            (One::Int(number), One::Int(wanted)) => number == wanted,
            (One::Bool(truth), One::Bool(wanted)) => truth == wanted,
            (One::Text(text), One::Text(wanted)) => text.as_str() == wanted.as_str(),
            (One::Fraction(num, den), One::Fraction(above, below)) => num == above && den == below,
            (One::IntRange(low, high), One::IntRange(least, most)) => low == least && high == most,
            _ => false,
        }
    }

    /// Whether this value or range holds the other, which is no range.
    pub fn holds(&self, wanted: &One) -> bool
        ensures { result ≡ holds self.now wanted.now }
    {
        match (self, wanted) {
            (One::Int(number), One::Int(wanted)) => number == wanted,
            (One::IntRange(low, high), One::Int(wanted)) => low <= wanted && wanted <= high,
            (One::Bool(truth), One::Bool(wanted)) => truth == wanted,
            (One::Text(text), One::Text(wanted)) => text.as_str() == wanted.as_str(),
            (One::Fraction(num, den), One::Fraction(above, below)) => num == above && den == below,
            _ => false,
        }
    }

    /// The least and the greatest of the whole numbers that are meant.
    fn ends(&self) -> Option<(i32, i32)>
        ensures { result ≡ ends self.now }
    {
        match self {
            One::Int(number) => Some((*number, *number)),
            One::IntRange(low, high) => Some((*low, *high)),
            _ => None,
        }
    }

    /// What the two have in common.
    pub fn common(&self, alloc: Global, other: &One) -> Result<Option<One>, OutOfMemory>
        ensures { IfOk result (λ made. made ≡ common_one self.now other.now) }
    {
        match (self.ends(), other.ends()) {
            (Some((low, high)), Some((least, most))) => Ok(span(low.max(least), high.min(most))),
            _ => {
                if self.is_same(other) {
                    Ok(Some(self.copy(alloc)?))
                } else {
                    Ok(None)
                }
            }
        }
    }

    /// Whether the two have something in common.
    pub fn meets(&self, other: &One) -> bool
        ensures { result ≡ is_some (common_one self.now other.now) }
    {
        match (self.ends(), other.ends()) {
            (Some((low, high)), Some((least, most))) => spans(low.max(least), high.min(most)),
            _ => self.is_same(other),
        }
    }

    /// The value, or the least of a range.
    pub fn least(&self, alloc: Global) -> Result<One, OutOfMemory>
        ensures { IfOk result (λ made. made ≡ least_of self.now) }
    {
        match self {
            One::IntRange(low, _) => Ok(One::Int(*low)),
            _ => self.copy(alloc),
        }
    }
}

/// The whole numbers from `low` to `high`, where there are any.
fn span(low: i32, high: i32) -> Option<One>
    ensures { result ≡ span low high }
{
    if low < high {
        Some(One::IntRange(low, high))
    } else if high < low {
        None
    } else {
        Some(One::Int(low))
    }
}

/// Whether there are whole numbers from `low` to `high`.
fn spans(low: i32, high: i32) -> bool
    ensures { result ≡ is_some (span low high) }
{
    low <= high
}
