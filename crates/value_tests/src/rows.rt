//! What rows of tests are read and compared by.
use std::alloc::Global;
use std::fmt::Write;
use std::process::Abort;
use std::test::Fail;

/// A truth of a row.
pub(crate) fn holds(rt: &impl Abort, row: &str, truth: bool) {
    assert!(rt; truth, "{row}");
}

/// What is told of a row, and what is to be told of it.
pub(crate) fn same_text(rt: &impl Abort, row: &str, told: &str, wanted: &str) {
    assert!(rt; told == wanted, "{row}: {told}");
}

/// What stands before and behind the first mark of a row, which is without one as a whole before it.
pub(crate) fn parts_of<'a>(row: &'a str, mark: &str) -> (&'a str, &'a str) {
    match row.split_once(mark) {
        Some(parts) => parts,
        None => (row, ""),
    }
}

/// The number of the digit at a place, and 0 where there is none.
pub(crate) fn digit_at(word: &str, place: usize) -> u8 {
    match word.as_bytes().get(place) {
        Some(digit) => *digit % 16,
        None => 0,
    }
}

/// A whole number, and 0 for no digits.
pub(crate) fn number_of(word: &str) -> i32 {
    word.parse().unwrap_or(0)
}

/// Puts bytes, two digits each, and a point behind them.
pub(crate) fn put_bytes(into: &mut String, bytes: &[u8]) -> Result<(), Fail> {
    for byte in bytes {
        write!(into, "{byte:02x}")?;
    }
    into.push('.')?;
    Ok(())
}

/// Checks each row by what is told of it before its arrow.
pub(crate) fn check_rows<T: Fn(Global, &str) -> Result<String, Fail>>(
    rt: &impl Abort,
    alloc: Global,
    rows: &str,
    tell: T,
) -> Result<(), Fail>
    requires { T.IsAlwaysCallable tell }
{
    for row in rows.lines() {
        let (given, wanted) = parts_of(row, " -> ");
        let told = tell(alloc, given)?;
        same_text(rt, row, told.as_str(), wanted);
    }
    Ok(())
}
