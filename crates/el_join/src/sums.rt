//! What earlier pads add to the numbers of a SEGMENT.
ghost use Rattle.std.specs.Prelude.{◌≡◌, ◌+◌, if◌then◌else◌, nat_lt, None, Some, Ok, Err, IfOk, OnOk, IfErr};
ghost use Rattle.gst_time.specs.declared.time.TheConstants.{LIMIT};
ghost use Rattle.flow_model.specs.Rule.{TooLong};
ghost use Rattle.el_join.specs.declared.sums.Sum.TheVariants.{Within, Past};
ghost use Rattle.el_join.specs.Totals.{added, added_sum, no_sums, with_tally, raised_number, raised_stop, raised_time, raised_bytes};
ghost use Rattle.el_join.specs.Totals.{raised_segment, raised, lifted, lifted_segment};

use crate::tally::Tally;
use flow_model::ElementFault;
use gst_item::{Event, Item};
use gst_time::{Format, LIMIT, Segment};

/// Two numbers whose sum is not below `LIMIT`.
#[derive(Clone, Copy)]
pub(crate) struct Excess {
    pub(crate) a: u64,
    pub(crate) b: u64,
}

impl From<Excess> for ElementFault {
    ghost use Rattle.flow_model.specs.declared.fault.ElementFault.TheVariants.{TooLong as Passing};

    ghost from_gives = { λ excess fault. fault ≡ Passing excess.a excess.b };

    fn from(excess: Excess) -> ElementFault {
        ElementFault::TooLong {
            a: excess.a,
            b: excess.b,
        }
    }
}

/// A sum of numbers. From where it reached `LIMIT` on it is the two numbers of which it did not fit.
#[derive(Clone, Copy)]
pub(crate) enum Sum {
    Within(u64),
    Past { a: u64, b: u64 },
}

impl Sum {
    /// With a number more.
    pub(crate) fn with(self, more: u64) -> Sum
        ensures { result ≡ added self more }
    {
        match self {
            Sum::Within(n) => with_number(n, more),
            Sum::Past { a, b } => Sum::Past { a, b },
        }
    }

    /// With another sum behind it.
    pub(crate) fn with_sum(self, more: Sum) -> Sum
        ensures { result ≡ added_sum self more }
    {
        match more {
            Sum::Within(m) => self.with(m),
            Sum::Past { a, b } => self.with_past(a, b),
        }
    }

    fn with_past(self, a: u64, b: u64) -> Sum
        ensures { result ≡ added_sum self (Past a b) }
    {
        match self {
            Sum::Within(_) => Sum::Past { a, b },
            Sum::Past { a, b } => Sum::Past { a, b },
        }
    }
}

fn with_number(n: u64, more: u64) -> Sum
    ensures { result ≡ added (Within n) more }
{
    match sum_below(n, more) {
        Some(sum) => Sum::Within(sum),
        None => Sum::Past { a: n, b: more },
    }
}

/// A sum, where it is below `LIMIT`.
pub(crate) fn sum_below(a: u64, b: u64) -> Option<u64>
    ensures { result ≡ (if nat_lt (a + b) LIMIT then Some (a + b) else None) }
{
    let sum = a.checked_add(b)?;
    if sum < LIMIT { Some(sum) } else { None }
}

/// What the earlier pads came to: the sum of the greatest running times at which their buffers end, in
/// nanoseconds, and that of the bytes in their buffers.
#[derive(Clone, Copy)]
pub(crate) struct Sums {
    pub(crate) time: Sum,
    pub(crate) bytes: Sum,
}

impl Sums {
    /// Those of no pads.
    pub(crate) fn new() -> Sums
        ensures { result ≡ no_sums }
    {
        Sums {
            time: Sum::Within(0),
            bytes: Sum::Within(0),
        }
    }

    /// With what one pad more came to.
    pub(crate) fn with(self, tally: &Tally) -> Sums
        ensures { result ≡ with_tally self tally.now }
    {
        Sums {
            time: self.time.with(tally.greatest),
            bytes: self.bytes.with_sum(tally.bytes),
        }
    }

    /// A SEGMENT behind the earlier pads.
    fn raise(self, segment: &Segment) -> Result<Segment, Excess>
        ensures ok { IfOk result (λ made. raised_segment self segment.now ≡ Ok made) }
        ensures err { IfErr result (λ excess. raised_segment self segment.now ≡ Err (TooLong excess.a excess.b)) }
    {
        match segment.format {
            Format::Time => raise_time(segment, self.time),
            Format::Bytes => raise_bytes(segment, self.bytes),
        }
    }

    /// Whether an item fits behind the earlier pads.
    pub(crate) fn check(self, item: &Item) -> Result<(), Excess>
        ensures ok { OnOk result (raised self item.now ≡ Ok (lifted self item.now)) }
        ensures err { IfErr result (λ excess. raised self item.now ≡ Err (TooLong excess.a excess.b)) }
    {
        match item {
            Item::Event(Event::Segment(segment)) => {
                self.raise(segment)?;
                Ok(())
            }
            _ => Ok(()),
        }
    }

    /// The item as it goes out behind the earlier pads, and as it is where it does not fit.
    pub(crate) fn lift(self, item: Item) -> Item
        ensures { result ≡ lifted self item }
    {
        match item {
            Item::Event(Event::Segment(segment)) => {
                Item::Event(Event::Segment(self.lift_segment(segment)))
            }
            other => other,
        }
    }

    fn lift_segment(self, segment: Segment) -> Segment
        ensures { result ≡ lifted_segment self segment }
    {
        match self.raise(&segment) {
            Ok(raised) => raised,
            Err(_) => segment,
        }
    }
}

/// A SEGMENT in time, with its base raised by a sum.
fn raise_time(segment: &Segment, by: Sum) -> Result<Segment, Excess>
    ensures ok { IfOk result (λ made. raised_time by segment.now ≡ Ok made) }
    ensures err { IfErr result (λ excess. raised_time by segment.now ≡ Err (TooLong excess.a excess.b)) }
{
    match by {
        Sum::Within(n) => raise_base(segment, n),
        Sum::Past { a, b } => Err(Excess { a, b }),
    }
}

/// A SEGMENT in bytes, with its start, position and stop raised by a sum.
fn raise_bytes(segment: &Segment, by: Sum) -> Result<Segment, Excess>
    ensures ok { IfOk result (λ made. raised_bytes by segment.now ≡ Ok made) }
    ensures err { IfErr result (λ excess. raised_bytes by segment.now ≡ Err (TooLong excess.a excess.b)) }
{
    match by {
        Sum::Within(n) => move_bytes(segment, n),
        Sum::Past { a, b } => Err(Excess { a, b }),
    }
}

fn raise_base(segment: &Segment, by: u64) -> Result<Segment, Excess>
    ensures ok { IfOk result (λ made. raised_time (Within by) segment.now ≡ Ok made) }
    ensures err { IfErr result (λ excess. raised_time (Within by) segment.now ≡ Err (TooLong excess.a excess.b)) }
{
    let base = sum_of(segment.base, by)?;
    Ok(Segment {
        format: segment.format,
        start: segment.start,
        stop: segment.stop,
        time: segment.time,
        base,
        position: segment.position,
    })
}

fn move_bytes(segment: &Segment, by: u64) -> Result<Segment, Excess>
    ensures ok { IfOk result (λ made. raised_bytes (Within by) segment.now ≡ Ok made) }
    ensures err { IfErr result (λ excess. raised_bytes (Within by) segment.now ≡ Err (TooLong excess.a excess.b)) }
{
    let start = sum_of(segment.start, by)?;
    let position = sum_of(segment.position, by)?;
    let stop = raise_stop(segment.stop, by)?;
    Ok(Segment {
        format: segment.format,
        start,
        stop,
        time: segment.time,
        base: segment.base,
        position,
    })
}

fn raise_stop(stop: Option<u64>, by: u64) -> Result<Option<u64>, Excess>
    ensures ok { IfOk result (λ made. raised_stop stop by ≡ Ok made) }
    ensures err { IfErr result (λ excess. raised_stop stop by ≡ Err (TooLong excess.a excess.b)) }
{
    match stop {
        None => Ok(None),
        Some(stop) => Ok(Some(sum_of(stop, by)?)),
    }
}

/// A sum that has to be below `LIMIT`.
fn sum_of(a: u64, b: u64) -> Result<u64, Excess>
    ensures ok { IfOk result (λ sum. raised_number a b ≡ Ok sum) }
    ensures err { IfErr result (λ excess. raised_number a b ≡ Err (TooLong excess.a excess.b)) }
{
    match sum_below(a, b) {
        Some(sum) => Ok(sum),
        None => Err(Excess { a, b }),
    }
}
