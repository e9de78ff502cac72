//! Orders.
ghost use Rattle.std.specs.Prelude.{◌≡◌, ◌<◌, ◌%◌};

use gst_value::List;

/// Numbers without end that tell whose turn is next.
#[derive(Drop)]
pub enum Order {
    /// These numbers, and behind them 0, 1, 2 and so on.
    Listed(List<u32>),
    /// The draws of a generator of 64 bits that begins with this state: the state is multiplied by
    /// 6364136223846793005, 1442695040888963407 is added, and its upper 31 bits are the draw.
    Drawn(u64),
}

/// Whose turn a number tells, among so many. Among one nothing is divided, as each step of most lines asks it.
pub(crate) fn place(number: u64, count: usize) -> usize
    requires some { 0 < count }
    ensures place { result ≡ number % count }
    ensures within { result < count }
{
    if count == 1 {
        return 0;
    }
    (number % count as u64) as usize
}
