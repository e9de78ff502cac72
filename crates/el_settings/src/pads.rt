//! Pads that links make.
ghost use Rattle.std.specs.Prelude.{◌≡◌, ◌≤◌, min};

/// How many pads an element has of those that links make.
#[derive(Clone, Copy)]
pub struct MadePads {
    count: u32,
    ghost few: { count ≤ 64 },
}

impl MadePads {
    /// The most pads of an element.
    pub const MOST: u32 = 64;

    /// No pads.
    pub fn none() -> MadePads
        ensures { result.count ≡ 0 }
    {
        MadePads { count: 0 }
    }

    /// So many pads, and 64 where there are more.
    pub fn of(count: usize) -> MadePads
        ensures { result.count ≡ min count 64 }
    {
        MadePads {
            count: count.min(MadePads::MOST as usize) as u32,
        }
    }

    /// How many there are.
    pub fn count(self) -> u32
        ensures count { result ≡ self.count }
        ensures few { result ≤ 64 }
    {
        self.count
    }
}
