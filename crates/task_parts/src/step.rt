//! What a step of a task answers.

/// What a step of a task answers.
#[derive(Clone, Copy, Debug, PartialEq, Eq)]
pub enum Step {
    /// One item moved: it crossed a pad, or the head took or gave it.
    Moved,
    /// Nothing waits, and the lane of this number has no item.
    NeedsItem(u32),
    /// An item waits, and the lane of this number has no room for it.
    NeedsRoom(u32),
    /// A buffer waits at the probe of the command of this number.
    AtProbe(u32),
    /// The head has given all, and nothing waits.
    Ended,
}

/// What came of the items that wait at an element.
#[derive(Clone, Copy)]
pub enum Tried {
    /// None waits.
    Idle,
    /// One moved.
    Moved,
    /// They wait on, and the task answers this where nothing else moves.
    Stuck(Step),
}
