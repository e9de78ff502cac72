//! What a source pad answers to an item.

/// Whether an item crosses a source pad, and if not, why.
#[derive(Clone, Copy, Debug, PartialEq, Eq)]
pub enum Crossing {
    /// The pad is not active, or it is flushing and the item is no FLUSH_STOP.
    Flushing,
    /// EOS crossed the pad since the last FLUSH_STOP, and the item is none.
    Eos,
    /// The buffer stands at the probe of the command of this number.
    AtProbe(u32),
    /// A buffer would reach nobody: neither this pad nor a sibling is linked.
    NotLinked,
    /// The item crossed and reaches nobody.
    Alone,
    /// The item crossed and goes to the sink pad of this number.
    Go(u32),
}
