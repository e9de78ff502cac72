//! What a pad answers to an item.
ghost use Rattle.std.specs.Prelude.{◌≡◌};
ghost use Rattle.gst_item.specs.Flow.{code_of};

/// The answer of a pad to an item, as GStreamer's GstFlowReturn.
#[derive(Clone, Copy, Debug, PartialEq, Eq)]
pub enum Flow {
    /// The item was taken.
    Ok,
    /// The pad has no peer.
    NotLinked,
    /// The pad is flushing.
    Flushing,
    /// The pad has had the end of its stream.
    Eos,
    /// The caps were not accepted.
    NotNegotiated,
    /// An element failed.
    Error,
    /// The element does not do this.
    NotSupported,
}

impl Flow {
    /// The number that GStreamer gives this answer.
    pub fn code(self) -> i32
        ensures { result ≡ code_of self }
    {
        match self {
            Flow::Ok => 0,
            Flow::NotLinked => -1,
            Flow::Flushing => -2,
            Flow::Eos => -3,
            Flow::NotNegotiated => -4,
            Flow::Error => -5,
            Flow::NotSupported => -6,
        }
    }
}
