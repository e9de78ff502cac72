//! Blocking probes.

/// A blocking probe, as in GStreamer's design document on probes: it stops one buffer of a source pad until a
/// command is answered.
#[derive(Clone, Copy, Debug, PartialEq, Eq)]
pub struct Probe {
    /// The number of the command.
    pub command: u32,
    /// How many buffers cross before the one that is stopped.
    pub buffers: u64,
}
