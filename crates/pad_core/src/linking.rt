//! Links between pads.
ghost use Rattle.std.specs.Prelude.{◌≡◌, ◌||◌, List};
ghost use Rattle.pad_core.specs.Item.{Item};
ghost use Rattle.pad_core.specs.Linking.{code_of, has_peer, link_answer, src_behind, sink_behind};
ghost use Rattle.pad_core.specs.SrcPad.{CrossedBy, state_of, crossed_of};
ghost use Rattle.pad_core.specs.SinkPad.{AcceptedBy, sink_state};

use crate::sink_pad::SinkPad;
use crate::src_pad::SrcPad;

/// The answer to an attempt to link two pads, as GStreamer's GstPadLinkReturn.
#[derive(Clone, Copy, Debug, PartialEq, Eq)]
pub enum LinkReturn {
    /// The pads are linked.
    Ok,
    /// The pads have no common grandparent.
    WrongHierarchy,
    /// One of the pads was linked already.
    WasLinked,
    /// The pads are not a source and a sink.
    WrongDirection,
    /// The pads have no common caps.
    NoFormat,
    /// The pads cannot be scheduled together.
    NoSched,
    /// A pad refused.
    Refused,
}

impl LinkReturn {
    /// The number that GStreamer gives this answer.
    pub fn code(self) -> i32
        ensures { result ≡ code_of self }
    {
        match self {
            LinkReturn::Ok => 0,
            LinkReturn::WrongHierarchy => -1,
            LinkReturn::WasLinked => -2,
            LinkReturn::WrongDirection => -3,
            LinkReturn::NoFormat => -4,
            LinkReturn::NoSched => -5,
            LinkReturn::Refused => -6,
        }
    }
}

/// Links two pads; `common` says whether some fixed caps are allowed at both. The answer is `WasLinked` where one
/// of them is linked, else `NoFormat` where they have no common caps, else `Ok`. Where it is not `Ok`, both stay.
pub fn link(src: &mut SrcPad, sink: &mut SinkPad, common: bool) -> LinkReturn
    ensures answer { result ≡ link_answer (has_peer (state_of src.old).peer || has_peer (sink_state sink.old).peer) common }
    ensures src { state_of src.new ≡ src_behind result (sink_state sink.old) (state_of src.old) }
    ensures sink { sink_state sink.new ≡ sink_behind result (state_of src.old) (sink_state sink.old) }
    ensures crossed { (h : List Item) → CrossedBy src.old h → CrossedBy src.new h }
    ensures count { crossed_of src.new ≡ crossed_of src.old }
    ensures accepted { (h : List Item) → AcceptedBy sink.old h → AcceptedBy sink.new h }
{
    if src.is_linked() || sink.is_linked() {
        return LinkReturn::WasLinked;
    }
    if !common {
        return LinkReturn::NoFormat;
    }
    src.set_peer(sink.number());
    sink.set_peer(src.number());
    LinkReturn::Ok
}
