//! The times of the buffers that an element makes of the frames of a part.
ghost use Rattle.std.specs.Prelude.{◌≡◌, ◌<◌, ◌^◌, ◌+◌, ◌∷◌, [], List, Result, Ok, IfOk, OnOk, IfErr};
ghost use Rattle.gst_time.specs.declared.time.TheConstants.{LIMIT};
ghost use Rattle.std.specs.Option.{ForSome};
ghost use Rattle.flow_model.specs.Item.{Item, Buf};
ghost use Rattle.flow_model.specs.Rule.{Fault};
ghost use Rattle.flow_model.specs.Feeding.{IsFaultOf};
ghost use Rattle.flow_model.specs.Looking.{end_of};
ghost use Rattle.el_parse.specs.Streams.{stream_by};
ghost use Rattle.el_parse.specs.Splits.{time_at, later_by, in_time, in_sum, timed};

use audio_info::Info;
use flow_model::ElementFault;
use gst_item::{Body, Buffer};
use gst_time::{LIMIT, scale};

/// The nanoseconds of a second.
const SECOND: u64 = 1_000_000_000;

/// What the times of buffers go by.
#[derive(Clone, Copy)]
pub(crate) struct Timing {
    pub(crate) info: Info,
    /// The time of the first buffer of the part, in nanoseconds, where it has one.
    pub(crate) pts: Option<u64>,
    /// The time of the end of what was put out, in nanoseconds.
    pub(crate) reached: u64,
}

impl Timing {
    /// The buffer of a number of frames from frame `first` on, as counted in its part.
    pub(crate) fn piece(self, first: u64, frames: u32, body: Body) -> Result<Buffer, ElementFault>
        requires { first < 2 ^ 53 }
        ensures made { IfOk result (λ made. timed (stream_by self.info) self.pts self.reached first frames body ≡ Ok (Buf made ∷ [])) }
        ensures fits { OnOk result (first + frames < 2 ^ 53) }
        ensures below { IfOk result (λ made. end_of (Buf made ∷ []) < 2 ^ 64) }
        ensures fault { IfErr result (λ fault. IsFaultOf (timed (stream_by self.info) self.pts self.reached first frames body) fault) }
    {
        let start = self.time_of(first)?;
        let pts = self.begin_at(start)?;
        let end = self.time_of(first + u64::from(frames))?;
        Ok(Buffer {
            body,
            pts,
            duration: Some(end - start),
            offset: Some(first),
            discont: false,
        })
    }

    /// The time of a frame, in nanoseconds from the time of the first buffer on.
    fn time_of(self, frame: u64) -> Result<u64, ElementFault>
        ensures time { IfOk result (λ time. time ≡ time_at (stream_by self.info) frame) }
        ensures fits { OnOk result (time_at (stream_by self.info) frame < LIMIT) }
        ensures few { OnOk result (frame < 2 ^ 53) }
        ensures passes { OnOk result ((owed : Result (List Item) Fault) → in_time self.reached (time_at (stream_by self.info) frame) owed ≡ owed) }
        ensures fault { IfErr result
            (λ fault. (owed : Result (List Item) Fault) → IsFaultOf (in_time self.reached (time_at (stream_by self.info) frame) owed) fault) }
    {
        scale(frame, SECOND, u64::from(self.info.rate)).ok_or(ElementFault::TooLong {
            a: self.reached,
            b: LIMIT.saturating_sub(self.reached),
        })
    }

    /// A time behind that of the first buffer.
    fn begin_at(self, time: u64) -> Result<Option<u64>, ElementFault>
        ensures pts { IfOk result (λ pts. pts ≡ later_by self.pts time) }
        ensures fits { IfOk result (λ pts. ForSome pts (λ sum. sum < LIMIT)) }
        ensures passes { OnOk result ((owed : Result (List Item) Fault) → in_sum self.pts time owed ≡ owed) }
        ensures fault { IfErr result (λ fault. (owed : Result (List Item) Fault) → IsFaultOf (in_sum self.pts time owed) fault) }
    {
        let Some(pts) = self.pts else {
            return Ok(None);
        };
        match pts.checked_add(time).filter(|sum| *sum < LIMIT) {
            Some(sum) => Ok(Some(sum)),
            None => Err(ElementFault::TooLong { a: pts, b: time }),
        }
    }
}

/// The time of the end of a buffer, in nanoseconds, where one without a time begins at 0.
pub(crate) fn end_of_buffer(buffer: &Buffer) -> u64
    requires { end_of (Buf buffer.now ∷ []) < 2 ^ 64 }
    ensures { result ≡ end_of (Buf buffer.now ∷ []) }
{
    buffer.pts.unwrap_or(0) + buffer.duration.unwrap_or(0)
}
