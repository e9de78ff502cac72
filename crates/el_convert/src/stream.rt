//! What a converter knows of its stream.
ghost use Rattle.std.specs.Prelude.{◌≡◌, ◌==◌, ◌&&◌, ◌<◌, ◌^◌, ◌+◌, ◌%◌, nat_lt, false, length, Some, List, IfOk, IfErr, OnOk, OnErr};
ghost use Rattle.std.specs.Result.{IsErrAnd};
ghost use Rattle.audio_info.specs.Media.{sample_of, rate_of, channels_of};
ghost use Rattle.audio_info.specs.Packing.{IsRaw};
ghost use Rattle.flow_model.specs.Item.{Item};
ghost use Rattle.flow_model.specs.Feeding.{IsFaultOf};
ghost use Rattle.el_convert.specs.Choice.{choice};
ghost use Rattle.el_convert.specs.Converts.{frame_width, whole_frames, converted_buffer as buffer_of};
ghost use Rattle.el_convert.specs.Refused.{IsRefusal};

use crate::bodies::convert;
use crate::raw::options;
use audio_info::Info;
use flow_model::{ElementFault, StreamKind};
use gst_caps::{Caps, choose};
use gst_item::{Buffer, Flow};
use gst_time::LIMIT;
use gst_value::{Fixed, OutOfMemory};
use std::alloc::Global;

/// The caps of the stream that comes in, and the choice for it that was put out last.
#[derive(Drop)]
pub(crate) struct Stream {
    pub(crate) offered: Fixed,
    pub(crate) input: Info,
    pub(crate) chosen: Fixed,
    pub(crate) output: Info,
    ghost format_in: { sample_of offered ≡ Some input.format },
    ghost rate_in: { rate_of offered ≡ Some input.rate },
    ghost channels_in: { channels_of offered ≡ Some input.channels },
    ghost raw_in: { IsRaw input.format },
    ghost format_out: { sample_of chosen ≡ Some output.format },
    ghost channels_out: { channels_of chosen ≡ Some output.channels },
    ghost raw_out: { IsRaw output.format },
}

impl Stream {
    /// The same once more.
    pub(crate) fn copy(&self, alloc: Global) -> Result<Stream, OutOfMemory>
        ensures { IfOk result (λ made. made ≡ self.now) }
    {
        Ok(Stream {
            offered: self.offered.copy(alloc)?,
            input: self.input,
            chosen: self.chosen.copy(alloc)?,
            output: self.output,
        })
    }

    /// Whether a buffer is a whole number of frames, and the number of bytes at its end is not too large. `got` bytes
    /// came before it.
    pub(crate) fn takes(&self, got: u64, buffer: &Buffer) -> bool
        requires { got < 2 ^ 63 }
        ensures { result ≡ (length buffer.now.body % frame_width self.now.offered == 0) && nat_lt (got + length buffer.now.body) (2 ^ 63) }
    {
        let length = buffer.body.as_slice().len() as u64;
        length % u64::from(self.input.width()) == 0 && got + length < LIMIT
    }

    /// Refuses a buffer that it does not take.
    pub(crate) fn refuse(&self, got: u64, buffer: &Buffer) -> Result<Flow, ElementFault>
        requires bound { got < 2 ^ 63 }
        requires refused { (length buffer.now.body % frame_width self.now.offered == 0) && nat_lt (got + length buffer.now.body) (2 ^ 63) ≡ false }
        ensures { IsErrAnd result (λ fault. (owed : List Item) → IsFaultOf (whole_frames (frame_width self.now.offered) got buffer.now owed) fault) }
    {
        let length = buffer.body.as_slice().len() as u64;
        if length % u64::from(self.input.width()) != 0 {
            return Err(ElementFault::BadStream {
                place: got + length,
                kind: StreamKind::SplitFrame,
            });
        }
        Err(ElementFault::TooLong { a: got, b: length })
    }

    /// Converts a buffer of whole frames to the choice. Its times and its offset stay.
    pub(crate) fn convert(&self, alloc: Global, buffer: &mut Buffer) -> Result<(), OutOfMemory>
        requires whole { length buffer.old.body % frame_width self.now.offered ≡ 0 }
        ensures made { OnOk result (buffer.new ≡ buffer_of self.now.offered self.now.chosen buffer.old) }
        ensures stays { OnErr result (buffer.new ≡ buffer.old) }
    {
        convert(alloc, self.input, self.output, &mut buffer.body)?;
        buffer.discont = false;
        Ok(())
    }
}

/// The choice for caps of raw audio. Where nothing of what they can become is allowed, the answer is
/// `NotNegotiated`.
pub(crate) fn stream_of(
    alloc: Global,
    offered: Fixed,
    input: Info,
    allowed: &Caps,
) -> Result<Stream, ElementFault>
    requires format { sample_of offered ≡ Some input.format }
    requires rate { rate_of offered ≡ Some input.rate }
    requires channels { channels_of offered ≡ Some input.channels }
    requires raw { IsRaw input.format }
    ensures offered { IfOk result (λ made. made.offered ≡ offered) }
    ensures chosen { IfOk result (λ made. choice offered allowed.now ≡ Some made.chosen) }
    ensures fault { IfErr result (IsRefusal offered allowed.now) }
{
    let options = options(alloc, &input)?;
    let Some(chosen) = choose(alloc, &options, allowed)? else {
        return Err(ElementFault::NotNegotiated {
            offered: Some(offered),
            wanted: allowed.copy(alloc)?,
        });
    };
    let Ok(output) = Info::from_fixed(&chosen) else {
        unreachable!()
    };
    Ok(Stream {
        offered,
        input,
        chosen,
        output,
    })
}
