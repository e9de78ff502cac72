//! What a reader of WAV files puts out itself.
ghost use Rattle.std.specs.Prelude.{◌≡◌, ◌++◌, OnOk, OnErr};
ghost use Rattle.el_wav.specs.WavParseRule.{last_of};

use gst_item::Outs;
use gst_value::OutOfMemory;
use std::alloc::Global;

/// Puts the last item of a list out. Where there is no memory nothing is put out.
pub(crate) fn put_last(alloc: Global, made: Outs, out: &mut Outs) -> Result<(), OutOfMemory>
    ensures ok { OnOk result (out.new ≡ out.old ++ last_of made) }
    ensures err { OnErr result (out.new ≡ out.old) }
{
    let mut made = made.into_vec();
    match made.pop() {
        Some(last) => out.push(alloc, last),
        None => Ok(()),
    }
}
