//! The law that the rule of a reader of WAV files rests on.
ghost use Rattle.el_wav.specs.WavParseHeads.{ReadsHeads};
ghost use Rattle.el_wav.specs.WavParseTold.{wav_told};

use wav_format::one_is_told;

/// What `wav_told` says of bytes is what the RIFF WAVE format says of them.
pub fn heads_are_told()
    ensures { ReadsHeads wav_told }
{
    one_is_told();
}
