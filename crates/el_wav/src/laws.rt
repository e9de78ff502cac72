//! What is put out for a whole file.
ghost use Rattle.std.specs.Prelude.{ℕ, ◌≡◌, ◌<◌, ◌/◌, ◌^◌, ◌++◌, ◌∷◌, [], List, length, false};
ghost use Rattle.audio_info.specs.declared.info.Info.{Info};
ghost use Rattle.wav_format.specs.declared.head.Head.{Head};
ghost use Rattle.wav_format.specs.Chunks.{BeginsWithHead};
ghost use Rattle.wav_format.specs.Format.{AreBytes};
ghost use Rattle.flow_model.specs.Item.{Buffer, Ev, Eos};
ghost use Rattle.flow_model.specs.Call.{feeds};
ghost use Rattle.flow_model.specs.Rule.{unfed, all_called, owed_for};
ghost use Rattle.flow_model.specs.Looking.{bytes_of};
ghost use Rattle.el_parse.specs.Frames.{frame_time, frame_width};
ghost use Rattle.el_wav.specs.WavParse.{parses};
ghost use Rattle.el_wav.specs.WavParseHeads.{IsFormatOf};
ghost use Rattle.el_wav.specs.WholeFile.{opened_file, file_bytes, data_of, whole_frames};

use crate::wav_told::heads_are_told;
use wav_format::{head_stays, one_is_told};

/// Where the bytes of a WAV file are fed, cut in any way into buffers, and nothing of that is a fault, and then EOS,
/// the buffers that are put out have the bytes of its data, without a part of a frame at their end. Where the end of
/// the last frame is below 2^63 nanoseconds, nothing of it is a fault.
pub fn frames_are_the_data()
    ensures frames { (id : ℕ) (bodies : List Buffer) (head : Head) (info : Info)
        → AreBytes (file_bytes bodies) → BeginsWithHead (file_bytes bodies) head → IsFormatOf head info
        → (all_called parses unfed (feeds (opened_file id bodies))).over ≡ false
        → bytes_of (owed_for parses (feeds (opened_file id bodies ++ Ev Eos ∷ []))) ≡ whole_frames info (data_of head (file_bytes bodies)) }
    ensures taken { (id : ℕ) (bodies : List Buffer) (head : Head) (info : Info)
        → AreBytes (file_bytes bodies) → BeginsWithHead (file_bytes bodies) head → IsFormatOf head info
        → frame_time info (length (data_of head (file_bytes bodies)) / frame_width info) < 2 ^ 63
        → (all_called parses unfed (feeds (opened_file id bodies))).over ≡ false }
{
    one_is_told();
    heads_are_told();
    head_stays();
}
