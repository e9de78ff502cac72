//! What a sink makes of what is put out.
ghost use Rattle.std.specs.Prelude.{◌≡◌, ◌++◌, ◌∷◌, [], List, Some, false};
ghost use Rattle.gst_value.specs.Description.{Description};
ghost use Rattle.gst_value.specs.declared.one.One.{One};
ghost use Rattle.flow_model.specs.Item.{Item, Ev, Eos};
ghost use Rattle.flow_model.specs.Call.{feeds};
ghost use Rattle.flow_model.specs.Rule.{unfed, all_called, owed_for};
ghost use Rattle.flow_model.specs.SinkBytes.{sink_bytes};
ghost use Rattle.flow_model.specs.CapsInForce.{caps_in_force};
ghost use Rattle.el_wavenc.specs.WavFile.{stream_of};
ghost use Rattle.el_wavenc.specs.Encodes.{encodes};
ghost use Rattle.el_wavenc.specs.WholeFile.{wav_file, taken, data_taken};

#[tactic(auto, using(crate::proofs::WholeFile::file_made))]
/// Where items are fed and none of the last section is a fault, and then EOS, a sink makes a WAV file of what is put
/// out: a head with the size of the data, the bytes of the section's buffers one behind the other, and a zero byte
/// where their number is odd.
pub fn file_is_whole()
    ensures { (h : List Item) (caps : Description One) → (all_called encodes unfed (feeds h)).over ≡ false → caps_in_force (taken h) ≡ Some caps
        → sink_bytes false (owed_for encodes (feeds (h ++ Ev Eos ∷ []))) ≡ wav_file (stream_of caps) (data_taken h) }
{}
