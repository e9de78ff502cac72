//! The kinds of elements.
ghost use Rattle.std.specs.Prelude.{◌≡◌};
ghost use Rattle.el_settings.specs.Kinds.{kinds};
ghost use Rattle.el_settings.specs.Rows.{find_row};

use el_law::LawKind;

/// A kind of element.
#[derive(Clone, Copy)]
pub(crate) enum Kind {
    FileSrc,
    RampTestSrc,
    Identity,
    CapsFilter,
    Valve,
    Queue,
    Tee,
    AudioConvert,
    Law(LawKind),
    RawAudioParse,
    AudioBufferSplit,
    WavParse,
    WavEnc,
    Interleave,
    Concat,
    FileSink,
    FakeSink,
}

/// The kind of this name.
pub(crate) fn kind_named(name: &str) -> Option<Kind>
    ensures { result ≡ find_row name.now kinds }
{
    match name {
        "filesrc" => Some(Kind::FileSrc),
        "ramptestsrc" => Some(Kind::RampTestSrc),
        "identity" => Some(Kind::Identity),
        "capsfilter" => Some(Kind::CapsFilter),
        "valve" => Some(Kind::Valve),
        "queue" => Some(Kind::Queue),
        "tee" => Some(Kind::Tee),
        "audioconvert" => Some(Kind::AudioConvert),
        "mulawenc" => Some(Kind::Law(LawKind::MulawEnc)),
        "alawenc" => Some(Kind::Law(LawKind::AlawEnc)),
        "mulawdec" => Some(Kind::Law(LawKind::MulawDec)),
        "alawdec" => Some(Kind::Law(LawKind::AlawDec)),
        "rawaudioparse" => Some(Kind::RawAudioParse),
        "audiobuffersplit" => Some(Kind::AudioBufferSplit),
        "wavparse" => Some(Kind::WavParse),
        "wavenc" => Some(Kind::WavEnc),
        "interleave" => Some(Kind::Interleave),
        "concat" => Some(Kind::Concat),
        "filesink" => Some(Kind::FileSink),
        "fakesink" => Some(Kind::FakeSink),
        _ => None,
    }
}
