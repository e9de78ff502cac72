//! Which element of the two laws it is.
ghost use Rattle.std.specs.Prelude.{◌≡◌};
ghost use Rattle.el_law.specs.Laws.{format_in, format_out};

use audio_info::Sample;

/// The elements of the two laws of ITU-T G.711, as GStreamer's mulawenc, alawenc, mulawdec and alawdec.
#[derive(Clone, Copy, Debug, PartialEq, Eq)]
pub enum LawKind {
    MulawEnc,
    AlawEnc,
    MulawDec,
    AlawDec,
}

impl LawKind {
    /// The format of the samples that the element takes.
    pub(crate) fn format_in(self) -> Sample
        ensures { result ≡ format_in self }
    {
        match self {
            LawKind::MulawEnc | LawKind::AlawEnc => Sample::S16LE,
            LawKind::MulawDec => Sample::MuLaw,
            LawKind::AlawDec => Sample::ALaw,
        }
    }

    /// The format of the samples that the element puts out.
    pub(crate) fn format_out(self) -> Sample
        ensures { result ≡ format_out self }
    {
        match self {
            LawKind::MulawEnc => Sample::MuLaw,
            LawKind::AlawEnc => Sample::ALaw,
            LawKind::MulawDec | LawKind::AlawDec => Sample::S16LE,
        }
    }
}
