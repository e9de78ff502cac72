//! A stream of frames by its CAPS.
ghost use Rattle.std.specs.Prelude.{◌≡◌, option_map};
ghost use Rattle.el_mix.specs.Heard.{mono_by, heard};

use audio_info::Info;
use gst_value::Fixed;

/// CAPS, and what they say of frames. CAPS that are none of audio are refused with the first item of a section.
#[derive(Drop)]
pub(crate) struct Stream {
    pub(crate) caps: Fixed,
    info: Option<Info>,
    ghost says: { option_map mono_by info ≡ heard caps },
}

impl Stream {
    /// That of CAPS.
    pub(crate) fn new(caps: Fixed) -> Stream
        ensures { result.caps ≡ caps }
    {
        let info = info_of(&caps);
        Stream { caps, info }
    }

    /// What they say.
    pub(crate) fn frames(&self) -> Option<Info>
        ensures { option_map mono_by result ≡ heard self.now.caps }
    {
        self.info
    }
}

fn info_of(caps: &Fixed) -> Option<Info>
    ensures { option_map mono_by result ≡ heard caps.now }
{
    match Info::from_fixed(caps) {
        Ok(info) => Some(info),
        Err(_) => None,
    }
}
