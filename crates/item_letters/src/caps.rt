//! The letters of caps.
ghost use Rattle.std.specs.Prelude.{◌≡◌};
ghost use Rattle.item_letters.specs.Letters.{letter_of_media};

use gst_value::Fixed;

/// `r` for raw audio, `m` for mu-law, `a` for A-law, and `?` for other media types. The fields are not looked at.
pub fn letter_of_caps(caps: &Fixed) -> u8
    ensures { result ≡ letter_of_media caps.now.media }
{
    let media = caps.media();
    if media == "audio/x-raw" {
        b'r'
    } else if media == "audio/x-mulaw" {
        b'm'
    } else if media == "audio/x-alaw" {
        b'a'
    } else {
        b'?'
    }
}
