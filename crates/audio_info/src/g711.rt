//! The two laws of ITU-T G.711, which keep a sample of 16 bits in a byte.
ghost use Rattle.std.specs.Prelude.{◌≡◌, ◌≢◌, ℕ, ◌<◌, ◌≤◌, ◌+◌, ◌*◌, ◌/◌, ◌%◌, ◌^◌, nat_le, pos, neg_ℤ, min, if◌then◌else◌};
ghost use Rattle.audio_info.specs.Segments.{HoldsALaw, HoldsMuLaw, alaw_code, alaw_magnitude, alaw_segments, alaw_value, interval_of, middle_of, mulaw_code, mulaw_segments, mulaw_value};

/// The greatest magnitude that mu-law tells apart.
pub(crate) const MULAW_CLIP: u16 = 32_635;

/// What mu-law adds to a magnitude, so that each segment starts at a power of two.
pub(crate) const MULAW_BIAS: u16 = 132;

/// The least magnitude of the upper half of mu-law's segments.
const MULAW_UPPER: u16 = 2_048;

/// By how many intervals the lines of the upper half come later than those of the lower.
pub(crate) const UPPER_FIRST: u16 = 64;

/// The highest bit of a code, for the sign.
const SIGN: u8 = 0x80;

/// The bits that an A-law code inverts.
const ALAW_MASK: u8 = 0x55;

/// The mu-law code of a sample.
pub fn mulaw_enc(v: i16) -> u8
    ensures code { result ≡ mulaw_code v }
    ensures holds { HoldsMuLaw result v }
    ensures only { (c : ℕ) → c < 256 → HoldsMuLaw c v → c ≡ result }
{
    let sign = if v < 0 { SIGN } else { 0 };
    let magnitude = v.unsigned_abs().min(MULAW_CLIP) + MULAW_BIAS;
    !(sign | mulaw_interval(magnitude))
}

// The interval of a magnitude of mu-law, counted through all segments. The upper half of them is as the lower, of
// magnitudes 16 times as great.
fn mulaw_interval(magnitude: u16) -> u8
    requires low { 128 ≤ magnitude }
    requires high { magnitude < 2 ^ 15 }
    ensures { result ≡ interval_of mulaw_segments magnitude }
{
    let (steps, first) = if magnitude < MULAW_UPPER {
        (magnitude >> 3, 0)
    } else {
        (magnitude >> 7, UPPER_FIRST)
    };
    (least_line(steps) + first - 16) as u8
}

// The interval of a magnitude in half of the segments, by how many of its narrowest intervals lie below it. In each
// segment the intervals are those of a line, and a later segment's line rises half as steeply: so it is the least of
// the lines.
fn least_line(steps: u16) -> u16
    requires { steps < 256 }
    ensures { result ≡ min (min (min steps (steps / 2 + 16)) (steps / 4 + 32)) (steps / 8 + 48) }
{
    steps
        .min((steps >> 1) + 16)
        .min((steps >> 2) + 32)
        .min((steps >> 3) + 48)
}

/// The sample of a mu-law code.
pub fn mulaw_dec(u: u8) -> i16
    ensures value { result ≡ mulaw_value u }
    ensures back { u ≢ 127 → mulaw_code result ≡ u }
{
    let code = !u;
    let middle = mulaw_middle(segment_in(code), place_in(code));
    signed(has_sign(code), middle - MULAW_BIAS)
}

// The middle of an interval of mu-law, by its segment and its place there.
fn mulaw_middle(segment: u32, place: u16) -> u16
    requires segment { segment < 8 }
    requires place { place < 16 }
    ensures middle { result ≡ middle_of mulaw_segments (segment * 16 + place) }
    ensures biased { MULAW_BIAS ≤ result }
    ensures fits { result < 2 ^ 15 }
{
    ((place << 3) + MULAW_BIAS) << segment
}

/// The A-law code of a sample.
pub fn alaw_enc(v: i16) -> u8
    ensures code { result ≡ alaw_code v }
    ensures holds { HoldsALaw result v }
    ensures only { (c : ℕ) → c < 256 → HoldsALaw c v → c ≡ result }
{
    let sign = if v < 0 { 0 } else { SIGN };
    (sign | alaw_interval(folded(v))) ^ ALAW_MASK
}

// The interval of a magnitude of A-law, as the least of the lines of all segments. The first two are of one line.
fn alaw_interval(magnitude: u16) -> u8
    requires { magnitude < 2 ^ 15 }
    ensures { result ≡ interval_of alaw_segments magnitude }
{
    (magnitude >> 4)
        .min((magnitude >> 5) + 16)
        .min((magnitude >> 6) + 32)
        .min((magnitude >> 7) + 48)
        .min((magnitude >> 8) + 64)
        .min((magnitude >> 9) + 80)
        .min((magnitude >> 10) + 96) as u8
}

/// The sample of an A-law code.
pub fn alaw_dec(a: u8) -> i16
    ensures value { result ≡ alaw_value a }
    ensures back { alaw_code result ≡ a }
{
    let code = a ^ ALAW_MASK;
    signed(
        !has_sign(code),
        alaw_middle(segment_in(code), place_in(code)),
    )
}

// The middle of an interval of A-law, by its segment and its place there.
fn alaw_middle(segment: u32, place: u16) -> u16
    requires segment { segment < 8 }
    requires place { place < 16 }
    ensures middle { result ≡ middle_of alaw_segments (segment * 16 + place) }
    ensures fits { result < 2 ^ 15 }
{
    let offset = place << 4;
    if segment == 0 {
        offset + 8
    } else {
        (offset + 264) << (segment - 1)
    }
}

// The magnitude that A-law sees: a negative sample is folded over -1/2.
fn folded(v: i16) -> u16
    ensures value { result ≡ alaw_magnitude v }
    ensures fits { result < 2 ^ 15 }
{
    if v < 0 { (-1 - v) as u16 } else { v as u16 }
}

// The number of this magnitude and sign.
fn signed(negative: bool, magnitude: u16) -> i16
    requires { magnitude < 2 ^ 15 }
    ensures { result ≡ (if negative then neg_ℤ (pos magnitude) else pos magnitude) }
{
    let value = magnitude as i16;
    if negative { -value } else { value }
}

// Whether the highest bit of a code is set.
fn has_sign(code: u8) -> bool
    ensures { result ≡ nat_le 128 code }
{
    code & SIGN != 0
}

// The segment of a code.
fn segment_in(code: u8) -> u32
    ensures { result ≡ code / 16 % 8 }
{
    u32::from(code >> 4 & 7)
}

// The place of a code's interval in its segment.
fn place_in(code: u8) -> u16
    ensures { result ≡ code % 16 }
{
    u16::from(code & 0xF)
}
