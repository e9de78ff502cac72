//! The mu-law codes of sixteen samples at once.
ghost use Rattle.std.specs.Prelude.{◌≡◌, ◌≤◌, ◌<◌, ◌+◌, ◌-◌, ◌*◌, ◌/◌, map, min, All};
ghost use Rattle.std.specs.Simd.{first_chunks};
ghost use Rattle.audio_info.specs.Packing.{sample_value};
ghost use Rattle.audio_info.specs.Segments.{interval_of, mulaw_code, mulaw_segments};
ghost use Rattle.audio_info.specs.declared.sample.Sample.TheVariants.{S16LE};
ghost use Rattle.byteorder.specs.Endian.{little_number};

use crate::g711::{MULAW_BIAS, MULAW_CLIP, UPPER_FIRST};
use std::simd::prelude::*;

/// How many narrowest intervals of the upper half the least magnitude there has.
const UPPER_STEPS: u8 = 16;

/// The mu-law codes of sixteen samples of 16 bits, the lower byte of each first.
pub fn mulaw_enc_sixteen(samples: &[u8; 32]) -> u8x16
    ensures { result ≡ map (λ s. mulaw_code (sample_value S16LE s)) (first_chunks 2 16 samples.now) }
{
    let bits = bits_of(u8x32::from_slice(samples));
    !(signs(bits) | intervals(magnitudes(bits)))
}

// The bits of samples, as a number each.
fn bits_of(bytes: u8x32) -> u16x16
    ensures bits { result ≡ map (λ s. little_number 2 s) (first_chunks 2 16 bytes) }
    ensures small { All (λ u. u < 65536) result }
{
    u16x16::from_le_bytes(bytes)
}

// The sign bits of samples, given by their bits.
fn signs(bits: u16x16) -> u8x16
    ensures { result ≡ map (λ u. u / 32768 * 128) bits }
{
    (bits >> u16x16::splat(15)).cast::<u8>() << u8x16::splat(7)
}

// The magnitudes of samples, given by their bits, each with what makes its segment start at a power of two.
fn magnitudes(bits: u16x16) -> u16x16
    ensures { result ≡ map (λ u. min (min u (65536 - u)) 32635 + 132) bits }
{
    let absolute = bits.simd_min(bits.wrapping_neg());
    absolute.simd_min(u16x16::splat(MULAW_CLIP)) + u16x16::splat(MULAW_BIAS)
}

// The intervals of magnitudes, found as for one of them, but counted in bytes. What does not fit a byte is of the
// upper half, where it does not count.
fn intervals(magnitudes: u16x16) -> u8x16
    requires { All (λ m. (128 ≤ m) × (m < 32768)) magnitudes }
    ensures { result ≡ map (λ m. interval_of mulaw_segments m) magnitudes }
{
    let narrow = (magnitudes >> u16x16::splat(3))
        .simd_min(u16x16::splat(255))
        .cast::<u8>();
    let wide = (magnitudes >> u16x16::splat(7)).cast::<u8>();
    let is_upper = wide.simd_ge(u8x16::splat(UPPER_STEPS));
    let first = is_upper.select(u8x16::splat(UPPER_FIRST as u8), u8x16::splat(0));
    least_lines(is_upper.select(wide, narrow)) + first - u8x16::splat(16)
}

// The least line of each half, as for one.
fn least_lines(steps: u8x16) -> u8x16
    ensures { result ≡ map (λ s. min (min (min s (s / 2 + 16)) (s / 4 + 32)) (s / 8 + 48)) steps }
{
    let second = halved(steps, 32);
    let third = halved(second, 48);
    let fourth = halved(third, 64);
    steps.simd_min(second).simd_min(third).simd_min(fourth)
}

// A line that rises half as steeply. The sum is made in words, and a compiler takes one operation for it.
fn halved(line: u8x16, first: u16) -> u8x16
    requires { first ≤ 64 }
    ensures { result ≡ map (λ s. (s + first) / 2) line }
{
    let sum = line.cast::<u16>() + u16x16::splat(first);
    (sum >> u16x16::splat(1)).cast::<u8>()
}
