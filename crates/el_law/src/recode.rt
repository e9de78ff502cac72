//! Bodies from one format of samples to another.
ghost use Rattle.std.specs.Prelude.{◌≡◌, ◌≤◌, ◌+◌, ◌++◌, ◌∷◌, [], length, map, take, IfOk};
ghost use Rattle.std.specs.Simd.{first_chunks};
ghost use Rattle.audio_info.specs.Packing.{sample_bytes, sample_value};
ghost use Rattle.audio_info.specs.Segments.{mulaw_code};
ghost use Rattle.audio_info.specs.declared.sample.Sample.TheVariants.{S16LE as Linear, MuLaw, ALaw};
ghost use Rattle.el_law.specs.Companding.{format_of};
ghost use Rattle.el_law.specs.Laws.{format_in, format_out, recoded_bytes};

use crate::kind::LawKind;
use audio_info::{Sample, alaw_dec, alaw_enc, get, mulaw_dec, mulaw_enc, mulaw_enc_sixteen};
use gst_value::OutOfMemory;
use std::alloc::Global;

/// A law of G.711.
#[derive(Clone, Copy)]
enum Companding {
    MuLaw,
    ALaw,
}

impl Companding {
    /// The code of a sample.
    fn encode(self, sample: i16) -> u8
        ensures { sample_bytes (format_of self) sample ≡ result ∷ [] }
    {
        match self {
            Companding::MuLaw => mulaw_enc(sample),
            Companding::ALaw => alaw_enc(sample),
        }
    }

    /// The sample of a code.
    fn decode(self, code: u8) -> i16
        ensures { result ≡ sample_value (format_of self) (code ∷ []) }
    {
        match self {
            Companding::MuLaw => mulaw_dec(code),
            Companding::ALaw => alaw_dec(code),
        }
    }
}

/// The bytes that an element puts out for those of a body.
pub(crate) fn recoded(alloc: Global, kind: LawKind, bytes: &[u8]) -> Result<Vec<u8>, OutOfMemory>
    ensures { IfOk result (λ made. made.items ≡ recoded_bytes (format_in kind) (format_out kind) bytes.now) }
{
    match kind {
        LawKind::MulawEnc => mulaw_encoded(alloc, bytes),
        LawKind::AlawEnc => alaw_encoded(alloc, bytes),
        LawKind::MulawDec => decoded(alloc, Companding::MuLaw, bytes),
        LawKind::AlawDec => decoded(alloc, Companding::ALaw, bytes),
    }
}

/// The mu-law codes of samples of 16 bits, the lower byte of each first, sixteen at a time as long as there are so
/// many. A single byte at the end is left out.
fn mulaw_encoded(alloc: Global, bytes: &[u8]) -> Result<Vec<u8>, OutOfMemory>
    ensures { IfOk result (λ made. made.items ≡ recoded_bytes Linear MuLaw bytes.now) }
{
    let (groups, rest) = bytes.as_chunks::<32>();
    let mut codes = vec![in alloc; 0; bytes.len() / 2]?;
    let mut place = 0;
    for group in groups {
        put_sixteen(place, group, codes.as_mut_slice());
        place += 16;
    }
    let (samples, _) = rest.as_chunks::<2>();
    for sample in samples {
        codes[place] = Companding::MuLaw.encode(get(Sample::S16LE, sample) as i16);
        place += 1;
    }
    Ok(codes)
}

/// Puts the codes of sixteen samples at a place, behind which there is room for them.
fn put_sixteen(place: usize, samples: &[u8; 32], codes: &mut [u8])
    requires { place + 16 ≤ length codes.old }
    ensures size { length codes.new ≡ length codes.old }
    ensures put { take (place + 16) codes.new ≡ take place codes.old ++ map (λ s. mulaw_code (sample_value Linear s)) (first_chunks 2 16 samples.now) }
{
    mulaw_enc_sixteen(samples).copy_to_slice(&mut codes[place..]);
}

/// The A-law codes of samples of 16 bits, the lower byte of each first. A single byte at the end is left out.
fn alaw_encoded(alloc: Global, bytes: &[u8]) -> Result<Vec<u8>, OutOfMemory>
    ensures { IfOk result (λ made. made.items ≡ recoded_bytes Linear ALaw bytes.now) }
{
    let (samples, _) = bytes.as_chunks::<2>();
    let mut codes = Vec::with_capacity(alloc, samples.len())?;
    for sample in samples {
        codes.push_reserved(Companding::ALaw.encode(get(Sample::S16LE, sample) as i16));
    }
    Ok(codes)
}

/// The samples of codes, in 16 bits with the lower byte first.
fn decoded(alloc: Global, law: Companding, codes: &[u8]) -> Result<Vec<u8>, OutOfMemory>
    ensures { IfOk result (λ made. made.items ≡ recoded_bytes (format_of law) Linear codes.now) }
{
    let mut samples = Vec::with_capacity(alloc, 2 * codes.len())?;
    for code in codes {
        let sample = linear_bytes(law.decode(*code));
        samples.push_reserved(sample[0]);
        samples.push_reserved(sample[1]);
    }
    Ok(samples)
}

/// The bytes of a sample of 16 bits, the lower first.
fn linear_bytes(sample: i16) -> [u8; 2]
    ensures { result ≡ sample_bytes Linear sample }
{
    sample.to_le_bytes()
}
