//! Reading the head of a WAV file from its first bytes.
ghost use Rattle.std.specs.Prelude.{◌≡◌, ◌≤◌, ◌<◌, ◌+◌, ◌++◌, ◌↔◌, ℕ, List, length, drop, true, MatchOption, None, Some};
ghost use Rattle.wav_format.specs.Answers.{AnswerIn, CutsAt};
ghost use Rattle.wav_format.specs.Chunks.{BeginsWithHead, FrontsSomeHead, HeadThen, HeadWith, IsOpened, longest_head};
ghost use Rattle.wav_format.specs.Cuts.{IsLeast, fronts, opening_length};
ghost use Rattle.wav_format.specs.Faults.{Differs, FaultIn};
ghost use Rattle.wav_format.specs.Format.{AreBytes};
ghost use Rattle.wav_format.specs.Reader.{StandsBehind, StandsIn};
ghost use Rattle.wav_format.specs.Told.{answer_told};
ghost use Rattle.wav_format.specs.declared.head.Head.{Head};
ghost use Rattle.wav_format.specs.declared.head.HeadAnswer;
ghost use Rattle.wav_format.specs.declared.head.WavKind.{WavKind};

use crate::chunk::{Reading, read_chunk};
use crate::format::SampleFormat;
use crate::head::{HeadAnswer, WavKind};

// The first place at which the bytes differ from the word, of those within its length.
fn first_difference(bytes: &[u8], word: &[u8; 4]) -> Option<usize>
    ensures { MatchOption result (fronts word.now bytes.now ≡ true) (Differs word.now bytes.now) }
{
    for i in 0..4 {
        if i < bytes.len() && bytes[i] != word[i] {
            return Some(i);
        }
    }
    None
}

fn opening_length(len: usize) -> u64
    requires { len < 12 }
    ensures { result ≡ opening_length len }
{
    if len >= 4 && len < 8 {
        9
    } else {
        len as u64 + 1
    }
}

// The answer of bytes that do not have all of `RIFF`, a size and `WAVE` at their front.
fn opening(bytes: &[u8]) -> Option<HeadAnswer>
    ensures answer { MatchOption result (IsOpened bytes.now) (AnswerIn bytes.now) }
    ensures few { (n : ℕ) → result ≡ Some (HeadAnswer.NeedMore n) → length bytes.now < 12 }
{
    if let Some(place) = first_difference(bytes, b"RIFF") {
        return Some(HeadAnswer::Bad {
            place: place as u64,
            kind: WavKind::NotRiff,
        });
    }
    if bytes.len() >= 8 {
        if let Some(place) = first_difference(&bytes[8..], b"WAVE") {
            return Some(HeadAnswer::Bad {
                place: 8 + place as u64,
                kind: WavKind::NotWave,
            });
        }
    }
    if bytes.len() < 12 {
        return Some(HeadAnswer::NeedMore(opening_length(bytes.len())));
    }
    None
}

/// Where a reader of a head stands.
#[derive(Clone, Copy)]
pub(crate) struct Standing {
    /// Bytes from the start of the file to the chunk that is read next, or 0 where nothing is read. It may lie
    /// beyond the bytes that are there.
    pub(crate) place: u64,
    pub(crate) known: Option<SampleFormat>,
}

/// Where nothing is read.
pub(crate) const START: Standing = Standing {
    place: 0,
    known: None,
};

/// Where the first chunk stands.
const FIRST_CHUNK: Standing = Standing {
    place: 12,
    known: None,
};

/// Reads on from where a reader stands, in the bytes from that place on.
pub(crate) fn read_on(left: &[u8], from: Standing) -> (HeadAnswer, Standing)
    requires room { from.place + 8 ≤ 16777216 }
    ensures answer { (given : List ℕ) → StandsIn from given → left.now ≡ drop from.place given → AnswerIn given result.0 }
    ensures stands { (given : List ℕ) → StandsIn from given → left.now ≡ drop from.place given → StandsIn result.1 given }
    ensures room { result.1.place + 8 ≤ 16777216 }
    ensures onward { from.place ≤ result.1.place }
    ensures few { (n : ℕ) → result.0 ≡ HeadAnswer.NeedMore n → from.place + length left.now ≤ result.1.place + 33 }
{
    if from.place > 0 {
        return read_chunks(left, from);
    }
    match opening(left) {
        Some(answer) => (answer, from),
        None => read_chunks(&left[12..], FIRST_CHUNK),
    }
}

fn read_chunks(left: &[u8], from: Standing) -> (HeadAnswer, Standing)
    requires room { from.place + 8 ≤ 16777216 }
    ensures answer { (given : List ℕ) → StandsBehind from given → left.now ≡ drop from.place given → AnswerIn given result.0 }
    ensures stands { (given : List ℕ) → StandsBehind from given → left.now ≡ drop from.place given → StandsBehind result.1 given }
    ensures room { result.1.place + 8 ≤ 16777216 }
    ensures onward { from.place ≤ result.1.place }
    ensures few { (n : ℕ) → result.0 ≡ HeadAnswer.NeedMore n → from.place + length left.now ≤ result.1.place + 33 }
{
    let mut at = 0;
    let mut place = from.place;
    let mut known = from.known;
    'chunks: loop {
        match read_chunk(&left[at..], place, known) {
            Reading::Passed { length, format } => {
                at += (length as usize).min(left.len() - at);
                place += length;
                known = format;
            }
            Reading::Ended(answer) => return (answer, Standing { place, known }),
        }
    }
}

/// What the first bytes of a WAV file say of its head, in one pass over the chunks that they hold.
///
/// Every `fmt ` chunk has to be right, and the last one before `data` counts. A fault is the first one from
/// the start of the file, and it is told as soon as no further bytes could mend it. Of a `fmt ` chunk whose
/// coding is not known, further bytes can still show that its numbers do not fit either: the kind is by the
/// bytes that are given. A caller whose bytes come in pieces keeps a [`HeadReader`]. `place` is in bytes from
/// the start of the file.
pub fn read_head(bytes: &[u8]) -> HeadAnswer
    ensures whole { (head : Head) → result ≡ HeadAnswer.Whole head ↔ BeginsWithHead bytes.now head }
    ensures bad { (place : ℕ) (kind : WavKind) → result ≡ HeadAnswer.Bad place kind ↔ FaultIn bytes.now place kind }
    ensures need_more { (n : ℕ) → result ≡ HeadAnswer.NeedMore n ↔ CutsAt bytes.now n }

    // It is a function of the bytes.
    ensures answer_told { result ≡ answer_told bytes.now }

    // That length is the least that decides more.
    ensures least { (n : ℕ) → result ≡ HeadAnswer.NeedMore n → IsLeast bytes.now n }

    // Bytes that are asked to go on are the front of some head, though maybe of one that is too long.
    ensures goes_on { (n : ℕ) → result ≡ HeadAnswer.NeedMore n → FrontsSomeHead bytes.now }

    // Each proper front of a head is asked to go on.
    ensures front { (more : List ℕ) (head : Head) → 0 < length more → HeadWith longest_head bytes.now more head → (n : ℕ) × (result ≡ HeadAnswer.NeedMore n) }

    // No further bytes make a head of bytes at fault.
    ensures never { (place : ℕ) (kind : WavKind) → result ≡ HeadAnswer.Bad place kind → (more : List ℕ) (head : Head) (rest : List ℕ) → AreBytes more
        → ¬ HeadThen longest_head (bytes.now ++ more) head rest }
{
    read_on(bytes, START).0
}
