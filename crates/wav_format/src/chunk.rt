//! The chunks of a RIFF WAVE file, up to the head of `data`.
ghost use Rattle.std.specs.Prelude.{◌≡◌, ◌≢◌, ℕ, ◌+◌, ◌-◌, ◌<◌, ◌≤◌, ◌==◌, ◌&&◌, if◌then◌else◌, nat_lt, length, codes, None, Some, MatchOption, Option, true, false};
ghost use Rattle.wav_format.specs.Answers.{AnswerAt, BodyFault, ReadsAt};
ghost use Rattle.wav_format.specs.Chunks.{begins, body_at, body_size, chunk_length, data_size, format_after};
ghost use Rattle.wav_format.specs.Cuts.{HasRoom, body_length, deciding_head, fronts, open_length};
ghost use Rattle.wav_format.specs.Faults.{MayBeFormat};
ghost use Rattle.wav_format.specs.declared.head.HeadAnswer.TheVariants.{NeedMore};
ghost use Rattle.wav_format.specs.declared.format.SampleFormat.{SampleFormat};

use crate::format::{SampleFormat, is_extensible, may_be_format, may_fit, read_format};
use crate::head::{Head, HeadAnswer, WavKind};
use byteorder::{ByteOrder, LittleEndian};

/// The length within which a head ends, in bytes.
pub const LONGEST_HEAD: u64 = 16_777_216;

/// The length of the head of a chunk, its id and its size, in bytes.
const CHUNK_HEAD: u64 = 8;

/// What reading one chunk gives.
#[derive(Clone, Copy, Debug, PartialEq, Eq)]
pub enum Reading {
    /// A chunk before `data` that is decided, be it there whole or not: its length in bytes, and the format that is
    /// known behind it.
    Passed {
        length: u64,
        format: Option<SampleFormat>,
    },
    /// The answer.
    Ended(HeadAnswer),
}

/// Whether the bytes begin with the word.
pub(crate) fn begins(bytes: &[u8], word: &[u8]) -> bool
    ensures { result ≡ begins word.now bytes.now }
{
    &bytes[..word.len().min(bytes.len())] == word
}

/// Whether the word begins with the bytes, of which those behind its length do not count.
pub(crate) fn fronts(bytes: &[u8], word: &[u8]) -> bool
    ensures { result ≡ fronts word.now bytes.now }
{
    &bytes[..word.len().min(bytes.len())] == &word[..bytes.len().min(word.len())]
}

fn size_at(left: &[u8]) -> u32
    requires { 8 ≤ length left.now }
    ensures { result ≡ body_size left.now }
{
    LittleEndian::read_u32(&left[4..])
}

fn length_at(left: &[u8]) -> u64
    requires { 8 ≤ length left.now }
    ensures exact { result ≡ chunk_length left.now }
    ensures bounded { result ≤ 4294967304 }
{
    let size = size_at(left);
    CHUNK_HEAD + u64::from(size) + u64::from(size % 2)
}

// The body of the chunk, as far as it is there.
fn body_at(left: &[u8]) -> &[u8]
    requires { 8 ≤ length left.now }
    ensures { result.now ≡ body_at left.now }
{
    let rest = &left[8..];
    let size = size_at(left) as usize;
    &rest[..size.min(rest.len())]
}

// What is wrong with the body of the chunk, if it is `fmt `.
fn format_fault(left: &[u8]) -> Option<WavKind>
    requires { 8 ≤ length left.now }
    ensures { MatchOption result (begins (codes "fmt ") left.now ≡ true → MayBeFormat (body_at left.now) (body_size left.now))
        (λ kind. (begins (codes "fmt ") left.now ≡ true) × BodyFault (body_at left.now) (body_size left.now) kind) }
{
    if !begins(left, b"fmt ") {
        return None;
    }
    let body = body_at(left);
    let size = size_at(left) as usize;
    if may_be_format(body, size) {
        None
    } else if may_fit(body, size) {
        Some(WavKind::TagUnknown)
    } else {
        Some(WavKind::BadFmt)
    }
}

// The next length of a `fmt ` body that decides more, or None where the body decides nothing more.
fn body_length(extended: bool, len: usize) -> Option<u64>
    ensures { result ≡ body_length extended len }
{
    let len = len as u64;
    match len {
        0..=3 | 12..=15 => Some(len + 1),
        4..=6 => Some(7),
        7 => Some(8),
        8..=11 => Some(13),
        16..=23 if extended => Some(25),
        24..=25 if extended => Some(len + 1),
        _ => None,
    }
}

// The length of the file, from its start, that decides more, where the bytes end in the head of this chunk.
fn deciding_head(left: &[u8], at: u64, no_format: bool) -> u64
    requires { at ≤ 16777216 }
    ensures { result ≡ (if nat_lt (length left.now) 4 && no_format && fronts (codes "data") left.now then at + 4 else at + 8) }
{
    if left.len() < 4 && no_format && fronts(left, b"data") {
        at + 4
    } else {
        at + CHUNK_HEAD
    }
}

// The next length of the body that decides more, or None where the chunk is decided.
fn open_length(left: &[u8]) -> Option<u64>
    requires { 8 ≤ length left.now }
    ensures { MatchOption result (open_length left.now ≡ None) (λ longer. (open_length left.now ≡ Some longer) × (longer ≤ 26)) }
{
    if !begins(left, b"fmt ") {
        return None;
    }
    let body = body_at(left);
    body_length(is_extensible(body), body.len())
}

// The answer at the head of `data`.
fn read_data(left: &[u8], at: u64, known: Option<SampleFormat>) -> HeadAnswer
    requires spot { at + 8 ≤ 16777216 }
    requires named { begins (codes "data") left.now ≡ true }
    ensures { AnswerAt (record { at = at; known = known; left = left.now }) result }
{
    let Some(format) = known else {
        return HeadAnswer::Bad {
            place: at,
            kind: WavKind::NoFmt,
        };
    };
    if left.len() < 8 {
        return HeadAnswer::NeedMore(at + CHUNK_HEAD);
    }
    let size = size_at(left);
    HeadAnswer::Whole(Head {
        tag: format.tag,
        channels: format.channels,
        rate: format.rate,
        bits: format.bits,
        start: at + CHUNK_HEAD,
        size: data_size(size),
    })
}

fn data_size(size: u32) -> Option<u64>
    ensures { result ≡ data_size size }
{
    if size == 0 || size == u32::MAX {
        None
    } else {
        Some(u64::from(size))
    }
}

// What is wrong with the chunk of which the head is there.
fn chunk_fault(left: &[u8], at: u64) -> Option<HeadAnswer>
    requires spot { at + 8 ≤ 16777216 }
    requires headed { 8 ≤ length left.now }
    requires other { begins (codes "data") left.now ≡ false }
    ensures fault { MatchOption result (HasRoom (record { at = at; known = None; left = left.now }))
        (λ answer. (known : Option SampleFormat) → AnswerAt (record { at = at; known = known; left = left.now }) answer) }
    ensures bad { (n : ℕ) → result ≢ Some (NeedMore n) }
{
    let end = at + length_at(left);
    if end > LONGEST_HEAD {
        return Some(HeadAnswer::Bad {
            place: at,
            kind: WavKind::HeadTooLong,
        });
    }
    if let Some(kind) = format_fault(left) {
        return Some(HeadAnswer::Bad {
            place: at + CHUNK_HEAD,
            kind,
        });
    }
    if end + CHUNK_HEAD > LONGEST_HEAD {
        return Some(HeadAnswer::Bad {
            place: end,
            kind: WavKind::HeadTooLong,
        });
    }
    None
}

/// Reads the chunk at the front of the bytes, which stand at that place in the file.
pub(crate) fn read_chunk(left: &[u8], at: u64, known: Option<SampleFormat>) -> Reading
    requires { at + 8 ≤ 16777216 }
    ensures reads { ReadsAt (record { at = at; known = known; left = left.now }) result }
    ensures few { (n : ℕ) → result ≡ Reading.Ended (NeedMore n) → length left.now ≤ 33 }
{
    if begins(left, b"data") {
        return Reading::Ended(read_data(left, at, known));
    }
    if left.len() < 8 {
        return Reading::Ended(HeadAnswer::NeedMore(deciding_head(left, at, known.is_none())));
    }
    if let Some(fault) = chunk_fault(left, at) {
        return Reading::Ended(fault);
    }
    if let Some(longer) = open_length(left) {
        return Reading::Ended(HeadAnswer::NeedMore(at + CHUNK_HEAD + longer));
    }
    Reading::Passed {
        length: length_at(left),
        format: format_behind(left, known),
    }
}

// The format that is known behind a chunk which is decided.
fn format_behind(left: &[u8], known: Option<SampleFormat>) -> Option<SampleFormat>
    requires headed { 8 ≤ length left.now }
    requires said { open_length left.now ≡ None }
    ensures { result ≡ format_after (record { at = 0; known = known; left = left.now }) }
{
    if begins(left, b"fmt ") {
        Some(read_format(body_at(left)))
    } else {
        known
    }
}
