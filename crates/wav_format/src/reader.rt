//! Reading a head from bytes that come piece by piece.
ghost use Rattle.std.specs.Prelude.{ℕ, List, length, drop, ◌≡◌, ◌≤◌, ◌+◌, ◌-◌, ◌++◌, [], IfOk, OnOk, OnErr};
ghost use Rattle.wav_format.specs.Answers.{AnswerIn};
ghost use Rattle.wav_format.specs.Format.{AreBytes};
ghost use Rattle.wav_format.specs.Reader.{StandsIn};
ghost use Rattle.wav_format.specs.declared.head.HeadAnswer.TheVariants.{NeedMore};

use crate::head::HeadAnswer;
use crate::reading::{START, Standing, read_on};
use std::alloc::{AllocError, Global};

/// Reads a head from bytes that come piece by piece. It keeps none of a chunk that it has passed.
#[derive(Drop)]
pub struct HeadReader {
    count: u64,
    standing: Standing,
    // The bytes from the place on where it stands.
    bytes: Vec<u8>,
    ghost room: { standing.place + 8 ≤ 16777216 },
}

impl HeadReader {
    ghost use Rattle.wav_format.specs.Gathered.{WasGiven, kept};

    /// A reader that was given no bytes.
    pub fn new(alloc: Global) -> HeadReader
        ensures given { WasGiven result [] }
    {
        HeadReader {
            count: 0,
            standing: START,
            bytes: Vec::new(alloc),
        }
    }

    /// What the bytes so far say of the head of their file, with more bytes, as `read_head` says it. Reading goes
    /// on at the chunk where it ended. A chunk is passed as soon as its head is there, or of a `fmt ` its first 16
    /// bytes, 26 of an extensible one; of its further bytes none is kept. Where memory is wanting, or a `u64` would not
    /// count all bytes, the reader stays as it was.
    pub fn read(&mut self, more: &[u8]) -> Result<HeadAnswer, AllocError>
        ensures answer { IfOk result (λ answer. (given : List ℕ) → WasGiven self.old given → AnswerIn (given ++ more.now) answer) }
        ensures given { OnOk result ((given : List ℕ) → WasGiven self.old given → WasGiven self.new (given ++ more.now)) }
        ensures stays { OnErr result ((given : List ℕ) → WasGiven self.old given → WasGiven self.new given) }

        // Where more is asked for, what it keeps is short, however much it was given.
        ensures few { IfOk result (λ answer. (n : ℕ) → answer ≡ NeedMore n → kept self.new ≤ 33) }
    {
        let Some(count) = self.count.checked_add(more.len() as u64) else {
            return Err(AllocError);
        };
        let unread = behind(more, self.standing.place.saturating_sub(self.count));
        if self.bytes.is_empty() {
            return self.read_left(unread, count);
        }
        let mut left = Vec::from_slice(*self.bytes.allocator(), &self.bytes)?;
        left.extend_from_slice(unread)?;
        self.read_left(&left, count)
    }

    /// How many bytes it was given.
    pub fn count(&self) -> u64
        ensures { (given : List ℕ) → WasGiven self.now given → result ≡ length given }
    {
        self.count
    }

    /// A reader that was given the same bytes.
    pub fn copy(&self, alloc: Global) -> Result<HeadReader, AllocError>
        ensures { IfOk result (λ made. (given : List ℕ) → WasGiven self.now given → WasGiven made given) }
    {
        Ok(HeadReader {
            count: self.count,
            standing: self.standing,
            bytes: Vec::from_slice(alloc, &self.bytes)?,
        })
    }

    // Reads on in the bytes from the place on where it stands. With them it was given so many bytes in all.
    fn read_left(&mut self, left: &[u8], count: u64) -> Result<HeadAnswer, AllocError>
        ensures answer { IfOk result
            (λ answer. (given : List ℕ) → StandsIn self.old.standing given → left.now ≡ drop self.old.standing.place given → AnswerIn given answer) }
        ensures given { OnOk result ((given : List ℕ) → AreBytes given → count ≡ length given → StandsIn self.old.standing given
            → left.now ≡ drop self.old.standing.place given → WasGiven self.new given) }
        ensures stays { OnErr result (self.new ≡ self.old) }
        ensures few { IfOk result (λ answer. (n : ℕ) → answer ≡ NeedMore n → kept self.new ≤ 33) }
    {
        let (answer, standing) = read_on(left, self.standing);
        let rest = behind(left, standing.place - self.standing.place);
        let bytes = Vec::from_slice(*self.bytes.allocator(), rest)?;
        self.count = count;
        self.standing = standing;
        self.bytes = bytes;
        Ok(answer)
    }
}

// The bytes from a place on, or none where it lies beyond them.
fn behind(bytes: &[u8], place: u64) -> &[u8]
    ensures { result.now ≡ drop place bytes.now }
{
    if place >= bytes.len() as u64 {
        return &[];
    }
    &bytes[place as usize..]
}
