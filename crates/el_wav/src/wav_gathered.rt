//! A head that is not yet whole.
ghost use Rattle.std.specs.Prelude.{◌≡◌, ◌++◌, [], ℕ, List, length, IfOk, MatchOption};
ghost use Rattle.wav_format.specs.Answers.{AnswerIn};
ghost use Rattle.wav_format.specs.Cuts.{CutIn};
ghost use Rattle.wav_format.specs.Format.{AreBytes};
ghost use Rattle.wav_format.specs.Gathered.{WasGiven};
ghost use Rattle.wav_format.specs.declared.head.HeadAnswer.TheVariants.{Whole, NeedMore};
ghost use Rattle.wav_format.specs.declared.head.Head.{Head};
ghost use Rattle.el_wav.specs.WavParseGiven.{GivenInHead, IsDone, IsNext};

use gst_value::OutOfMemory;
use std::alloc::{AllocError, Global};
use wav_format::{HeadAnswer, HeadReader, head_stays};

/// A reader of a head that was given bytes which are not all of it.
#[derive(Drop)]
pub(crate) struct Gathered {
    reader: HeadReader,
}

impl Gathered {
    ghost use Rattle.el_wav.specs.WavParseGathered.{HasGathered};

    /// No bytes.
    pub(crate) fn new(alloc: Global) -> Gathered
        ensures { HasGathered result [] }
    {
        Gathered {
            reader: HeadReader::new(alloc),
        }
    }

    /// How many bytes it was given.
    pub(crate) fn count(&self) -> u64
        ensures { (bytes : List ℕ) → HasGathered self.now bytes → result ≡ length bytes }
    {
        self.reader.count()
    }

    /// What the bytes say with more bytes, and a reader that was given more of them, none behind the head. At a fault
    /// and where memory is wanting nothing is to be undone, since this one stays.
    pub(crate) fn read(
        &self,
        alloc: Global,
        more: &[u8],
    ) -> Result<(HeadAnswer, HeadReader), OutOfMemory>
        ensures answer { IfOk result (λ read. (bytes : List ℕ) → HasGathered self.now bytes → AnswerIn (bytes ++ more.now) read.0) }
        ensures all { IfOk result (λ read. (n : ℕ) → read.0 ≡ NeedMore n → (bytes : List ℕ) → HasGathered self.now bytes
            → WasGiven read.1 (bytes ++ more.now)) }
        ensures head { IfOk result (λ read. (head : Head) → read.0 ≡ Whole head → (bytes : List ℕ) → HasGathered self.now bytes
            → GivenInHead head bytes more.now read.1) }
        ensures fine { AreBytes more.now }
    {
        let mut reader = self.reader.copy(alloc)?;
        let answer = read_in_parts(&mut reader, more)?;
        Ok((answer, reader))
    }

    /// Goes on with the reader that was given more bytes.
    pub(crate) fn keep(&mut self, reader: HeadReader)
        ensures { (bytes : List ℕ) → WasGiven reader bytes → AreBytes bytes → CutIn bytes → HasGathered self.new bytes }
    {
        self.reader = reader;
    }

    /// The same bytes once more.
    pub(crate) fn copy(&self, alloc: Global) -> Result<Gathered, OutOfMemory>
        ensures { IfOk result (λ made. (bytes : List ℕ) → HasGathered self.now bytes → HasGathered made bytes) }
    {
        Ok(Gathered {
            reader: self.reader.copy(alloc)?,
        })
    }
}

/// What the bytes of a reader say with more bytes. It is given no more of them at a time than it asks for, so that
/// none behind the head is given. At a fault it is given all, since more bytes may make another fault of it.
fn read_in_parts(reader: &mut HeadReader, more: &[u8]) -> Result<HeadAnswer, AllocError>
    ensures answer { IfOk result (λ answer. (given : List ℕ) → WasGiven reader.old given → AnswerIn (given ++ more.now) answer) }
    ensures all { IfOk result (λ answer. (n : ℕ) → answer ≡ NeedMore n → (given : List ℕ) → WasGiven reader.old given
        → WasGiven reader.new (given ++ more.now)) }
    ensures head { IfOk result (λ answer. (head : Head) → answer ≡ Whole head → (given : List ℕ) → WasGiven reader.old given → AreBytes given → CutIn given
        → GivenInHead head given more.now reader.new) }
{
    head_stays();
    let mut answer = reader.read(&[])?;
    let mut at = 0;
    'parts: loop {
        let Some(part) = next_part(&answer, reader.count(), more.len() - at) else {
            return Ok(answer);
        };
        answer = reader.read(&more[at..at + part])?;
        at += part;
    }
}

/// How many of the bytes that are left a reader of `count` bytes with this answer is given next. None where that is
/// the answer of all of them.
fn next_part(answer: &HeadAnswer, count: u64, left: usize) -> Option<usize>
    ensures { MatchOption result (IsDone answer.now left) (IsNext answer.now count left) }
{
    if left == 0 {
        return None;
    }
    match answer {
        HeadAnswer::Whole(_) => None,
        HeadAnswer::NeedMore(length) => {
            let wanted = length.saturating_sub(count).max(1);
            Some(wanted.min(left as u64) as usize)
        }
        HeadAnswer::Bad { .. } => Some(left),
    }
}
