//! Laws of heads, for callers that reason about bytes that come in pieces.
ghost use Rattle.std.specs.Prelude.{◌≡◌, ◌++◌, ℕ, List};
ghost use Rattle.wav_format.specs.Answers.{AnswerIn};
ghost use Rattle.wav_format.specs.Chunks.{BeginsWithHead};
ghost use Rattle.wav_format.specs.Format.{AreBytes};
ghost use Rattle.wav_format.specs.Told.{answer_told};
ghost use Rattle.wav_format.specs.declared.head.Head.{Head};
ghost use Rattle.wav_format.specs.declared.head.HeadAnswer.{HeadAnswer};

/// A head that bytes begin with is the head that they begin with when more bytes follow.
pub fn head_stays()
    ensures { (bytes more : List ℕ) (head : Head) → BeginsWithHead bytes head → BeginsWithHead (bytes ++ more) head }
{}

/// All bytes have the answer that `told` gives, and no other one.
pub fn one_is_told()
    ensures answer_told { (bytes : List ℕ) → AreBytes bytes → AnswerIn bytes (answer_told bytes) }
    ensures once { (bytes : List ℕ) (answer : HeadAnswer) → AreBytes bytes → AnswerIn bytes answer → answer_told bytes ≡ answer }
{}
