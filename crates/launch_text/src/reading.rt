//! Reads a line.
ghost use Rattle.std.specs.Prelude.{◌≡◌, ℕ, List, [], ◌<◌, ◌≤◌, length, Err, IfOk, OnOk};
ghost use Rattle.launch_text.specs.declared.fault.LineFault.TheVariants.{BadLine};
ghost use Rattle.launch_text.specs.Grammar.{IsLine};
ghost use Rattle.std.specs.List.{list_all};
ghost use Rattle.launch_text.specs.Kinds.{is_bracket, kind_of};
ghost use Rattle.launch_text.specs.Reading.{Splits};
ghost use Rattle.launch_text.specs.Parsed.{Answers, Faults, Stopped, Told, Why, place_of};
ghost use Rattle.launch_text.specs.declared.tree.Tree.{Tree as TreeOf};
ghost use Rattle.launch_text.specs.Places.{IsPlace};
ghost use Rattle.launch_text.specs.declared.fault.LineKind.{LineKind as KindOf};
ghost use Rattle.launch_text.specs.declared.fault.LineKind.TheVariants.{TooLong};

use crate::fault::{LineFault, LineKind, Refusal};
use crate::front::spot_of;
use crate::line::{Last, end_line, read_word};
use crate::parts::Parts;
use crate::place::Stop;
use crate::tree::Tree;
use crate::word::{behind_white, split_word};
use std::alloc::Global;

/// The longest line, in bytes.
const LONGEST: usize = 65_536;

/// The fault of a line that is refused at its stop.
fn fault_at(refusal: Refusal, stop: &Stop<'_>) -> LineFault
    requires short { length stop.now.line.now ≤ 65536 }
    requires rest { length stop.now.rest.now ≤ length stop.now.line.now }
    requires word { length stop.now.word.now ≤ length stop.now.rest.now }
    ensures why { (words : List (List ℕ)) → Splits words stop.now.line.now []
        → Why refusal (kind_of (length stop.now.line.now)
        (place_of stop.now.line.now stop.now.rest.now stop.now.spot stop.now.depth stop.now.word.now) stop.now.spot stop.now.depth stop.now.word.now
        (list_all is_bracket words)) result }
    ensures place { Faults refusal (place_of stop.now.line.now stop.now.rest.now stop.now.spot stop.now.depth stop.now.word.now) result }
{
    match refusal {
        Refusal::Stuck => stop.fault(),
        Refusal::OutOfMemory => LineFault::OutOfMemory,
    }
}

/// Reads a line of a length that is allowed.
fn read_line(alloc: Global, line: &str) -> Result<Tree, LineFault>
    requires { length line.now ≤ 65536 }
    ensures { Told line.now result }
{
    let mut parts = Parts::new(alloc);
    let mut last = Last::Start;
    let mut rest = behind_white(line);
    while !rest.is_empty() {
        let (word, behind) = split_word(rest);
        let stop = Stop {
            line,
            rest,
            word,
            spot: spot_of(&last),
            depth: parts.outer.len(),
        };
        last = match read_word(&mut parts, alloc, last, word) {
            Ok(next) => next,
            Err(refusal) => return Err(fault_at(refusal, &stop)),
        };
        rest = behind_white(behind);
    }
    let stop = Stop {
        line,
        rest,
        word: rest,
        spot: spot_of(&last),
        depth: parts.outer.len(),
    };
    match end_line(parts, alloc, last) {
        Ok(tree) => Ok(tree),
        Err(refusal) => Err(fault_at(refusal, &stop)),
    }
}

/// The tree for which the text stands, as `filesrc location=a ! identity ! filesink location=b`. A line has at most
/// 65,536 bytes, and brackets are at most 16 deep.
pub fn parse(alloc: Global, text: &str) -> Result<Tree, LineFault>
    ensures sound { IfOk result (λ tree. IsLine text.now tree) }
    ensures complete { (tree : TreeOf) → length text.now ≤ 65536 → IsLine text.now tree → Answers result tree }
    ensures place { (place : ℕ) (kind : KindOf) → length text.now ≤ 65536 → result ≡ Err (BadLine place kind) → IsPlace text.now place }
    ensures kind { (place : ℕ) (kind : KindOf) → length text.now ≤ 65536 → result ≡ Err (BadLine place kind) → Stopped text.now place kind }
    ensures long { 65536 < length text.now → result ≡ Err (BadLine 65536 TooLong) }
    ensures short { OnOk result (length text.now ≤ 65536) }
{
    if text.len() > LONGEST {
        return Err(LineFault::BadLine {
            place: 65_536,
            kind: LineKind::TooLong,
        });
    }
    read_line(alloc, text)
}
