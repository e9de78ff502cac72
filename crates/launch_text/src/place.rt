//! Where and why a text is no line.
ghost use Rattle.std.specs.Prelude.{◌≡◌, ◌≤◌, ℕ, List, [], length};
ghost use Rattle.std.specs.List.{list_all};
ghost use Rattle.launch_text.specs.Kinds.{is_bad_reference, is_bracket, is_caps_end, is_deep, is_empty_link, is_trailing_link, is_unclosed, kind_of, takes_parts};
ghost use Rattle.launch_text.specs.Parsed.{Faults, Why, place_of};
ghost use Rattle.launch_text.specs.Reading.{Splits};
ghost use Rattle.launch_text.specs.declared.fault.Refusal.TheVariants.{Stuck};

use crate::fault::{LineFault, LineKind};
use crate::front::{Spot, begins, front_length};
use crate::parts::DEEPEST;
use crate::value::begins_caps;
use crate::word::{behind_white, split_word};
use text_words::is_closed;

/// The word at which a line stops, which may be its end.
#[derive(Drop)]
pub(crate) struct Stop<'a> {
    /// The whole line.
    pub(crate) line: &'a str,
    /// What stands from the word on.
    pub(crate) rest: &'a str,
    /// The word, which is empty at the line's end.
    pub(crate) word: &'a str,
    /// What may follow there.
    pub(crate) spot: Spot,
    /// The open brackets.
    pub(crate) depth: usize,
}

/// Whether a word is a bracket.
fn is_bracket(word: &str) -> bool
    ensures { result ≡ is_bracket word.now }
{
    word == "(" || word == ")"
}

/// Whether a line has no word but brackets.
fn has_no_node(line: &str) -> bool
    ensures { (words : List (List ℕ)) → Splits words line.now [] → result ≡ list_all is_bracket words }
{
    let mut rest = behind_white(line);
    while !rest.is_empty() {
        let (word, behind) = split_word(rest);
        if !is_bracket(word) {
            return false;
        }
        rest = behind_white(behind);
    }
    true
}

impl Stop<'_> {
    /// Whether a part may begin there.
    fn takes_parts(&self) -> bool
        ensures { result ≡ takes_parts self.now.spot }
    {
        matches!(
            self.spot,
            Spot::Start | Spot::Bin | Spot::Chain | Spot::Element
        )
    }

    fn is_empty_link(&self) -> bool
        ensures { result ≡ is_empty_link self.now.spot self.now.word.now }
    {
        match self.spot {
            Spot::Start | Spot::Link => self.word == "!",
            _ => false,
        }
    }

    fn is_trailing_link(&self) -> bool
        ensures { result ≡ is_trailing_link self.now.spot self.now.word.now }
    {
        match self.spot {
            Spot::Link => self.word.is_empty() || self.word == ")",
            _ => false,
        }
    }

    fn is_unclosed(&self, place: usize) -> bool
        ensures { result ≡ is_unclosed (length self.now.line.now) place self.now.depth self.now.word.now }
    {
        place == self.line.len() && (self.depth > 0 || !is_closed(self.word))
    }

    fn is_bad_reference(&self) -> bool
        ensures { result ≡ is_bad_reference self.now.spot self.now.word.now }
    {
        match self.spot {
            Spot::Reference => true,
            Spot::Chain => self.word == "!",
            _ => false,
        }
    }

    fn is_caps_end(&self) -> bool
        ensures { result ≡ is_caps_end self.now.spot self.now.word.now }
    {
        match self.spot {
            Spot::Caps => true,
            Spot::Link | Spot::Reference => false,
            _ => begins_caps(self.word),
        }
    }

    fn is_deep(&self) -> bool
        ensures { result ≡ is_deep self.now.spot self.now.depth self.now.word.now }
    {
        self.takes_parts() && self.depth >= DEEPEST && begins(b'(', self.word)
    }

    /// The first kind that fits at this place, where the line has no node or has one.
    fn kind(&self, place: usize, bare: bool) -> LineKind
        ensures { result ≡ kind_of (length self.now.line.now) place self.now.spot self.now.depth self.now.word.now bare }
    {
        if self.is_empty_link() {
            LineKind::EmptyLink
        } else if self.is_trailing_link() {
            LineKind::TrailingLink
        } else if self.is_unclosed(place) {
            LineKind::Unclosed
        } else if self.is_bad_reference() {
            LineKind::BadRef
        } else if self.is_caps_end() {
            LineKind::CapsEnd
        } else if self.is_deep() {
            LineKind::Deep
        } else if bare {
            LineKind::Empty
        } else {
            LineKind::BadName
        }
    }

    /// The fault of the line.
    pub(crate) fn fault(&self) -> LineFault
        requires short { length self.now.line.now ≤ 65536 }
        requires rest { length self.now.rest.now ≤ length self.now.line.now }
        requires word { length self.now.word.now ≤ length self.now.rest.now }
        ensures place { Faults Stuck (place_of self.now.line.now self.now.rest.now self.now.spot self.now.depth self.now.word.now) result }
        ensures why { (words : List (List ℕ)) → Splits words self.now.line.now []
            → Why Stuck (kind_of (length self.now.line.now)
            (place_of self.now.line.now self.now.rest.now self.now.spot self.now.depth self.now.word.now) self.now.spot self.now.depth self.now.word.now
            (list_all is_bracket words)) result }
    {
        let front = front_length(self.spot, self.depth, self.word);
        let place = self.line.len() - self.rest.len() + front;
        let bare = has_no_node(self.line);
        LineFault::BadLine {
            place: place as u32,
            kind: self.kind(place, bare),
        }
    }
}
