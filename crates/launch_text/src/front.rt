//! How much of a word that can't stand at a spot can begin one there.
ghost use Rattle.std.specs.Prelude.{◌≡◌, ◌+◌, ◌≤◌, length};
ghost use Rattle.std.specs.Option.{option_map};
ghost use Rattle.launch_text.specs.Places.{after_point, begins, behind_run, caps_front, element_front, front_of, link_front, name_front, next_front, part_front, point_front, run_of, spot_of};

use crate::class::run_length;
use crate::line::Last;
use crate::parts::DEEPEST;
use crate::value::begins_caps;
use text_words::{Class, cut, split_property};

/// What may follow in a line.
#[derive(Clone, Copy, PartialEq, Eq)]
pub(crate) enum Spot {
    /// A part must begin.
    Start,
    /// A part may begin behind a bin.
    Bin,
    /// A part may begin behind a reference.
    Chain,
    /// An element goes on.
    Element,
    /// A node must begin.
    Link,
    /// Caps go on.
    Caps,
    /// A link must follow.
    Reference,
}

/// What may follow.
pub(crate) fn spot_of(last: &Last) -> Spot
    ensures { result ≡ spot_of last.now }
{
    match last {
        Last::Start => Spot::Start,
        Last::Bin => Spot::Bin,
        Last::Chain => Spot::Chain,
        Last::Element { kind: _, props: _ } => Spot::Element,
        Last::Link => Spot::Link,
        Last::Caps(_) => Spot::Caps,
        Last::Reference(_) => Spot::Reference,
    }
}

/// Whether a word begins with this ASCII byte.
pub(crate) fn begins(mark: u8, word: &str) -> bool
    ensures { result ≡ begins mark word.now }
{
    match word.as_bytes().first() {
        Some(byte) => *byte == mark,
        None => false,
    }
}

/// The bytes of a class that stand first, and what stands behind them.
fn split_run(class: Class, text: &str) -> (&str, &str)
    ensures run { result.0.now ≡ run_of class text.now }
    ensures behind { result.1.now ≡ behind_run class text.now }
    ensures lengths { length result.0.now + length result.1.now ≡ length text.now }
{
    text.split_at(run_length(class, text))
}

/// What stands behind a point.
fn after_point(text: &str) -> Option<&str>
    ensures { option_map (λ r. r.now) result ≡ after_point text.now }
{
    text.strip_prefix('.')
}

/// How many bytes behind a name can go on a reference.
fn point_front(behind: &str) -> usize
    requires { length behind.now ≤ 65536 }
    ensures says { result ≡ length (point_front behind.now) }
    ensures within { result ≤ length behind.now }
{
    match after_point(behind) {
        Some(pad) => 1 + split_run(Class::Name, pad).0.len(),
        None => 0,
    }
}

/// How many bytes of the word can begin a kind or a reference.
#[tactic(auto, unfolding(crate::specs::Places::name_front))]
fn name_front(word: &str) -> usize
    requires { length word.now ≤ 65536 }
    ensures { result ≡ length (name_front word.now) }
{
    let (name, behind) = split_run(Class::Name, word);
    if name.is_empty() {
        return 0;
    }
    name.len() + point_front(behind)
}

/// How many bytes of the word can begin caps or another node.
#[tactic(auto, unfolding(crate::specs::Places::caps_front))]
fn caps_front(word: &str) -> usize
    ensures { result ≡ length (caps_front word.now) }
{
    if begins_caps(word) {
        return word.len();
    }
    match cut(word, '=') {
        Some((before, _)) => before.len(),
        None => word.len(),
    }
}

/// How many bytes of the word can begin a part within so many brackets.
#[tactic(auto, unfolding(crate::specs::Places::part_front))]
fn part_front(depth: usize, word: &str) -> usize
    requires { length word.now ≤ 65536 }
    ensures { result ≡ length (part_front depth word.now) }
{
    if !begins(b'(', word) {
        return name_front(word);
    }
    if depth < DEEPEST { 1 } else { 0 }
}

/// The same behind a whole part.
#[tactic(auto, unfolding(crate::specs::Places::next_front))]
fn next_front(depth: usize, word: &str) -> usize
    requires { length word.now ≤ 65536 }
    ensures { result ≡ length (next_front depth word.now) }
{
    if !begins(b')', word) {
        return part_front(depth, word);
    }
    if depth == 0 { 0 } else { 1 }
}

/// How many bytes of the word can begin a link.
fn link_front(word: &str) -> usize
    ensures { result ≡ length (link_front word.now) }
{
    if begins(b'!', word) { 1 } else { 0 }
}

/// How many bytes of the word can begin one behind an element.
#[tactic(auto, unfolding(crate::specs::Places::element_front))]
fn element_front(depth: usize, word: &str) -> usize
    requires { length word.now ≤ 65536 }
    ensures { result ≡ length (element_front depth word.now) }
{
    if split_property(word).is_some() {
        return word.len();
    }
    if begins(b'!', word) {
        return 1;
    }
    next_front(depth, word)
}

/// How many bytes of the word can begin one at this spot, within so many brackets.
pub(crate) fn front_length(spot: Spot, depth: usize, word: &str) -> usize
    requires { length word.now ≤ 65536 }
    ensures says { result ≡ length (front_of spot depth word.now) }
    ensures within { result ≤ length word.now }
{
    match spot {
        Spot::Start => part_front(depth, word),
        Spot::Bin => next_front(depth, word),
        Spot::Chain => next_front(depth, word),
        Spot::Element => element_front(depth, word),
        Spot::Link => caps_front(word),
        Spot::Caps => word.len(),
        Spot::Reference => link_front(word),
    }
}
