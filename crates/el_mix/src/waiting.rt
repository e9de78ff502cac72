//! Bodies that wait at a sink pad.
ghost use Rattle.std.specs.Prelude.{◌≡◌, ◌<◌, ◌^◌, ◌∷◌, [], ◌++◌, List, ℕ, length, drop, OnOk, OnErr, option_copied, IfSome};
ghost use Rattle.el_mix.specs.Line.{Line, line_of, nothing, pushed, passed, first_of, is_none, gone_of as gone_of_first};

use gst_item::Body;
use gst_value::OutOfMemory;
use std::alloc::Global;
use std::collections::VecDeque;
use std::marker::Model;

/// Bodies that wait, oldest first and none of them empty, and how far a look ahead has come in them. They are seen as what is left of
/// them, and what is left behind the look ahead.
#[derive(Drop)]
pub(crate) struct Waiting {
    bodies: VecDeque<Body>,
    /// The bytes of the first that are gone.
    gone: usize,
    /// The bodies that the look ahead has passed, and the bytes of the next one.
    bodies_ahead: usize,
    bytes_ahead: usize,
}

impl Model for Waiting {
    ghost use Rattle.std.specs.Prelude.{◌≡◌, true, drop};
    ghost use Rattle.el_mix.specs.Line.{Line, cut, holds};

    ghost Value = { Line };

    ghost view = { λ s. record { rest = cut s.gone s.bodies.items; ahead = cut s.bytes_ahead (drop s.bodies_ahead s.bodies.items) } };

    ghost invariant = { λ s. holds s.gone s.bodies_ahead s.bytes_ahead s.bodies.items ≡ true };
}

impl Waiting {
    /// None, which takes no memory.
    pub(crate) fn new(alloc: Global) -> Waiting
        ensures { result ≡ nothing }
    {
        Waiting {
            bodies: VecDeque::new(alloc),
            gone: 0,
            bodies_ahead: 0,
            bytes_ahead: 0,
        }
    }

    /// Puts a body behind the others.
    pub(crate) fn push(&mut self, body: Body) -> Result<(), OutOfMemory>
        requires some { 0 < length body }
        ensures ok { OnOk result (self.new ≡ pushed self.old body) }
        ensures err { OnErr result (self.new ≡ self.old) }
    {
        self.bodies.push_back(body)?;
        Ok(())
    }

    /// Takes the last body away. The look ahead begins anew.
    pub(crate) fn pop(&mut self)
        ensures { (rest : List (List ℕ)) (body : List ℕ) → self.old.rest ≡ rest ++ body ∷ [] → self.new ≡ line_of rest }
    {
        self.bodies.truncate(self.bodies.len().saturating_sub(1));
        self.gone = gone_of(self.gone, &self.bodies);
        self.bodies_ahead = 0;
        self.bytes_ahead = self.gone;
    }

    /// Gives up all that waits.
    pub(crate) fn clear(&mut self)
        ensures { self.new ≡ nothing }
    {
        self.bodies.clear();
        self.gone = 0;
        self.bodies_ahead = 0;
        self.bytes_ahead = 0;
    }

    /// Whether nothing waits.
    pub(crate) fn is_empty(&self) -> bool
        ensures { result ≡ is_none self.now.rest }
    {
        self.bodies.is_empty()
    }

    /// What is left of the first body ahead.
    pub(crate) fn first(&self) -> Option<&[u8]>
        ensures first { option_copied result ≡ first_of self.now.ahead }
        ensures small { IfSome result (λ left. length left.now < 2 ^ 31) }
    {
        match self.bodies.get(self.bodies_ahead) {
            Some(body) => Some(&body.as_slice()[self.bytes_ahead..]),
            None => None,
        }
    }

    /// Looks ahead past so many bytes of the first body.
    pub(crate) fn pass(&mut self, bytes: usize)
        ensures { self.new ≡ passed bytes self.old }
    {
        let Some(body) = self.bodies.get(self.bodies_ahead) else {
            return;
        };
        let left = body.as_slice().len() - self.bytes_ahead;
        if left <= bytes {
            self.bodies_ahead += 1;
            self.bytes_ahead = 0;
        } else {
            self.bytes_ahead += bytes;
        }
    }

    /// Looks ahead from the first body again.
    pub(crate) fn rewind(&mut self)
        ensures { self.new ≡ line_of self.old.rest }
    {
        self.bodies_ahead = 0;
        self.bytes_ahead = self.gone;
    }

    /// Lets go of what the look ahead has passed.
    pub(crate) fn leave(&mut self)
        ensures { self.new ≡ line_of self.old.ahead }
    {
        drop_front(&mut self.bodies, self.bodies_ahead);
        self.bodies_ahead = 0;
        self.gone = self.bytes_ahead;
    }
}

/// The bytes of the first body that are gone, where there is one.
fn gone_of(gone: usize, bodies: &VecDeque<Body>) -> usize
    ensures { result ≡ gone_of_first gone bodies.now.items }
{
    if bodies.is_empty() { 0 } else { gone }
}

/// Lets go of so many bodies.
fn drop_front(bodies: &mut VecDeque<Body>, count: usize)
    ensures { bodies.new.items ≡ drop count bodies.old.items }
{
    let mut left = count;
    while left > 0 {
        drop(bodies.pop_front());
        left -= 1;
    }
}
