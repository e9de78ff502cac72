//! Lists.
ghost use Rattle.std.specs.Prelude.{◌≡◌, ◌≤◌, ◌+◌, [], ◌∷◌, ◌++◌, OnOk, OnErr, vec_len, vec_capacity};
ghost use Rattle.std.specs.VecDeque.{deque_len, deque_capacity};

use crate::memory::OutOfMemory;
use std::alloc::Global;
use std::collections::VecDeque;
use std::marker::Model;

/// A list in memory, seen as the list of its members.
#[derive(Drop)]
pub struct List<T> {
    members: Vec<T>,
}

impl<T> Model for List<T> {
    ghost use Rattle.std.specs.Prelude.{List as Members};

    ghost Value = { Members T };

    ghost view = { λ s. s.members.items };
}

impl<T> List<T> {
    /// The list without members, which takes no memory.
    #[inline(always)]
    pub fn new(alloc: Global) -> List<T>
        ensures { result ≡ [] }
    {
        List {
            members: Vec::new(alloc),
        }
    }

    /// The members of a vector, which are not copied.
    #[inline(always)]
    pub fn from_vec(members: Vec<T>) -> List<T>
        ensures { result ≡ members.items }
    {
        List { members }
    }

    /// The members, as a vector.
    #[inline(always)]
    pub fn into_vec(self) -> Vec<T>
        ensures { result.items ≡ self }
    {
        let List { members } = self;
        members
    }

    /// The members, in their order.
    #[inline(always)]
    pub fn as_slice(&self) -> &[T]
        ensures { result.now ≡ self.now }
    {
        self.members.as_slice()
    }
}

impl<T: Drop> List<T> {
    /// Puts a member behind the list. Where there is no memory the list stays, and the member is given up.
    #[inline(always)]
    pub fn push(&mut self, _alloc: Global, one: T) -> Result<(), OutOfMemory>
        ensures ok { OnOk result (self.new ≡ self.old ++ one ∷ []) }
        ensures err { OnErr result (self.new ≡ self.old) }
    {
        self.members.push(one)?;
        Ok(())
    }
    /// Moves all members of a queue behind the list, in their order. Where there is no memory both stay.
    pub fn pour(&mut self, _alloc: Global, from: &mut VecDeque<T>) -> Result<(), OutOfMemory>
        ensures ok { OnOk result (self.new ≡ self.old ++ from.old.items) }
        ensures taken { OnOk result (from.new.items ≡ []) }
        ensures err { OnErr result ((self.new ≡ self.old) × (from.new ≡ from.old)) }
        ensures capacity { deque_capacity from.new ≡ deque_capacity from.old }
    {
        self.members.reserve(from.len())?;
        pour_reserved(&mut self.members, from);
        Ok(())
    }
}

/// Moves all members of a queue into room that was taken before.
fn pour_reserved<T: Drop>(into: &mut Vec<T>, from: &mut VecDeque<T>)
    requires { vec_len into.old + deque_len from.old ≤ vec_capacity into.old }
    ensures whole { into.new.items ≡ into.old.items ++ from.old.items }
    ensures taken { from.new.items ≡ [] }
    ensures capacity { deque_capacity from.new ≡ deque_capacity from.old }
{
    while let Some(member) = from.pop_front() {
        into.push_reserved(member);
    }
}
