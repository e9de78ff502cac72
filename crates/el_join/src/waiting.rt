//! Items that wait for the turn of their pad.
ghost use Rattle.std.specs.Prelude.{◌≡◌, ◌≤◌, ◌+◌, ◌++◌, [], false, map, length, vec_len, vec_capacity, None, OnOk, OnErr, IfErr, Some};
ghost use Rattle.std.specs.VecDeque.{deque_len};
ghost use Rattle.flow_model.specs.Sticky.{has_flush_stop};
ghost use Rattle.flow_model.specs.Feeding.{on_pad};
ghost use Rattle.flow_model.specs.Rule.{TooLong};
ghost use Rattle.el_join.specs.Outs.{items_of, fault_in};
ghost use Rattle.el_join.specs.Totals.{raised, lifted};

use crate::sums::{Excess, Sums};
use gst_item::Out;
use gst_value::OutOfMemory;
use std::alloc::Global;
use std::collections::VecDeque;
use std::marker::Model;

/// Items that wait, oldest first, for the only source pad. None of them is FLUSH_STOP.
#[derive(Drop)]
pub(crate) struct Waiting {
    outs: VecDeque<Out>,
}

impl Model for Waiting {
    ghost use Rattle.std.specs.Prelude.{◌≡◌, false, List};
    ghost use Rattle.gst_item.specs.declared.out.Out.{Out};
    ghost use Rattle.flow_model.specs.Sticky.{has_flush_stop};
    ghost use Rattle.el_join.specs.Outs.{items_of};

    ghost Value = { List Out };

    ghost view = { λ s. s.outs.items };

    ghost invariant = { λ s. has_flush_stop (items_of s.outs.items) ≡ false };
}

impl Waiting {
    /// None, which takes no memory.
    pub(crate) fn new(alloc: Global) -> Waiting
        ensures { result ≡ [] }
    {
        Waiting {
            outs: VecDeque::new(alloc),
        }
    }

    /// How many there are.
    pub(crate) fn len(&self) -> usize
        ensures { result ≡ length self.now }
    {
        self.outs.len()
    }

    /// Puts items behind those that wait. Where there is no memory they are given up.
    pub(crate) fn add(&mut self, mut more: VecDeque<Out>) -> Result<(), OutOfMemory>
        requires free { has_flush_stop (items_of more.items) ≡ false }
        ensures ok { OnOk result (self.new ≡ self.old ++ more.items) }
        ensures err { OnErr result (self.new ≡ self.old) }
    {
        self.outs.append(&mut more)?;
        Ok(())
    }

    /// Gives up all that waits.
    pub(crate) fn clear(&mut self)
        ensures { self.new ≡ [] }
    {
        self.outs.clear();
    }

    /// Whether each of them fits behind earlier pads.
    pub(crate) fn check(&self, sums: Sums) -> Result<(), Excess>
        ensures ok { OnOk result (fault_in (map (raised sums) (items_of self.now)) ≡ None) }
        ensures err { IfErr result (λ excess. fault_in (map (raised sums) (items_of self.now)) ≡ Some (TooLong excess.a excess.b)) }
    {
        check_all(&self.outs, sums)
    }

    /// Moves all that waits behind what was put out, as it goes out behind earlier pads.
    pub(crate) fn pour(&mut self, sums: Sums, into: &mut Vec<Out>)
        requires room { vec_len into.old + length self.old ≤ vec_capacity into.old }
        ensures into { into.new.items ≡ into.old.items ++ on_pad 0 (map (lifted sums) (items_of self.old)) }
        ensures len { vec_len into.new ≡ vec_len into.old + length self.old }
        ensures capacity { vec_capacity into.new ≡ vec_capacity into.old }
        ensures free { has_flush_stop (items_of self.old) ≡ false }
        ensures taken { self.new ≡ [] }
    {
        pour_all(&mut self.outs, sums, into)
    }
}

fn check_all(outs: &VecDeque<Out>, sums: Sums) -> Result<(), Excess>
    ensures ok { OnOk result (fault_in (map (raised sums) (items_of outs.now.items)) ≡ None) }
    ensures err { IfErr result (λ excess. fault_in (map (raised sums) (items_of outs.now.items)) ≡ Some (TooLong excess.a excess.b)) }
{
    let mut place = 0;
    while place < outs.len() {
        sums.check(&outs[place].item)?;
        place += 1;
    }
    Ok(())
}

fn pour_all(outs: &mut VecDeque<Out>, sums: Sums, into: &mut Vec<Out>)
    requires room { vec_len into.old + deque_len outs.old ≤ vec_capacity into.old }
    ensures into { into.new.items ≡ into.old.items ++ on_pad 0 (map (lifted sums) (items_of outs.old.items)) }
    ensures len { vec_len into.new ≡ vec_len into.old + deque_len outs.old }
    ensures capacity { vec_capacity into.new ≡ vec_capacity into.old }
    ensures taken { outs.new.items ≡ [] }
{
    while let Some(one) = outs.pop_front() {
        into.push_reserved(Out {
            pad: 0,
            item: sums.lift(one.item),
        });
    }
}
