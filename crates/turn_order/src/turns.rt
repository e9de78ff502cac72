//! The numbers of an order, one after the other.
ghost use Rattle.std.specs.Prelude.{◌≡◌, ◌<◌, ◌+◌, ◌%◌, ℕ};
ghost use Rattle.turn_order.specs.declared.order.Order.{Order as Orders};

use crate::draws::next_state;
use crate::order::{Order, place};

/// The numbers of an order that are still to come.
///
/// `IsAt order n turns` says that the next one is number n of the order, counted from 0. `IsAmong order count n turns`
/// says it of the remainders by a count alone, and holds for ever where the count stays the same.
#[derive(Drop)]
pub struct Turns {
    order: Order,
    /// How many of the listed numbers were given.
    listed: usize,
    /// The next number behind the listed ones.
    behind: u64,
}

impl Turns {
    ghost use Rattle.turn_order.specs.Turns.{IsAt, IsAmong, IsWithin, HasMore, number_of};

    /// All numbers of an order.
    pub fn new(order: Order) -> Turns
        ensures at { IsAt order 0 result }
        ensures among { (count : ℕ) → IsAmong order count 0 result }
    {
        Turns {
            order,
            listed: 0,
            behind: 0,
        }
    }

    /// The next number. It takes constant time and no memory. Where it would pass the last value of a `u64`, which no
    /// draw does, that value stays.
    pub fn next(&mut self) -> u64
        ensures number { (order : Orders) (n : ℕ) → IsAt order n self.old → result ≡ number_of order n }
        ensures at { (order : Orders) (n : ℕ) → IsAt order n self.old → IsWithin order (n + 1) → IsAt order (n + 1) self.new }
        ensures remainder { (order : Orders) (count n : ℕ) → IsAmong order count n self.old → result % count ≡ number_of order n % count }
        ensures among { (order : Orders) (count n : ℕ) → 0 < count → HasMore self.old → IsAmong order count n self.old → IsAmong order count (n + 1) self.new }
    {
        match &mut self.order {
            Order::Listed(numbers) => match numbers.as_slice().get(self.listed) {
                Some(number) => {
                    self.listed += 1;
                    u64::from(*number)
                }
                None => {
                    let number = self.behind;
                    self.behind = number.saturating_add(1);
                    number
                }
            },
            Order::Drawn(state) => {
                *state = next_state(*state);
                *state >> 33
            }
        }
    }

    /// Whose turn the next number tells, among so many. It takes constant time and no memory, and knows no last value.
    /// Among none it is 0, and no number is taken.
    pub fn next_among(&mut self, count: usize) -> usize
        ensures place { 0 < count → (order : Orders) (n : ℕ) → IsAmong order count n self.old → result ≡ number_of order n % count }
        ensures among { 0 < count → (order : Orders) (n : ℕ) → IsAmong order count n self.old → IsAmong order count (n + 1) self.new }
        ensures place_at { 0 < count → (order : Orders) (n : ℕ) → IsAt order n self.old → result ≡ number_of order n % count }
        ensures at { 0 < count → (order : Orders) (n : ℕ) → IsAt order n self.old → IsWithin order (n + 1) → IsAt order (n + 1) self.new }
        ensures within { 0 < count → result < count }
        ensures none { count ≡ 0 → (result ≡ 0) × (self.new ≡ self.old) }
    {
        if count == 0 {
            return 0;
        }
        self.reduce(count);
        place(self.next(), count)
    }

    /// Leaves of the last value of a `u64` its remainder by a count.
    fn reduce(&mut self, count: usize)
        requires some { 0 < count }
        ensures more { HasMore self.new }
        ensures among { (order : Orders) (n : ℕ) → IsAmong order count n self.old → IsAmong order count n self.new }
        ensures place { (order : Orders) (n : ℕ) → IsAt order n self.old → IsAmong order count n self.new }
        ensures at { (order : Orders) (n : ℕ) → IsAt order n self.old → IsWithin order (n + 1) → IsAt order n self.new }
    {
        if self.behind == u64::MAX {
            self.behind %= count as u64;
        }
    }
}
