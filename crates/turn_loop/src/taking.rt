//! What takes turns.
ghost use Rattle.std.specs.Prelude.{◌≡◌, ◌≤◌, ◌<◌, ℕ, Bool, true, false, Ok, IfOk, IfErr, OnOk};
ghost use Rattle.turn_loop.specs.Left.{Falls};

use std::alloc::Global;

/// What takes turns: many that can each be stepped, and control, which acts on them between their turns.
///
/// A step moves the one at its place, or can't. An act is the next thing that control has to do, once it can be done.
pub trait TakesTurns {
    /// Why it can't go on.
    type Fault: Drop;

    /// It can be acted on and stepped.
    ghost ready: { Self → Type 0 };

    /// How many take turns.
    ghost count: { Self → ℕ };

    /// How many acts are still to come at the most.
    ghost acts_left: { Self → ℕ };

    /// How many steps can still move at the most, without another act.
    ghost moves_left: { Self → ℕ };

    /// Control did its next act.
    ghost acted: { Self → Self → Type 0 };

    /// Control has nothing to do that can be done now.
    ghost waits: { Self → Type 0 };

    /// The one at a place was stepped, and moved or not.
    ghost stepped: { ℕ → Bool → Self → Self → Type 0 };

    /// Each was stepped once, one after the other, and one of them moved or none did.
    ghost tried: { Bool → Self → Self → Type 0 };

    /// An act met a fault.
    ghost act_failed: { Self → Self → Self.Fault → Type 0 };

    /// The one at a place met a fault at its step.
    ghost step_failed: { ℕ → Self → Self → Self.Fault → Type 0 };

    /// One of them met a fault as each was stepped.
    ghost try_failed: { Self → Self → Self.Fault → Type 0 };

    /// How many take turns.
    fn count(&self) -> usize
        ensures { result ≡ count self.now };

    /// Does the next act, if it can be done now. Tells whether it was done.
    fn act(&mut self, alloc: Global) -> Result<bool, Self::Fault>
        requires ready { ready self.old }
        ensures ready { OnOk result (ready self.new) }
        ensures acted { result ≡ Ok true → acted self.old self.new }
        ensures less { result ≡ Ok true → acts_left self.new < acts_left self.old }
        ensures waits { result ≡ Ok false → waits self.old × (self.new ≡ self.old) }
        ensures failed { IfErr result (act_failed self.old self.new) };

    /// Steps the one at a place. Tells whether it moved.
    fn step(&mut self, alloc: Global, place: usize) -> Result<bool, Self::Fault>
        requires ready { ready self.old }
        requires place { place < count self.old }
        ensures ready { OnOk result (ready self.new) }
        ensures stepped { IfOk result (λ moved. stepped place moved self.old self.new) }
        ensures failed { IfErr result (step_failed place self.old self.new) }
        ensures moves { IfOk result (λ moved. Falls moved (moves_left self.old) (moves_left self.new)) }
        ensures acts { acts_left self.new ≤ acts_left self.old };

    /// Steps each once, one after the other, those too that take no turns. Tells whether one of them moved.
    fn try_each(&mut self, alloc: Global) -> Result<bool, Self::Fault>
        requires ready { ready self.old }
        ensures ready { OnOk result (ready self.new) }
        ensures tried { IfOk result (λ moved. tried moved self.old self.new) }
        ensures failed { IfErr result (try_failed self.old self.new) }
        ensures moves { IfOk result (λ moved. Falls moved (moves_left self.old) (moves_left self.new)) }
        ensures acts { acts_left self.new ≤ acts_left self.old };
}
