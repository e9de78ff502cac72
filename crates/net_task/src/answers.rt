//! What a task answers, by what came of its tries.
ghost use Rattle.std.specs.Prelude.{◌≡◌};
ghost use Rattle.net_task.specs.Answers.{head_step, preferred, tried_both};

use task_parts::{Failure, Step, Tried};

/// What a task whose head was asked answers.
pub(crate) fn step_of(tried: Result<Tried, Failure>) -> Result<Step, Failure>
    ensures { result ≡ head_step tried }
{
    match tried {
        Ok(Tried::Idle) => Ok(Step::Ended),
        Ok(Tried::Stuck(step)) => Ok(step),
        Ok(Tried::Moved) => Ok(Step::Moved),
        Err(fault) => Err(fault),
    }
}

/// Of two reasons why items wait the one that is told: a probe goes before a lane without room, that before an EOS behind
/// which nothing crosses, and of two of one kind the first.
fn prefer(first: Step, second: Step) -> Step
    ensures { result ≡ preferred first second }
{
    match (first, second) {
        (Step::AtProbe(_), _) => first,
        (_, Step::AtProbe(_)) => second,
        (Step::NeedsRoom(_), _) => first,
        (_, Step::NeedsRoom(_)) => second,
        _ => first,
    }
}

/// What is told where one more pad was tried: that an item moved, or else why items wait.
pub(crate) fn with_next(tried: Tried, next: Tried) -> Tried
    ensures { result ≡ tried_both tried next }
{
    match (tried, next) {
        (_, Tried::Idle) => tried,
        (Tried::Stuck(first), Tried::Stuck(second)) => Tried::Stuck(prefer(first, second)),
        (_, Tried::Stuck(_) | Tried::Moved) => next,
    }
}
