// What a child's output and status answer.
ghost use Rattle.std.specs.Prelude.{◌≡◌, ◌<◌, ◌≤◌, ℤ, length, IfOk};
ghost use Rattle.gates.specs.Answering.{no_answer, ended_with, child_answer, most_answer, spoken};
ghost use Rattle.std.specs.Option.{unwrap_or};

use goal_types::{GoalAnswer, read_answer};
use mvn_shared::{Mem, Text};
use std::alloc::Global;

/// The most bytes of an answer: its line of 65,536 bytes, a line feed, and an output of 64 MiB.
pub(crate) const MOST_ANSWER: usize = 67_174_401;

// The answer of a child whose output is none.
fn no_answer(alloc: Global) -> Mem<GoalAnswer>
    ensures { IfOk result (λ said. said ≡ no_answer) }
{
    Ok(GoalAnswer::Failed(Text::from_str(alloc, "child gave no answer")?))
}

// The answer of a child that ended with another status than 0.
fn ended_with(alloc: Global, status: i32) -> Mem<GoalAnswer>
    ensures { IfOk result (λ said. said ≡ ended_with status) }
{
    let text = format!(in alloc; "child ended with {status}")?;
    Ok(GoalAnswer::Failed(Text::of(text)))
}

/// The answer of a child whose output is too long, whatever its status.
#[tactic(auto, using(crate::proofs::Statuses::long_said))]
pub(crate) fn long_answer(alloc: Global, output: &[u8]) -> Mem<GoalAnswer>
    requires { most_answer < length output.now }
    ensures { IfOk result (λ said. (status : ℤ) → said ≡ child_answer output.now status) }
{
    no_answer(alloc)
}

// The answer that an output is, and no answer where it is none.
#[tactic(auto, using(crate::proofs::Statuses::spoken_some, crate::proofs::Statuses::spoken_none))]
fn spoken(alloc: Global, output: &[u8]) -> Mem<GoalAnswer>
    ensures { IfOk result (λ said. said ≡ unwrap_or (spoken output.now) no_answer) }
{
    match read_answer(alloc, output)? {
        Some(answer) => Ok(answer),
        None => no_answer(alloc),
    }
}

/// What an output and a status answer, where the output isn't too long. Project rule.
#[tactic(auto, unfolding(crate::specs::Answering::child_answer))]
pub(crate) fn answer_of(alloc: Global, output: &[u8], status: i32) -> Mem<GoalAnswer>
    requires { length output.now ≤ most_answer }
    ensures { IfOk result (λ said. said ≡ child_answer output.now status) }
{
    if status == 0 {
        spoken(alloc, output)
    } else {
        ended_with(alloc, status)
    }
}
