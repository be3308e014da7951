//! `Gate`: the device that runs goals.

ghost use Rattle.std.specs.Prelude.{◌≡◌, ℕ, Bool, true, Option, Some, IfOk, IfSome};
ghost use Rattle.mvn_shared.specs.Cause.{HasCause};

use crate::fault::DeviceFault;
use goal_types::{GoalAnswer, GoalRequest};

/// What runs the goals.
pub trait Gate {
    ghost use Rattle.goal_types.specs.declared.goal.GoalRequest.{GoalRequest};
    ghost use Rattle.goal_types.specs.declared.goal.GoalAnswer.{GoalAnswer};
    ghost use Rattle.mvn_outside.specs.Faults.{device_failed};
    ghost use Rattle.goal_types.specs.Goals.{HasOwnSlots};

    /// A test for its one answer to each request, where it tells it.
    ghost answers: { Self → Option (GoalRequest → GoalAnswer → Bool) };

    /// The faults so far. The count never falls.
    ghost faults: { Self → ℕ };

    /// Whether no call fails. The count of faults is then the constant 0.
    ghost never_fails: { Self → Bool };

    /// Runs the goal. What it keeps of its own outputs has slots that outputs are kept in.
    fn call(&mut self, request: &GoalRequest) -> Result<GoalAnswer, DeviceFault>
        requires { HasOwnSlots request.now.own }
        ensures answer { IfSome (answers self.old) (λ test.
            IfOk result (λ answer. test request.now answer ≡ true)) }
        ensures same { answers self.new ≡ answers self.old }
        ensures never { never_fails self.new ≡ never_fails self.old }
        ensures cause { HasCause (faults self.old) (faults self.new) (device_failed result) };

    /// To each request it has one answer at most.
    ghost one_answer: { (gate : Self) → IfSome (answers gate) (λ test. (request : GoalRequest) (a b : GoalAnswer) → test request a ≡ true → test request b ≡ true → a ≡ b) };

    /// Where no call fails, there is no fault.
    ghost no_faults: { (gate : Self) → never_fails gate ≡ true → faults gate ≡ 0 };
}
