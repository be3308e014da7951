//! A gate that is one of the two: the built-in goals, or goals in children.

ghost use Rattle.std.specs.Prelude.{◌≡◌, true, IfOk, IfSome};
ghost use Rattle.mvn_shared.specs.Cause.{HasCause};
ghost use Rattle.mvn_outside.specs.Faults.{device_failed};
ghost use Rattle.goal_types.specs.Goals.{HasOwnSlots};

use crate::Builtin;
use crate::process_gate::ProcessGate;
use children::Spawner;
use goal_types::{GoalAnswer, GoalRequest};
use mvn_outside::{DeviceFault, Gate};

/// What runs the goals of a program: the built-in goals, or a program that is started for each.
#[derive(Drop)]
pub enum AnyGate<P> {
    Builtin(Builtin),
    Process(ProcessGate<P>),
}

impl<P: Spawner> Gate for AnyGate<P> {
    ghost use Rattle.gates.specs.AnyGate.{any_answers, any_faults, any_never_fails, any_no_faults, any_one_answer, any_children, AnyAsks};

    ghost answers = { any_answers };

    ghost faults = { any_faults P.faults };

    ghost never_fails = { any_never_fails P.never_fails };

    ghost no_faults = { any_no_faults P.faults P.never_fails P.no_faults };

    ghost one_answer = { any_one_answer };

    /// Runs the goal by the one that it is, which it stays. Costs what that costs.
    fn call(&mut self, request: &GoalRequest) -> Result<GoalAnswer, DeviceFault>
        requires { HasOwnSlots request.now.own }
        ensures answer { IfSome (any_answers self.old)
            (λ test. IfOk result (λ answer. test request.now answer ≡ true)) }
        ensures same { any_answers self.new ≡ any_answers self.old }
        ensures asks { AnyAsks P.told self.old self.new request.now result }
        ensures none_left { any_children P.children self.new ≡ any_children P.children self.old }
        ensures never { any_never_fails P.never_fails self.new
            ≡ any_never_fails P.never_fails self.old }
        ensures cause { HasCause (any_faults P.faults self.old)
            (any_faults P.faults self.new) (device_failed result) }
    {
        match self {
            AnyGate::Builtin(gate) => gate.call(request),
            AnyGate::Process(gate) => gate.call(request),
        }
    }
}
