//! A gate that gives the answers of a list.

ghost use Rattle.std.specs.Prelude.{◌≡◌, IfOk, [], true};

use crate::calls::{Calls, Failures, NoFailures};
use goal_types::{GoalAnswer, GoalRequest};
use mvn_outside::{DeviceFault, Gate};
use mvn_shared::{List, Mem};
use std::alloc::Global;
use std::vec::IntoIter;

/// Goals in memory: it gives its answers in order, one for each call that doesn't fail, and then `Done`. It doesn't
/// tell them as a function of requests.
#[derive(Drop)]
pub struct MemGate<F> {
    answers: IntoIter<GoalAnswer>,
    calls: F,
}

impl MemGate<Calls> {
    ghost use Rattle.outside_mem.specs.Gate.{gate_answers};

    /// These answers, in order. The calls with the numbers fail, from 0 on.
    pub fn new(alloc: Global, answers: List<GoalAnswer>, failing: &List<u64>) -> Mem<MemGate<Calls>>
        ensures value { IfOk result (λ gate. gate_answers gate ≡ answers) }
        ensures never { failing.now ≡ [] →
            IfOk result (λ gate. ⟦<MemGate<Calls> as Gate>⟧.never_fails gate ≡ true) }
    {
        let calls = Calls::new(alloc, failing)?;
        Ok(MemGate {
            answers: answers.into_vec().into_iter(),
            calls,
        })
    }
}

impl MemGate<NoFailures> {
    ghost use Rattle.outside_mem.specs.Gate.{gate_answers};

    /// These answers, in order. No call fails.
    pub fn without_failures(answers: List<GoalAnswer>) -> MemGate<NoFailures>
        ensures value { gate_answers result ≡ answers }
        ensures never { ⟦<MemGate<NoFailures> as Gate>⟧.never_fails result ≡ true }
    {
        MemGate {
            answers: answers.into_vec().into_iter(),
            calls: NoFailures,
        }
    }
}

impl<F: Failures> Gate for MemGate<F> {
    ghost use Rattle.std.specs.Prelude.{None};

    ghost answers = { λ _. None };

    ghost faults = { λ gate. F.count gate.calls };

    ghost never_fails = { λ gate. F.never_fails gate.calls };

    ghost no_faults = { λ gate. F.no_faults gate.calls };

    ghost one_answer = { λ _. tt };

    fn call(&mut self, _request: &GoalRequest) -> Result<GoalAnswer, DeviceFault> {
        if self.calls.next_fails() {
            return Err(DeviceFault::Failed);
        }
        match self.answers.next() {
            Some(answer) => Ok(answer),
            None => Ok(GoalAnswer::Done),
        }
    }
}
