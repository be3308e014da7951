//! Goals in children: what they answer, and what was told of the child.

ghost use Rattle.std.specs.Prelude.{◌≡◌};
ghost use Rattle.mvn_shared.specs.Cause.{HasCause};
ghost use Rattle.mvn_outside.specs.Faults.{device_failed};
ghost use Rattle.goal_types.specs.Goals.{HasOwnSlots};
ghost use Rattle.gates.specs.Asking.{Asks};
ghost use Rattle.gates.specs.Gate.{spawner_of};

use crate::asking::ask;
use children::Spawner;
use goal_types::{GoalAnswer, GoalRequest, request_bytes};
use mvn_outside::{DeviceFault, Gate};
use std::alloc::Global;

/// Goals in children: each call starts a child, gives it the bytes of the request, closes its input, reads its output and
/// waits for its end. Where the output has more than 67,174,401 bytes, the answer is the failure `child gave no answer`,
/// and the child isn't waited for; else where the status isn't 0 it is `child ended with` and the status; else where the
/// output is no answer it is `child gave no answer`; else it is the answer that the output is. It doesn't tell its answers
/// as a function of requests. Project rule.
#[derive(Drop)]
pub struct ProcessGate<P> {
    alloc: Global,
    spawner: P,
}

impl<P> ProcessGate<P> {
    /// Goals in children of this spawner. What is read is allocated with `alloc`.
    pub fn new(alloc: Global, spawner: P) -> ProcessGate<P>
        ensures { spawner_of result ≡ spawner }
    {
        ProcessGate { alloc, spawner }
    }

    /// What starts the children.
    pub fn spawner(&self) -> &P
        ensures { result.now ≡ spawner_of self.now }
    {
        &self.spawner
    }
}

impl<P: Spawner> Gate for ProcessGate<P> {
    ghost use Rattle.std.specs.Prelude.{None};

    ghost answers = { λ _. None };

    ghost faults = { λ gate. P.faults gate.spawner };

    ghost never_fails = { λ gate. P.never_fails gate.spawner };

    ghost no_faults = { λ gate. P.no_faults gate.spawner };

    ghost one_answer = { λ _. tt };

    /// Runs the goal in a child. An answer means one record more, of a child that was given exactly the request's bytes,
    /// and whose output and status are the answer. After any answer the child is gone. Costs the time of the child.
    #[tactic(auto, using(crate::proofs::Steps::asks_of, crate::proofs::Steps::asks_none, crate::proofs::Steps::there_started, crate::proofs::Steps::left_as_before))]
    fn call(&mut self, request: &GoalRequest) -> Result<GoalAnswer, DeviceFault>
        requires { HasOwnSlots request.now.own }
        ensures asks { Asks (P.told (spawner_of self.old))
            (P.told (spawner_of self.new)) request.now result }
        ensures none_left { P.children (spawner_of self.new) ≡ P.children (spawner_of self.old) }
        ensures never { P.never_fails (spawner_of self.new) ≡ P.never_fails (spawner_of self.old) }
        ensures cause { HasCause (P.faults (spawner_of self.old))
            (P.faults (spawner_of self.new)) (device_failed result) }
    {
        let Ok(bytes) = request_bytes(self.alloc, request) else {
            return Err(DeviceFault::Memory);
        };
        match self.spawner.start() {
            Ok(child) => ask(self.alloc, &mut self.spawner, child, bytes.as_slice()),
            Err(fault) => Err(fault),
        }
    }
}
