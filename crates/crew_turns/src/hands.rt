// What an object shows of a worker's devices, and the law of what a hand is left as, one module after another.
ghost use Rattle.std.specs.Prelude.{◌≡◌, ℕ, List, [], ◌++◌};
ghost use Rattle.build_core.specs.declared.ending.Ending.{Ending};
ghost use Rattle.event_core.specs.declared.entry.RunEntry.{RunEntry};
ghost use Rattle.crew_turns.specs.Endings.{endings_of, endings_since};
ghost use Rattle.crew_turns.specs.Hands.{HandState, IsWorked};

use mvn_outside::{Area, Gate, Hand, Remote};

/// What an object shows of a worker's devices.
pub trait Worker {
    ghost use Rattle.crew_turns.specs.Hands.{HandState};

    /// What they tell, how often each failed so far, and the pieces of the staging area.
    ghost state: { Self → HandState };
}

impl<R: Remote, A: Area, G: Gate> Worker for Hand<R, A, G> {
    ghost use Rattle.crew_turns.specs.Hands.{state_by};

    ghost state = { λ hand. state_by R.files R.faults A.contents A.faults A.pieces
        G.answers G.faults hand };
}

/// A law: a hand that isn't used is left as it was; one that was worked with while some modules ended, and then while others did, was worked
/// with while all of them ended. What ended since a worker looked is what a longer log adds. Does nothing. Project rule.
pub fn hands_are_counted()
    ensures unused { (hand : HandState) → IsWorked hand hand [] }
    ensures both { (before now later : HandState) (first more : List Ending)
        → IsWorked before now first → IsWorked now later more
        → IsWorked before later (first ++ more) }
    ensures since { (worker : ℕ) (before rest : List RunEntry)
        → endings_since worker before (before ++ rest) ≡ endings_of worker rest }
{}
