// The board as a value under the turn lock.
use crate::board::Board;
use build_core::Plan;
use event_core::RunEntry;
use mvn_outside::{Shelf, ShelfTold};
use turn_lock::Kept;

/// What no turn changes: the plan, and what the repository told when the build began, with its count of faults. No value of it is made.
/// Project rule.
pub struct Opened {
    pub plan: Plan,
    pub told: Option<ShelfTold>,
    pub faults: u64,
}

impl<'a, S: Shelf> Kept for Board<'a, S> {
    type Fixed = Opened;

    type Entry = RunEntry;

    ghost use Rattle.board.specs.Logs.{role};

    ghost fixed = { λ b. record { plan = b.plan; told = S.told b.opening; faults = S.faults b.opening } };

    ghost log = { λ b. b.log };

    ghost count = { λ b. b.plan.workers };

    ghost role = { role };

    fn workers(&self) -> u32 {
        let plan = self.plan;
        plan.workers
    }

    fn entries(&self) -> u64 {
        self.core.runs_within_bound();
        self.core.events().len() as u64
    }
}
