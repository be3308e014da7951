// Ends a module in which names are held.
ghost use Rattle.std.specs.Prelude.{◌≡◌, Bool};
ghost use Rattle.event_core.specs.Worlds.{HandTold};
ghost use Rattle.crew_turns.specs.Ends.{ends_as};
ghost use Rattle.crew_turns.specs.Seen.{IsOf, KeepsFit, names_by};
ghost use Rattle.crew_turns.specs.Stops.{HasEnded, MayEnd, MayStop};

use crate::batch::free_all;
use board::Board;
use build_core::Ending;
use crew_turns::{Task, end_module};
use mvn_outside::Shelf;
use std::sync::Wait;
use turn_lock::{Pass, TurnLock};

/// Ends a module in which the worker holds these names: they are freed first. The answer is how it ended. May wait. Costs a turn for each
/// name, and one. Project rule.
pub fn end_holding<'b, W: Wait, S: Shelf>(
    rt: &W,
    lock: &TurnLock<Board<'b, S>>,
    pass: &mut Pass<Board<'b, S>>,
    task: &Task,
    names: &[u32],
    ending: Ending,
) -> Ending
    requires of { IsOf task.now.plan lock.now task.now.worker pass.old }
    requires held { names_by task.now.plan task.now.worker pass.old ≡ names.now }
    requires may { MayEnd task.now ending pass.old }
    ensures ended { HasEnded task.now lock.now result pass.old pass.new }
    ensures settled { (marked : Bool) × (result ≡ ends_as ending marked) }
    ensures fits { (told : HandTold) → MayStop task.now told ending pass.old
        → KeepsFit task.now.plan task.now.worker told pass.old pass.new }
{
    // Read so that the task's invariant is known: it is a module of its plan.
    let _number = task.number;
    free_all(rt, lock, pass, task, names);
    end_module(rt, lock, pass, task, ending)
}
