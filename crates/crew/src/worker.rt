// One worker's work, until all modules of the plan are over.
ghost use Rattle.std.specs.Prelude.{◌≡◌, ◌<◌, ◌^◌, None, true};
ghost use Rattle.event_core.specs.Runs.{IsComplete, module_by};
ghost use Rattle.crew_turns.specs.Hands.{HandState, IsWorked};
ghost use Rattle.crew_turns.specs.Endings.{endings_since};
ghost use Rattle.crew_turns.specs.Seen.{FitsHand, Follows, IsOf, Told, seen_by, view};
ghost use Rattle.crew.specs.Between.{IsBetween};

use board::Board;
use build_core::Plan;
use crew_modules::build_module;
use crew_turns::{Assigned, Worker, next_task};
use mvn_outside::{Gate, Hand, Remote, Shelf};
use std::alloc::Global;
use std::sync::Wait;
use turn_lock::{Pass, TurnLock};

// One turn of an idle worker, and where a module has begun for it, that module's build; the answer is whether all modules are over.
fn go_on<'b, W: Wait, S: Shelf, R: Remote, G: Gate>(
    rt: &W,
    alloc: Global,
    lock: &TurnLock<Board<'b, S>>,
    plan: &'b Plan,
    hand: &mut Hand<R, S::Area, G>,
    worker: u32,
    pass: &mut Pass<Board<'b, S>>,
) -> bool
    requires few { plan.now.events < 2 ^ 32 }
    requires of { IsOf plan.now lock.now worker pass.old }
    requires idle { module_by plan.now (seen_by pass.old) worker ≡ None }
    ensures between { (start : Told) (first : HandState)
        → IsBetween plan.now lock.now worker start pass.old first
        (⟦<Hand<R, S::Area, G> as Worker>⟧.state hand.old)
        → IsBetween plan.now lock.now worker start pass.new first
        (⟦<Hand<R, S::Area, G> as Worker>⟧.state hand.new) }
    ensures done { result ≡ true → IsComplete plan.now (seen_by pass.new) }
{
    match next_task(rt, lock, pass, plan, worker) {
        Assigned::Task(task) => {
            build_module(alloc, rt, lock, pass, &task, hand);
            false
        }
        Assigned::Skipped => false,
        Assigned::Wait => {
            lock.rest(rt, pass);
            false
        }
        Assigned::Done => true,
    }
}

/// One worker's work: it begins, builds and ends modules with its hand until all modules of the plan have ended or were skipped, whoever
/// built them. The pass is at rest then, as wide and heavy as it was, and has seen a complete run, in which each entry of the worker
/// fits what its hand tells. Each device of the hand failed at least as often as modules ended by it; if none ended by a fault or for want
/// of memory, the staging area has the pieces that it had. May wait; that it comes back isn't promised. Guide to Working with Multiple
/// Modules, for which modules are skipped; project rule.
pub fn work_on<'b, W: Wait, S: Shelf, R: Remote, G: Gate>(
    rt: &W,
    alloc: Global,
    lock: &TurnLock<Board<'b, S>>,
    plan: &'b Plan,
    hand: &mut Hand<R, S::Area, G>,
    worker: u32,
    pass: &mut Pass<Board<'b, S>>,
)
    requires few { plan.now.events < 2 ^ 32 }
    requires of { IsOf plan.now lock.now worker pass.old }
    requires clear { (view pass.old).owed ≡ None }
    requires own { FitsHand plan.now worker
        (⟦<Hand<R, S::Area, G> as Worker>⟧.state hand.old).told pass.old }
    ensures of { IsOf plan.now lock.now worker pass.new }
    ensures clear { (view pass.new).owed ≡ None }
    ensures follows { Follows pass.old pass.new }
    ensures complete { IsComplete plan.now (seen_by pass.new) }
    ensures own { FitsHand plan.now worker
        (⟦<Hand<R, S::Area, G> as Worker>⟧.state hand.old).told pass.new }
    ensures worked { IsWorked
        (⟦<Hand<R, S::Area, G> as Worker>⟧.state hand.old)
        (⟦<Hand<R, S::Area, G> as Worker>⟧.state hand.new)
        (endings_since worker (seen_by pass.old) (seen_by pass.new)) }
{
    for _ in rt.forever() {
        if go_on(rt, alloc, lock, plan, hand, worker, pass) {
            return;
        }
    }
    unreachable!()
}
