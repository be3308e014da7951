// All workers, by halves, each with a hand and in a thread of its own.
ghost use Rattle.std.specs.Prelude.{◌+◌, ◌<◌, ◌^◌, ℕ, length, slice_index_or};
ghost use Rattle.mvn_outside.specs.declared.hand.Hand.{Hand};
ghost use Rattle.crew.specs.Crews.{HasLeft, IsDone, IsReady, opened_by};
ghost use Rattle.crew_turns.specs.Seen.{seen_by};

use crate::worker::work_on;
use crate::{Team, run};
use board::Board;
use build_core::Plan;
use crew_turns::Worker;
use mvn_outside::{Gate, Hand, Remote, Shelf};
use std::alloc::Global;
use std::snapshot::Snapshot;
use std::sync::Wait;
use std::thread::Threads;
use turn_lock::{Pass, TurnLock};

/// What all workers of a build share: the plan, and, for clauses alone, the repository as it was when the board was made. Project rule.
#[derive(Drop)]
pub struct Crew<'a, S> {
    pub plan: &'a Plan,
    pub opening: Snapshot<S>,
    pub alloc: Global,
}

impl<'a, S: Shelf, R: Remote, G: Gate> Team<
    TurnLock<Board<'a, S>>,
    Hand<R, S::Area, G>,
    Pass<Board<'a, S>>,
> for Crew<'a, S> {
    ghost use Rattle.crew.specs.Crews.{HasLeft, IsDone, IsReady, opened_by};
    ghost use Rattle.crew_turns.specs.Seen.{seen_by};

    ghost ready = { λ crew lock first count pass. IsReady (opened_by S.told S.faults crew.plan.now crew.opening.value) lock first count pass };

    ghost done = { λ crew lock first count pass. IsDone (opened_by S.told S.faults crew.plan.now crew.opening.value) lock first count pass };

    ghost leaves = { λ crew pass k before now. HasLeft (opened_by S.told S.faults crew.plan.now crew.opening.value) k (⟦<Hand<R, S::Area, G> as Worker>⟧.state before) (⟦<Hand<R, S::Area, G> as Worker>⟧.state now) (seen_by pass) };

    fn work<W: Wait>(
        &self,
        rt: &W,
        lock: &TurnLock<Board<'a, S>>,
        first: u32,
        hand: &mut Hand<R, S::Area, G>,
        pass: &mut Pass<Board<'a, S>>,
    ) {
        work_on(rt, self.alloc, lock, self.plan, hand, first, pass);
    }

    fn cut(
        &self,
        lock: &TurnLock<Board<'a, S>>,
        _first: u32,
        _left: u32,
        _right: u32,
        pass: &mut Pass<Board<'a, S>>,
    ) -> Pass<Board<'a, S>> {
        match lock.split(pass) {
            Ok(other) => other,
            Err(_) => unreachable!(),
        }
    }

    fn tie(
        &self,
        lock: &TurnLock<Board<'a, S>>,
        _first: u32,
        _left: u32,
        _right: u32,
        pass: &mut Pass<Board<'a, S>>,
        other: Pass<Board<'a, S>>,
    ) {
        lock.join(pass, other);
    }
}

/// Lets the hands build the plan, each by a worker of its own, numbered from `first` on: by halves at the same time, as far as threads can
/// be had. The pass comes back with the weight of all of them, and has seen a complete run; of each hand it says that the entries of its
/// worker fit what it tells, that its devices failed at least as often as modules ended by them, and which pieces its area has. Every hand
/// is used. May wait. Costs a cut, a join and a thread for each hand but one. Project rule.
pub fn run_crew<'a, W: Threads + Wait + Sync, S: Shelf + Send, R: Remote + Send, G: Gate + Send>(
    rt: &W,
    lock: &TurnLock<Board<'a, S>>,
    crew: &Crew<'a, S>,
    hands: &mut [Hand<R, S::Area, G>],
    first: u32,
    pass: Pass<Board<'a, S>>,
) -> Pass<Board<'a, S>>
where
    S::Area: Send,
    requires some { 0 < length hands.old }
    requires few { first + length hands.old < 2 ^ 32 }
    requires ready { IsReady (opened_by S.told S.faults crew.now.plan.now crew.now.opening.value)
        lock.now first (length hands.old) pass }
    ensures done { IsDone (opened_by S.told S.faults crew.now.plan.now crew.now.opening.value)
        lock.now first (length hands.old) result }
    ensures hands { (i : ℕ) (d : Hand R S.Area G) → i < length hands.old
        → HasLeft (opened_by S.told S.faults crew.now.plan.now crew.now.opening.value) (first + i)
        (⟦<Hand<R, S::Area, G> as Worker>⟧.state (slice_index_or hands.old i d))
        (⟦<Hand<R, S::Area, G> as Worker>⟧.state (slice_index_or hands.new i d)) (seen_by result) }
{
    let mut pass = pass;
    run(rt, crew, lock, first, hands, &mut pass);
    pass
}
