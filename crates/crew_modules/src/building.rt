// Builds a module from its start to its end.
ghost use Rattle.std.specs.Prelude.{◌≡◌, ◌<◌, ◌^◌, [], ◌∷◌, None, length};
ghost use Rattle.crew_turns.specs.Hands.{IsWorked};
ghost use Rattle.crew_turns.specs.Paths.{IsPath};
ghost use Rattle.crew_turns.specs.Stages.{HasAnswered, IsReading};
ghost use Rattle.crew_turns.specs.Stops.{HasEnded};
ghost use Rattle.crew_turns.specs.Seen.{IsOf, KeepsFit};
ghost use Rattle.crew_turns.specs.Tasks.{HasBegun};

use crate::{answer_goals, building_ends_none, end_holding, free_all, gather, install, make_ready};
use board::Board;
use build_core::Ending;
use crew_turns::{Task, Worker, end_module};
use goal_types::PathEntry;
use mvn_outside::{Gate, Hand, Remote, Shelf};
use std::alloc::Global;
use std::sync::Wait;
use turn_lock::{Pass, TurnLock};

// Builds a module whose classpath is gathered: its goals are answered, and it is installed.
fn build_gathered<'b, W: Wait, S: Shelf, R: Remote, G: Gate>(
    alloc: Global,
    rt: &W,
    lock: &TurnLock<Board<'b, S>>,
    pass: &mut Pass<Board<'b, S>>,
    task: &Task,
    hand: &mut Hand<R, S::Area, G>,
    paths: &[PathEntry],
) -> Ending
    requires few { task.now.plan.events < 2 ^ 32 }
    requires of { IsOf task.now.plan lock.now task.now.worker pass.old }
    requires good { HasAnswered task.now 0 None pass.old }
    requires path { IsPath task.now paths.now pass.old }
    requires beside { length paths.now ≡ length task.now.unit.entries }
    ensures ended { HasEnded task.now lock.now result pass.old pass.new }
    ensures fits { KeepsFit task.now.plan task.now.worker
        (⟦<Hand<R, S::Area, G> as Worker>⟧.state hand.old).told pass.old pass.new }
    ensures worked { IsWorked
        (⟦<Hand<R, S::Area, G> as Worker>⟧.state hand.old)
        (⟦<Hand<R, S::Area, G> as Worker>⟧.state hand.new) (result ∷ []) }
{
    building_ends_none();
    match answer_goals(alloc, rt, lock, pass, task, &mut hand.gate, paths) {
        Ok(own) => install(rt, lock, pass, task, &mut hand.area, own.as_slice()),
        Err(ending) => end_module(rt, lock, pass, task, ending),
    }
}

// Builds a module whose batch is held, with all files of its fetch list there: its classpath is gathered, and the batch freed.
fn build_ready<'b, W: Wait, S: Shelf, R: Remote, G: Gate>(
    alloc: Global,
    rt: &W,
    lock: &TurnLock<Board<'b, S>>,
    pass: &mut Pass<Board<'b, S>>,
    task: &Task,
    hand: &mut Hand<R, S::Area, G>,
) -> Ending
    requires few { task.now.plan.events < 2 ^ 32 }
    requires of { IsOf task.now.plan lock.now task.now.worker pass.old }
    requires at { IsReading task.now 0 pass.old }
    ensures ended { HasEnded task.now lock.now result pass.old pass.new }
    ensures fits { KeepsFit task.now.plan task.now.worker
        (⟦<Hand<R, S::Area, G> as Worker>⟧.state hand.old).told pass.old pass.new }
    ensures worked { IsWorked
        (⟦<Hand<R, S::Area, G> as Worker>⟧.state hand.old)
        (⟦<Hand<R, S::Area, G> as Worker>⟧.state hand.new) (result ∷ []) }
{
    building_ends_none();
    let batch = task.unit.batch.as_slice();
    match gather(alloc, rt, lock, pass, task) {
        Ok(paths) => {
            free_all(rt, lock, pass, task, batch);
            build_gathered(alloc, rt, lock, pass, task, hand, paths.as_slice())
        }
        Err(ending) => end_holding(rt, lock, pass, task, batch, ending),
    }
}

/// Builds a module that has begun, with a hand, to its end; the answer is how it ended. A fault of the remote, the area, the gate or the
/// repository ends this module alone, and so does want of memory. May wait. Goals, fetches and staging run outside turns. Introduction to
/// the Build Lifecycle, for what a module's build is; project rule.
pub fn build_module<'b, W: Wait, S: Shelf, R: Remote, G: Gate>(
    alloc: Global,
    rt: &W,
    lock: &TurnLock<Board<'b, S>>,
    pass: &mut Pass<Board<'b, S>>,
    task: &Task,
    hand: &mut Hand<R, S::Area, G>,
) -> Ending
    requires few { task.now.plan.events < 2 ^ 32 }
    requires of { IsOf task.now.plan lock.now task.now.worker pass.old }
    requires begun { HasBegun task.now pass.old }
    ensures ended { HasEnded task.now lock.now result pass.old pass.new }
    ensures fits { KeepsFit task.now.plan task.now.worker
        (⟦<Hand<R, S::Area, G> as Worker>⟧.state hand.old).told pass.old pass.new }
    ensures worked { IsWorked
        (⟦<Hand<R, S::Area, G> as Worker>⟧.state hand.old)
        (⟦<Hand<R, S::Area, G> as Worker>⟧.state hand.new) (result ∷ []) }
{
    building_ends_none();
    match make_ready(rt, lock, pass, task, &mut hand.remote, &mut hand.area) {
        Some(ending) => end_holding(rt, lock, pass, task, task.unit.batch.as_slice(), ending),
        None => build_ready(alloc, rt, lock, pass, task, hand),
    }
}
