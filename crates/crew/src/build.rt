// A whole build: a board is made, the crew works, and the board is finished.
ghost use Rattle.std.specs.Prelude.{◌≡◌, ◌<◌, ◌^◌, ℕ, [], length, slice_index_or, IfErr, IfOk, IfSome, List, OnErr};
ghost use Rattle.mvn_outside.specs.Shelf.{files_now};
ghost use Rattle.mvn_outside.specs.declared.hand.Hand.{Hand};
ghost use Rattle.event_core.specs.Runs.{IsRunOf};
ghost use Rattle.event_core.specs.SoundPlans.{IsSoundPlan};
ghost use Rattle.event_core.specs.declared.entry.RunEntry.{RunEntry};
ghost use Rattle.run_law.specs.Given.{IsPresent};
ghost use Rattle.turn_lock.specs.Passes.{lock_of};
ghost use Rattle.turn_lock.specs.Turns.{first_view};
ghost use Rattle.crew_turns.specs.Seen.{seen_by, view};
ghost use Rattle.crew.specs.Crews.{IsDone, opened_by};
ghost use Rattle.crew.specs.Whole.{IsBuilt, IsWorkedBy};
ghost use Rattle.crew.specs.declared.build.BuildError.TheVariants.{Memory};

use crate::halves::{Crew, run_crew};
use board::{Board, BoardError, Finished};
use build_core::Plan;
use crew_turns::Worker;
use mvn_outside::{Gate, Hand, Remote, Shelf};
use std::alloc::Global;
use std::snapshot::Snapshot;
use std::sync::Wait;
use std::thread::Threads;
use turn_lock::{NewError, Pass, TurnLock};

/// There was no memory to begin; the repository comes back as it was given. Project rule.
#[derive(Drop)]
pub enum BuildError<S> {
    Memory(S),
}

// The lock of a board over which nothing has happened, and its first pass.
fn lock_board<'a, S: Shelf>(
    alloc: Global,
    plan: &'a Plan,
    shelf: S,
) -> Result<(TurnLock<Board<'a, S>>, Pass<Board<'a, S>>), BuildError<S>>
    requires sound { IsSoundPlan plan.now }
    requires few { plan.now.events < 2 ^ 32 }
    requires names { length plan.now.names < 2 ^ 32 }
    requires present { IfSome (S.told shelf) (λ told. IsPresent plan.now (files_now told)) }
    ensures own { IfOk result (λ r. lock_of r.1 ≡ r.0) }
    ensures first { IfOk result (λ r. view r.1
        ≡ first_view [] (opened_by S.told S.faults plan.now shelf) plan.now.workers) }
    ensures err { IfErr result (λ error. error ≡ Memory shelf) }
{
    let board = match Board::new(alloc, plan, shelf) {
        Ok(board) => board,
        Err(BoardError::Memory(shelf)) => return Err(BuildError::Memory(shelf)),
    };
    match TurnLock::new(alloc, board) {
        Ok(made) => Ok(made),
        Err(NewError::Memory(board)) => Err(BuildError::Memory(board.give_up())),
    }
}

// What a crew that is done leaves: its board is closed and finished.
fn finished<'a, S: Shelf>(
    crew: &Crew<'a, S>,
    lock: TurnLock<Board<'a, S>>,
    pass: Pass<Board<'a, S>>,
) -> Finished<S>
    requires { IsDone (opened_by S.told S.faults crew.now.plan.now crew.now.opening.value)
        lock 0 crew.now.plan.now.workers pass }
    ensures { (run : List RunEntry) × (run ≡ seen_by pass.entry) × IsRunOf crew.now.plan.now run
        × IsBuilt S.told S.faults crew.now.plan.now crew.now.opening.value run result }
{
    let board = lock.close(pass);
    board.keeps();
    board.finish()
}

/// Builds a plan by as many hands as it has workers, which may be one, each in a thread of its own: what the build leaves is a complete run
/// of the plan, in which the entries of each worker fit what its hand tells, with its answers, states and publishes. Where there is no
/// memory to begin, nothing is done. May wait. The repository isn't settled and areas aren't swept. Guide to Working with Multiple Modules;
/// project rule for the workers.
pub fn build_all<W: Threads + Wait + Sync, S: Shelf + Send, R: Remote + Send, G: Gate + Send>(
    rt: &W,
    alloc: Global,
    plan: &Plan,
    shelf: S,
    hands: &mut [Hand<R, S::Area, G>],
) -> Result<Finished<S>, BuildError<S>>
where
    S::Area: Send,
    requires sound { IsSoundPlan plan.now }
    requires few { plan.now.events < 2 ^ 32 }
    requires names { length plan.now.names < 2 ^ 32 }
    requires hands { length hands.old ≡ plan.now.workers }
    requires present { IfSome (S.told shelf) (λ told. IsPresent plan.now (files_now told)) }
    ensures built { IfOk result (λ end. (run : List RunEntry)
        × IsBuilt S.told S.faults plan.now shelf run end
        × ((i : ℕ) (d : Hand R S.Area G) → i < length hands.old → IsWorkedBy plan.now
        (S.told shelf) run i
        (⟦<Hand<R, S::Area, G> as Worker>⟧.state (slice_index_or hands.old i d))
        (⟦<Hand<R, S::Area, G> as Worker>⟧.state (slice_index_or hands.new i d)))) }
    ensures err { IfErr result (λ error. error ≡ Memory shelf) }
    ensures unused { OnErr result (hands.new ≡ hands.old) }
{
    let crew = Crew {
        plan,
        opening: Snapshot::of(&shelf),
        alloc,
    };
    match lock_board(alloc, plan, shelf) {
        Ok((lock, pass)) => {
            let pass = run_crew(rt, &lock, &crew, hands, 0, pass);
            Ok(finished(&crew, lock, pass))
        }
        Err(error) => Err(error),
    }
}
