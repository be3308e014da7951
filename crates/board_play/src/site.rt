// A board, and beside it a core with the same events, which says what may come next.
ghost use Rattle.std.specs.Prelude.{◌≡◌, ◌<◌, ◌^◌, ◌∷◌, ◌++◌, [], length, true, IfSome};
ghost use Rattle.scripts.specs.Outlines.{outline_of};
ghost use Rattle.event_core.specs.Runs.{events_of};
ghost use Rattle.event_core.specs.SoundPlans.{IsSoundPlan};
ghost use Rattle.mvn_outside.specs.Shelf.{files_now};
ghost use Rattle.run_law.specs.Given.{IsPresent};
ghost use Rattle.board.specs.Builds.{MayCome, module_at};

use board::{Board, Finished};
use build_core::{Event, Plan};
use event_core::Core;
use goal_types::Slot;
use mvn_outside::Shelf;
use mvn_shared::{Bytes, Mem, OutOfMemory};
use run_law::bound::runs_fit_in;
use std::alloc::Global;

/// A board under way.
#[derive(Drop)]
pub struct Site<'a, S: Shelf> {
    pub(crate) board: Board<'a, S>,
    pub(crate) core: Core,
    ghost same: { core ≡ (outline_of board.plan, events_of board.log) },
}

// The core has the event too that the board's log has after the core's events.
pub(crate) fn follow<S: Shelf>(board: &Board<S>, core: &mut Core, event: Event)
    requires plan { core.old.0 ≡ outline_of board.now.plan }
    requires more { events_of board.now.log ≡ core.old.1 ++ event ∷ [] }
    ensures { core.new ≡ (outline_of board.now.plan, events_of board.now.log) }
{
    board.keeps();
    match core.step(event) {
        Ok(()) => {}
        Err(_) => unreachable!(),
    }
}

impl<'a, S: Shelf + Drop> Site<'a, S> {
    /// The site of a build that hasn't begun.
    #[tactic(auto, using(board::proofs::Few::few_modules))]
    pub fn new(alloc: Global, plan: &'a Plan, shelf: S) -> Mem<Site<'a, S>>
        requires sound { IsSoundPlan plan.now }
        requires few { plan.now.events < 2 ^ 32 }
        requires names { length plan.now.names < 2 ^ 32 }
        requires present { IfSome (S.told shelf) (λ told. IsPresent plan.now (files_now told)) }
    {
        runs_fit_in();
        let core = Core::new(alloc, plan)?;
        match Board::new(alloc, plan, shelf) {
            Ok(board) => Ok(Site { board, core }),
            Err(_) => Err(OutOfMemory),
        }
    }

    /// Whether an event may come next.
    pub(crate) fn may_come(&self, event: Event) -> bool
        ensures { result ≡ true → MayCome self.now.board event }
    {
        match self.core.cause(event) {
            None => true,
            Some(_) => false,
        }
    }

    /// The module that a worker builds, if any.
    pub(crate) fn module(&self, worker: u32) -> Option<u32>
        ensures { result ≡ module_at self.now.board worker }
    {
        self.core.module(worker)
    }

    /// Whether a file is there by now.
    pub fn has(&self, file: u32) -> bool {
        self.board.has(file)
    }

    /// A copy of the bytes that a module keeps in a slot, if any.
    pub fn output(&self, number: u32, slot: Slot) -> Mem<Option<Bytes>> {
        self.board.output(number, slot)
    }

    // What a build leaves that doesn't come to its end.
    fn given_up(self) -> Option<Finished<S>> {
        None
    }

    /// What a whole build leaves, where each module has ended or was skipped.
    pub fn finish(self) -> Option<Finished<S>> {
        if !self.core.is_complete() {
            return self.given_up();
        }
        let Site { board, core: _ } = self;
        Some(board.finish())
    }
}
