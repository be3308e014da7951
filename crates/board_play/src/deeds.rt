// The events of a board, each where it may come.
ghost use Rattle.std.specs.Prelude.{◌≡◌, Some, true, false};
ghost use Rattle.std.specs.FinMap as map;
ghost use Rattle.build_core.specs.declared.event.Event.TheVariants as event;
ghost use Rattle.event_core.specs.Runs.{is_quiet_event};
ghost use Rattle.board.specs.Logs.{is_shelf_end};

use crate::site::{Site, follow};
use board::{AnswerKept, Next};
use build_core::{Device, Ending, Event, Mode, Tried};
use goal_types::GoalAnswer;
use mvn_outside::{DeviceFault, Shelf, stage};
use mvn_shared::Bytes;
use turn_lock::Kept;

/// The most bytes of a file that is read.
pub const MOST: u64 = 134_217_728;

/// What an event that needs an object gives: it came, the module ends so, or it may not come.
#[derive(Clone, Copy)]
pub enum Came {
    Done,
    Ends(Ending),
    Stuck,
}

impl<'a, S: Shelf + Drop> Site<'a, S> {
    /// What an idle worker does next.
    pub fn start(&mut self, worker: u32) -> Option<Next> {
        if worker >= self.board.workers() || self.module(worker).is_some() {
            return None;
        }
        let next = self.board.start(worker);
        match next {
            Next::Module(module) => {
                follow(&self.board, &mut self.core, Event::Start { worker, module })
            }
            Next::Skipped(module) => follow(&self.board, &mut self.core, Event::Skip { module }),
            Next::Wait | Next::Done => {}
        }
        Some(next)
    }

    /// Whether a name that may be taken was taken.
    pub fn take(&mut self, worker: u32, name: u32, mode: Mode) -> bool {
        let event = Event::Take { worker, name, mode };
        if !self.may_come(event) {
            return false;
        }
        match self.board.take(worker, name, mode) {
            Tried::Taken => {
                follow(&self.board, &mut self.core, event);
                true
            }
            Tried::Busy(_) => false,
        }
    }

    /// Whether a name that the worker holds was freed.
    pub fn free(&mut self, worker: u32, name: u32) -> bool {
        let event = Event::Free { worker, name };
        if !self.may_come(event) {
            return false;
        }
        self.board.free(worker, name);
        follow(&self.board, &mut self.core, event);
        true
    }

    // How a module ends for an object that gave no answer: the repository, where it failed.
    fn of_shelf(&self, worker: u32) -> Ending {
        if self.board.shelf_failed(worker) {
            Ending::Fault(Device::Shelf)
        } else {
            Ending::Memory
        }
    }

    /// Reads a file, and looks at no byte of it.
    pub fn read(&mut self, worker: u32, file: u32) -> Came {
        let event = Event::Read { worker, file };
        if !self.may_come(event) {
            return Came::Stuck;
        }
        match self.board.read(worker, file, MOST) {
            Ok(_) => {
                follow(&self.board, &mut self.core, event);
                Came::Done
            }
            Err(_) => Came::Ends(self.of_shelf(worker)),
        }
    }

    // Publishes a sealed piece.
    fn put(&mut self, worker: u32, file: u32, area: &mut S::Area, piece: u64) -> Came
        requires { map.get (S.Area.pieces area.old) piece ≡ Some true }
    {
        let event = Event::Publish { worker, file };
        if !self.may_come(event) {
            return Came::Stuck;
        }
        match self.board.publish(worker, file, area, piece) {
            Ok(()) => {
                follow(&self.board, &mut self.core, event);
                Came::Done
            }
            Err(_) => Came::Ends(self.of_shelf(worker)),
        }
    }

    /// Publishes bytes as a file.
    pub fn publish(&mut self, worker: u32, file: u32, area: &mut S::Area, bytes: &Bytes) -> Came {
        match stage(area, bytes.as_slice()) {
            Ok(piece) => self.put(worker, file, area, piece),
            Err(DeviceFault::Failed) => Came::Ends(Ending::Fault(Device::Area)),
            Err(DeviceFault::Memory) => Came::Ends(Ending::Memory),
        }
    }

    /// Keeps the answer of a goal.
    pub fn answer(&mut self, worker: u32, goal: u32, answer: GoalAnswer) -> Came {
        let event = Event::Answer { worker, goal };
        if !self.may_come(event) {
            return Came::Stuck;
        }
        let failed = is_failed(&answer);
        let kept = self.board.answer(worker, goal, answer);
        follow(&self.board, &mut self.core, event);
        match kept {
            AnswerKept::TooLarge => Came::Ends(Ending::OutputTooLarge(goal)),
            AnswerKept::Held if failed => Came::Ends(Ending::Goal(goal)),
            AnswerKept::Held => Came::Done,
        }
    }

    /// Whether the worker's module was ended so, or by a fault of the repository where that failed in it.
    pub fn end(&mut self, worker: u32, wanted: Ending) -> bool {
        let ending = allowed(self.board.shelf_failed(worker), wanted);
        let event = Event::End { worker, ending };
        if !self.may_come(event) {
            return false;
        }
        self.board.end(worker, ending);
        follow(&self.board, &mut self.core, event);
        true
    }
}

fn is_failed(answer: &GoalAnswer) -> bool {
    match answer {
        GoalAnswer::Failed(_) => true,
        _ => false,
    }
}

// The ending that a board takes: a marked worker's is the repository's fault, and no other's is.
fn allowed(failed: bool, wanted: Ending) -> Ending
    ensures marked { is_shelf_end (event.End 0 result) ≡ true → failed ≡ true }
    ensures honest { failed ≡ true → is_quiet_event (event.End 0 result) ≡ false }
{
    if failed {
        return Ending::Fault(Device::Shelf);
    }
    match wanted {
        Ending::Fault(Device::Shelf) => Ending::Memory,
        other => other,
    }
}
