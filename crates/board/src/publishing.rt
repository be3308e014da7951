// The call of the board that publishes a file.
ghost use Rattle.std.specs.Prelude.{◌≡◌, ◌<◌, true, Some, length, OnErr, OnOk};
ghost use Rattle.std.specs.FinMap as map;
ghost use Rattle.mvn_shared.specs.Cause.{HasCause};
ghost use Rattle.mvn_outside.specs.Faults.{device_failed};
ghost use Rattle.mvn_outside.specs.Pieces.{removed};
ghost use Rattle.build_core.specs.OneThread.{name_of};
ghost use Rattle.build_core.specs.declared.event.Event.TheVariants as event;
ghost use Rattle.event_core.specs.declared.entry.Carried.{Carried};
ghost use Rattle.board.specs.Builds.{MayCome, Publishes, with_entry, with_fault, with_shelf};

use crate::board::{Board, set_mark, step};
use build_core::{Event, Plan};
use mvn_base::FileName;
use mvn_outside::{DeviceFault, Shelf, put};

// The name of a file.
pub(crate) fn name_at(plan: &Plan, file: u32) -> &FileName
    requires { file < length plan.now.files }
    ensures { result.now ≡ name_of plan.now file }
{
    &plan.files.as_slice()[file as usize]
}

impl<'a, S: Shelf> Board<'a, S> {
    /// Publishes the bytes of a sealed piece as a file that is to be published next: one event. An `Err` is no event, and leaves the
    /// repository's names and the pieces; where the repository failed the worker is marked. Takes no memory of its own; costs what the
    /// repository's publish costs. Project rule.
    pub fn publish(
        &mut self,
        worker: u32,
        file: u32,
        area: &mut S::Area,
        piece: u64,
    ) -> Result<(), DeviceFault>
        requires may { MayCome self.old (event.Publish worker file) }
        requires sealed { map.get (S.Area.pieces area.old) piece ≡ Some true }
        ensures entry { OnOk result ((what : Carried)
            × Publishes (S.told self.old.shelf) (S.told self.new.shelf)
            (S.Area.contents area.old) piece (name_of self.old.plan file) what
            × (self.new ≡ with_shelf (with_entry self.old (event.Publish worker file) what)
            self.new.shelf)) }
        ensures taken { OnOk result
            ((S.Area.pieces area.new ≡ map.remove (S.Area.pieces area.old) piece)
            × (S.Area.contents area.new ≡ removed (S.Area.contents area.old) piece)) }
        ensures err { OnErr result ((S.told self.new.shelf ≡ S.told self.old.shelf)
            × (S.Area.pieces area.new ≡ S.Area.pieces area.old)
            × (S.Area.contents area.new ≡ S.Area.contents area.old)) }
        ensures mark { OnErr result (self.new
            ≡ with_shelf (with_fault self.old worker (device_failed result)) self.new.shelf) }
        ensures area { S.Area.faults area.new ≡ S.Area.faults area.old }
        ensures never { (S.never_fails self.new.shelf ≡ S.never_fails self.old.shelf)
            × (S.Area.never_fails area.new ≡ S.Area.never_fails area.old) }
        ensures cause { HasCause (S.faults self.old.shelf) (S.faults self.new.shelf)
            (device_failed result) }
    {
        let plan = self.plan;
        let name = name_at(plan, file);
        match put(&mut self.shelf, area, piece, name) {
            Ok(()) => {
                step(&mut self.core, Event::Publish { worker, file });
                Ok(())
            }
            Err(DeviceFault::Failed) => {
                set_mark(&mut self.marks, worker, true);
                Err(DeviceFault::Failed)
            }
            Err(DeviceFault::Memory) => Err(DeviceFault::Memory),
        }
    }
}
