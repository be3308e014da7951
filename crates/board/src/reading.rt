// The call of the board that reads a file.
ghost use Rattle.std.specs.Prelude.{◌≡◌, ◌≤◌, ◌<◌, ◌⊎◌, true, None, Some, is_some, length, IfErr, IfOk, IfSome, IsSomeAnd, OnOk};
ghost use Rattle.mvn_shared.specs.Cause.{HasCause};
ghost use Rattle.mvn_shared.specs.Files.{file_at};
ghost use Rattle.mvn_outside.specs.Faults.{read_failed};
ghost use Rattle.mvn_outside.specs.Shelf.{files_now};
ghost use Rattle.mvn_outside.specs.declared.fault.ReadFault.TheVariants.{TooLarge};
ghost use Rattle.build_core.specs.OneThread.{name_of};
ghost use Rattle.build_core.specs.declared.event.Event.TheVariants as event;
ghost use Rattle.board.specs.Builds.{MayCome, has_failed, with_event, with_fault, with_shelf};

use crate::board::{Board, set_mark, step};
use crate::publishing::name_at;
use build_core::Event;
use mvn_base::FileName;
use mvn_outside::{ReadFault, Shelf};
use mvn_shared::Bytes;

// The bytes of a file that is there as far as the repository tells: one that isn't counts as a fault.
#[tactic(auto, using(crate::proofs::Shelves::untold_where_absent))]
fn read_file<S: Shelf>(shelf: &mut S, name: &FileName, limit: u64) -> Result<Bytes, ReadFault>
    requires there { IfSome (S.told shelf.old) (λ told.
        is_some (file_at (files_now told) name.now) ≡ true) }
    ensures bytes { IfSome (S.told shelf.old) (λ told. IfOk result (λ bytes.
        file_at (files_now told) name.now ≡ Some bytes)) }
    ensures within { IfOk result (λ bytes. length bytes ≤ limit) }
    ensures large { IfErr result (λ fault. fault ≡ TooLarge
        → IfSome (S.told shelf.old) (λ told. IsSomeAnd (file_at (files_now told) name.now)
        (λ bytes. limit < length bytes))) }
    ensures told { S.told shelf.new ≡ S.told shelf.old }
    ensures never { S.never_fails shelf.new ≡ S.never_fails shelf.old }
    ensures cause { HasCause (S.faults shelf.old) (S.faults shelf.new) (read_failed result)
        ⊎ ((S.told shelf.old ≡ None) × (S.faults shelf.new ≡ S.faults shelf.old)) }
{
    match shelf.read(name, limit) {
        Ok(Some(bytes)) => Ok(bytes),
        Ok(None) => Err(ReadFault::Failed),
        Err(ReadFault::Failed) => Err(ReadFault::Failed),
        Err(ReadFault::TooLarge) => Err(ReadFault::TooLarge),
        Err(ReadFault::Memory) => Err(ReadFault::Memory),
    }
}

impl<'a, S: Shelf> Board<'a, S> {
    /// The bytes of a file that is to be read next, of at most `limit`: one event. The file is there, as far as the repository tells. An
    /// `Err` is no event; where the repository failed, or doesn't tell its files and has none of this name, the worker is marked. Takes
    /// no memory of its own; costs what the repository's read costs. Project rule.
    pub fn read(&mut self, worker: u32, file: u32, limit: u64) -> Result<Bytes, ReadFault>
        requires may { MayCome self.old (event.Read worker file) }
        ensures bytes { IfSome (S.told self.old.shelf) (λ told. IfOk result (λ bytes.
            file_at (files_now told) (name_of self.old.plan file) ≡ Some bytes)) }
        ensures within { IfOk result (λ bytes. length bytes ≤ limit) }
        ensures entry { OnOk result (self.new
            ≡ with_shelf (with_event self.old (event.Read worker file)) self.new.shelf) }
        ensures err { IfErr result (λ fault. self.new
            ≡ with_shelf (with_fault self.old worker (has_failed fault)) self.new.shelf) }
        ensures large { IfErr result (λ fault. fault ≡ TooLarge
            → IfSome (S.told self.old.shelf) (λ told. IsSomeAnd
            (file_at (files_now told) (name_of self.old.plan file))
            (λ bytes. limit < length bytes))) }
        ensures told { S.told self.new.shelf ≡ S.told self.old.shelf }
        ensures never { S.never_fails self.new.shelf ≡ S.never_fails self.old.shelf }
        ensures cause { HasCause (S.faults self.old.shelf) (S.faults self.new.shelf)
            (read_failed result) ⊎ ((S.told self.old.shelf ≡ None)
            × (S.faults self.new.shelf ≡ S.faults self.old.shelf)) }
    {
        self.core.runs_within_bound();
        let plan = self.plan;
        let name = name_at(plan, file);
        match read_file(&mut self.shelf, name, limit) {
            Ok(bytes) => {
                step(&mut self.core, Event::Read { worker, file });
                Ok(bytes)
            }
            Err(ReadFault::Failed) => {
                set_mark(&mut self.marks, worker, true);
                Err(ReadFault::Failed)
            }
            Err(ReadFault::TooLarge) => Err(ReadFault::TooLarge),
            Err(ReadFault::Memory) => Err(ReadFault::Memory),
        }
    }
}
