//! `Shelf`: the local repository, where whole files are published and then settled.

ghost use Rattle.std.specs.Prelude.{◌≡◌, ◌≤◌, ℕ, Bool, true, Option, Some, is_some, length, IfOk, IfSome, OnOk, OnErr};
ghost use Rattle.std.specs.FinMap as map;
ghost use Rattle.mvn_shared.specs.Cause.{HasCause};
ghost use Rattle.mvn_shared.specs.Files.{file_at};
ghost use Rattle.mvn_outside.specs.Faults.{device_failed, read_failed, list_failed};
ghost use Rattle.mvn_outside.specs.Reading.{Reads};
ghost use Rattle.mvn_outside.specs.Versions.{ListsVersions};
ghost use Rattle.mvn_base.specs.Names.{is_group, is_name};
ghost use Rattle.mvn_outside.specs.Pieces.{removed};

use crate::area::Area;
use crate::fault::{DeviceFault, ListFault, ReadFault};
use mvn_base::FileName;
use mvn_shared::{Bytes, FileMap, List, Text};

/// A publish: a name, and the bytes that it was given.
#[derive(Drop)]
pub struct Published {
    pub name: FileName,
    pub bytes: Bytes,
}

/// What a repository tells: its files when it was opened, what was published since, and how many of these publishes
/// were settled.
#[derive(Drop)]
pub struct ShelfTold {
    pub opening: FileMap,
    pub publishes: List<Published>,
    pub settled: u64,
}

/// The local repository. A publish gives a name whole bytes; what was settled stays through a stop.
pub trait Shelf {
    ghost use Rattle.mvn_outside.specs.declared.shelf.ShelfTold.{ShelfTold};
    ghost use Rattle.mvn_outside.specs.Shelf.{files_now, Publishes, settled_all, MaySettle};

    type Area: Area;

    /// What it tells, if anything.
    ghost told: { Self → Option ShelfTold };

    /// The faults so far. The count never falls.
    ghost faults: { Self → ℕ };

    /// Whether no call fails. The count of faults is then the constant 0.
    ghost never_fails: { Self → Bool };

    /// Whether a file has this name.
    fn has(&mut self, name: &FileName) -> Result<bool, DeviceFault>
        ensures tells { IfSome (told self.old) (λ t.
            IfOk result (λ found. found ≡ is_some (file_at (files_now t) name.now))) }
        ensures same { told self.new ≡ told self.old }
        ensures never { never_fails self.new ≡ never_fails self.old }
        ensures cause { HasCause (faults self.old) (faults self.new) (device_failed result) };

    /// The bytes of a file of at most `limit` bytes; nothing where no file has the name.
    fn read(&mut self, name: &FileName, limit: u64) -> Result<Option<Bytes>, ReadFault>
        ensures reads { IfSome (told self.old) (λ t.
            Reads (file_at (files_now t) name.now) limit result) }
        ensures within { IfOk result (λ found. IfSome found (λ bytes. length bytes ≤ limit)) }
        ensures same { told self.new ≡ told self.old }
        ensures never { never_fails self.new ≡ never_fails self.old }
        ensures cause { HasCause (faults self.old) (faults self.new) (read_failed result) };

    /// The valid versions of an artifact whose POMs are there, each once.
    fn versions(&mut self, group: &Text, artifact: &Text) -> Result<List<Text>, ListFault>
        requires group { is_group group.now ≡ true }
        requires artifact { is_name artifact.now ≡ true }
        ensures lists { IfSome (told self.old) (λ t.
            ListsVersions (files_now t) group.now artifact.now result) }
        ensures same { told self.new ≡ told self.old }
        ensures never { never_fails self.new ≡ never_fails self.old }
        ensures cause { HasCause (faults self.old) (faults self.new) (list_failed result) };

    /// Gives a name the bytes of a sealed piece, and takes the piece. After an `Err` names and pieces are as they were.
    fn publish(
        &mut self,
        area: &mut Self::Area,
        piece: u64,
        name: &FileName,
    ) -> Result<(), DeviceFault>
        requires { map.get (Self.Area.pieces area.old) piece ≡ Some true }
        ensures published { OnOk result
            (Publishes (told self.old) (told self.new)
            (Self.Area.contents area.old) piece name.now) }
        ensures taken { OnOk result
            ((Self.Area.pieces area.new ≡ map.remove (Self.Area.pieces area.old) piece)
            × (Self.Area.contents area.new ≡ removed (Self.Area.contents area.old) piece)) }
        ensures err { OnErr result ((told self.new ≡ told self.old) ×
            (Self.Area.pieces area.new ≡ Self.Area.pieces area.old)
            × (Self.Area.contents area.new ≡ Self.Area.contents area.old)) }
        ensures area { Self.Area.faults area.new ≡ Self.Area.faults area.old }
        ensures area_never { Self.Area.never_fails area.new ≡ Self.Area.never_fails area.old }
        ensures never { never_fails self.new ≡ never_fails self.old }
        ensures cause { HasCause (faults self.old) (faults self.new) (device_failed result) };

    /// Makes what was published stay through a stop. The settled number never falls.
    fn settle(&mut self) -> Result<(), DeviceFault>
        ensures ok { OnOk result (told self.new ≡ settled_all (told self.old)) }
        ensures err { OnErr result (MaySettle (told self.old) (told self.new)) }
        ensures never { never_fails self.new ≡ never_fails self.old }
        ensures cause { HasCause (faults self.old) (faults self.new) (device_failed result) };

    /// Where no call fails, there is no fault.
    ghost no_faults: { (shelf : Self) → never_fails shelf ≡ true → faults shelf ≡ 0 };

    /// No more publishes are settled than there are.
    ghost settled_within: { (shelf : Self) → IfSome (told shelf) (λ t. t.settled ≤ length t.publishes) };
}
