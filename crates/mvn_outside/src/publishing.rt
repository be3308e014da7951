//! Publishing: a name gets a piece's whole bytes at once, and what was published is settled.

ghost use Rattle.std.specs.Prelude.{◌≡◌, true, Some, OnOk, OnErr};
ghost use Rattle.std.specs.FinMap as map;
ghost use Rattle.mvn_shared.specs.Cause.{HasCause};
ghost use Rattle.mvn_outside.specs.Faults.{device_failed};
ghost use Rattle.mvn_outside.specs.Pieces.{removed};
ghost use Rattle.mvn_outside.specs.Shelf.{Publishes, settled_all, MaySettle};

use crate::{DeviceFault, Shelf};
use mvn_base::FileName;

/// Gives a name the bytes of a sealed piece, and takes the piece. After an `Err` names and pieces are as they were.
/// Costs what the repository's publish costs.
pub fn put<S: Shelf>(
    shelf: &mut S,
    area: &mut S::Area,
    piece: u64,
    name: &FileName,
) -> Result<(), DeviceFault>
    requires { map.get (S.Area.pieces area.old) piece ≡ Some true }
    ensures published { OnOk result
        (Publishes (S.told shelf.old) (S.told shelf.new)
        (S.Area.contents area.old) piece name.now) }
    ensures taken { OnOk result
        ((S.Area.pieces area.new ≡ map.remove (S.Area.pieces area.old) piece)
        × (S.Area.contents area.new ≡ removed (S.Area.contents area.old) piece)) }
    ensures err { OnErr result ((S.told shelf.new ≡ S.told shelf.old) ×
        (S.Area.pieces area.new ≡ S.Area.pieces area.old)
        × (S.Area.contents area.new ≡ S.Area.contents area.old)) }
    ensures area { S.Area.faults area.new ≡ S.Area.faults area.old }
    ensures never { (S.never_fails shelf.new ≡ S.never_fails shelf.old) ×
        (S.Area.never_fails area.new ≡ S.Area.never_fails area.old) }
    ensures cause { HasCause (S.faults shelf.old) (S.faults shelf.new) (device_failed result) }
{
    shelf.publish(area, piece, name)
}

/// Makes what was published stay through a stop. Costs what the repository's settling costs.
pub fn settle<S: Shelf>(shelf: &mut S) -> Result<(), DeviceFault>
    ensures ok { OnOk result (S.told shelf.new ≡ settled_all (S.told shelf.old)) }
    ensures err { OnErr result (MaySettle (S.told shelf.old) (S.told shelf.new)) }
    ensures never { S.never_fails shelf.new ≡ S.never_fails shelf.old }
    ensures cause { HasCause (S.faults shelf.old) (S.faults shelf.new) (device_failed result) }
{
    shelf.settle()
}
