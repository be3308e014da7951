//! Staging: what is to be published lies whole in a piece first.

ghost use Rattle.std.specs.Prelude.{◌≡◌, ◌<◌, ℕ, true, length, None, Some, is_some, IfOk, OnOk, OnErr};
ghost use Rattle.std.specs.FinMap as map;
ghost use Rattle.mvn_shared.specs.Cause.{HasCause};
ghost use Rattle.mvn_outside.specs.Faults.{device_failed};
ghost use Rattle.mvn_outside.specs.Pieces.{emptied};
ghost use Rattle.mvn_outside.specs.Staged.{staged, KeepsPieces};

use crate::{Area, DeviceFault};

/// A new sealed piece with these bytes. After an `Err` all other pieces are as they were, and a piece that was begun is
/// there unsealed; an area that tells still tells. Project rule. Costs what the area's appends cost, and no memory of
/// its own.
pub fn stage<A: Area>(area: &mut A, bytes: &[u8]) -> Result<u64, DeviceFault>
    ensures fresh { IfOk result (λ piece. map.get (A.pieces area.old) piece ≡ None) }
    ensures sealed { IfOk result (λ piece.
        A.pieces area.new ≡ map.insert (A.pieces area.old) piece true) }
    ensures bytes { IfOk result (λ piece.
        A.contents area.new ≡ staged (A.contents area.old) piece bytes.now) }
    ensures err { OnErr result (KeepsPieces (A.pieces area.old) (A.pieces area.new)) }
    ensures tells { is_some (A.contents area.new) ≡ is_some (A.contents area.old) }
    ensures never { A.never_fails area.new ≡ A.never_fails area.old }
    ensures cause { HasCause (A.faults area.old) (A.faults area.new) (device_failed result) }
{
    let piece = area.begin()?;
    let mut done = 0;
    while done < bytes.len() {
        done += area.append(piece, &bytes[done..])?;
    }
    area.seal(piece)?;
    Ok(piece)
}

/// Removes all pieces, leftovers of a stopped run among them. After an `Err` some may be gone. Costs what the area's
/// sweep costs.
pub fn sweep<A: Area>(area: &mut A) -> Result<(), DeviceFault>
    ensures ok { OnOk result ((A.pieces area.new ≡ map.empty) ×
        (A.contents area.new ≡ emptied (A.contents area.old))) }
    ensures same { is_some (A.contents area.new) ≡ is_some (A.contents area.old) }
    ensures never { A.never_fails area.new ≡ A.never_fails area.old }
    ensures cause { HasCause (A.faults area.old) (A.faults area.new) (device_failed result) }
{
    area.sweep()
}
