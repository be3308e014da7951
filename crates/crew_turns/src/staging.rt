// Bytes are staged as a sealed piece, and what a failed device ends a module with.
ghost use Rattle.std.specs.Prelude.{◌≡◌, true, None, is_some, IfErr, IfOk};
ghost use Rattle.std.specs.FinMap as map;
ghost use Rattle.mvn_shared.specs.Cause.{HasCause};
ghost use Rattle.build_core.specs.declared.ending.Device.TheVariants as device;
ghost use Rattle.mvn_outside.specs.Staged.{staged};
ghost use Rattle.crew_turns.specs.Endings.{IsStageEnd, fails_by, publish_end};

use build_core::{Device, Ending};
use mvn_outside::{Area, DeviceFault, stage};

/// A new sealed piece with these bytes; or how the module ends that needs it: by a fault of its area, or for want of memory. Costs what
/// the area's appends cost. Project rule.
pub fn stage_bytes<A: Area>(area: &mut A, bytes: &[u8]) -> Result<u64, Ending>
    ensures fresh { IfOk result (λ piece. map.get (A.pieces area.old) piece ≡ None) }
    ensures sealed { IfOk result (λ piece.
        A.pieces area.new ≡ map.insert (A.pieces area.old) piece true) }
    ensures bytes { IfOk result (λ piece.
        A.contents area.new ≡ staged (A.contents area.old) piece bytes.now) }
    ensures err { IfErr result (λ ending. IsStageEnd ending) }
    ensures tells { is_some (A.contents area.new) ≡ is_some (A.contents area.old) }
    ensures cause { HasCause (A.faults area.old) (A.faults area.new) (fails_by device.Area result) }
{
    match stage(area, bytes) {
        Ok(piece) => Ok(piece),
        Err(DeviceFault::Failed) => Err(Ending::Fault(Device::Area)),
        Err(DeviceFault::Memory) => Err(Ending::Memory),
    }
}

/// What a failed publish ends the module with: a fault of the repository, or want of memory. Constant time. Project rule.
pub fn publish_end(fault: DeviceFault) -> Ending
    ensures { result ≡ publish_end fault }
{
    match fault {
        DeviceFault::Failed => Ending::Fault(Device::Shelf),
        DeviceFault::Memory => Ending::Memory,
    }
}
