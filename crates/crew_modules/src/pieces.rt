// A file is fetched from the hand's remote, and staged: outside turns.
ghost use Rattle.std.specs.Prelude.{◌≡◌, ◌<◌, true, None, Some, is_some, length, IfErr, IfOk, IfSome};
ghost use Rattle.std.specs.FinMap as map;
ghost use Rattle.mvn_shared.specs.Cause.{HasCause};
ghost use Rattle.build_core.specs.OneThread.{name_of, remote_bytes};
ghost use Rattle.build_core.specs.declared.ending.Device.TheVariants as device;
ghost use Rattle.build_core.specs.declared.ending.Ending.TheVariants.{Missing};
ghost use Rattle.crew_turns.specs.Endings.{IsFetchEnd, fails_by, is_quiet_end};
ghost use Rattle.crew_modules.specs.Fetched.{HasFetched, IsPieceEnd};

use build_core::{Device, Ending};
use crew_turns::{Task, stage_bytes};
use mvn_outside::{Area, ReadFault, Remote};
use mvn_shared::Bytes;

/// The most bytes of a file that is fetched.
const MOST_FETCHED: u64 = 134_217_728;

// The bytes that a remote has under a file's name, of at most 128 MiB; or how the module ends that needs them.
fn fetched<R: Remote>(task: &Task, remote: &mut R, file: u32) -> Result<Bytes, Ending>
    requires file { file < length task.now.plan.files }
    ensures ok { IfOk result (λ bytes. IfSome (R.files remote.old) (λ files.
        remote_bytes files (name_of task.now.plan file) ≡ Some bytes)) }
    ensures missing { IfErr result (λ ending. ending ≡ Missing file
        → IfSome (R.files remote.old) (λ files.
        remote_bytes files (name_of task.now.plan file) ≡ None)) }
    ensures err { IfErr result (λ ending. IsFetchEnd file ending) }
    ensures same { R.files remote.new ≡ R.files remote.old }
    ensures cause { HasCause (R.faults remote.old) (R.faults remote.new)
        (fails_by device.Remote result) }
{
    let name = &task.plan.files.as_slice()[file as usize];
    match remote.fetch(name, MOST_FETCHED) {
        Ok(Some(bytes)) => Ok(bytes),
        Ok(None) => Err(Ending::Missing(file)),
        Err(ReadFault::TooLarge) => Err(Ending::Missing(file)),
        Err(ReadFault::Failed) => Err(Ending::Fault(Device::Remote)),
        Err(ReadFault::Memory) => Err(Ending::Memory),
    }
}

/// A new sealed piece with the bytes that the remote has under a file's name; or how the module ends that needs it. A file of more than
/// 128 MiB is missing. Costs what the remote's answer and the area's appends cost, and the file's bytes in memory. Project rule.
pub fn fetch_piece<R: Remote, A: Area>(
    task: &Task,
    remote: &mut R,
    area: &mut A,
    file: u32,
) -> Result<u64, Ending>
    requires file { file < length task.now.plan.files }
    ensures fresh { IfOk result (λ piece. map.get (A.pieces area.old) piece ≡ None) }
    ensures sealed { IfOk result (λ piece.
        A.pieces area.new ≡ map.insert (A.pieces area.old) piece true) }
    ensures bytes { IfOk result (λ piece. HasFetched (R.files remote.old)
        (name_of task.now.plan file) (A.contents area.new) piece) }
    ensures missing { IfErr result (λ ending. ending ≡ Missing file
        → IfSome (R.files remote.old) (λ files.
        remote_bytes files (name_of task.now.plan file) ≡ None)) }
    ensures err { IfErr result (λ ending. IsPieceEnd file ending) }
    ensures quiet { IfErr result (λ ending. is_quiet_end ending ≡ true
        → A.pieces area.new ≡ A.pieces area.old) }
    ensures same { R.files remote.new ≡ R.files remote.old }
    ensures tells { is_some (A.contents area.new) ≡ is_some (A.contents area.old) }
    ensures remote_cause { HasCause (R.faults remote.old) (R.faults remote.new)
        (fails_by device.Remote result) }
    ensures area_cause { HasCause (A.faults area.old) (A.faults area.new)
        (fails_by device.Area result) }
{
    match fetched(task, remote, file) {
        Ok(bytes) => stage_bytes(area, bytes.as_slice()),
        Err(ending) => Err(ending),
    }
}
