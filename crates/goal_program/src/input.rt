// A stream to its end, or until it is too long for a request.
ghost use Rattle.std.specs.Prelude.{◌≡◌, ◌<◌, nat_le, length, Some, None, IfOk, IfSome, if◌then◌else◌};
ghost use Rattle.mvn_shared.specs.Cause.{HasCause};
ghost use Rattle.mvn_outside.specs.Faults.{device_failed};
ghost use Rattle.goal_program.specs.Requests.{most_request};
ghost use Rattle.goal_program.specs.Reading.{ReadsMore, ReadsUpTo, most_read};

use crate::MOST_REQUEST;
use children::Source;
use mvn_outside::DeviceFault;
use mvn_shared::Bytes;
use std::alloc::Global;

/// How many bytes are asked for at a time.
const PART: usize = 65536;

// Reads once, and puts what came after `bytes`. Says whether the stream has ended.
#[tactic(auto, using(crate::proofs::Steps::read_none, crate::proofs::Steps::read_some))]
fn read_more<I: Source>(
    input: &mut I,
    part: &mut [u8],
    bytes: &mut Vec<u8>,
) -> Result<bool, DeviceFault>
    requires { 0 < length part.old }
    ensures reads { IfOk result (λ ended. ReadsMore (I.left input.old) (I.left input.new)
        (length part.old) bytes.old.items bytes.new.items ended) }
    ensures up_to { ReadsUpTo (length part.old) (I.left input.old) (I.left input.new) }
    ensures never { I.never_fails input.new ≡ I.never_fails input.old }
    ensures cause { HasCause (I.faults input.old) (I.faults input.new) (device_failed result) }
{
    let Ok(count) = input.read(part) else {
        return Err(DeviceFault::Failed);
    };
    match bytes.extend_from_slice(&part[..count]) {
        Ok(()) => Ok(count == 0),
        Err(_) => Err(DeviceFault::Memory),
    }
}

/// All that is left of a stream; None where that is more than a request has. It reads one byte more than that at most.
#[tactic(auto, using(crate::proofs::Steps::read_none, crate::proofs::Steps::read_further, crate::proofs::Steps::read_so_far))]
pub(crate) fn read_all<I: Source>(
    alloc: Global,
    input: &mut I,
) -> Result<Option<Bytes>, DeviceFault>
    ensures all { IfOk result (λ found. IfSome (I.left input.old)
        (λ rest. found ≡ (if nat_le (length rest) most_request then Some rest else None))) }
    ensures stops { ReadsUpTo most_read (I.left input.old) (I.left input.new) }
    ensures never { I.never_fails input.new ≡ I.never_fails input.old }
    ensures cause { HasCause (I.faults input.old) (I.faults input.new) (device_failed result) }
{
    let mut bytes = Vec::new(alloc);
    let Ok(mut part) = vec![in alloc; 0u8; PART] else {
        return Err(DeviceFault::Memory);
    };
    while bytes.len() <= MOST_REQUEST {
        let room = PART.min(MOST_REQUEST + 1 - bytes.len());
        if read_more(input, &mut part[..room], &mut bytes)? {
            return Ok(Some(Bytes::of(bytes)));
        }
    }
    Ok(None)
}
