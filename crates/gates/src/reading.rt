// Reading a child's output to its end, or until it is too long.
ghost use Rattle.std.specs.Prelude.{◌≡◌, ◌<◌, true, length, take, IfOk, IfSome, OnErr};
ghost use Rattle.mvn_shared.specs.Cause.{HasCause};
ghost use Rattle.mvn_outside.specs.Faults.{device_failed};
ghost use Rattle.children.specs.Children.{is_there, changed, read_on, unread, record_of};
ghost use Rattle.gates.specs.Asking.{Touches, ReadsMore, most_taken};

use crate::meaning::MOST_ANSWER;
use children::Spawner;
use mvn_outside::DeviceFault;
use std::alloc::Global;

/// The most bytes that are read of an output: one more than an answer may have.
const MOST_TAKEN: usize = MOST_ANSWER + 1;

/// How many bytes are asked of a child at a time.
const PART: usize = 65536;

// Reads once, and puts what came after `bytes`. Says whether the output has ended.
#[tactic(auto, using(crate::proofs::Steps::touched_self))]
fn read_more<P: Spawner>(
    spawner: &mut P,
    child: u64,
    part: &mut [u8],
    bytes: &mut Vec<u8>,
) -> Result<bool, DeviceFault>
    requires there { is_there (P.children spawner.old) child ≡ true }
    requires room { 0 < length part.old }
    ensures reads { IfOk result (λ ended. ReadsMore child (P.told spawner.old) (P.told spawner.new)
        (length part.old) bytes.old.items bytes.new.items ended) }
    ensures err { OnErr result (Touches child (P.told spawner.old) (P.told spawner.new)) }
    ensures there { P.children spawner.new ≡ P.children spawner.old }
    ensures never { P.never_fails spawner.new ≡ P.never_fails spawner.old }
    ensures cause { HasCause (P.faults spawner.old) (P.faults spawner.new) (device_failed result) }
{
    let Ok(count) = spawner.read(child, part) else {
        return Err(DeviceFault::Failed);
    };
    match bytes.extend_from_slice(&part[..count]) {
        Ok(()) => Ok(count == 0),
        Err(_) => Err(DeviceFault::Memory),
    }
}

/// A child's output to its end, or the first 67,174,402 bytes of it. Costs one pass.
pub(crate) fn read_output<P: Spawner>(
    alloc: Global,
    spawner: &mut P,
    child: u64,
) -> Result<Vec<u8>, DeviceFault>
    requires there { is_there (P.children spawner.old) child ≡ true }
    ensures output { IfOk result (λ bytes. IfSome (record_of child (P.told spawner.old))
        (λ known. bytes.items ≡ take most_taken (unread known))) }
    ensures reads { IfOk result (λ bytes. P.told spawner.new
        ≡ changed (read_on (length bytes.items)) child (P.told spawner.old)) }
    ensures err { OnErr result (Touches child (P.told spawner.old) (P.told spawner.new)) }
    ensures there { P.children spawner.new ≡ P.children spawner.old }
    ensures never { P.never_fails spawner.new ≡ P.never_fails spawner.old }
    ensures cause { HasCause (P.faults spawner.old) (P.faults spawner.new) (device_failed result) }
{
    let mut bytes = Vec::new(alloc);
    let Ok(mut part) = vec![in alloc; 0u8; PART] else {
        return Err(DeviceFault::Memory);
    };
    while bytes.len() < MOST_TAKEN {
        let room = PART.min(MOST_TAKEN - bytes.len());
        if read_more(spawner, child, &mut part[..room], &mut bytes)? {
            return Ok(bytes);
        }
    }
    Ok(bytes)
}
