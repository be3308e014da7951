//! The run of the program: a request is read, its answer is written, and a status says how it ended.

ghost use Rattle.std.specs.Prelude.{◌≡◌, ◌==◌, IfOk, IfSome};
ghost use Rattle.mvn_shared.specs.Cause.{HasCause};
ghost use Rattle.mvn_outside.specs.Faults.{device_failed};
ghost use Rattle.goal_program.specs.Answering.{reply_from};
ghost use Rattle.goal_program.specs.Reading.{ReadsUpTo, most_read};
ghost use Rattle.goal_program.specs.Running.{IsStatus, Answered, Refused, WritesPart, HasOneCause};

use crate::answering::reply_to;
use crate::input::read_all;
use children::Source;
use mvn_outside::{DeviceFault, Sink, write_all};
use mvn_shared::Bytes;
use std::alloc::Global;

/// The status where an answer was written.
pub const ANSWERED: u8 = 0;

/// The status where the input isn't a request.
pub const NO_REQUEST: u8 = 2;

/// The status where the input or the output failed.
pub const FAULT: u8 = 3;

/// The status where memory ran out.
pub const NO_MEMORY: u8 = 4;

// The bytes to be written for what a stream gives; None where that is no request.
#[tactic(auto, using(crate::proofs::Replies::replied, crate::proofs::Replies::unreplied))]
fn reply<I: Source>(alloc: Global, input: &mut I) -> Result<Option<Bytes>, DeviceFault>
    ensures value { IfOk result
        (λ reply. IfSome (I.left input.old) (λ text. reply ≡ reply_from text)) }
    ensures stops { ReadsUpTo most_read (I.left input.old) (I.left input.new) }
    ensures never { I.never_fails input.new ≡ I.never_fails input.old }
    ensures cause { HasCause (I.faults input.old) (I.faults input.new) (device_failed result) }
{
    let Some(bytes) = read_all(alloc, input)? else {
        return Ok(None);
    };
    Ok(reply_to(alloc, bytes.as_slice())?)
}

/// Reads one request, and writes the answer of the built-in goals. The status is 0 where all of it was written; 2 where the
/// input isn't a request or has more than 512 MiB, and nothing is written; 3 where input or output failed; 4 where memory
/// ran out. It stops reading one byte past the limit. Project rule.
#[tactic(auto, using(crate::proofs::Replies::answered, crate::proofs::Replies::refused, crate::proofs::Replies::part_none))]
pub fn goal_main<I: Source, O: Sink>(alloc: Global, input: &mut I, out: &mut O) -> u8
    ensures status { IsStatus result }
    ensures answered { result ≡ 0 → IfSome (I.left input.old)
        (λ text. Answered text (O.written out.old) (O.written out.new)) }
    ensures refused { result ≡ 2 → IfSome (I.left input.old) (λ text. Refused text) }
    ensures part { IfSome (I.left input.old)
        (λ text. WritesPart text (O.written out.old) (O.written out.new)) }
    ensures stops { ReadsUpTo most_read (I.left input.old) (I.left input.new) }
    ensures input_never { I.never_fails input.new ≡ I.never_fails input.old }
    ensures output_never { O.never_fails out.new ≡ O.never_fails out.old }
    ensures cause { HasOneCause (I.faults input.old) (I.faults input.new)
        (O.faults out.old) (O.faults out.new) (result == 3) }
{
    match reply(alloc, input) {
        Ok(Some(bytes)) => match write_all(out, bytes.as_slice()) {
            Ok(()) => ANSWERED,
            Err(DeviceFault::Failed) => FAULT,
            Err(DeviceFault::Memory) => NO_MEMORY,
        },
        Ok(None) => NO_REQUEST,
        Err(DeviceFault::Failed) => FAULT,
        Err(DeviceFault::Memory) => NO_MEMORY,
    }
}
