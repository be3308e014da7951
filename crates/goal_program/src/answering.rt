// What is written for a request.
ghost use Rattle.std.specs.Prelude.{◌≡◌, option_map, IfOk, IfSome};
ghost use Rattle.goal_types.specs.Answers.{answer_text};
ghost use Rattle.goal_types.specs.Goals.{HasOwnSlots};
ghost use Rattle.gates.specs.Builtin.{builtin};
ghost use Rattle.goal_program.specs.Answering.{reply_to};

use crate::read_request;
use gates::Builtin;
use goal_types::{GoalAnswer, GoalRequest, answer_bytes};
use mvn_outside::Gate;
use mvn_shared::{Bytes, Mem, OutOfMemory};
use std::alloc::Global;

// The answer of the built-in goals.
fn answer_to(alloc: Global, request: &GoalRequest) -> Mem<GoalAnswer>
    requires { HasOwnSlots request.now.own }
    ensures { IfOk result (λ answer. answer ≡ builtin request.now) }
{
    match Builtin::new(alloc).call(request) {
        Ok(answer) => Ok(answer),
        Err(_) => Err(OutOfMemory),
    }
}

// The bytes of that answer.
fn answered(alloc: Global, request: &GoalRequest) -> Mem<Bytes>
    requires { HasOwnSlots request.now.own }
    ensures { IfOk result (λ bytes. bytes ≡ answer_text (builtin request.now)) }
{
    let answer = answer_to(alloc, request)?;
    answer_bytes(alloc, &answer)
}

// The same of what may be a request.
fn reply_of(alloc: Global, found: &Option<GoalRequest>) -> Mem<Option<Bytes>>
    requires { IfSome found.now (λ request. HasOwnSlots request.own) }
    ensures { IfOk result (λ reply.
        reply ≡ option_map (λ request. answer_text (builtin request)) found.now) }
{
    match found {
        Some(request) => Ok(Some(answered(alloc, request)?)),
        None => Ok(None),
    }
}

/// The bytes of the built-in goals' answer to the request that bytes are; None where they are none.
pub(crate) fn reply_to(alloc: Global, bytes: &[u8]) -> Mem<Option<Bytes>>
    ensures { IfOk result (λ reply. reply ≡ reply_to bytes.now) }
{
    let found = read_request(alloc, bytes)?;
    reply_of(alloc, &found)
}
