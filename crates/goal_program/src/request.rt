// A goal's request, read from its bytes.
ghost use Rattle.std.specs.Prelude.{◌≡◌, IfOk, IfSome, IsUtf8, None};
ghost use Rattle.std.specs.Option.{option_map};
ghost use Rattle.serde_json.specs.View.{view};
ghost use Rattle.mvn_base.specs.declared.gav.Gav.{Gav};
ghost use Rattle.goal_types.specs.declared.goal.GoalCall.{GoalCall};
ghost use Rattle.goal_types.specs.Goals.{HasOwnSlots};
ghost use Rattle.goal_types.specs.Lines.{line_of};
ghost use Rattle.goal_program.specs.Requests.{lists_of, request_of, request_in};

use crate::call::{call_in, gav_in};
use crate::lists::list_in;
use crate::members::keys_of;
use goal_types::{GoalCall, GoalRequest, OwnBytes, PathEntry, SourceFile, split_line};
use mvn_base::Gav;
use mvn_shared::{List, Mem, OutOfMemory};
use serde_json::Value;
use std::alloc::Global;

/// The most bytes of a request. Project rule.
pub const MOST_REQUEST: usize = 536_870_912;

/// The lists of a request.
struct Lists {
    sources: List<SourceFile>,
    own: List<OwnBytes>,
    classpath: List<PathEntry>,
}

// The lists of a request, from the bytes after the line, which they use up.
fn lists_in(alloc: Global, value: &Value, bytes: &[u8]) -> Mem<Option<Lists>>
    ensures value { (gav : Gav) (call : GoalCall) → IfOk result (λ found.
        option_map (λ lists. record {
          «module» = gav;
          call = call;
          sources = lists.sources;
          own = lists.own;
          classpath = lists.classpath;
        }) found
        ≡ lists_of gav call (view value.now) bytes.now) }
    ensures slots { IfOk result (λ found. IfSome found (λ lists. HasOwnSlots lists.own)) }
{
    let Some((sources, rest)) = list_in(alloc, value, "sources", bytes)? else {
        return Ok(None);
    };
    let Some((own, rest)) = list_in(alloc, value, "own", rest)? else {
        return Ok(None);
    };
    let Some((classpath, rest)) = list_in(alloc, value, "classpath", rest)? else {
        return Ok(None);
    };
    if !rest.is_empty() {
        return Ok(None);
    }
    Ok(Some(Lists {
        sources,
        own,
        classpath,
    }))
}

// A request of these, where its lists are there.
fn with_lists(gav: Gav, call: GoalCall, lists: Option<Lists>) -> Option<GoalRequest>
    ensures { result ≡ option_map (λ lists. record {
      «module» = gav;
      call = call;
      sources = lists.sources;
      own = lists.own;
      classpath = lists.classpath;
    }) lists }
{
    let Lists {
        sources,
        own,
        classpath,
    } = lists?;
    Some(GoalRequest {
        module: gav,
        call,
        sources,
        own,
        classpath,
    })
}

// A request of these, with its lists from the bytes after the line, which they use up.
fn lists_of(
    alloc: Global,
    gav: Gav,
    call: GoalCall,
    value: &Value,
    bytes: &[u8],
) -> Mem<Option<GoalRequest>>
    ensures value { IfOk result (λ found. found ≡ lists_of gav call (view value.now) bytes.now) }
    ensures slots { IfOk result (λ found. IfSome found (λ request. HasOwnSlots request.own)) }
{
    let lists = lists_in(alloc, value, bytes)?;
    Ok(with_lists(gav, call, lists))
}

// The request of a line's value, with what stands after the line.
fn request_of(alloc: Global, value: &Value, bytes: &[u8]) -> Mem<Option<GoalRequest>>
    ensures value { IfOk result (λ found. found ≡ request_of (view value.now) bytes.now) }
    ensures slots { IfOk result (λ found. IfSome found (λ request. HasOwnSlots request.own)) }
{
    if keys_of(value) != 11 {
        return Ok(None);
    }
    let Some(gav) = gav_in(alloc, value)? else {
        return Ok(None);
    };
    let Some(call) = call_in(alloc, value)? else {
        return Ok(None);
    };
    lists_of(alloc, gav, call, value, bytes)
}

/// The request that bytes are: a line that is JSON with exactly the keys of a request, and after it exactly the bytes that
/// its lists count. None where they are none. The goal's slot and classpath are those that it has by default. Project format.
/// Costs one pass and a copy.
#[tactic(auto, unfolding(crate::specs::Requests::request_in))]
pub fn read_request(alloc: Global, bytes: &[u8]) -> Mem<Option<GoalRequest>>
    ensures text { IfOk result
        (λ found. IsUtf8 (line_of bytes.now) → found ≡ request_in bytes.now) }
    ensures no_text { IfOk result (λ found. ¬ (IsUtf8 (line_of bytes.now)) → found ≡ None) }
    ensures slots { IfOk result (λ found. IfSome found (λ request. HasOwnSlots request.own)) }
{
    let Some((line, rest)) = split_line(bytes) else {
        return Ok(None);
    };
    match Value::from_slice(alloc, line) {
        Ok(value) => request_of(alloc, &value, rest),
        Err(e) => if e.is_memory() {
            Err(OutOfMemory)
        } else {
            Ok(None)
        },
    }
}
