//! A goal's answer as bytes, for goals that run in programs of their own.

ghost use Rattle.std.specs.Prelude.{◌≡◌, ◌==◌, false, unwrap_or, IfOk, IsUtf8, None};
ghost use Rattle.std.specs.Option.{option_map};
ghost use Rattle.std.specs.String.{string_bytes};
ghost use Rattle.serde_json.specs.View.{view};
ghost use Rattle.serde_json.specs.Written.{compact_text};
ghost use Rattle.goal_types.specs.Lines.{line_of};
ghost use Rattle.goal_types.specs.Answers.{answer_data, answer_text, answer_of, answer_in, keys_of, says, number_at};

use crate::goal::GoalAnswer;
use crate::line::split_line;
use mvn_base::MOST_OUTPUT;
use mvn_shared::{Bytes, Mem, OutOfMemory, Text};
use serde_json::{Value, json};
use std::alloc::Global;

/// The most bytes of an answer's line.
const MOST_LINE: usize = 65536;

// The line of an answer, as a JSON value.
fn answer_value(alloc: Global, answer: &GoalAnswer) -> Mem<Value>
    ensures { IfOk result (λ value. view value ≡ answer_data answer.now) }
{
    Ok(match answer {
        GoalAnswer::Done => json!(in alloc; {"answer": "done"})?,
        GoalAnswer::Produced(bytes) => {
            let length = bytes.len() as u64;
            json!(in alloc; {"answer": "produced", "length": length})?
        }
        GoalAnswer::Failed(text) => {
            let text = text.as_str();
            json!(in alloc; {"answer": "failed", "text": text})?
        }
    })
}

// The line of an answer.
fn answer_line(alloc: Global, answer: &GoalAnswer) -> Mem<String>
    ensures { IfOk result (λ line. string_bytes line ≡ compact_text (answer_data answer.now)) }
{
    let value = answer_value(alloc, answer)?;
    Ok(value.to_string(alloc)?)
}

/// An answer as bytes: one line of compact JSON, and after it the bytes of an output. Project rule. Costs the time and
/// memory of what it gives.
pub fn answer_bytes(alloc: Global, answer: &GoalAnswer) -> Mem<Bytes>
    ensures { IfOk result (λ bytes. bytes ≡ answer_text answer.now) }
{
    let mut bytes = answer_line(alloc, answer)?.into_bytes();
    bytes.push(b'\n')?;
    if let GoalAnswer::Produced(output) = answer {
        bytes.extend_from_slice(output.as_slice())?;
    }
    Ok(Bytes::of(bytes))
}

// How many members an object has; nothing else has any.
fn keys_of(value: &Value) -> usize
    ensures { result ≡ keys_of (view value.now) }
{
    match value.as_object() {
        Some(members) => members.len(),
        None => 0,
    }
}

// Whether the value has this text under this key.
fn says(value: &Value, key: &str, text: &str) -> bool
    ensures { result ≡ says key.now text.now (view value.now) }
{
    match value.get(key).and_then(Value::as_str) {
        Some(found) => text.as_bytes() == found.as_bytes(),
        None => false,
    }
}

// Whether the value has this number under this key.
fn has_number(value: &Value, key: &str, number: u64) -> bool
    ensures { result
        ≡ unwrap_or (option_map (λ n. n == number) (number_at key.now (view value.now))) false }
{
    match value.get(key).and_then(Value::as_u64) {
        Some(found) => found == number,
        None => false,
    }
}

// The answer of a line's value, with what stands after the line.
#[tactic(auto, unfolding(crate::specs::Answers::answer_of))]
fn answer_of(alloc: Global, value: &Value, rest: &[u8]) -> Mem<Option<GoalAnswer>>
    ensures { IfOk result (λ found. found ≡ answer_of (view value.now) rest.now) }
{
    let keys = keys_of(value);
    if keys == 1 && says(value, "answer", "done") && rest.is_empty() {
        return Ok(Some(GoalAnswer::Done));
    }
    if keys == 2
        && says(value, "answer", "produced")
        && has_number(value, "length", rest.len() as u64)
        && rest.len() as u64 <= MOST_OUTPUT
    {
        return Ok(Some(GoalAnswer::Produced(Bytes::from_slice(alloc, rest)?)));
    }
    if keys == 2 && says(value, "answer", "failed") && rest.is_empty() {
        return match value.get("text").and_then(Value::as_str) {
            Some(text) => Ok(Some(GoalAnswer::Failed(Text::from_str(alloc, text)?))),
            None => Ok(None),
        };
    }
    Ok(None)
}

/// The answer that bytes are: a line of at most 65,536 bytes that is JSON with exactly the keys of an answer, and
/// exactly the bytes of an output of at most `MOST_OUTPUT` bytes. None where they are no answer. Project rule. Costs
/// one pass.
#[tactic(auto, unfolding(crate::specs::Answers::answer_in))]
pub fn read_answer(alloc: Global, bytes: &[u8]) -> Mem<Option<GoalAnswer>>
    // A line that isn't UTF-8 is no answer.
    ensures text { IfOk result (λ found. IsUtf8 (line_of bytes.now) → found ≡ answer_in bytes.now) }
    ensures no_text { IfOk result (λ found. ¬ (IsUtf8 (line_of bytes.now)) → found ≡ None) }
{
    let Some((line, rest)) = split_line(bytes) else {
        return Ok(None);
    };
    if line.len() > MOST_LINE {
        return Ok(None);
    }
    match Value::from_slice(alloc, line) {
        Ok(value) => answer_of(alloc, &value, rest),
        Err(e) => if e.is_memory() {
            Err(OutOfMemory)
        } else {
            Ok(None)
        },
    }
}
