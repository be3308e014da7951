// Rows about the bytes of answers.
use goal_types::{GoalAnswer, answer_bytes, read_answer};
use mvn_shared::{Bytes, Mem, Text};
use std::alloc::Global;

// The bytes of an answer that has produced these bytes.
fn produced(alloc: Global, bytes: &[u8]) -> Mem<Bytes> {
    let bytes = Bytes::from_slice(alloc, bytes)?;
    answer_bytes(alloc, &GoalAnswer::Produced(bytes))
}

// The bytes of an answer that has failed with this text.
fn failed(alloc: Global, text: &[u8]) -> Mem<Bytes> {
    match Text::from_slice(alloc, text) {
        Ok(text) => answer_bytes(alloc, &GoalAnswer::Failed(text)),
        Err(_) => Bytes::from_slice(alloc, "no text".as_bytes()),
    }
}

/// The bytes of an answer.
pub(crate) fn written(alloc: Global, fields: &[Bytes]) -> Mem<Bytes> {
    match fields {
        [kind] if kind.as_slice() == "done".as_bytes() => answer_bytes(alloc, &GoalAnswer::Done),
        [kind, bytes] if kind.as_slice() == "produced".as_bytes() => {
            produced(alloc, bytes.as_slice())
        }
        [kind, text] if kind.as_slice() == "failed".as_bytes() => failed(alloc, text.as_slice()),
        _ => Bytes::from_slice(alloc, "no such row".as_bytes()),
    }
}

fn spelled_failure(alloc: Global, text: &Text) -> Mem<Bytes> {
    let mut shown = Bytes::from_slice(alloc, "failed ".as_bytes())?;
    shown.extend_from_slice(text.as_bytes())?;
    Ok(shown)
}

fn spelled_length(alloc: Global, len: usize) -> Mem<Bytes> {
    let text = format!(in alloc; "produced {len}")?;
    Bytes::from_slice(alloc, text.as_bytes())
}

// An answer in a word and its text, or how many bytes it has.
fn shown(alloc: Global, answer: &GoalAnswer) -> Mem<Bytes> {
    match answer {
        GoalAnswer::Done => Bytes::from_slice(alloc, "done".as_bytes()),
        GoalAnswer::Failed(text) => spelled_failure(alloc, text),
        GoalAnswer::Produced(output) => spelled_length(alloc, output.len()),
    }
}

// What bytes are read as.
fn told(alloc: Global, bytes: &[u8]) -> Mem<Bytes> {
    match &read_answer(alloc, bytes)? {
        Some(answer) => shown(alloc, answer),
        None => Bytes::from_slice(alloc, "none".as_bytes()),
    }
}

/// The answer that bytes are read as.
pub(crate) fn read(alloc: Global, fields: &[Bytes]) -> Mem<Bytes> {
    match fields {
        [bytes] => told(alloc, bytes.as_slice()),
        _ => Bytes::from_slice(alloc, "no such row".as_bytes()),
    }
}

fn push_spaces(bytes: &mut Vec<u8>, count: u32) -> Mem<()> {
    for _space in 0..count {
        bytes.push(b' ')?;
    }
    Ok(())
}

// An answer with so many spaces after it.
fn spaced_answer(alloc: Global, spaces: u32) -> Mem<Vec<u8>> {
    let mut bytes = Vec::from_slice(alloc, "{\"answer\":\"done\"}".as_bytes())?;
    push_spaces(&mut bytes, spaces)?;
    bytes.push(b'\n')?;
    Ok(bytes)
}

/// The answer that bytes are read as where so many spaces stand after it.
pub(crate) fn spaced(alloc: Global, count: &str) -> Mem<Bytes> {
    let bytes = spaced_answer(alloc, count.parse::<u32>().unwrap_or(0))?;
    told(alloc, bytes.as_slice())
}
