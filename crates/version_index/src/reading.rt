//! Reads an index.

ghost use Rattle.std.specs.Prelude.{◌≡◌, ◌==◌, ◌∷◌, map, Some, None, IfOk, if◌then◌else◌};
ghost use Rattle.std.specs.List.{list_all, slice_split};
ghost use Rattle.std.specs.Str.{is_utf8};
ghost use Rattle.version_index.specs.Sets.{ascends};
ghost use Rattle.version_index.specs.Texts.{is_listed, of_lines, read_index};

use crate::text::MOST_INDEX;
use mvn_base::valid_version;
use mvn_shared::{List, Mem, OutOfMemory, Text, TextError};
use std::alloc::{AllocError, Global};
use std::cmp::Ordering;

// The parts of a text between its line feeds.
fn parts<'a>(alloc: Global, bytes: &'a [u8]) -> Result<Vec<&'a [u8]>, AllocError>
    ensures { IfOk result (λ parts.
        map (λ x. x.now) parts.items ≡ slice_split (λ b. b == 10) bytes.now) }
{
    bytes.split(|b| *b == b'\n').collect(alloc)
}

// Bytes as a text, where they are one.
fn text_of(alloc: Global, bytes: &[u8]) -> Mem<Option<Text>>
    ensures { IfOk result (λ text.
        text ≡ (if is_utf8 bytes.now then Some bytes.now else None)) }
{
    match Text::from_slice(alloc, bytes) {
        Ok(text) => Ok(Some(text)),
        Err(TextError::NotUtf8) => Ok(None),
        Err(TextError::Memory) => Err(OutOfMemory),
    }
}

// A line as a version, where it may stand in an index.
fn version_of(alloc: Global, line: &[u8]) -> Mem<Option<Text>>
    ensures { IfOk result (λ version.
        version ≡ (if is_listed line.now then Some line.now else None)) }
{
    if valid_version(line) {
        text_of(alloc, line)
    } else {
        Ok(None)
    }
}

// Lines as versions, where each may stand in an index.
fn versions_of(alloc: Global, lines: &[&[u8]]) -> Mem<Option<List<Text>>>
    ensures { IfOk result (λ versions. versions
        ≡ (if list_all is_listed (map (λ x. x.now) lines.now) then Some (map (λ x. x.now) lines.now) else None)) }
{
    let mut versions = Vec::with_capacity(alloc, lines.len())?;
    for line in lines {
        match version_of(alloc, line)? {
            Some(version) => versions.push(version)?,
            None => return Ok(None),
        }
    }
    Ok(Some(List::of(versions)))
}

// Whether lines ascend, with this one before them.
fn ascend_from(first: &[u8], lines: &[&[u8]]) -> bool
    ensures { result ≡ ascends (first.now ∷ map (λ x. x.now) lines.now) }
{
    let mut last = first;
    for line in lines {
        let Ordering::Less = last.cmp(*line) else {
            return false;
        };
        last = *line;
    }
    true
}

// Whether each line is below the next.
fn ascend(lines: &[&[u8]]) -> bool
    ensures { result ≡ ascends (map (λ x. x.now) lines.now) }
{
    match lines {
        [] => true,
        [first, rest @ ..] => ascend_from(*first, rest),
    }
}

// The versions of an index with these lines, where it is one.
fn of_lines(alloc: Global, lines: &[&[u8]]) -> Mem<Option<List<Text>>>
    ensures { IfOk result (λ versions. versions ≡ of_lines (map (λ x. x.now) lines.now)) }
{
    if ascend(lines) {
        versions_of(alloc, lines)
    } else {
        Ok(None)
    }
}

// The versions of an index without its last line feed, where it is one.
fn of_front(alloc: Global, front: &[u8]) -> Mem<Option<List<Text>>>
    ensures { IfOk result (λ versions.
        versions ≡ of_lines (slice_split (λ b. b == 10) front.now)) }
{
    let lines = parts(alloc, front)?;
    of_lines(alloc, lines.as_slice())
}

/// The versions of an index, ascending by bytes, each once; `None` exactly where the bytes are none: they aren't the text of a set
/// of valid versions, or are more than `MOST_INDEX`. Costs one pass, and none where they are too many. Project rule.
pub fn read_index(alloc: Global, bytes: &[u8]) -> Mem<Option<List<Text>>>
    ensures { IfOk result (λ versions. versions ≡ read_index bytes.now) }
{
    if bytes.len() > MOST_INDEX {
        return Ok(None);
    }
    if bytes.is_empty() {
        return Ok(Some(List::new(alloc)));
    }
    match bytes.strip_suffix(b"\n") {
        Some(front) => of_front(alloc, front),
        None => Ok(None),
    }
}
