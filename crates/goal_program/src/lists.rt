// The lists of a request: each item is named and counted in the line, and its bytes stand after the line.
ghost use Rattle.std.specs.Prelude.{◌≡◌, ℕ, List, Option, find, nat_eq, IfOk};
ghost use Rattle.std.specs.Cmp.Lexicographic.{pointwise};
ghost use Rattle.goal_types.specs.Requests.{slot_name};
ghost use Rattle.std.specs.Option.{option_map};
ghost use Rattle.serde_json.specs.Data.{Data};
ghost use Rattle.serde_json.specs.View.{view};
ghost use Rattle.goal_program.specs.Lists.{with_rest, pair_of, named_in, part_of, slot_in, counted_in, listed};

use crate::members::{items_at, number_in};
use crate::name::file_in;
use goal_types::{OwnBytes, PathEntry, Slot, SourceFile};
use mvn_shared::{Bytes, List, Mem, Text};
use serde_json::Value;
use std::alloc::Global;

/// An item, and the bytes after its own.
pub(crate) type Taken<'a, T> = Mem<Option<(T, &'a [u8])>>;

/// What stands in a list of a request.
pub(crate) trait Item: Sized + Drop {
    ghost use Rattle.std.specs.Prelude as logic;

    /// The item that a value names, its bytes from the front of what is left, and what is left then.
    ghost taken: { Data → logic.List ℕ → Option (Self × logic.List ℕ) };

    fn take<'a>(alloc: Global, value: &Value, rest: &'a [u8]) -> Taken<'a, Self>
        ensures { IfOk result
            (λ found. option_map with_rest found ≡ taken (view value.now) rest.now) };
}

/// The kept slots, by whose names outputs are told.
const KEPT: [Slot; 6] = [
    Slot::Classes,
    Slot::TestClasses,
    Slot::Main,
    Slot::Tests,
    Slot::Sources,
    Slot::Javadoc,
];

// A name and what is said of its bytes: exactly these two.
fn pair_of(values: &[Value]) -> Option<(&str, &Value)>
    ensures { option_map (λ p. (p.0.now, view p.1.now)) result ≡ pair_of values.now }
{
    let [name, count] = values else {
        return None;
    };
    Some((name.as_str()?, count))
}

// The same of an array.
#[tactic(auto, using(crate::proofs::Arrays::paired))]
fn named_in(value: &Value) -> Option<(&str, &Value)>
    ensures { option_map (λ p. (p.0.now, view p.1.now)) result ≡ named_in (view value.now) }
{
    match value.as_array() {
        Some(items) => pair_of(items.as_slice()),
        None => None,
    }
}

// The first so many bytes, and those after them, where there are so many.
fn part_of(count: u64, bytes: &[u8]) -> Option<(&[u8], &[u8])>
    ensures { option_map (λ p. (p.0.now, p.1.now)) result ≡ part_of count bytes.now }
{
    if count <= bytes.len() as u64 {
        Some(bytes.split_at(count as usize))
    } else {
        None
    }
}

// The first of these slots that has this name.
fn slot_among(slots: &[Slot], word: &str) -> Option<Slot>
    ensures { result ≡ find (λ slot. pointwise nat_eq (slot_name slot) word.now) slots.now }
{
    for slot in slots {
        if slot.name().as_bytes() == word.as_bytes() {
            return Some(*slot);
        }
    }
    None
}

// The kept slot of this name.
fn slot_in(word: &str) -> Option<Slot>
    ensures { result ≡ slot_in word.now }
{
    slot_among(&KEPT, word)
}

// A name, the bytes that it counts, and those after them.
fn counted<'a, 'b>(value: &'b Value, rest: &'a [u8]) -> Option<(&'b str, &'a [u8], &'a [u8])>
    ensures { option_map (λ c. (c.0.now, (c.1.now, c.2.now))) result
        ≡ counted_in (view value.now) rest.now }
{
    let (name, count) = named_in(value)?;
    let (bytes, rest) = part_of(number_in(count)?, rest)?;
    Some((name, bytes, rest))
}

impl Item for SourceFile {
    ghost use Rattle.goal_program.specs.Lists.{source_in};

    ghost taken = { source_in };

    fn take<'a>(alloc: Global, value: &Value, rest: &'a [u8]) -> Taken<'a, SourceFile> {
        let Some((path, bytes, rest)) = counted(value, rest) else {
            return Ok(None);
        };
        let path = Text::from_str(alloc, path)?;
        let bytes = Bytes::from_slice(alloc, bytes)?;
        Ok(Some((SourceFile { path, bytes }, rest)))
    }
}

impl Item for OwnBytes {
    ghost use Rattle.goal_program.specs.Lists.{own_in};

    ghost taken = { own_in };

    fn take<'a>(alloc: Global, value: &Value, rest: &'a [u8]) -> Taken<'a, OwnBytes> {
        let Some((word, bytes, rest)) = counted(value, rest) else {
            return Ok(None);
        };
        let Some(slot) = slot_in(word) else {
            return Ok(None);
        };
        let bytes = Bytes::from_slice(alloc, bytes)?;
        Ok(Some((OwnBytes { slot, bytes }, rest)))
    }
}

impl Item for PathEntry {
    ghost use Rattle.goal_program.specs.Lists.{entry_in};

    ghost taken = { entry_in };

    fn take<'a>(alloc: Global, value: &Value, rest: &'a [u8]) -> Taken<'a, PathEntry> {
        let Some((path, count)) = named_in(value) else {
            return Ok(None);
        };
        let Some(name) = file_in(alloc, path)? else {
            return Ok(None);
        };
        if count.is_null() {
            return Ok(Some((PathEntry { name, bytes: None }, rest)));
        }
        let Some((bytes, rest)) = number_in(count).and_then(|count| part_of(count, rest)) else {
            return Ok(None);
        };
        let bytes = Some(Bytes::from_slice(alloc, bytes)?);
        Ok(Some((PathEntry { name, bytes }, rest)))
    }
}

/// The items of the list under a key, each with its bytes from the front of what is left, and what is left then.
#[tactic(auto, using(crate::proofs::Taking::prefixed_none, crate::proofs::Taking::taken_more, crate::proofs::Taking::taken_none))]
pub(crate) fn list_in<'a, T: Item>(
    alloc: Global,
    value: &Value,
    key: &str,
    bytes: &'a [u8],
) -> Taken<'a, List<T>>
    ensures { IfOk result (λ found.
        option_map with_rest found ≡ listed T.taken key.now (view value.now) bytes.now) }
{
    let Some(items) = items_at(value, key) else {
        return Ok(None);
    };
    let mut list = List::new(alloc);
    let mut rest = bytes;
    for item in items {
        let Some((next, behind)) = T::take(alloc, item, rest)? else {
            return Ok(None);
        };
        list.push(next)?;
        rest = behind;
    }
    Ok(Some((list, rest)))
}
