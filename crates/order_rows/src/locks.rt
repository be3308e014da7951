// Names that workers take and free.
use crate::numbers::{number, split_section};
use build_core::{LockTable, Mode, Tried};
use mvn_shared::Mem;
use std::alloc::Global;

// A name taken, where it may be asked for.
fn take(table: &mut LockTable, name: u32, worker: u32, mode: Mode) -> char {
    if name < table.names() && worker < table.workers() && table.holds(name, worker).is_none() {
        return match table.take(name, worker, mode) {
            Tried::Taken => '+',
            Tried::Busy(other) => char::from(b'0'.wrapping_add((other % 10) as u8)),
        };
    }
    '!'
}

fn free(table: &mut LockTable, name: u32, worker: u32) -> char {
    if name < table.names() && worker < table.workers() && table.holds(name, worker).is_some() {
        table.free(name, worker);
        return '-';
    }
    '!'
}

fn hold(table: &LockTable, name: u32, worker: u32) -> char {
    match table.holds(name, worker) {
        None => '.',
        Some(Mode::Shared) => 's',
        Some(Mode::Exclusive) => 'x',
    }
}

// A digit's value.
fn value(b: u8) -> u32 {
    b.wrapping_sub(b'0') as u32
}

// What is answered to a call: a letter, a name and a worker.
fn answer(table: &mut LockTable, call: &[u8]) -> char {
    match call {
        [b's', name, worker] => take(table, value(*name), value(*worker), Mode::Shared),
        [b'x', name, worker] => take(table, value(*name), value(*worker), Mode::Exclusive),
        [b'f', name, worker] => free(table, value(*name), value(*worker)),
        [b'h', name, worker] => hold(table, value(*name), value(*worker)),
        _ => '?',
    }
}

fn answers(alloc: Global, table: &mut LockTable, calls: &str) -> Mem<String> {
    let mut shown = String::new(alloc);
    for call in calls.split_whitespace() {
        if !shown.is_empty() {
            shown.push_str(" ")?;
        }
        shown.push(answer(table, call.as_bytes()))?;
    }
    Ok(shown)
}

/// What is answered to calls on so many names by so many workers.
pub(crate) fn locks_row(alloc: Global, sections: &str) -> Mem<String> {
    let (counts, calls) = split_section(sections);
    let (names, workers) = counts.split_once(' ').unwrap_or(("", ""));
    let mut table = LockTable::new(alloc, number(names), number(workers))?;
    answers(alloc, &mut table, calls)
}
