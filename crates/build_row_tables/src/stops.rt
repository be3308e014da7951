// Builds that a stop cut short.
use crate::project::put_fields;
use mvn_shared::{Bytes, List, Mem};
use outside_mem::{Calls, MemArea, NoFailures};
use row_fields::escaped;
use std::alloc::Global;
use std::sync::Wait;
use std::thread::Threads;
use test_builds::{Left, build_calm, build_local, push_images};
use test_projects::project::empty;
use test_projects::{Project, Worker, calm, hand_with};

// The number at this place of a field, or 0.
fn number(numbers: &str, at: usize) -> usize {
    let mut before = at;
    for word in numbers.split_whitespace() {
        if before == 0 {
            return word.parse::<usize>().unwrap_or(0);
        }
        before = before.wrapping_sub(1);
    }
    0
}

// How many pieces are left in the areas of hands.
fn pieces_left(hands: &[Worker<Calls>]) -> u64 {
    let mut pieces = 0u64;
    for hand in hands {
        pieces = pieces.saturating_add(hand.area.pieces());
    }
    pieces
}

fn counts_text(alloc: Global, status: u8, files: u64, pieces: u64) -> Mem<String> {
    Ok(format!(in alloc; "status {status} files {files} pieces {pieces} ")?)
}

fn push_counts(alloc: Global, status: u8, files: u64, pieces: u64, out: &mut String) -> Mem<()> {
    out.push_str(counts_text(alloc, status, files, pieces)?.as_str())?;
    Ok(())
}

fn push_escaped(alloc: Global, bytes: &[u8], out: &mut String) -> Mem<()> {
    out.push_str(escaped(alloc, bytes)?.as_str())?;
    Ok(())
}

// What is told of a build.
fn push_left<F>(alloc: Global, left: &Left<F>, pieces: u64, out: &mut String) -> Mem<()> {
    let files = left.shelf.names();
    push_counts(alloc, left.status, files, pieces, out)?;
    push_escaped(alloc, left.report.as_slice(), out)
}

// So many leftover pieces.
fn push_pieces(alloc: Global, pieces: &mut List<Bytes>, count: usize) -> Mem<()> {
    for _ in 0..count {
        pieces.push(Bytes::from_slice(alloc, "left over".as_bytes())?)?;
    }
    Ok(())
}

// An area in which a stopped build left so many pieces.
fn area_with(alloc: Global, count: usize) -> Mem<MemArea<Calls>> {
    let mut pieces = List::new(alloc);
    push_pieces(alloc, &mut pieces, count)?;
    MemArea::with_pieces(alloc, pieces, &List::new(alloc))
}

// An area of which the first call fails, if this is so.
fn failing_area(alloc: Global, fails: bool) -> Mem<MemArea<Calls>> {
    let mut failing = List::new(alloc);
    if fails {
        failing.push(0)?;
    }
    MemArea::<Calls>::new(alloc, &failing)
}

// The hand at this place.
fn hand(
    alloc: Global,
    project: &Project,
    kind: &str,
    first: usize,
    at: usize,
) -> Mem<Worker<'static, Calls>> {
    let area = match kind {
        "leftovers" => area_with(alloc, first)?,
        _ => failing_area(alloc, at == first)?,
    };
    hand_with(alloc, project, &calm(), 0, area)
}

fn put_hands(
    alloc: Global,
    project: &Project,
    kind: &str,
    numbers: &str,
    hands: &mut Vec<Worker<'static, Calls>>,
) -> Mem<()> {
    let first = number(numbers, 0);
    for at in 0..number(numbers, 1) {
        hands.push(hand(alloc, project, kind, first, at)?)?;
    }
    Ok(())
}

// What is told of a build by hands, none of which is there yet.
fn tell_by<W: Threads + Wait + Sync>(
    rt: &W,
    alloc: Global,
    project: &Project,
    kind: &str,
    numbers: &str,
    hands: &mut Vec<Worker<'static, Calls>>,
    out: &mut String,
) -> Mem<()> {
    put_hands(alloc, project, kind, numbers, hands)?;
    let left = build_local(rt, alloc, project, None, number(numbers, 2), hands)?;
    push_left(alloc, &left, pieces_left(hands), out)
}

// What is told of a build by hands in whose areas pieces are left, or of which one has an area whose first call fails.
fn by_hands<W: Threads + Wait + Sync>(
    rt: &W,
    alloc: Global,
    project: &Project,
    kind: &str,
    numbers: &str,
    out: &mut String,
) -> Mem<()> {
    let mut hands = Vec::new(alloc);
    tell_by(rt, alloc, project, kind, numbers, &mut hands, out)
}

// What is told of a build, and of another by so many workers over each image of each moment of its repository.
fn push_both<W: Threads + Wait + Sync>(
    rt: &W,
    alloc: Global,
    project: &Project,
    again: usize,
    left: &Left<NoFailures>,
    out: &mut String,
) -> Mem<()> {
    push_left(alloc, left, 0, out)?;
    push_images(rt, alloc, project, again, left, out)
}

// Builds, and tells of that build and of another over each image of each moment of its repository.
fn images<W: Threads + Wait + Sync>(
    rt: &W,
    alloc: Global,
    project: &Project,
    numbers: &str,
    out: &mut String,
) -> Mem<()> {
    let left = build_calm(rt, alloc, project, number(numbers, 0))?;
    push_both(rt, alloc, project, number(numbers, 1), &left, out)
}

// What is told of a project of these fields, of which it has none yet.
fn tell_of<W: Threads + Wait + Sync>(
    rt: &W,
    alloc: Global,
    project: &mut Project,
    kind: &str,
    numbers: &str,
    fields: &str,
    out: &mut String,
) -> Mem<()> {
    put_fields(alloc, project, fields)?;
    match kind {
        "images" => images(rt, alloc, project, numbers, out),
        _ => by_hands(rt, alloc, project, kind, numbers, out),
    }
}

// What is told of a row of this kind.
fn push_kind<W: Threads + Wait + Sync>(
    rt: &W,
    alloc: Global,
    kind: &str,
    row: &str,
    out: &mut String,
) -> Mem<()> {
    let (numbers, fields) = row.split_once('|').unwrap_or((row, ""));
    let mut project = empty(alloc);
    tell_of(rt, alloc, &mut project, kind, numbers, fields, out)
}

/// Adds what is told of a row about a build that a stop cut short, and the end of its line. Project rule.
pub fn push_told<W: Threads + Wait + Sync>(
    rt: &W,
    alloc: Global,
    row: &str,
    text: &mut String,
) -> Mem<()> {
    let (kind, row) = row.split_once(' ').unwrap_or((row, ""));
    push_kind(rt, alloc, kind, row, text)?;
    text.push_str("\n")?;
    Ok(())
}
