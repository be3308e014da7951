// What workers note under a turn lock.
mod plain;

use mvn_shared::Mem;
use std::alloc::Global;
use std::io;
use std::sync::Wait;
use std::thread::Threads;
use std::time::{Clock, CpuClock, Duration};
use turn_lock::tally::{Tally, Task, tallied};

// How long a worker sleeps before each note where it does, in milliseconds.
const SLEEP: u32 = 100;

// A line of standard input.
#[derive(Drop)]
struct Line<'a> {
    workers: u32,
    count: u32,
    way: &'a str,
}

fn read(line: &str) -> Option<Line<'_>> {
    let (workers, rest) = line.split_once(' ')?;
    let (count, way) = rest.split_once(' ').unwrap_or((rest, ""));
    Some(Line {
        workers: workers.parse::<u32>().unwrap_or(0),
        count: count.parse::<u32>().unwrap_or(0),
        way,
    })
}

// What each worker of a line does.
fn task(line: &Line) -> Task {
    let rounds = line.way == "rounds" || line.way == "idle";
    Task {
        count: line.count,
        round: if rounds { line.workers } else { 0 },
        idle: if line.way == "idle" { SLEEP } else { 0 },
        held: if line.way == "held" { SLEEP } else { 0 },
    }
}

// How many notes of so many workers stand in their worker's order.
fn in_order(tally: &Tally, workers: u32) -> u64 {
    let mut sum = 0u64;
    for worker in 0..workers {
        sum = sum.wrapping_add(tally.in_order(worker));
    }
    sum
}

// How many notes there are, and how many in order.
fn counts<R: Threads + Wait + Clock + Sync>(
    rt: &R,
    alloc: Global,
    line: &Line,
) -> Mem<(usize, u64)> {
    if line.workers == 0 || line.workers > 16 {
        return Ok((0, 0));
    }
    if line.way == "mutex" {
        return Ok((plain::noted(rt, alloc, line.workers, line.count)?, 0));
    }
    let tally = tallied(rt, alloc, line.workers, &task(line))?;
    let looked_at = if line.way == "turns" { 0 } else { line.workers };
    Ok((tally.notes.len(), in_order(&tally, looked_at)))
}

// Two times of the process: what it used of the processors, and what passed.
#[derive(Clone, Copy)]
struct Times {
    used: Duration,
    passed: Duration,
}

// The times until now.
fn until_now<R: Clock + CpuClock>(rt: &R) -> io::Result<Times> {
    Ok(Times {
        used: rt.process_cpu_time()?,
        passed: rt.monotonic()?,
    })
}

// Whether less than half of one processor was used between two moments.
fn rested(before: Times, after: Times) -> bool {
    let used = after.used.saturating_sub(before.used);
    let passed = after.passed.saturating_sub(before.passed);
    used < passed / 2
}

// How much the processors did between two moments, where the line asks for it.
fn effort(line: &Line, before: Times, after: Times) -> &'static str {
    if line.way != "idle" && line.way != "held" {
        return "";
    }
    if rested(before, after) {
        " parked"
    } else {
        " busy"
    }
}

// What is printed of what was counted.
fn counts_text(alloc: Global, line: &str, counted: Mem<(usize, u64)>, effort: &str) -> Mem<String> {
    match counted {
        Ok((notes, ordered)) => { Ok(format!(in alloc; "{line}: {notes} {ordered}{effort}\n")?) }
        Err(_) => Ok(String::from_str(alloc, "out of memory\n")?),
    }
}

// What is printed for the words of a line.
fn words_text<R: Threads + Wait + Clock + CpuClock + Sync>(
    rt: &R,
    alloc: Global,
    line: &str,
    words: &Line,
) -> anyhow::Result<String> {
    let before = until_now(rt)?;
    let counted = counts(rt, alloc, words);
    let after = until_now(rt)?;
    Ok(counts_text(alloc, line, counted, effort(words, before, after))?)
}

/// What is printed for a line: workers, notes, and a way or none.
pub(crate) fn told<R: Threads + Wait + Clock + CpuClock + Sync>(
    rt: &R,
    alloc: Global,
    line: &str,
) -> anyhow::Result<String> {
    match read(line) {
        Some(words) => words_text(rt, alloc, line, &words),
        None => Ok(String::new(alloc)),
    }
}
