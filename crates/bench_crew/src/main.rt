//! The program `bench_crew` builds a project of modules that have nothing but their POM, by several workers over objects in memory, and
//! counts the events.
//!
//! Each line of standard input is a number of modules, a number of workers, from 1 to 16, and how many times the project is built; it is
//! planned once. Prints how many events all builds had together.
#![tactic(auto)]

use bare_builds::events_of;
use mvn_shared::Mem;
use std::alloc::Global;
use std::sync::Wait;
use std::thread::Threads;

// The number that a word spells, or 0.
fn number(word: &str) -> u32 {
    word.parse::<u32>().unwrap_or(0)
}

// The events of a line of standard input.
fn told<W: Threads + Wait + Sync>(rt: &W, alloc: Global, line: &str) -> Mem<u64> {
    let (modules, rest) = line.split_once(' ').unwrap_or((line, ""));
    let (workers, times) = rest.split_once(' ').unwrap_or((rest, ""));
    events_of(rt, alloc, number(modules), number(workers), number(times))
}

fn main(rt: HostRuntime) -> anyhow::Result<()> {
    for line in rt.lines(rt.alloc()) {
        let line = line?;
        let count = told(&rt, rt.alloc(), line.as_str())?;
        println!(rt; "{line}: {count}")?;
    }
    Ok(())
}
