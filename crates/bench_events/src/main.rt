//! The program `bench_events` walks through builds, and tells of each what the event core answers.
//!
//! A line of standard input is a word and a number:
//!
//! - `walk`: a build of at most three modules that is made from the number, of which at each moment every event is asked for and one that
//!   may come is taken; prints a sum over all answers, and the number of events
//! - `long`: so many events of a build of modules that have nothing but their POM; prints how many were taken
//! - `front`: a build of so many modules, each with the four before it as upstreams, of which the first that may begin is built, again
//!   and again; prints how many were built
//!
//! Or a line is a word and events of a build that was worked out by hand, each a kind, a worker and a number with dots between:
//!
//! - `worked`: prints what is answered to each, 0 where it is taken
//! - `stands`: where the build then stands; prints the first module that may begin, the first that is to be skipped, whether all are
//!   over, how three modules stand, and which of four files there are
#![tactic(auto)]

mod answers;
mod walks;
mod worked;

use mvn_shared::Mem;
use std::alloc::Global;
use walks::{front, long, walk};
use worked::{push_answers, push_stands};

// The sum and the count of a word and a number.
fn counted(alloc: Global, word: &str, number: u32) -> Mem<(u32, usize)> {
    match word {
        "walk" => walk(alloc, number),
        "long" => Ok((0, long(alloc, number)? as usize)),
        "front" => Ok((0, front(alloc, number)? as usize)),
        _ => Ok((0, 0)),
    }
}

// What is told of a word and a number.
fn push_counts(alloc: Global, shown: &mut String, word: &str, number: u32) -> Mem<()> {
    let (sum, count) = counted(alloc, word, number)?;
    let told = format!(in alloc; "{word} {number}: {sum} {count}")?;
    shown.push_str(told.as_str())?;
    Ok(())
}

// What is told of a row.
fn push_told(alloc: Global, shown: &mut String, word: &str, rest: &str) -> Mem<()> {
    match word {
        "worked" => push_answers(alloc, shown, rest),
        "stands" => push_stands(alloc, shown, rest),
        _ => push_counts(alloc, shown, word, rest.parse::<u32>().unwrap_or(0)),
    }
}

fn print_told(rt: &HostRuntime, word: &str, rest: &str) -> anyhow::Result<()> {
    let mut shown = String::new(rt.alloc());
    let line = match push_told(rt.alloc(), &mut shown, word, rest) {
        Ok(()) => shown.as_str(),
        Err(_) => "out of memory",
    };
    println!(rt; "{line}")?;
    Ok(())
}

// What is told of a line: a word, and a number or events.
fn print_row(rt: &HostRuntime, line: &str) -> anyhow::Result<()> {
    match line.split_once(' ') {
        Some((word, rest)) => print_told(rt, word, rest),
        None => Ok(()),
    }
}

fn main(rt: HostRuntime) -> anyhow::Result<()> {
    for line in rt.lines(rt.alloc()) {
        let line = line?;
        print_row(&rt, line.as_str())?;
    }
    Ok(())
}
