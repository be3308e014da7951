// What is told of a row.
use crate::builds::{Manner, push_build};
use crate::projects::project;
use mvn_shared::Mem;
use std::alloc::Global;
use std::sync::Wait;
use std::thread::Threads;

// The number that a word spells, or 0.
fn number(word: &str) -> u64 {
    word.parse::<u64>().unwrap_or(0)
}

// The first call that ends otherwise than those before it.
fn push_otherwise(alloc: Global, call: u64, out: &mut String) -> Mem<()> {
    out.push_str(format!(in alloc; " otherwise at call {call}")?.as_str())?;
    Ok(())
}

// What is told of the builds in which these calls fail, each in one: what the first leaves, and the number of the first call that leaves
// something else. `told` is written over for each.
fn push_calls<W: Threads + Wait + Sync>(
    rt: &W,
    alloc: Global,
    line: &str,
    manner: &mut Manner<'_>,
    calls: (u64, u64),
    told: &mut String,
    out: &mut String,
) -> Mem<()> {
    for call in calls.0..calls.1 {
        manner.fault.1 = call;
        told.clear();
        push_build(rt, alloc, line, manner, told)?;
        if call == calls.0 {
            out.push_str(told.as_str())?;
        } else if !out.as_str().ends_with(told.as_str()) {
            return push_otherwise(alloc, call, out);
        }
    }
    Ok(())
}

// What is told of a project whose goals answer so, by an object and its calls, and the words of the command line.
fn push_faults<W: Threads + Wait + Sync>(
    rt: &W,
    alloc: Global,
    name: &str,
    letters: &str,
    rest: &str,
    out: &mut String,
) -> Mem<()> {
    let (object, rest) = rest.split_once(' ').unwrap_or((rest, ""));
    let (first, rest) = rest.split_once(' ').unwrap_or((rest, ""));
    let (end, line) = rest.split_once(' ').unwrap_or((rest, ""));
    let mut manner = Manner {
        project: project(name),
        letters,
        fault: (object, 0),
    };
    let mut told = String::new(alloc);
    let calls = (number(first), number(end));
    push_calls(rt, alloc, line, &mut manner, calls, &mut told, out)
}

/// Adds what is told of a row about builds in which one call fails, and the end of its line. Project rule.
pub fn push_told<W: Threads + Wait + Sync>(
    rt: &W,
    alloc: Global,
    row: &str,
    text: &mut String,
) -> Mem<()> {
    let (name, rest) = row.split_once(' ').unwrap_or((row, ""));
    let (letters, rest) = rest.split_once(' ').unwrap_or((rest, ""));
    push_faults(rt, alloc, name, letters, rest, text)?;
    text.push_str("\n")?;
    Ok(())
}
