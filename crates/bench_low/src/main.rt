//! The program `bench_low` measures the lowest libraries: which versions a requirement admits, in which order modules are built, and what
//! workers note under a turn lock.
//!
//! A line `measure KIND` of standard input begins a part, which goes up to the next such line or to the end.
//!
//! - `measure versions`: which versions a requirement admits. The requirement is the first line, a version each further one. Prints the
//!   admitted ones in ascending order, and the highest, at the end of the part
//! - `measure modules`: in which order modules are built. The first line is their number, each further one an edge: a module and an
//!   upstream of it, with a space between. A line `soft K` gives each module K soft edges, to the modules that come after it, the first
//!   again after the last. Prints the order, or the cycle, on one line, at the end of the part
//! - `measure turns`: what workers note under a turn lock, each worker in a thread of its own. Each line is a number of workers, from 1
//!   to 16, a number of notes for each, and a way or none; prints how many notes there are, and how many of them stand in their worker's
//!   order. The ways: `rounds`, each rests until all before it in its round have noted; `idle`, the same, and each sleeps for 100 ms
//!   before it notes; `held`, each sleeps for 100 ms in a turn of its own before it notes; `turns`, as with none, and their order isn't
//!   looked at (it prints 0); `mutex`, the same under a plain mutex in place of the lock. With `idle` and `held` it prints too whether
//!   the process used less than half of one processor while it ran (`parked`), so that threads that wait do nothing, or not (`busy`). The
//!   sleeps follow one another, so there is a hundredth of that to do: a host that takes the processors away for most of the time doesn't
//!   make it half of one
#![tactic(auto)]

mod modules;
mod turns;
mod version_times;

use mvn_shared::Mem;
use std::alloc::Global;
use std::sync::Wait;
use std::thread::Threads;
use std::time::{Clock, CpuClock};

// What a part measures.
#[derive(Clone, Copy)]
enum Kind {
    Nothing,
    Versions,
    Modules,
    Turns,
}

// What a line says that begins a part.
fn kind_of(line: &str) -> Kind {
    match line {
        "measure versions" => Kind::Versions,
        "measure modules" => Kind::Modules,
        "measure turns" => Kind::Turns,
        _ => Kind::Nothing,
    }
}

// A part, with the lines that were read of it where it is told at its end.
#[derive(Drop)]
struct Part {
    kind: Kind,
    lines: String,
}

fn begun(alloc: Global, kind: Kind) -> Part {
    Part {
        kind,
        lines: String::new(alloc),
    }
}

// Whether a line is one of a part about turns.
fn is_of_turns(kind: Kind, line: &str) -> bool {
    matches!(kind, Kind::Turns) && !line.starts_with("measure ")
}

// What is told of a line, if it is one of a part about turns.
fn told_of_turns<R: Threads + Wait + Clock + CpuClock + Sync>(
    rt: &R,
    alloc: Global,
    kind: Kind,
    line: &str,
) -> anyhow::Result<String> {
    if is_of_turns(kind, line) {
        return turns::told(rt, alloc, line);
    }
    Ok(String::new(alloc))
}

// A text, where there was memory for it.
fn print_text(rt: &HostRuntime, text: anyhow::Result<String>) -> anyhow::Result<()> {
    let text = text?;
    print!(rt; "{text}")?;
    Ok(())
}

fn push_line(lines: &mut String, line: &str) -> Mem<()> {
    lines.push_str(line)?;
    lines.push_str("\n")?;
    Ok(())
}

// The end of a part.
fn end(rt: &HostRuntime, part: &Part) -> anyhow::Result<()> {
    match part.kind {
        Kind::Versions => version_times::print(rt, part.lines.as_str()),
        Kind::Modules => modules::print(rt, part.lines.as_str()),
        _ => Ok(()),
    }
}

// The end of a part, and the beginning of the next.
fn begin(rt: &HostRuntime, part: &mut Part, kind: Kind) -> anyhow::Result<()> {
    end(rt, part)?;
    *part = begun(rt.alloc(), kind);
    Ok(())
}

// One line more of a part.
fn keep(part: &mut Part, line: &str) -> Mem<()> {
    match part.kind {
        Kind::Versions | Kind::Modules => push_line(&mut part.lines, line),
        Kind::Turns | Kind::Nothing => Ok(()),
    }
}

// Takes one line more: the first of a part, or a further one.
fn take(rt: &HostRuntime, part: &mut Part, line: &str) -> anyhow::Result<()> {
    if line.starts_with("measure ") {
        return begin(rt, part, kind_of(line));
    }
    Ok(keep(part, line)?)
}

// Prints what was told of a line, and takes the line.
fn take_told(
    rt: &HostRuntime,
    part: &mut Part,
    line: &str,
    told: anyhow::Result<String>,
) -> anyhow::Result<()> {
    print_text(rt, told)?;
    take(rt, part, line)
}

fn main(rt: HostRuntime) -> anyhow::Result<()> {
    let mut part = begun(rt.alloc(), Kind::Nothing);
    for line in rt.lines(rt.alloc()) {
        let line = line?;
        let told = told_of_turns(&rt, rt.alloc(), part.kind, line.as_str());
        take_told(&rt, &mut part, line.as_str(), told)?;
    }
    end(&rt, &part)
}
