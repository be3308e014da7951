//! The program `order_rows` answers rows about the order of modules, locks and reports.
//!
//! A line of standard input is a word, which says what is asked for, and sections with a slash between two of them; the answer is
//! printed as one line. A line that begins with `#` is printed as it stands.
//!
//! - `order NUMBER / EDGE ..`: the order of so many modules, or the cycle; an edge is a module and its upstream, as `2-0`. `placed` says
//!   only that there is a cycle
//! - `keep NUMBER / EDGE .. / EDGE ..`: the edges that are kept, of firm ones and soft ones
//! - `select MODULE .. / EDGE .. / MODULE .. / WORD .. / MODULE`: which modules are built, in the order of the first section: the chosen
//!   ones or `all`, with `make` and `dependents`, and from one on
//! - `locks NAMES WORKERS / CALL ..`: what is answered to calls, as `s02`: name 0 taken by worker 2, shared; `x` is exclusively, `f`
//!   frees, `h` asks for the hold. Answers are `+` taken, `-` freed, the least worker in the way, or how it is held
//! - `report END / .. / ..` and `full MODEL / JAR .. / JAR .. / JAR .. / NOTE`: the report of one module, with `~` for line feeds
#![tactic(auto)]

mod locks;
mod modules;
mod numbers;
mod reports;

use mvn_shared::Mem;
use row_fields::word;
use std::alloc::Global;

// What is told of a row with these sections.
fn told(alloc: Global, kind: &str, sections: &str) -> Mem<String> {
    match kind {
        "order" => modules::order_row(alloc, sections, true),
        "placed" => modules::order_row(alloc, sections, false),
        "keep" => modules::keep_row(alloc, sections),
        "select" => modules::select_row(alloc, sections),
        "locks" => locks::locks_row(alloc, sections),
        "report" => reports::report_row(alloc, sections),
        "full" => reports::full_row(alloc, sections),
        _ => word(alloc, "no such row"),
    }
}

fn print_told(rt: &HostRuntime, line: &str) -> anyhow::Result<()> {
    let (kind, rest) = line.split_once(' ').unwrap_or((line, ""));
    let answer = told(rt.alloc(), kind, rest)?;
    println!(rt; "{answer}")?;
    Ok(())
}

// What is told of a line, or the line itself.
fn print_line(rt: &HostRuntime, line: &str) -> anyhow::Result<()> {
    if line.starts_with('#') {
        println!(rt; "{line}")?;
        return Ok(());
    }
    print_told(rt, line)
}

fn main(rt: HostRuntime) -> anyhow::Result<()> {
    for line in rt.lines(rt.alloc()) {
        let line = line?;
        print_line(&rt, line.as_str())?;
    }
    Ok(())
}
