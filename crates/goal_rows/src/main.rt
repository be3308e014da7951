//! The program `goal_rows` answers rows about goals: their table, what they are asked and what they answer, as bytes.
//!
//! A line of standard input is a word, which says what is asked for, and fields with a space between two of them, spelled as
//! `row_fields` says; the answer is printed as one line. In it all bytes but the printed ones of ASCII are spelled `\xNN`. A line that
//! begins with `#` is printed as it stands.
//!
//! - `goal SLOT PATH BYTES ..`: what the built-in goal surefire:test answers to sources, with an output where the slot is `main`
//! - `rule GROUP PLUGIN GOAL`: phase, slot and classpath of a goal
//! - `line BYTES`: the line, and what stands in front of its line feed and after it
//! - `written KIND BYTES`: the bytes of an answer; `read BYTES`: the answer that bytes are read as; `spaced N`: the same of an answer
//!   with so many spaces after it
//! - `request bare`, `request full`: the bytes of a request without lists, and with an item in each
#![tactic(auto)]

mod answers;
mod builtin;
mod requests;
mod table;

use mvn_shared::{Bytes, Mem};
use row_fields::{escaped, fields};
use std::alloc::Global;

// What is told of a row with these fields.
fn told_of_fields(alloc: Global, kind: &str, fields: &[Bytes]) -> Mem<Bytes> {
    match kind {
        "goal" => builtin::told(alloc, fields),
        "rule" => table::rule(alloc, fields),
        "line" => table::line(alloc, fields),
        "written" => answers::written(alloc, fields),
        "read" => answers::read(alloc, fields),
        _ => Bytes::from_slice(alloc, "no such row".as_bytes()),
    }
}

fn answer_to_fields(alloc: Global, kind: &str, rest: &str) -> Mem<Bytes> {
    let fields = fields(alloc, rest)?;
    told_of_fields(alloc, kind, fields.as_slice())
}

// What is told of a row, as it is.
fn answer(alloc: Global, kind: &str, rest: &str) -> Mem<Bytes> {
    match kind {
        "request" => requests::told(alloc, rest),
        "spaced" => answers::spaced(alloc, rest),
        _ => answer_to_fields(alloc, kind, rest),
    }
}

// What is told of a row.
fn told(alloc: Global, kind: &str, rest: &str) -> anyhow::Result<String> {
    let answer = answer(alloc, kind, rest)?;
    Ok(escaped(alloc, answer.as_slice())?)
}

fn print_told(rt: &HostRuntime, line: &str) -> anyhow::Result<()> {
    let (kind, rest) = line.split_once(' ').unwrap_or((line, ""));
    let answer = told(rt.alloc(), kind, rest)?;
    println!(rt; "{answer}")?;
    Ok(())
}

// What is told of a line, or the line itself.
fn print_line(rt: &HostRuntime, line: &str) -> anyhow::Result<()> {
    if line.starts_with('#') {
        println!(rt; "{line}")?;
        return Ok(());
    }
    print_told(rt, line)
}

fn main(rt: HostRuntime) -> anyhow::Result<()> {
    for line in rt.lines(rt.alloc()) {
        let line = line?;
        print_line(&rt, line.as_str())?;
    }
    Ok(())
}
