//! The program `child_rows` answers rows about goals in children in memory: what the gate answers, what its child was given and how far
//! it was read, and what the goal program writes.
//!
//! A line of standard input is a word, which says what is asked for, and fields with a space between two of them, spelled as
//! `row_fields` says; the answer is printed as one line. In it all bytes but the printed ones of ASCII are spelled `\xNN`. A line that
//! begins with `#` is printed as it stands.
//!
//! - `ask STATUS OUTPUT`: the gate's answer where its child writes the output and ends with the status
//! - `fail N`: the same of a child that is done, where call N of the spawner fails, from 0 on
//! - `produced N`, `long N`: the same of an answer with N bytes of output, and of N bytes that are no answer; `long N K`: where call K
//!   fails
//! - `goal BYTES`: the status of the goal program, and what it writes; `failing-read N BYTES`, `failing-write N BYTES`: the same where
//!   that read or write fails
#![tactic(auto)]

mod asks;
mod goals;

use mvn_shared::{Bytes, List, Mem};
use row_fields::escaped;
use std::alloc::Global;

/// The call of this number; none where it is no number.
pub(crate) fn calls(alloc: Global, number: &str) -> Mem<List<u64>> {
    let mut calls = List::new(alloc);
    if let Ok(number) = number.parse::<u64>() {
        calls.push(number)?;
    }
    Ok(calls)
}

// What is told of a row, as it is.
fn answer(alloc: Global, kind: &str, fields: &str) -> Mem<Bytes> {
    match kind {
        "ask" => asks::ask(alloc, fields),
        "fail" => asks::fail(alloc, fields),
        "produced" => asks::produced(alloc, fields),
        "long" => asks::long(alloc, fields),
        "failing-read" => goals::failing_read(alloc, fields),
        "failing-write" => goals::failing_write(alloc, fields),
        _ => goals::run(alloc, fields),
    }
}

// What is told of a row.
fn told(alloc: Global, kind: &str, fields: &str) -> anyhow::Result<String> {
    let answer = answer(alloc, kind, fields)?;
    Ok(escaped(alloc, answer.as_slice())?)
}

fn print_told(rt: &HostRuntime, line: &str) -> anyhow::Result<()> {
    let (kind, rest) = line.split_once(' ').unwrap_or((line, ""));
    let answer = told(rt.alloc(), kind, rest)?;
    println!(rt; "{answer}")?;
    Ok(())
}

// What is told of a line, or the line itself.
fn print_line(rt: &HostRuntime, line: &str) -> anyhow::Result<()> {
    if line.starts_with('#') {
        println!(rt; "{line}")?;
        return Ok(());
    }
    print_told(rt, line)
}

fn main(rt: HostRuntime) -> anyhow::Result<()> {
    for line in rt.lines(rt.alloc()) {
        let line = line?;
        print_line(&rt, line.as_str())?;
    }
    Ok(())
}
