//! The program `build_rows` answers rows about whole projects over objects in memory, each from one of six tables.
//!
//! A line of standard input is the name of a table and one of its rows, with a space between; a line that begins with `#` is printed as
//! it stands. What a row is, and what is printed for it, is said by the library that has the table:
//!
//! - `discovery`, `plan`: `project_rows`
//! - `stop`, `run`, `fault`: `build_row_tables`
//! - `board`: `board_rows`
#![tactic(auto)]

use mvn_shared::Mem;
use std::alloc::Global;
use std::sync::Wait;
use std::thread::Threads;

fn push_no_table(text: &mut String) -> Mem<()> {
    text.push_str("no such table\n")?;
    Ok(())
}

// Adds what is told of a row of this table.
fn push_told<W: Threads + Wait + Sync>(
    rt: &W,
    alloc: Global,
    table: &str,
    row: &str,
    text: &mut String,
) -> Mem<()> {
    match table {
        "discovery" => project_rows::discovered::push_told(alloc, row, text),
        "plan" => project_rows::push_told(alloc, row, text),
        "stop" => build_row_tables::stops::push_told(rt, alloc, row, text),
        "run" => build_row_tables::push_told(rt, alloc, row, text),
        "fault" => build_row_tables::told::push_told(rt, alloc, row, text),
        "board" => board_rows::push_told(alloc, row, text),
        _ => push_no_table(text),
    }
}

// Adds what is told of a line.
fn push_line<W: Threads + Wait + Sync>(
    rt: &W,
    alloc: Global,
    line: &str,
    text: &mut String,
) -> Mem<()> {
    if line.starts_with('#') {
        text.push_str(line)?;
        text.push_str("\n")?;
        return Ok(());
    }
    let (table, row) = line.split_once(' ').unwrap_or((line, ""));
    push_told(rt, alloc, table, row, text)
}

// What is told of a line, as a text.
fn told<W: Threads + Wait + Sync>(rt: &W, alloc: Global, line: &str) -> Mem<String> {
    let mut text = String::new(alloc);
    push_line(rt, alloc, line, &mut text)?;
    Ok(text)
}

// A text, where there was memory for it.
fn print_text(rt: &HostRuntime, text: Mem<String>) -> anyhow::Result<()> {
    let text = text?;
    print!(rt; "{text}")?;
    Ok(())
}

fn main(rt: HostRuntime) -> anyhow::Result<()> {
    for line in rt.lines(rt.alloc()) {
        let line = line?;
        print_text(&rt, told(&rt, rt.alloc(), line.as_str()))?;
    }
    Ok(())
}
