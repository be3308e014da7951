//! The program `model_rows` answers rows about models: what POMs come to with their profiles, their parents, what is managed, and
//! expressions.
//!
//! A line of standard input is a word, which says what is asked for, and fields with a bar between two of them; the answer is printed as
//! one line. A line that begins with `#` is printed as it stands. A POM that is refused is answered by the number of the rule and the
//! place. `row_models` says how POMs are spelled. They stand in a project after the `modelVersion`, and except for `fill` after the
//! coordinates g:a:1 too.
//!
//! - `inject POM|PLACE ..`: what it states with its profiles at these places
//! - `inherit CHILD|PARENT`; `over-super POM`: how it is built where it builds on no other; `merged-plugin CHILD|PARENT` and
//!   `merged-configuration CHILD|PARENT` of the first plugins; `properties CHILD|PARENT` and `needs CHILD|PARENT`: these lists joined,
//!   and settled once more
//! - `apply POM|IMPORT ..`: its dependencies with what it manages, and what the imports do; `apply-plugins POM`
//! - `fill POM|NAME=VALUE ..`: its packaging and its modules with what expressions come to; `fill-doubled POM|COUNT|TEXT`: how long its
//!   packaging is with so many properties of the command line, `p0` the text and each further one twice the one before it
#![tactic(auto)]

mod filling;
mod injecting;
mod joined_lists;
mod joins;
mod managing;

use mvn_base::ModelError;
use row_models::{answer, field, split_row};
use std::alloc::Global;

// What is told of a row about profiles or expressions.
fn told_of_one(alloc: Global, kind: &str, fields: &[&str]) -> Result<String, ModelError> {
    match kind {
        "inject" => injecting::told(alloc, fields),
        "fill-doubled" => filling::told_doubled(alloc, fields),
        _ => filling::told(alloc, fields),
    }
}

// What is told of a row with these fields.
fn told_of(alloc: Global, kind: &str, fields: &[&str]) -> Result<String, ModelError> {
    match kind {
        "inherit" | "properties" | "needs" | "merged-plugin" | "merged-configuration" => {
            joins::told(alloc, kind, fields)
        }
        "over-super" => joins::told_over_super(alloc, field(fields, 0)),
        "apply" => managing::told(alloc, fields),
        "apply-plugins" => managing::told_plugins(alloc, field(fields, 0)),
        _ => told_of_one(alloc, kind, fields),
    }
}

// What is told of a row.
fn told(alloc: Global, kind: &str, row: &str) -> Result<String, ModelError> {
    let fields = split_row(alloc, row)?;
    told_of(alloc, kind, fields.as_slice())
}

fn print_trimmed(rt: &HostRuntime, text: &str) -> anyhow::Result<()> {
    let text = text.trim();
    println!(rt; "{text}")?;
    Ok(())
}

fn print_told(rt: &HostRuntime, line: &str) -> anyhow::Result<()> {
    let (kind, row) = line.split_once(' ').unwrap_or((line, ""));
    let told = told(rt.alloc(), kind, row);
    let shown = answer(rt.alloc(), told)?;
    print_trimmed(rt, shown.as_str())
}

// What is told of a line, or the line itself.
fn print_line(rt: &HostRuntime, line: &str) -> anyhow::Result<()> {
    if line.starts_with('#') {
        println!(rt; "{line}")?;
        return Ok(());
    }
    print_told(rt, line)
}

fn main(rt: HostRuntime) -> anyhow::Result<()> {
    for line in rt.lines(rt.alloc()) {
        let line = line?;
        print_line(&rt, line.as_str())?;
    }
    Ok(())
}
