//! The program `pom_rows` answers rows about POMs: what they say, which of their profiles are active, and which goals run.
//!
//! A line of standard input is a word, which says what is asked for, and fields with a bar between two of them; the answer is printed as
//! one line. A line that begins with `#` is printed as it stands. A POM that is refused is answered by the number of the rule and the
//! place. `row_models` says how POMs are spelled. They stand in a project after the `modelVersion`, and except for `project` after the
//! coordinates g:a:1 too.
//!
//! - `pom POM`, `project POM`, `behind POM`: what the POM says, field by field, of a whole text, or within a project; `is-read POM`: only
//!   that it can be read
//! - `active POM|NAME=VALUE ..|ON ..|OFF ..`: the places of the active profiles, with properties of the command line and ids that are
//!   switched on and off, for the POM of the folder `app` in `/w`, where the files `app/src/x` and `top` are; `active-by-coordinates` for
//!   one of a repository, `active-failing` where no file can be asked for
//! - `bindings PACKAGING`: the plugins that it binds; `goals POM|PHASE`: the goals that run up to the phase, those in brackets that have
//!   no phase, and `!` where installing is reached
#![tactic(auto)]

mod activating;
mod goal_lists;
mod outside;
mod phases;
mod poms;

use mvn_base::ModelError;
use row_models::{answer, field, split_row};
use std::alloc::Global;

// What is told of a row about profiles or goals.
fn told_of(alloc: Global, kind: &str, fields: &[&str]) -> Result<String, ModelError> {
    match kind {
        "active" | "active-by-coordinates" | "active-failing" => {
            activating::told(alloc, kind, fields)
        }
        "bindings" => phases::told_bindings(alloc, field(fields, 0)),
        _ => phases::told(alloc, fields),
    }
}

fn told_of_fields(alloc: Global, kind: &str, row: &str) -> Result<String, ModelError> {
    let fields = split_row(alloc, row)?;
    told_of(alloc, kind, fields.as_slice())
}

// What is told of a row.
fn told(alloc: Global, kind: &str, row: &str) -> Result<String, ModelError> {
    match kind {
        "pom" | "project" | "behind" | "is-read" => poms::told(alloc, kind, row),
        _ => told_of_fields(alloc, kind, row),
    }
}

fn print_trimmed(rt: &HostRuntime, text: &str) -> anyhow::Result<()> {
    let text = text.trim();
    println!(rt; "{text}")?;
    Ok(())
}

fn print_told(rt: &HostRuntime, line: &str) -> anyhow::Result<()> {
    let (kind, row) = line.split_once(' ').unwrap_or((line, ""));
    let told = told(rt.alloc(), kind, row);
    let shown = answer(rt.alloc(), told)?;
    print_trimmed(rt, shown.as_str())
}

// What is told of a line, or the line itself.
fn print_line(rt: &HostRuntime, line: &str) -> anyhow::Result<()> {
    if line.starts_with('#') {
        println!(rt; "{line}")?;
        return Ok(());
    }
    print_told(rt, line)
}

fn main(rt: HostRuntime) -> anyhow::Result<()> {
    for line in rt.lines(rt.alloc()) {
        let line = line?;
        print_line(&rt, line.as_str())?;
    }
    Ok(())
}
