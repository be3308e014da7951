//! The program `print_models` prints the effective models of the POMs on a disk.
//!
//! Each line of standard input asks for those of a project, as `tree_projects` says; the machine counts as one with JDK 17.0.1 and Linux.
#![tactic(auto)]

use pom_source::Given;
use tree_projects::{given, print_line};

fn print_lines(rt: &HostRuntime, given: &Given) -> anyhow::Result<()> {
    for line in rt.lines(rt.alloc()) {
        let line = line?;
        print_line(rt, given, line.as_str())?;
    }
    Ok(())
}

fn main(rt: HostRuntime) -> anyhow::Result<()> {
    let given = given(rt.alloc())?;
    print_lines(&rt, &given)
}
