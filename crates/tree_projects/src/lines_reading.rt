// A project and a repository are read from folders, and what is told of them is printed.
use crate::models::{count, print};
use crate::{MemPoms, Project, put_library};
use mvn_shared::Text;
use outside_mem::NoFailures;
use outside_real::RealTree;
use pom_source::Given;

// Puts the POMs of a repository.
fn read_library(
    rt: &HostRuntime,
    source: &mut MemPoms<NoFailures>,
    folder: &str,
) -> anyhow::Result<()> {
    let root = Text::from_str(rt.alloc(), folder)?;
    let mut tree = RealTree::new(rt, root);
    put_library(source, &mut tree, rt.alloc())
}

// Puts the POMs of a project.
fn read_project(rt: &HostRuntime, project: &mut Project, folder: &str) -> anyhow::Result<()> {
    let root = Text::from_str(rt.alloc(), folder)?;
    let mut tree = RealTree::new(rt, root);
    project.put_tree(&mut tree, rt.alloc())
}

// Puts the POMs of a repository, if there is one, and those of a project.
fn read_all(rt: &HostRuntime, project: &mut Project, folders: &str) -> anyhow::Result<()> {
    let (folder, repository) = folders.split_once(' ').unwrap_or((folders, ""));
    if !repository.is_empty() {
        read_library(rt, &mut project.source, repository)?;
    }
    read_project(rt, project, folder)
}

fn print_told(
    rt: &HostRuntime,
    given: &Given,
    project: &mut Project,
    word: &str,
) -> anyhow::Result<()> {
    match word {
        "print" => print(rt, project, given),
        _ => count(rt, project, given),
    }
}

fn print_read(
    rt: &HostRuntime,
    given: &Given,
    project: &mut Project,
    line: &str,
) -> anyhow::Result<()> {
    match line.split_once(' ') {
        Some((word, folders)) => {
            read_all(rt, project, folders)?;
            print_told(rt, given, project, word)
        }
        None => Ok(()),
    }
}

/// Prints what is told of a line. Project rule.
pub fn print_line(rt: &HostRuntime, given: &Given, line: &str) -> anyhow::Result<()> {
    let mut project = Project::new(rt.alloc());
    print_read(rt, given, &mut project, line)
}
