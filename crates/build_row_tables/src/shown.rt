// What is told of the worked rows.
use crate::worked::{put_failing, put_fetching, put_independent};
use mvn_base::FileName;
use mvn_shared::{Bytes, Mem};
use outside_mem::Calls;
use std::alloc::Global;
use std::sync::Wait;
use std::thread::Threads;
use test_builds::{Left, build_by};
use test_projects::project::empty;
use test_projects::{Manner, Meeting, Project, calm};

fn push_status(alloc: Global, status: u8, out: &mut String) -> Mem<()> {
    out.push_str(format!(in alloc; "status {status}\n")?.as_str())?;
    Ok(())
}

// The status and the report.
fn push_report(alloc: Global, left: &Left<Calls>, out: &mut String) -> Mem<()> {
    push_status(alloc, left.status, out)?;
    out.push_str(left.text())?;
    Ok(())
}

// An install by so many workers, in which calls wait.
fn waited<W: Threads + Wait + Sync>(
    rt: &W,
    alloc: Global,
    project: &Project,
    workers: u32,
    meeting: &Meeting,
    out: &mut String,
) -> Mem<()> {
    let manner = Manner {
        faults: None,
        meeting: Some(meeting),
    };
    let left = build_by(rt, alloc, project, workers, &manner)?;
    push_report(alloc, &left, out)
}

/// An install of three modules whose goals wait for one another.
pub(crate) fn goals<W: Threads + Wait + Sync>(
    rt: &W,
    alloc: Global,
    workers: u32,
    looks: u32,
    out: &mut String,
) -> Mem<()> {
    let mut project = empty(alloc);
    put_independent(alloc, &mut project)?;
    waited(rt, alloc, &project, workers, &Meeting::of_goals(looks), out)
}

/// An install of three modules, where a goal and a fetch wait for each other.
pub(crate) fn fetch<W: Threads + Wait + Sync>(
    rt: &W,
    alloc: Global,
    workers: u32,
    looks: u32,
    out: &mut String,
) -> Mem<()> {
    let mut project = empty(alloc);
    put_fetching(alloc, &mut project)?;
    waited(
        rt,
        alloc,
        &project,
        workers,
        &Meeting::of_a_fetch(looks),
        out,
    )
}

// A name and how many bytes it has, where it has a file.
fn push_file(alloc: Global, name: &FileName, file: &Option<Bytes>, out: &mut String) -> Mem<()> {
    if let Some(bytes) = file {
        let count = bytes.len();
        out.push_str(format!(in alloc; "{name} {count}\n")?.as_str())?;
    }
    Ok(())
}

fn push_files(alloc: Global, project: &Project, left: &Left<Calls>, out: &mut String) -> Mem<()> {
    let names = project.names.as_slice();
    for at in 0..names.len() {
        if let Some(file) = left.files.get(at) {
            push_file(alloc, &names[at], file, out)?;
        }
    }
    Ok(())
}

// The report and the files.
fn push_both(alloc: Global, project: &Project, left: &Left<Calls>, out: &mut String) -> Mem<()> {
    push_report(alloc, left, out)?;
    push_files(alloc, project, left, out)
}

// What an install by so many workers leaves.
fn push_left<W: Threads + Wait + Sync>(
    rt: &W,
    alloc: Global,
    project: &Project,
    workers: u32,
    out: &mut String,
) -> Mem<()> {
    let left = build_by(rt, alloc, project, workers, &calm())?;
    push_both(alloc, project, &left, out)
}

/// An install of three modules, of which one fails and one needs that one, and the files that it leaves.
pub(crate) fn fails<W: Threads + Wait + Sync>(
    rt: &W,
    alloc: Global,
    workers: u32,
    out: &mut String,
) -> Mem<()> {
    let mut project = empty(alloc);
    put_failing(alloc, &mut project)?;
    push_left(rt, alloc, &project, workers, out)
}
