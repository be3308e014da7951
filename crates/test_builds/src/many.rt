// Builds of projects that are made from numbers.
use crate::touched::{is_untouched, leave_same};
use crate::{Left, build_by};
use mvn_shared::Mem;
use outside_mem::Calls;
use std::alloc::Global;
use std::sync::Wait;
use std::thread::Threads;
use test_projects::{Faults, Manner, Project, calm, random_project};

// The most modules below the root.
const MODULES: u32 = 30;

// How many builds there were of each kind.
#[derive(Drop)]
struct Counts {
    built: u32,
    faulty: u32,
    wrong: u32,
    last_wrong: u32,
}

const NONE: Counts = Counts {
    built: 0,
    faulty: 0,
    wrong: 0,
    last_wrong: 0,
};

impl Counts {
    // One more build, of this number.
    fn count(&mut self, seed: u32, status: u8, right: bool) {
        if status == 0 {
            self.built = self.built.wrapping_add(1);
        }
        if status == 3 {
            self.faulty = self.faulty.wrapping_add(1);
        }
        if !right {
            self.wrong = self.wrong.wrapping_add(1);
            self.last_wrong = seed;
        }
    }
}

// 1 to 16 workers.
fn workers(seed: u32) -> u32 {
    (seed % 16).wrapping_add(1)
}

// Whether the build by several workers left what it may, beside the one by one worker without faults.
fn is_right(
    alloc: Global,
    project: &Project,
    faults: Faults,
    one: &Left<Calls>,
    many: &Left<Calls>,
) -> Mem<bool> {
    match faults {
        None => Ok(leave_same(one, many)),
        Some(_) => is_untouched(alloc, project, one, many),
    }
}

// Counts the build of this number by several workers.
fn count(
    alloc: Global,
    project: &Project,
    seed: u32,
    faults: Faults,
    one: &Left<Calls>,
    many: &Left<Calls>,
    counts: &mut Counts,
) -> Mem<()> {
    let right = is_right(alloc, project, faults, one, many)?;
    counts.count(seed, many.status, right);
    Ok(())
}

// A project built by several workers, beside what one left.
fn compare_with<W: Threads + Wait + Sync>(
    rt: &W,
    alloc: Global,
    project: &Project,
    seed: u32,
    manner: &Manner,
    one: &Left<Calls>,
    counts: &mut Counts,
) -> Mem<()> {
    let many = build_by(rt, alloc, project, workers(seed), manner)?;
    count(alloc, project, seed, manner.faults, one, &many, counts)
}

// A project built by one worker without faults, and by several.
fn compare<W: Threads + Wait + Sync>(
    rt: &W,
    alloc: Global,
    project: &Project,
    seed: u32,
    faults: Faults,
    counts: &mut Counts,
) -> Mem<()> {
    let manner = Manner {
        faults,
        meeting: None,
    };
    let one = build_by(rt, alloc, project, 1, &calm())?;
    compare_with(rt, alloc, project, seed, &manner, &one, counts)
}

// The project of a number, built by several workers with faults or without.
fn compare_at<W: Threads + Wait + Sync>(
    rt: &W,
    alloc: Global,
    seed: u32,
    is_faulty: bool,
    counts: &mut Counts,
) -> Mem<()> {
    let faults = if is_faulty { Some(seed) } else { None };
    let project = random_project(alloc, seed, MODULES)?;
    compare(rt, alloc, &project, seed, faults, counts)
}

// How many projects were built.
fn push_built(alloc: Global, counts: &Counts, out: &mut String) -> Mem<()> {
    let built = counts.built;
    out.push_str(format!(in alloc; "{built} built, ")?.as_str())?;
    Ok(())
}

// How many of so many builds had a fault.
fn push_faulty(counts: &Counts, count: u32, out: &mut String) -> Mem<()> {
    if counts.faulty >= count / 4 {
        out.push_str("at least a quarter with a fault, ")?;
    } else {
        out.push_str("less than a quarter with a fault, ")?;
    }
    Ok(())
}

// How many builds left something else, and the number of the last of them.
fn push_wrong(alloc: Global, counts: &Counts, out: &mut String) -> Mem<()> {
    let wrong = counts.wrong;
    let last = counts.last_wrong;
    if wrong == 0 {
        out.push_str("none different\n")?;
    } else {
        out.push_str(format!(in alloc; "{wrong} different, the last of them {last}\n")?.as_str())?;
    }
    Ok(())
}

// What is told of so many builds.
fn push_counts(
    alloc: Global,
    counts: &Counts,
    count: u32,
    is_faulty: bool,
    out: &mut String,
) -> Mem<()> {
    if is_faulty {
        push_faulty(counts, count, out)?;
    } else {
        push_built(alloc, counts, out)?;
    }
    push_wrong(alloc, counts, out)
}

/// What is told of so many projects, from this number on, each built by one worker and by several, with faults or without.
pub fn push_random<W: Threads + Wait + Sync>(
    rt: &W,
    alloc: Global,
    first: u32,
    count: u32,
    is_faulty: bool,
    out: &mut String,
) -> Mem<()> {
    let mut counts = NONE;
    for at in 0..count {
        compare_at(rt, alloc, first.wrapping_add(at), is_faulty, &mut counts)?;
    }
    push_counts(alloc, &counts, count, is_faulty, out)
}
