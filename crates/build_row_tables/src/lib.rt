//! Rows about builds over objects in memory are answered: builds by several workers at once, builds that a stop cut short, and builds
//! where one call fails.
//!
//! The table `run` (`push_told`) is about builds by several workers at once. A row is a word and one or two numbers. The answer is the
//! row itself, and then what comes of it:
//!
//! - `goals N LOOKS`: the status and the report of an install by N workers of a root with three modules, of which none needs another. The
//!   first goals wait until three have begun, and fail as `alone` where so many looks haven't seen it
//! - `fetch N LOOKS`: the same where `b` needs a library of the remote repository: the first goal of `a` runs until its jar is asked for,
//!   and the jar isn't handed out before the next goal runs; where that was in vain, all goals fail
//! - `fails N`: the same, and the files that it leaves, where no goal waits, the tests of `a` fail, and `b` needs `a`
//! - `random FIRST COUNT`: of so many projects that are made from numbers, from the first on, how many are built, and whether 1 to 16
//!   workers leave the report, the files and the answers that one leaves
//! - `faults FIRST COUNT`: of so many builds of such projects in which calls of the objects fail, whether each file is one from before or
//!   one of the build without faults, and each module that no fault touches ends as there; and whether enough builds had a fault
//!
//! The table `stop` (`stops::push_told`) is about builds that a stop cut short. A row is a word, numbers with a space between two of
//! them, and files with a bar in front of each. The words of each build are `install -T WORKERS`. A field is spelled as `row_fields`
//! says:
//!
//! - `leftovers PIECES HANDS WORKERS|FILE|..`: a build by so many hands, in whose areas a stopped build left so many pieces each
//! - `area HAND HANDS WORKERS|FILE|..`: a build where the first call to the area of this hand fails, from 0 on
//! - `images WORKERS AGAIN|FILE|..`: a build, and another with `AGAIN` workers over each image of each moment of its repository
//!
//! The answer to the first two is the exit status, how many names hold a file, how many pieces are left in all areas, and the text. That
//! to `images` is the same of the build, and then the numbers of moments and images; in how many images every name has no file, its old
//! one or its new one; and over how many the other build had the same status, text and files.
//!
//! A file is one of these:
//!
//! - `m PATH ARTIFACT POM`: a POM of the project, after the coordinates demo:ARTIFACT:1.0; `f PATH BYTES`: any file of the project
//! - `r GROUP ARTIFACT VERSION POM`, `j GROUP ARTIFACT VERSION BYTES`: a POM, after these coordinates, or a jar of the remote repository
//! - `l GROUP ARTIFACT VERSION POM`, `k GROUP ARTIFACT VERSION BYTES`: the same of the local repository
//!
//! The table `fault` (`told::push_told`) is about builds where one call of an object fails. A row is the name of a project, the letters
//! of its goals' answers, the letter of an object, two numbers, and the words of a command line, with a space between two of them:
//!
//! - the project `one` has one POM, that of `child` has a parent which is nowhere, `three` is a root with two modules, of which one needs
//!   the other, `fetching` needs a library that the remote repository has, `missing` one of which it has the POM alone, and `none` has no
//!   POM
//! - of the letters `d` is an answer that is done, `f` one of an error, and each other a byte of output. Each worker's gate gives all of
//!   these answers, one for each goal, and then is done, so any worker answers alike
//! - the objects are the project's folder (`t`), the local repository (`s`), the output (`o`), and each worker's remote repository (`r`),
//!   area (`a`) and gate (`g`); `-` is none
//!
//! Each call of the object from the first number on, and below the second, fails in a build of its own; with `-` the project is built so
//! many times. The answer is the status of the builds, how many names the repository has, and the text, spelled as `row_fields` says;
//! with `-` also how many modules were started and how many goals were answered. The first call that leaves something else than the first
//! of all is named, and no further one is tried.
#![tactic(auto)]

mod builds;
mod library;
mod project;
mod projects;
mod shown;
pub mod stops;
pub mod told;
mod worked;

use mvn_shared::Mem;
use std::alloc::Global;
use std::sync::Wait;
use std::thread::Threads;
use test_builds::push_random;

// The number that a word spells, or 0.
fn number(word: &str) -> u32 {
    word.parse::<u32>().unwrap_or(0)
}

// What is told of a row.
fn tell<W: Threads + Wait + Sync>(rt: &W, alloc: Global, row: &str, out: &mut String) -> Mem<()> {
    let (kind, numbers) = row.split_once(' ').unwrap_or((row, ""));
    let (first, second) = numbers.split_once(' ').unwrap_or((numbers, ""));
    let first = number(first);
    let second = number(second);
    match kind {
        "goals" => shown::goals(rt, alloc, first, second, out),
        "fetch" => shown::fetch(rt, alloc, first, second, out),
        "fails" => shown::fails(rt, alloc, first, out),
        "random" => push_random(rt, alloc, first, second, false, out),
        _ => push_random(rt, alloc, first, second, true, out),
    }
}

/// Adds a row about builds by several workers, and what is told of it. Project rule.
pub fn push_told<W: Threads + Wait + Sync>(
    rt: &W,
    alloc: Global,
    row: &str,
    text: &mut String,
) -> Mem<()> {
    text.push_str(row)?;
    text.push_str("\n")?;
    tell(rt, alloc, row, text)
}
