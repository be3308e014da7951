// Installs of a project by workers.
use crate::calling::called_over;
use crate::left::{Left, left_of};
use mvn_shared::{Bytes, List, Mem};
use outside_mem::{Calls, Failures, MemShelf, MemSink};
use std::alloc::Global;
use std::sync::Wait;
use std::thread::Threads;
use test_projects::faults::calls;
use test_projects::{Device, Faults, Manner, Project, Worker, put_workers};

fn push_word(alloc: Global, words: &mut List<Bytes>, word: &str) -> Mem<()> {
    words.push(Bytes::from_slice(alloc, word.as_bytes())?)
}

fn push_number(alloc: Global, words: &mut List<Bytes>, number: usize) -> Mem<()> {
    push_word(alloc, words, format!(in alloc; "{number}")?.as_str())
}

// The words of an install by so many workers.
fn push_words(alloc: Global, words: &mut List<Bytes>, workers: usize) -> Mem<()> {
    push_word(alloc, words, "install")?;
    push_word(alloc, words, "-T")?;
    push_number(alloc, words, workers)
}

// What the words leave, written to an empty sink.
fn built<'a, W: Threads + Wait + Sync, F: Failures + Send + Drop>(
    rt: &W,
    alloc: Global,
    project: &Project,
    words: &[Bytes],
    shelf: &mut Option<MemShelf<F>>,
    hands: &mut Vec<Worker<'a, F>>,
) -> Mem<Left<F>> {
    let mut sink = MemSink::without_failures(alloc);
    let ended = called_over(rt, alloc, project, words, shelf, hands, &mut sink)?;
    left_of(alloc, project, ended, sink.bytes())
}

/// What an install by so many workers leaves, over this repository, which is taken out, and these hands; there are 1 to
/// 16 of them.
pub fn build<'a, W: Threads + Wait + Sync, F: Failures + Send + Drop>(
    rt: &W,
    alloc: Global,
    project: &Project,
    workers: usize,
    shelf: &mut Option<MemShelf<F>>,
    hands: &mut Vec<Worker<'a, F>>,
) -> Mem<Left<F>> {
    let mut words = List::new(alloc);
    push_words(alloc, &mut words, workers)?;
    built(rt, alloc, project, words.as_slice(), shelf, hands)
}

// The local repository, with the files that it has before.
fn shelf(alloc: Global, project: &Project, faults: Faults) -> Mem<MemShelf<Calls>> {
    let failing = calls(alloc, faults, Device::Shelf)?;
    MemShelf::<Calls>::new(alloc, project.local.clone()?, &failing)
}

/// What an install by so many workers leaves, over the project's own local repository, of which calls may fail, and
/// these hands; there are 1 to 16 of them.
pub fn build_local<'a, W: Threads + Wait + Sync>(
    rt: &W,
    alloc: Global,
    project: &Project,
    faults: Faults,
    workers: usize,
    hands: &mut Vec<Worker<'a, Calls>>,
) -> Mem<Left<Calls>> {
    let mut shelf = Some(shelf(alloc, project, faults)?);
    build(rt, alloc, project, workers, &mut shelf, hands)
}

// What an install by so many hands leaves, none of which is there yet.
fn build_by_all<'a, W: Threads + Wait + Sync>(
    rt: &W,
    alloc: Global,
    project: &Project,
    count: u32,
    manner: &Manner<'a>,
    hands: &mut Vec<Worker<'a, Calls>>,
) -> Mem<Left<Calls>> {
    put_workers(alloc, project, manner, count, hands)?;
    build_local(rt, alloc, project, manner.faults, hands.len(), hands)
}

/// What an install by so many workers leaves, each with a hand of its own, in this manner.
pub fn build_by<W: Threads + Wait + Sync>(
    rt: &W,
    alloc: Global,
    project: &Project,
    count: u32,
    manner: &Manner,
) -> Mem<Left<Calls>> {
    let mut hands = Vec::new(alloc);
    build_by_all(rt, alloc, project, count, manner, &mut hands)
}
