// Builds in which one call may fail.
ghost use Rattle.std.specs.Prelude.{◌≤◌, length};

use crate::library::files_of;
use crate::projects::{Built, Pom};
use build_core::Event;
use generated::run_words;
use goal_types::{GoalAnswer, SourceFile};
use mvn_base::Machine;
use mvn_call::Ended;
use mvn_devices::Devices;
use mvn_outside::Hand;
use mvn_shared::{Bytes, List, Mem, OutOfMemory, Text};
use outside_mem::{Calls, MemArea, MemGate, MemRemote, MemShelf, MemSink, MemTree};
use row_fields::escaped;
use std::alloc::Global;
use std::sync::Wait;
use std::thread::Threads;

/// How many hands there are; as many build as the words say.
const HANDS: u32 = 8;

/// The object of which a call fails, by its letter, and the number of that call.
pub(crate) type Fault<'a> = (&'a str, u64);

type Worker = Hand<MemRemote<Calls>, MemArea<Calls>, MemGate<Calls>>;

// All that a build works with.
type Made = Devices<
    (
        MemTree<Calls>,
        MemShelf<Calls>,
        MemRemote<Calls>,
        MemGate<Calls>,
    ),
>;

// What a build leaves.
type Run = Ended<Made>;

/// How a project is built: what it is, what its goals answer, and which call fails.
#[derive(Clone, Copy)]
pub(crate) struct Manner<'a> {
    pub(crate) project: Built,
    pub(crate) letters: &'a str,
    pub(crate) fault: Fault<'a>,
}

// The calls of an object that fail.
fn failing(alloc: Global, fault: Fault<'_>, object: &str) -> Mem<List<u64>> {
    let mut calls = List::new(alloc);
    if fault.0 == object {
        calls.push(fault.1)?;
    }
    Ok(calls)
}

fn file(alloc: Global, pom: &Pom) -> Mem<SourceFile> {
    let path = Text::from_str(alloc, pom.0)?;
    let bytes = Bytes::from_slice(alloc, pom.1.as_bytes())?;
    Ok(SourceFile { path, bytes })
}

fn files(alloc: Global, poms: &[Pom]) -> Mem<List<SourceFile>> {
    let mut files = List::new(alloc);
    for pom in poms {
        files.push(file(alloc, pom)?)?;
    }
    Ok(files)
}

// The project's folder.
fn tree(alloc: Global, manner: &Manner<'_>) -> Mem<MemTree<Calls>> {
    let files = files(alloc, manner.project.poms)?;
    let failing = failing(alloc, manner.fault, "t")?;
    MemTree::new(alloc, files, &failing)
}

// A repository without files.
fn shelf(alloc: Global, manner: &Manner<'_>) -> Mem<MemShelf<Calls>> {
    let failing = failing(alloc, manner.fault, "s")?;
    MemShelf::new(alloc, List::new(alloc), &failing)
}

// What the report is written to.
fn sink(alloc: Global, manner: &Manner<'_>) -> Mem<MemSink<Calls>> {
    let failing = failing(alloc, manner.fault, "o")?;
    MemSink::new(alloc, &failing)
}

// A byte of output.
fn produced(alloc: Global, letter: u8) -> Mem<GoalAnswer> {
    let mut output = Vec::new(alloc);
    output.push(letter)?;
    Ok(GoalAnswer::Produced(Bytes::of(output)))
}

// The answer of a letter: `Done` for `d`, an error for `f`, and else a byte of output.
fn answer(alloc: Global, letter: u8) -> Mem<GoalAnswer> {
    match letter {
        b'd' => Ok(GoalAnswer::Done),
        b'f' => Ok(GoalAnswer::Failed(Text::from_str(alloc, "1 error")?)),
        _ => produced(alloc, letter),
    }
}

fn answers(alloc: Global, letters: &str) -> Mem<List<GoalAnswer>> {
    let mut answers = List::new(alloc);
    for letter in letters.as_bytes() {
        answers.push(answer(alloc, *letter)?)?;
    }
    Ok(answers)
}

fn gate(alloc: Global, manner: &Manner<'_>) -> Mem<MemGate<Calls>> {
    let answers = answers(alloc, manner.letters)?;
    let failing = failing(alloc, manner.fault, "g")?;
    MemGate::new(alloc, answers, &failing)
}

fn remote(alloc: Global, manner: &Manner<'_>) -> Mem<MemRemote<Calls>> {
    let files = files_of(alloc, manner.project.parts)?;
    let failing = failing(alloc, manner.fault, "r")?;
    MemRemote::new(alloc, files, &failing)
}

fn area(alloc: Global, manner: &Manner<'_>) -> Mem<MemArea<Calls>> {
    let failing = failing(alloc, manner.fault, "a")?;
    MemArea::new(alloc, &failing)
}

fn worker(alloc: Global, manner: &Manner<'_>) -> Mem<Worker> {
    let remote = remote(alloc, manner)?;
    let area = area(alloc, manner)?;
    let gate = gate(alloc, manner)?;
    Ok(Hand { remote, area, gate })
}

// The workers of a build.
fn workers(alloc: Global, manner: &Manner<'_>) -> Mem<Vec<Worker>> {
    let mut workers = Vec::new(alloc);
    for _ in 0..HANDS {
        workers.push(worker(alloc, manner)?)?;
    }
    Ok(workers)
}

// A machine of which the folder of the project alone is known.
fn machine(alloc: Global) -> Mem<Machine> {
    let root = Text::from_str(alloc, "/w")?;
    Ok(Machine {
        root,
        env: List::new(alloc),
        system: List::new(alloc),
        jdk: Text::of(String::new(alloc)),
        os_name: Text::of(String::new(alloc)),
        os_family: Text::of(String::new(alloc)),
        os_arch: Text::of(String::new(alloc)),
        os_version: Text::of(String::new(alloc)),
    })
}

// The words of a command line.
fn words(alloc: Global, line: &str) -> Mem<Vec<Bytes>> {
    let mut words = Vec::new(alloc);
    for word in line.split_whitespace() {
        words.push(Bytes::from_slice(alloc, word.as_bytes())?)?;
    }
    Ok(words)
}

// The call over these objects, which writes its report to the sink.
fn call<W: Threads + Wait + Sync>(
    rt: &W,
    alloc: Global,
    words: &[Bytes],
    machine: Machine,
    devices: Made,
    sink: &mut MemSink<Calls>,
) -> Run
    requires { (1 ≤ length devices.hands.items) × (length devices.hands.items ≤ 16) }
{
    run_words(rt, alloc, words, machine, devices, sink)
}

// What a command line leaves.
fn build<W: Threads + Wait + Sync>(
    rt: &W,
    alloc: Global,
    line: &str,
    manner: &Manner<'_>,
    sink: &mut MemSink<Calls>,
) -> Mem<Run> {
    let words = words(alloc, line)?;
    let hands = workers(alloc, manner)?;
    if hands.is_empty() || hands.len() > 16 {
        return Err(OutOfMemory);
    }
    let tree = tree(alloc, manner)?;
    let shelf = shelf(alloc, manner)?;
    let machine = machine(alloc)?;
    let devices = Devices { tree, shelf, hands };
    Ok(call(rt, alloc, &words, machine, devices, sink))
}

// How many modules were started.
fn starts(trace: &[Event]) -> usize {
    let mut starts = 0usize;
    for event in trace {
        if matches!(event, Event::Start { .. }) {
            starts = starts.wrapping_add(1);
        }
    }
    starts
}

fn push_number(alloc: Global, name: &str, number: u64, out: &mut String) -> Mem<()> {
    out.push_str(format!(in alloc; "{name} {number} ")?.as_str())?;
    Ok(())
}

// How many modules were started, and how many goals were answered.
fn push_run(alloc: Global, run: &Run, out: &mut String) -> Mem<()> {
    push_number(alloc, "starts", starts(run.trace.as_slice()) as u64, out)?;
    push_number(alloc, "answers", run.answers.len() as u64, out)
}

// The status, how many names the repository has, and what was written; how far it came, too, where no call fails.
fn push_left(alloc: Global, fault: Fault<'_>, run: &Run, told: &[u8], out: &mut String) -> Mem<()> {
    push_number(alloc, "status", u64::from(run.status), out)?;
    push_number(alloc, "names", run.devices.shelf.names(), out)?;
    if fault.0 == "-" {
        push_run(alloc, run, out)?;
    }
    out.push_str(escaped(alloc, told)?.as_str())?;
    Ok(())
}

// Builds, and tells the status, how many names the repository has, and what was written.
fn push_built<W: Threads + Wait + Sync>(
    rt: &W,
    alloc: Global,
    line: &str,
    manner: &Manner<'_>,
    sink: &mut MemSink<Calls>,
    out: &mut String,
) -> Mem<()> {
    let run = build(rt, alloc, line, manner, sink)?;
    push_left(alloc, manner.fault, &run, sink.bytes(), out)
}

/// What is told of what a command line leaves of a project that is built so.
pub(crate) fn push_build<W: Threads + Wait + Sync>(
    rt: &W,
    alloc: Global,
    line: &str,
    manner: &Manner<'_>,
    out: &mut String,
) -> Mem<()> {
    let mut sink = sink(alloc, manner)?;
    push_built(rt, alloc, line, manner, &mut sink, out)
}
