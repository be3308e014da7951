// All events that a small build may be asked for, and a number for each answer.
ghost use Rattle.std.specs.Prelude.{◌<◌};

use build_core::{Device, Ending, Event, Mode, State};
use event_core::{Core, NotEnabled};

/// How many events a worker may be asked for with one number: see `event_at`.
pub(crate) const KINDS: u32 = 17;

fn ending_of(kind: u32, number: u32) -> Ending {
    match kind {
        8 => Ending::Built,
        9 => Ending::Goal(number),
        10 => Ending::Missing(number),
        11 => Ending::NoArtifact,
        12 => Ending::OutputTooLarge(number),
        13 => Ending::ClasspathTooLarge,
        14 => Ending::Fault(Device::Remote),
        15 => Ending::Fault(Device::Gate),
        _ => Ending::Memory,
    }
}

/// The event of a kind, a worker and a number.
pub(crate) fn event_at(kind: u32, worker: u32, number: u32) -> Event {
    match kind {
        0 => Event::Start {
            worker,
            module: number,
        },
        1 => Event::Skip { module: number },
        2 => Event::Take {
            worker,
            name: number,
            mode: Mode::Shared,
        },
        3 => Event::Take {
            worker,
            name: number,
            mode: Mode::Exclusive,
        },
        4 => Event::Free {
            worker,
            name: number,
        },
        5 => Event::Read {
            worker,
            file: number,
        },
        6 => Event::Publish {
            worker,
            file: number,
        },
        7 => Event::Answer {
            worker,
            goal: number,
        },
        _ => Event::End {
            worker,
            ending: ending_of(kind, number),
        },
    }
}

fn ending_number(ending: Ending) -> u32
    ensures { result < 64 }
{
    match ending {
        Ending::Built => 1,
        Ending::Goal(goal) => 16 + goal % 16,
        Ending::Missing(file) => 32 + file % 16,
        Ending::NoArtifact => 2,
        Ending::OutputTooLarge(goal) => 48 + goal % 16,
        Ending::ClasspathTooLarge => 3,
        Ending::Fault(_) => 4,
        Ending::Memory => 5,
    }
}

fn state_number(state: State) -> u32
    ensures { result < 160 }
{
    match state {
        State::Waiting => 0,
        State::Running(worker) => 64 + worker % 16,
        State::Skipped(upstream) => 80 + upstream % 16,
        State::Ended(ending) => 96 + ending_number(ending),
    }
}

// A number for each cause.
fn cause_number(cause: NotEnabled) -> u32 {
    match cause {
        NotEnabled::Range(number) => 1000 + number % 100,
        NotEnabled::Module(state) => 2000 + state_number(state),
        NotEnabled::Upstream(upstream) => 3000 + upstream % 100,
        NotEnabled::Worker(module) => 4000 + module % 100,
        NotEnabled::Lock(worker) => 5000 + worker % 100,
        NotEnabled::Unordered(name) => 6000 + name % 100,
        NotEnabled::Stage(stage) => 7000 + stage % 100,
        NotEnabled::File(file) => 8000 + file % 100,
    }
}

/// What is answered to the event of a kind, a worker and a number: 0 where it may come.
pub(crate) fn answer_at(core: &Core, kind: u32, worker: u32, number: u32) -> u32 {
    match core.cause(event_at(kind, worker, number)) {
        Some(cause) => cause_number(cause),
        None => 0,
    }
}

/// A number for the answer to an event: 0 where it was taken.
pub(crate) fn number_of(answer: Result<(), NotEnabled>) -> u32 {
    match answer {
        Ok(_) => 0,
        Err(cause) => cause_number(cause),
    }
}

// A module's number, or nothing.
fn module_number(module: Option<u32>) -> u32 {
    match module {
        Some(number) => 1 + number % 100,
        None => 0,
    }
}

/// How much is told of where a build stands: see `told_at`.
pub(crate) const TOLD: u32 = 6;

/// What is told of where a build stands, by its place: which module may begin, which is to be skipped, whether all are over, and how the
/// first modules stand.
pub(crate) fn told_at(core: &Core, place: u32) -> u32 {
    match place {
        0 => module_number(core.ready()),
        1 => module_number(core.skippable()),
        2 => core.is_complete() as u32,
        _ => state_number(core.state(place.saturating_sub(3))),
    }
}
