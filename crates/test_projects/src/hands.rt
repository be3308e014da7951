// Hands with the built-in goals.
use crate::faults::calls;
use crate::waiting::{Meeting, WaitingGate, WaitingRemote};
use crate::{Device, Faults, Project};
use gates::Builtin;
use mvn_outside::Hand;
use mvn_shared::Mem;
use outside_mem::{Calls, MemArea, MemRemote};
use std::alloc::Global;

/// A hand with the built-in goals.
pub type Worker<'a, F> = Hand<
    WaitingRemote<'a, MemRemote<Calls>>,
    MemArea<F>,
    WaitingGate<'a, Calls>,
>;

/// Which calls of the objects fail, and where calls wait.
#[derive(Clone, Copy)]
pub struct Manner<'a> {
    pub faults: Faults,
    pub meeting: Option<&'a Meeting>,
}

/// No call fails, and none waits.
pub fn calm() -> Manner<'static> {
    Manner {
        faults: None,
        meeting: None,
    }
}

// The project's files in the remote repository.
fn remote(alloc: Global, project: &Project, faults: Faults, hand: u32) -> Mem<MemRemote<Calls>> {
    let failing = calls(alloc, faults, Device::Remote(hand))?;
    MemRemote::<Calls>::new(alloc, project.remote.clone()?, &failing)
}

// The calls of the goals.
fn goal_calls(alloc: Global, faults: Faults, hand: u32) -> Mem<Calls> {
    let failing = calls(alloc, faults, Device::Gate(hand))?;
    Calls::new(alloc, &failing)
}

// What a hand has besides its area.
fn gate_and_files(
    alloc: Global,
    project: &Project,
    faults: Faults,
    hand: u32,
) -> Mem<(Calls, MemRemote<Calls>)> {
    let calls = goal_calls(alloc, faults, hand)?;
    let files = remote(alloc, project, faults, hand)?;
    Ok((calls, files))
}

fn worker_of<'a, F: Drop>(
    alloc: Global,
    meeting: Option<&'a Meeting>,
    calls: Calls,
    files: MemRemote<Calls>,
    area: MemArea<F>,
) -> Worker<'a, F> {
    let goals = Builtin::new(alloc);
    let gate = WaitingGate {
        alloc,
        goals,
        calls,
        meeting,
    };
    Hand {
        remote: WaitingRemote { files, meeting },
        area,
        gate,
    }
}

/// The hand of this number, with this area.
pub fn hand_with<'a, F: Drop>(
    alloc: Global,
    project: &Project,
    manner: &Manner<'a>,
    hand: u32,
    area: MemArea<F>,
) -> Mem<Worker<'a, F>> {
    let (calls, files) = gate_and_files(alloc, project, manner.faults, hand)?;
    Ok(worker_of(alloc, manner.meeting, calls, files, area))
}

fn area(alloc: Global, faults: Faults, hand: u32) -> Mem<MemArea<Calls>> {
    let failing = calls(alloc, faults, Device::Area(hand))?;
    MemArea::<Calls>::new(alloc, &failing)
}

// The hand of this number.
fn worker_at<'a>(
    alloc: Global,
    project: &Project,
    manner: &Manner<'a>,
    hand: u32,
) -> Mem<Worker<'a, Calls>> {
    let area = area(alloc, manner.faults, hand)?;
    hand_with(alloc, project, manner, hand, area)
}

/// Adds so many hands.
pub fn put_workers<'a>(
    alloc: Global,
    project: &Project,
    manner: &Manner<'a>,
    count: u32,
    hands: &mut Vec<Worker<'a, Calls>>,
) -> Mem<()> {
    for hand in 0..count {
        hands.push(worker_at(alloc, project, manner, hand)?)?;
    }
    Ok(())
}
