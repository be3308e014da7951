// Builds of a plan, each over an empty repository.
ghost use Rattle.std.specs.Prelude.{◌<◌, ◌^◌, [], length};
ghost use Rattle.event_core.specs.SoundPlans.{IsSoundPlan};
ghost use Rattle.run_law.specs.Given.{IsPresent};
ghost use Rattle.outside_mem.specs.FilesNamed.{files_named};

use crate::project::put_poms;
use build_core::Plan;
use crew::build_all;
use goal_types::SourceFile;
use mem_plans::plan;
use mvn_outside::Hand;
use mvn_shared::{List, Mem, OutOfMemory};
use outside_mem::{MemArea, MemGate, MemRemote, MemShelf, NoFailures};
use std::alloc::Global;
use std::sync::Wait;
use std::thread::Threads;

type Worker = Hand<MemRemote<NoFailures>, MemArea<NoFailures>, MemGate<NoFailures>>;

fn worker(alloc: Global) -> Mem<Worker> {
    Ok(Hand {
        remote: MemRemote::<NoFailures>::without_failures(alloc, List::new(alloc))?,
        area: MemArea::<NoFailures>::without_failures(alloc),
        gate: MemGate::<NoFailures>::without_failures(List::new(alloc)),
    })
}

fn put_workers(alloc: Global, hands: &mut Vec<Worker>, count: u32) -> Mem<()> {
    for _ in 0..count {
        hands.push(worker(alloc)?)?;
    }
    Ok(())
}

// How many events a build has.
#[tactic(auto, using(mem_plans::proofs::Planned::starts))]
fn build<W: Threads + Wait + Sync>(rt: &W, alloc: Global, plan: &Plan) -> Mem<u64>
    requires sound { IsSoundPlan plan.now }
    requires few { plan.now.events < 2 ^ 32 }
    requires names { length plan.now.names < 2 ^ 32 }
    requires present { IsPresent plan.now (files_named []) }
{
    let mut hands = Vec::new(alloc);
    put_workers(alloc, &mut hands, plan.workers)?;
    if hands.len() != plan.workers as usize {
        return Err(OutOfMemory);
    }
    let shelf = MemShelf::<NoFailures>::without_failures(alloc, List::new(alloc))?;
    match build_all(rt, alloc, plan, shelf, &mut hands) {
        Ok(left) => Ok(left.trace.len() as u64),
        Err(_) => Err(OutOfMemory),
    }
}

// How many events so many builds have together.
fn events<W: Threads + Wait + Sync>(rt: &W, alloc: Global, plan: &Plan, times: u32) -> Mem<u64>
    requires sound { IsSoundPlan plan.now }
    requires few { plan.now.events < 2 ^ 32 }
    requires names { length plan.now.names < 2 ^ 32 }
    requires present { IsPresent plan.now (files_named []) }
{
    let mut count = 0u64;
    for _ in 0..times {
        count = count.wrapping_add(build(rt, alloc, plan)?);
    }
    Ok(count)
}

// The events of so many builds of a project of these POMs.
fn events_over<W: Threads + Wait + Sync>(
    rt: &W,
    alloc: Global,
    poms: &List<SourceFile>,
    workers: u32,
    times: u32,
) -> Mem<u64> {
    let none = List::new(alloc);
    let plan = plan(alloc, poms, &none, &none, workers)?;
    events(rt, alloc, &plan, times)
}

/// How many events `times` builds of a project of `modules` modules, each by `workers` workers (1 to 16), have together. The project is
/// planned once. Project rule.
pub fn events_of<W: Threads + Wait + Sync>(
    rt: &W,
    alloc: Global,
    modules: u32,
    workers: u32,
    times: u32,
) -> Mem<u64> {
    let mut poms = List::new(alloc);
    put_poms(alloc, &mut poms, modules)?;
    events_over(rt, alloc, &poms, workers, times)
}
