// What is told of the build of a number.
ghost use Rattle.std.specs.Prelude.{◌<◌, ◌^◌, length, IfOk};
ghost use Rattle.event_core.specs.SoundPlans.{IsSoundPlan};
ghost use Rattle.outside_mem.specs.FilesNamed.{files_named};
ghost use Rattle.run_law.specs.Given.{IsPresent};

use crate::play::{Left, build};
use board::Finished;
use board_play::{Built, by_one, has_fault, is_same, is_untouched, nothing};
use build_core::Plan;
use mem_plans::plan;
use mvn_shared::{Bytes, List, Mem};
use outside_mem::{Calls, MemShelf};
use std::alloc::Global;
use test_projects::{Project, World, put_files_under, random_project};

/// The most modules below the root: with it they are five.
const MODULES: u32 = 4;

/// What is told of a build: it left what it may, without a fault or with one, or something else.
#[derive(Clone, Copy)]
pub(crate) enum Told {
    Right,
    Faulty,
    Wrong,
}

/// How many builds had a fault, and how many left what they may not.
#[derive(Drop)]
pub(crate) struct Counts {
    pub(crate) faulty: u32,
    pub(crate) wrong: u32,
    pub(crate) last_wrong: u32,
}

/// No builds.
pub(crate) const NONE: Counts = Counts {
    faulty: 0,
    wrong: 0,
    last_wrong: 0,
};

impl Counts {
    /// One more build, of this number.
    pub(crate) fn count(&mut self, seed: u32, told: Told) {
        match told {
            Told::Right => {}
            Told::Faulty => self.faulty = self.faulty.wrapping_add(1),
            Told::Wrong => {
                self.wrong = self.wrong.wrapping_add(1);
                self.last_wrong = seed;
            }
        }
    }
}

// The plan of a project by 1 to 4 workers.
fn planned(alloc: Global, project: &Project, seed: u32) -> Mem<Plan>
    ensures sound { IfOk result IsSoundPlan }
    ensures few { IfOk result (λ plan. plan.events < 2 ^ 32) }
    ensures names { IfOk result (λ plan. length plan.names < 2 ^ 32) }
    ensures present { IfOk result (λ plan. IsPresent plan (files_named project.now.local)) }
{
    let workers = (seed % 4).wrapping_add(1);
    plan(
        alloc,
        &project.tree,
        &project.local,
        &project.remote,
        workers,
    )
}

// Whether a build left what it may, whose files these are.
fn is_right(
    plan: &Plan,
    project: &Project,
    faulty: bool,
    calm: &Built,
    left: &Finished<MemShelf<Calls>>,
    now: &[Option<Bytes>],
) -> bool {
    let states = left.states.as_slice();
    let answers = left.answers.as_slice();
    if faulty {
        is_untouched(plan, project, calm, states, answers, now)
    } else {
        is_same(calm, states, answers, now)
    }
}

// What is told of a build, whose files these are.
fn judged(
    plan: &Plan,
    project: &Project,
    faulty: bool,
    calm: &Built,
    left: &Finished<MemShelf<Calls>>,
    now: &[Option<Bytes>],
) -> Told {
    if !is_right(plan, project, faulty, calm, left, now) {
        return Told::Wrong;
    }
    if has_fault(left.states.as_slice()) {
        Told::Faulty
    } else {
        Told::Right
    }
}

// A build compared with that by one hand.
fn compared(
    alloc: Global,
    plan: &Plan,
    project: &Project,
    faulty: bool,
    calm: &Built,
    left: &mut Finished<MemShelf<Calls>>,
) -> Mem<Told> {
    let mut now = List::new(alloc);
    put_files_under(&mut left.shelf, plan.files.as_slice(), &mut now)?;
    Ok(judged(plan, project, faulty, calm, left, now.as_slice()))
}

// A build compared with that by one hand, if it came to its end.
fn compared_left(
    alloc: Global,
    plan: &Plan,
    project: &Project,
    faulty: bool,
    calm: &Built,
    left: &mut Left,
) -> Mem<Told> {
    match left {
        Some(left) => compared(alloc, plan, project, faulty, calm, left),
        None => Ok(Told::Wrong),
    }
}

// What is told of the build of a plan, beside the build by one hand.
fn tell_beside(
    alloc: Global,
    project: &Project,
    plan: &Plan,
    world: &World,
    calm: &Built,
) -> Mem<Told>
    requires sound { IsSoundPlan plan.now }
    requires few { plan.now.events < 2 ^ 32 }
    requires names { length plan.now.names < 2 ^ 32 }
    requires present { IsPresent plan.now (files_named project.now.local) }
{
    let mut left = build(alloc, project, plan, world)?;
    compared_left(alloc, plan, project, world.faulty, calm, &mut left)
}

// What is told of the build of a plan, beside the build by one hand, which hasn't begun.
fn tell_with(
    alloc: Global,
    project: &Project,
    plan: &Plan,
    world: &World,
    calm: &mut Built,
) -> Mem<Told>
    requires sound { IsSoundPlan plan.now }
    requires few { plan.now.events < 2 ^ 32 }
    requires names { length plan.now.names < 2 ^ 32 }
    requires present { IsPresent plan.now (files_named project.now.local) }
{
    by_one(alloc, plan, project, world, calm)?;
    tell_beside(alloc, project, plan, world, calm)
}

// What is told of the build of a plan of a project.
fn tell_planned(alloc: Global, project: &Project, plan: &Plan, world: &World) -> Mem<Told>
    requires sound { IsSoundPlan plan.now }
    requires few { plan.now.events < 2 ^ 32 }
    requires names { length plan.now.names < 2 ^ 32 }
    requires present { IsPresent plan.now (files_named project.now.local) }
{
    let mut calm = nothing(alloc);
    tell_with(alloc, project, plan, world, &mut calm)
}

// What is told of the build of a project.
fn tell_of(alloc: Global, project: &Project, seed: u32, faulty: bool) -> Mem<Told> {
    let plan = planned(alloc, project, seed)?;
    tell_planned(alloc, project, &plan, &World { seed, faulty })
}

/// Builds the project of a number by its workers, in turns that are drawn, and by one hand.
pub(crate) fn tell(alloc: Global, seed: u32, faulty: bool) -> Mem<Told> {
    let project = random_project(alloc, seed, MODULES)?;
    tell_of(alloc, &project, seed, faulty)
}
