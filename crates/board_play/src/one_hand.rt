// The build by one hand, without a board and without faults: plain and slow.
use board::{bytes_in, with_output};
use build_core::{Answered, Ending, Plan, PlanModule, State};
use goal_types::{GoalAnswer, OwnBytes, Slot};
use mvn_shared::{Bytes, List, Mem};
use std::alloc::Global;
use std::mem::replace;
use test_projects::{Project, World, bytes_of};

/// What a build leaves: how its modules ended, its files by their places in the plan, and its answers.
#[derive(Drop)]
pub struct Built {
    pub states: List<State>,
    pub files: Vec<Option<Bytes>>,
    pub answers: List<Answered>,
}

fn copy_of(bytes: Option<&Bytes>) -> Mem<Option<Bytes>> {
    match bytes {
        Some(bytes) => Ok(Some(bytes.clone()?)),
        None => Ok(None),
    }
}

// The files that are there at the start, after those that are there.
fn put_opening(plan: &Plan, project: &Project, files: &mut Vec<Option<Bytes>>) -> Mem<()> {
    for name in plan.files.as_slice() {
        files.push(copy_of(bytes_of(project.local.as_slice(), name))?)?;
    }
    Ok(())
}

fn is_there(files: &[Option<Bytes>], file: u32) -> bool {
    match files.get(file as usize) {
        Some(found) => found.is_some(),
        None => false,
    }
}

fn put(files: &mut Vec<Option<Bytes>>, file: u32, bytes: Bytes) {
    let at = file as usize;
    if at < files.len() {
        files[at] = Some(bytes);
    }
}

// The bytes of a file of the remote repository.
fn remote_bytes(plan: &Plan, project: &Project, file: u32) -> Mem<Option<Bytes>> {
    match plan.files.get(file as usize) {
        Some(name) => copy_of(bytes_of(project.remote.as_slice(), name)),
        None => Ok(None),
    }
}

// Fetches the files that are absent. The first that is nowhere to be had.
fn fetch(
    plan: &Plan,
    project: &Project,
    list: &[u32],
    files: &mut Vec<Option<Bytes>>,
) -> Mem<Option<u32>> {
    for file in list {
        if !is_there(files, *file) {
            match remote_bytes(plan, project, *file)? {
                Some(bytes) => put(files, *file, bytes),
                None => return Ok(Some(*file)),
            }
        }
    }
    Ok(None)
}

// Whether the outputs have at most so many bytes, with these in the slot.
fn fits(own: &[OwnBytes], slot: Slot, bytes: &Bytes, budget: u64) -> bool {
    let mut room = budget;
    for output in own {
        if output.slot != slot {
            let len = output.bytes.len() as u64;
            if len > room {
                return false;
            }
            room -= len;
        }
    }
    bytes.len() as u64 <= room
}

// The outputs with these bytes in a slot.
fn put_output(alloc: Global, slot: Slot, bytes: &Bytes, own: &mut List<OwnBytes>) -> Mem<()> {
    let bytes = bytes.clone()?;
    *own = with_output(alloc, replace(own, List::new(alloc)), slot, bytes)?;
    Ok(())
}

// Bytes of a goal kept in a slot, in place of any that were there. The ending of the module, where they are too many.
fn keep(
    alloc: Global,
    module: &PlanModule,
    goal: u32,
    slot: Slot,
    bytes: &Bytes,
    own: &mut List<OwnBytes>,
) -> Mem<Option<Ending>> {
    if slot == Slot::Nowhere {
        return Ok(None);
    }
    if !fits(own.as_slice(), slot, bytes, module.budget) {
        return Ok(Some(Ending::OutputTooLarge(goal)));
    }
    put_output(alloc, slot, bytes, own)?;
    Ok(None)
}

// The outputs with an answer to a goal, or how the module ends.
fn keep_answer(
    alloc: Global,
    module: &PlanModule,
    goal: u32,
    slot: Slot,
    answer: &GoalAnswer,
    own: &mut List<OwnBytes>,
) -> Mem<Option<Ending>> {
    match answer {
        GoalAnswer::Done => Ok(None),
        GoalAnswer::Failed(_) => Ok(Some(Ending::Goal(goal))),
        GoalAnswer::Produced(bytes) => keep(alloc, module, goal, slot, bytes, own),
    }
}

// A goal answered, and its answer kept.
fn run_goal(
    alloc: Global,
    world: &World,
    number: u32,
    module: &PlanModule,
    goal: u32,
    slot: Slot,
    answers: &mut List<Answered>,
    own: &mut List<OwnBytes>,
) -> Mem<Option<Ending>> {
    let answer = world.answer(alloc, number, goal)?;
    let ending = keep_answer(alloc, module, goal, slot, &answer, own)?;
    answers.push(Answered {
        module: number,
        goal,
        answer,
    })?;
    Ok(ending)
}

// The goals up to the first that ends the module.
fn run_goals(
    alloc: Global,
    world: &World,
    number: u32,
    module: &PlanModule,
    answers: &mut List<Answered>,
    own: &mut List<OwnBytes>,
) -> Mem<Option<Ending>> {
    let mut goal = 0u32;
    for call in module.goals.as_slice() {
        let ending = run_goal(alloc, world, number, module, goal, call.slot, answers, own)?;
        if ending.is_some() {
            return Ok(ending);
        }
        goal = goal.saturating_add(1);
    }
    Ok(None)
}

// The bytes of an own file, where it has any.
fn own_bytes(
    alloc: Global,
    module: &PlanModule,
    own: &[OwnBytes],
    slot: Slot,
) -> Mem<Option<Bytes>> {
    if slot == Slot::Pom {
        return Ok(Some(module.pom.clone()?));
    }
    match bytes_in(own, slot) {
        Some(bytes) => Ok(Some(Bytes::from_slice(alloc, bytes)?)),
        None => Ok(None),
    }
}

fn install(
    alloc: Global,
    module: &PlanModule,
    own: &[OwnBytes],
    files: &mut Vec<Option<Bytes>>,
) -> Mem<()> {
    for file in module.own.as_slice() {
        if let Some(bytes) = own_bytes(alloc, module, own, file.slot)? {
            put(files, file.file, bytes);
        }
    }
    Ok(())
}

// A module whose goals were all answered.
fn ended(
    alloc: Global,
    module: &PlanModule,
    own: &[OwnBytes],
    files: &mut Vec<Option<Bytes>>,
) -> Mem<Ending> {
    if !module.installs {
        return Ok(Ending::Built);
    }
    if module.needs_artifact && bytes_in(own, Slot::Main).is_none() {
        return Ok(Ending::NoArtifact);
    }
    install(alloc, module, own, files)?;
    Ok(Ending::Built)
}

// The goals of a module that has no outputs yet, and its files after the last.
fn run_module(
    alloc: Global,
    world: &World,
    number: u32,
    module: &PlanModule,
    built: &mut Built,
    own: &mut List<OwnBytes>,
) -> Mem<Ending> {
    match run_goals(alloc, world, number, module, &mut built.answers, own)? {
        Some(ending) => Ok(ending),
        None => ended(alloc, module, own.as_slice(), &mut built.files),
    }
}

fn build_module(
    alloc: Global,
    plan: &Plan,
    project: &Project,
    world: &World,
    number: u32,
    module: &PlanModule,
    built: &mut Built,
) -> Mem<Ending> {
    let list = module.fetch.as_slice();
    if let Some(missing) = fetch(plan, project, list, &mut built.files)? {
        return Ok(Ending::Missing(missing));
    }
    let mut own = List::new(alloc);
    run_module(alloc, world, number, module, built, &mut own)
}

// The first upstream that isn't built.
fn first_unbuilt(states: &[State], upstream: &[u32]) -> Option<u32> {
    for number in upstream {
        match states.get(*number as usize) {
            Some(State::Ended(Ending::Built)) => {}
            _ => return Some(*number),
        }
    }
    None
}

// One module more.
fn put_module(
    alloc: Global,
    plan: &Plan,
    project: &Project,
    world: &World,
    number: u32,
    module: &PlanModule,
    built: &mut Built,
) -> Mem<()> {
    let state = match first_unbuilt(built.states.as_slice(), module.upstream.as_slice()) {
        Some(upstream) => State::Skipped(upstream),
        None => State::Ended(build_module(alloc, plan, project, world, number, module, built)?),
    };
    built.states.push(state)?;
    Ok(())
}

/// Nothing built.
pub fn nothing(alloc: Global) -> Built {
    Built {
        states: List::new(alloc),
        files: Vec::new(alloc),
        answers: List::new(alloc),
    }
}

/// Builds all modules, one after another, where nothing is built.
pub fn by_one(
    alloc: Global,
    plan: &Plan,
    project: &Project,
    world: &World,
    built: &mut Built,
) -> Mem<()> {
    put_opening(plan, project, &mut built.files)?;
    let mut number = 0u32;
    for module in plan.modules.as_slice() {
        put_module(alloc, plan, project, world, number, module, built)?;
        number = number.saturating_add(1);
    }
    Ok(())
}
