// Turns of a worker that fetch, read, answer and install.
use crate::hand::{Hand, Stage, Turn};
use crate::script::{place, plain};
use crate::{Came, MOST, Site};
use build_core::{Device, Ending, Entry, Origin, Plan, PlanModule};
use goal_types::Slot;
use mvn_outside::{ReadFault, Remote};
use mvn_shared::{Bytes, Mem};
use outside_mem::{Calls, MemRemote, MemShelf};
use std::alloc::Global;
use test_projects::World;

/// A site over a repository in memory.
pub type Table<'a> = Site<'a, MemShelf<Calls>>;

// What comes of an event while names of the batch are held.
fn came_held(came: Came, next: Stage) -> Turn {
    match came {
        Came::Done => Turn::Goes(next),
        Came::Ends(ending) => Turn::Goes(Stage::Abandon(0, ending)),
        Came::Stuck => Turn::Stuck,
    }
}

// What comes of an event while the own name is held.
fn came_own(came: Came, next: Stage) -> Turn {
    match came {
        Came::Done => Turn::Goes(next),
        Came::Ends(ending) => Turn::Goes(Stage::FreeOwn(ending)),
        Came::Stuck => Turn::Stuck,
    }
}

// What comes of an event while no name is held.
fn came_free(came: Came, next: Stage) -> Turn {
    match came {
        Came::Done => Turn::Goes(next),
        Came::Ends(ending) => Turn::Goes(Stage::End(ending)),
        Came::Stuck => Turn::Stuck,
    }
}

// The bytes of a file of the remote repository, or how the module ends.
fn remote_bytes(remote: &mut MemRemote<Calls>, plan: &Plan, file: u32) -> Result<Bytes, Ending> {
    let Some(name) = plan.files.get(file as usize) else {
        return Err(Ending::Memory);
    };
    match remote.fetch(name, MOST) {
        Ok(Some(bytes)) => Ok(bytes),
        Ok(None) | Err(ReadFault::TooLarge) => Err(Ending::Missing(file)),
        Err(ReadFault::Failed) => Err(Ending::Fault(Device::Remote)),
        Err(ReadFault::Memory) => Err(Ending::Memory),
    }
}

// A file fetched and published, where it is absent.
fn fetch_file(site: &mut Table, worker: u32, hand: &mut Hand, plan: &Plan, file: u32) -> Came {
    if site.has(file) {
        return Came::Done;
    }
    match remote_bytes(&mut hand.remote, plan, file) {
        Ok(bytes) => site.publish(worker, file, &mut hand.area, &bytes),
        Err(ending) => Came::Ends(ending),
    }
}

fn fetch(
    site: &mut Table,
    worker: u32,
    hand: &mut Hand,
    plan: &Plan,
    module: &PlanModule,
    at: u32,
) -> Turn {
    match place(module.fetch.as_slice(), at) {
        Some(file) => {
            let came = fetch_file(site, worker, hand, plan, file);
            came_held(came, Stage::Fetch(at.saturating_add(1)))
        }
        None => Turn::Goes(Stage::Read(0)),
    }
}

// Whether an entry before this place comes from the file.
fn was_read(entries: &[Entry], at: u32, file: u32) -> bool {
    let mut place = 0u32;
    for entry in entries {
        if place >= at {
            return false;
        }
        if entry.origin == Origin::File(file) {
            return true;
        }
        place = place.saturating_add(1);
    }
    false
}

// The file that an entry is read from, where none before it is.
fn file_to_read(entries: &[Entry], at: u32, entry: &Entry) -> Option<u32> {
    match entry.origin {
        Origin::File(file) if !was_read(entries, at, file) => Some(file),
        _ => None,
    }
}

fn read(site: &mut Table, worker: u32, module: &PlanModule, at: u32) -> Turn {
    let entries = module.entries.as_slice();
    let Some(entry) = entries.get(at as usize) else {
        return Turn::Goes(Stage::Release(0));
    };
    let next = Stage::Read(at.saturating_add(1));
    match file_to_read(entries, at, entry) {
        Some(file) => came_held(site.read(worker, file), next),
        None => Turn::Goes(next),
    }
}

// Whether a module has a main output.
fn has_main(site: &Table, number: u32) -> Mem<bool> {
    let main = site.output(number, Slot::Main)?;
    Ok(main.is_some())
}

// Behind the last goal.
fn finished(site: &Table, number: u32, module: &PlanModule) -> Mem<Stage> {
    if !module.installs {
        return Ok(Stage::End(Ending::Built));
    }
    let has_main = has_main(site, number)?;
    if module.needs_artifact && !has_main {
        return Ok(Stage::End(Ending::NoArtifact));
    }
    Ok(Stage::Own)
}

fn ask(
    alloc: Global,
    site: &mut Table,
    worker: u32,
    world: &World,
    number: u32,
    module: &PlanModule,
    goal: u32,
) -> Mem<Turn> {
    if goal as usize >= module.goals.len() {
        return Ok(Turn::Goes(finished(site, number, module)?));
    }
    if world.gate_fails(number, goal) {
        return Ok(Turn::Goes(Stage::End(Ending::Fault(Device::Gate))));
    }
    let answer = world.answer(alloc, number, goal)?;
    let came = site.answer(worker, goal, answer);
    Ok(came_free(came, Stage::Answer(goal.saturating_add(1))))
}

// The bytes of an own file, where it has any.
fn own_bytes(site: &Table, number: u32, module: &PlanModule, slot: Slot) -> Mem<Option<Bytes>> {
    match slot {
        Slot::Pom => Ok(Some(module.pom.clone()?)),
        other => site.output(number, other),
    }
}

fn install(
    site: &mut Table,
    worker: u32,
    hand: &mut Hand,
    number: u32,
    module: &PlanModule,
    at: u32,
) -> Mem<Turn> {
    let Some(own) = module.own.get(at as usize) else {
        return Ok(Turn::Goes(Stage::FreeOwn(Ending::Built)));
    };
    let next = Stage::Install(at.saturating_add(1));
    match own_bytes(site, number, module, own.slot)? {
        Some(bytes) => {
            let came = site.publish(worker, own.file, &mut hand.area, &bytes);
            Ok(came_own(came, next))
        }
        None => Ok(Turn::Goes(next)),
    }
}

/// A turn of a worker that builds a module.
pub fn module_turn(
    alloc: Global,
    site: &mut Table,
    worker: u32,
    hand: &mut Hand,
    world: &World,
    plan: &Plan,
    module: &PlanModule,
) -> Mem<Turn> {
    let number = hand.module;
    match hand.stage {
        Stage::Fetch(at) => Ok(fetch(site, worker, hand, plan, module, at)),
        Stage::Read(at) => Ok(read(site, worker, module, at)),
        Stage::Answer(goal) => ask(alloc, site, worker, world, number, module, goal),
        Stage::Install(at) => install(site, worker, hand, number, module, at),
        stage => Ok(plain(site, worker, module, stage)),
    }
}
