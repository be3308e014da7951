// Turns of a worker that take and free names.
use crate::Site;
use crate::hand::{Stage, Turn};
use build_core::{Ending, Mode, PlanModule};
use mvn_outside::Shelf;

/// The number at a place.
pub(crate) fn place(list: &[u32], at: u32) -> Option<u32> {
    list.get(at as usize).copied()
}

fn taken(done: bool, next: Stage) -> Turn {
    if done { Turn::Goes(next) } else { Turn::Waits }
}

fn freed(done: bool, next: Stage) -> Turn {
    if done { Turn::Goes(next) } else { Turn::Stuck }
}

fn all_there<S: Shelf + Drop>(site: &Site<S>, files: &[u32]) -> bool {
    for file in files {
        if !site.has(*file) {
            return false;
        }
    }
    true
}

// Behind the batch: files are read where all are there, and else its names are taken alone.
fn choose<S: Shelf + Drop>(site: &Site<S>, module: &PlanModule) -> Turn {
    if all_there(site, module.fetch.as_slice()) {
        Turn::Goes(Stage::Read(0))
    } else {
        Turn::Goes(Stage::Part(0))
    }
}

fn share<S: Shelf + Drop>(site: &mut Site<S>, worker: u32, module: &PlanModule, at: u32) -> Turn {
    match place(module.batch.as_slice(), at) {
        Some(name) => taken(
            site.take(worker, name, Mode::Shared),
            Stage::Share(at.saturating_add(1)),
        ),
        None => choose(site, module),
    }
}

fn lock<S: Shelf + Drop>(site: &mut Site<S>, worker: u32, module: &PlanModule, at: u32) -> Turn {
    match place(module.batch.as_slice(), at) {
        Some(name) => taken(
            site.take(worker, name, Mode::Exclusive),
            Stage::Lock(at.saturating_add(1)),
        ),
        None => Turn::Goes(Stage::Fetch(0)),
    }
}

// A name of the batch freed, and what comes after the last.
fn free<S: Shelf + Drop>(
    site: &mut Site<S>,
    worker: u32,
    name: Option<u32>,
    more: Stage,
    next: Stage,
) -> Turn {
    match name {
        Some(name) => freed(site.free(worker, name), more),
        None => Turn::Goes(next),
    }
}

fn abandon<S: Shelf + Drop>(
    site: &mut Site<S>,
    worker: u32,
    module: &PlanModule,
    at: u32,
    ending: Ending,
) -> Turn {
    let name = place(module.batch.as_slice(), at);
    let more = Stage::Abandon(at.saturating_add(1), ending);
    free(site, worker, name, more, Stage::End(ending))
}

fn part<S: Shelf + Drop>(site: &mut Site<S>, worker: u32, module: &PlanModule, at: u32) -> Turn {
    let name = place(module.batch.as_slice(), at);
    let more = Stage::Part(at.saturating_add(1));
    free(site, worker, name, more, Stage::Lock(0))
}

fn release<S: Shelf + Drop>(site: &mut Site<S>, worker: u32, module: &PlanModule, at: u32) -> Turn {
    let name = place(module.batch.as_slice(), at);
    let more = Stage::Release(at.saturating_add(1));
    free(site, worker, name, more, Stage::Answer(0))
}

/// A turn at a stage that takes or frees a name, or ends the module.
pub(crate) fn plain<S: Shelf + Drop>(
    site: &mut Site<S>,
    worker: u32,
    module: &PlanModule,
    stage: Stage,
) -> Turn {
    match stage {
        Stage::Share(at) => share(site, worker, module, at),
        Stage::Lock(at) => lock(site, worker, module, at),
        Stage::Part(at) => part(site, worker, module, at),
        Stage::Release(at) => release(site, worker, module, at),
        Stage::Abandon(at, ending) => abandon(site, worker, module, at, ending),
        Stage::Own => taken(
            site.take(worker, module.own_name, Mode::Exclusive),
            Stage::Install(0),
        ),
        Stage::FreeOwn(ending) => freed(site.free(worker, module.own_name), Stage::End(ending)),
        Stage::End(ending) => freed(site.end(worker, ending), Stage::Idle),
        _ => Turn::Stuck,
    }
}
