// Walks through builds.
use crate::answers::{KINDS, TOLD, answer_at, event_at, told_at};
use build_core::{Ending, Event, Mode};
use build_outlines::{Draws, linked, small, wide};
use event_core::Core;
use mvn_shared::{Mem, OutOfMemory};
use scripts::Outline;
use std::alloc::Global;

// The workers and the numbers that are asked for: one more than there are, at least.
const WORKERS: u32 = 4;

const NUMBERS: u32 = 10;

// The kinds below this one are no bad ends.
const CALM: u32 = 9;

/// A core over an outline that has room.
pub(crate) fn begun(alloc: Global, outline: Outline) -> Mem<Core> {
    if outline.has_room() && outline.modules.len() < 1_000_000 {
        return Core::over(alloc, outline);
    }
    Err(OutOfMemory)
}

// A sum with what is told of where the build stands.
fn readings(core: &Core, answers: u32) -> u32 {
    let mut sum = answers;
    for place in 0..TOLD {
        sum = sum.wrapping_mul(31).wrapping_add(told_at(core, place));
    }
    sum
}

// The sum of all answers, how many events may come, and how many of them are no ends but the good one.
fn asked(core: &Core) -> (u32, u32, u32) {
    let mut sum = 0u32;
    let mut enabled = 0u32;
    let mut calm = 0u32;
    for place in 0..KINDS * WORKERS * NUMBERS {
        let kind = place % KINDS;
        let answer = answer_at(core, kind, place / KINDS % WORKERS, place / KINDS / WORKERS);
        sum = sum.wrapping_mul(31).wrapping_add(answer);
        if answer == 0 {
            enabled = enabled.wrapping_add(1);
            if kind < CALM {
                calm = calm.wrapping_add(1);
            }
        }
    }
    (readings(core, sum), enabled, calm)
}

// Takes the event, of the first so many kinds, that comes after so many others that may come.
fn take(core: &mut Core, kinds: u32, skipped: u32) {
    let mut left = skipped;
    for place in 0..KINDS * WORKERS * NUMBERS {
        let kind = place % KINDS;
        let worker = place / KINDS % WORKERS;
        let number = place / KINDS / WORKERS;
        if kind < kinds && answer_at(core, kind, worker, number) == 0 {
            if left == 0 {
                let _taken = core.step(event_at(kind, worker, number));
                return;
            }
            left -= 1;
        }
    }
}

// Asks for every event, and takes one that may come: seven times of eight one that is no bad end. Nothing where there is none.
fn one_more(core: &mut Core, draws: &mut Draws) -> Option<u32> {
    let (sum, enabled, calm) = asked(core);
    if enabled == 0 {
        return None;
    }
    let bold = draws.below(8) == 0 || calm == 0;
    if bold {
        take(core, KINDS, draws.below(enabled));
    } else {
        take(core, CALM, draws.below(calm));
    }
    Some(sum)
}

// A sum over all answers on a walk.
fn walked(core: &mut Core, draws: &mut Draws) -> u32 {
    let mut total = 0u32;
    for _event in 0..80u32 {
        match one_more(core, draws) {
            Some(sum) => total = total.wrapping_mul(31).wrapping_add(sum),
            None => return total,
        }
    }
    total
}

fn small_core(alloc: Global, draws: &mut Draws) -> Mem<Core> {
    let outline = small(alloc, draws)?;
    begun(alloc, outline)
}

/// A sum over all answers on a walk through a small build, and the number of its events.
pub(crate) fn walk(alloc: Global, seed: u32) -> Mem<(u32, usize)> {
    let mut draws = Draws { state: seed };
    let mut core = small_core(alloc, &mut draws)?;
    let total = walked(&mut core, &mut draws);
    Ok((total, core.events().len()))
}

// One event more, and one more of those that were taken.
fn count(core: &mut Core, taken: u32, event: Event) -> u32 {
    match core.step(event) {
        Ok(()) => taken.wrapping_add(1),
        Err(_) => taken,
    }
}

// The events of a module that has nothing but its POM, after as many that were taken; how many were taken.
fn one_module(core: &mut Core, taken: u32, module: u32) -> u32 {
    let (worker, name) = (0, 0);
    let mode = Mode::Exclusive;
    let ending = Ending::Built;
    let taken = count(core, taken, Event::Start { worker, module });
    let taken = count(core, taken, Event::Take { worker, name, mode });
    let file = module;
    let taken = count(core, taken, Event::Publish { worker, file });
    let taken = count(core, taken, Event::Free { worker, name });
    count(core, taken, Event::End { worker, ending })
}

// How many events of so many modules were taken.
fn all_modules(core: &mut Core, modules: u32) -> u32 {
    let mut taken = 0u32;
    for number in 0..modules {
        taken = one_module(core, taken, number);
    }
    taken
}

fn wide_core(alloc: Global, modules: u32) -> Mem<Core> {
    let outline = wide(alloc, modules)?;
    begun(alloc, outline)
}

/// How many of so many events of a long build were taken.
pub(crate) fn long(alloc: Global, count: u32) -> Mem<u32> {
    let modules = count / 5;
    let mut core = wide_core(alloc, modules)?;
    Ok(all_modules(&mut core, modules))
}

// A module that needs nothing but its upstreams begins and ends.
fn through(core: &mut Core, module: u32) -> bool {
    let begun = core.step(Event::Start { worker: 0, module });
    let ended = core.step(Event::End {
        worker: 0,
        ending: Ending::Built,
    });
    begun.is_ok() && ended.is_ok() && core.skippable().is_none()
}

// How many of so many modules were built, each as the first that may begin.
fn all_ready(core: &mut Core, count: u32) -> u32 {
    let mut built = 0u32;
    for _module in 0..count {
        let Some(number) = core.ready() else {
            return built;
        };
        if through(core, number) {
            built = built.wrapping_add(1);
        }
    }
    built
}

fn linked_core(alloc: Global, count: u32) -> Mem<Core> {
    let outline = linked(alloc, count)?;
    begun(alloc, outline)
}

/// How many of so many modules, each with the four before it as upstreams, were built, each as the first that may begin.
pub(crate) fn front(alloc: Global, count: u32) -> Mem<u32> {
    let mut core = linked_core(alloc, count)?;
    Ok(all_ready(&mut core, count))
}
