// Small builds, made from numbers. Each module has a name of its own, and each file that is fetched a name that covers it.
use crate::draws::Draws;
use mvn_shared::{List, Mem};
use scripts::{ModuleOutline, Outline};
use std::alloc::Global;

// How many names and files are fetched under; the own names and files stand after them.
const SHARED: u32 = 3;

// Some of the numbers below one, one of two.
fn push_some(list: &mut List<u32>, draws: &mut Draws, bound: u32) -> Mem<()> {
    for number in 0..bound {
        if draws.below(2) == 0 {
            list.push(number)?;
        }
    }
    Ok(())
}

// A file that a module needs, under the name that covers it.
fn push_need(module: &mut ModuleOutline, file: u32) -> Mem<()> {
    module.batch.push(file)?;
    module.fetch.push(file)?;
    module.reads.push(file)
}

// The files that a module needs.
fn push_needs(module: &mut ModuleOutline, draws: &mut Draws) -> Mem<()> {
    for file in 0..SHARED {
        if draws.below(2) == 0 {
            push_need(module, file)?;
        }
    }
    Ok(())
}

// The own files of a module: its POM's, and perhaps another.
fn push_own(list: &mut List<u32>, draws: &mut Draws, number: u32) -> Mem<()> {
    let file = (number % 16).wrapping_mul(2).wrapping_add(SHARED);
    list.push(file)?;
    if draws.below(2) == 0 {
        list.push(file.wrapping_add(1))?;
    }
    Ok(())
}

/// A module that has nothing and isn't installed.
pub fn bare(alloc: Global) -> ModuleOutline {
    ModuleOutline {
        upstream: List::new(alloc),
        batch: List::new(alloc),
        fetch: List::new(alloc),
        reads: List::new(alloc),
        goals: 0,
        own_name: 0,
        own: List::new(alloc),
        installs: false,
        needs_artifact: false,
    }
}

// What a module has that has nothing yet.
fn draw(module: &mut ModuleOutline, draws: &mut Draws, number: u32) -> Mem<()> {
    push_some(&mut module.upstream, draws, number)?;
    push_needs(module, draws)?;
    push_own(&mut module.own, draws, number)?;
    module.goals = draws.below(3) as usize;
    module.own_name = (number % 16).wrapping_add(SHARED);
    module.installs = draws.below(4) != 0;
    module.needs_artifact = draws.below(2) == 0;
    Ok(())
}

fn module(alloc: Global, draws: &mut Draws, number: u32) -> Mem<ModuleOutline> {
    let mut module = bare(alloc);
    draw(&mut module, draws, number)?;
    Ok(module)
}

fn push_modules(
    alloc: Global,
    list: &mut List<ModuleOutline>,
    draws: &mut Draws,
    count: u32,
) -> Mem<()> {
    for number in 0..count {
        list.push(module(alloc, draws, number)?)?;
    }
    Ok(())
}

fn push_present(list: &mut List<bool>, draws: &mut Draws, count: u32) -> Mem<()> {
    for _file in 0..count {
        list.push(draws.below(2) == 0)?;
    }
    Ok(())
}

/// So many files that aren't there.
pub fn push_absent(list: &mut List<bool>, count: u32) -> Mem<()> {
    for _file in 0..count {
        list.push(false)?;
    }
    Ok(())
}

/// A build without modules and files, with so many names, by one worker.
pub fn of_nothing(alloc: Global, names: u32) -> Outline {
    Outline {
        modules: List::new(alloc),
        names,
        present: List::new(alloc),
        workers: 1,
        events: 0,
    }
}

// What a small build has that has nothing yet.
fn put_small(alloc: Global, outline: &mut Outline, draws: &mut Draws) -> Mem<()> {
    let count = draws.below(3).wrapping_add(1);
    push_modules(alloc, &mut outline.modules, draws, count)?;
    push_present(&mut outline.present, draws, SHARED + 6)?;
    outline.workers = draws.below(3).wrapping_add(1);
    outline.events = 200;
    Ok(())
}

/// A build of one to three modules by one to three workers.
pub fn small(alloc: Global, draws: &mut Draws) -> Mem<Outline> {
    let mut outline = of_nothing(alloc, SHARED + 3);
    put_small(alloc, &mut outline, draws)?;
    Ok(outline)
}

// A module that has nothing but its POM.
fn plain(alloc: Global, number: u32) -> Mem<ModuleOutline> {
    let mut module = bare(alloc);
    module.installs = true;
    module.own.push(number)?;
    Ok(module)
}

fn push_plain(alloc: Global, list: &mut List<ModuleOutline>, count: u32) -> Mem<()> {
    for number in 0..count {
        list.push(plain(alloc, number)?)?;
    }
    Ok(())
}

fn put_plain(alloc: Global, outline: &mut Outline, count: u32) -> Mem<()> {
    push_plain(alloc, &mut outline.modules, count)?;
    push_absent(&mut outline.present, count)
}

/// A build of so many modules that have nothing but their POM, by one worker.
pub fn wide(alloc: Global, count: u32) -> Mem<Outline> {
    let mut outline = of_nothing(alloc, 1);
    outline.events = 8 * count as u64;
    put_plain(alloc, &mut outline, count)?;
    Ok(outline)
}

// The numbers from the first on below the other.
fn push_between(list: &mut List<u32>, first: u32, reach: u32) -> Mem<()> {
    for number in first..reach {
        list.push(number)?;
    }
    Ok(())
}

// A module that needs nothing but the four before it.
fn link(alloc: Global, number: u32) -> Mem<ModuleOutline> {
    let mut module = bare(alloc);
    push_between(&mut module.upstream, number.saturating_sub(4), number)?;
    Ok(module)
}

fn push_links(alloc: Global, list: &mut List<ModuleOutline>, count: u32) -> Mem<()> {
    for number in 0..count {
        list.push(link(alloc, number)?)?;
    }
    Ok(())
}

/// A build of so many modules, each with the four before it as upstreams, by one worker.
pub fn linked(alloc: Global, count: u32) -> Mem<Outline> {
    let mut outline = of_nothing(alloc, 1);
    outline.events = 2 * count as u64;
    push_links(alloc, &mut outline.modules, count)?;
    Ok(outline)
}
