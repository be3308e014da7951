// A build worked out by hand: three modules, of which the second builds on the first. The first needs the file 0 under the name 0 and is
// installed as the files 1 and 2 under the name 1; the second has nothing but its POM, the file 3, under the name 2; the third has nothing.
use crate::answers::{TOLD, event_at, number_of, told_at};
use crate::walks::begun;
use build_core::Event;
use build_outlines::{bare, of_nothing, push_absent};
use event_core::Core;
use mvn_shared::{List, Mem};
use scripts::{ModuleOutline, Outline};
use std::alloc::Global;

// The kinds of events by their numbers: see `event_at`.
const WORDS: &[&str] = &[
    "start",
    "skip",
    "share",
    "take",
    "free",
    "read",
    "publish",
    "answer",
    "built",
    "goal",
    "missing",
    "no-artifact",
    "output",
    "classpath",
    "remote",
    "gate",
    "memory",
];

fn push_all(list: &mut List<u32>, numbers: &[u32]) -> Mem<()> {
    for number in numbers {
        list.push(*number)?;
    }
    Ok(())
}

// The files that a module needs, each under its own number as the name that covers it.
fn push_needs(module: &mut ModuleOutline, needs: &[u32]) -> Mem<()> {
    push_all(&mut module.batch, needs)?;
    push_all(&mut module.fetch, needs)?;
    push_all(&mut module.reads, needs)?;
    module.goals = needs.len();
    Ok(())
}

// The files that a module is installed as, and their name.
fn push_own(module: &mut ModuleOutline, own: &[u32], name: u32) -> Mem<()> {
    push_all(&mut module.own, own)?;
    module.own_name = name;
    module.installs = !own.is_empty();
    Ok(())
}

fn put_lists(
    module: &mut ModuleOutline,
    upstream: &[u32],
    needs: &[u32],
    own: &[u32],
    own_name: u32,
) -> Mem<()> {
    push_all(&mut module.upstream, upstream)?;
    push_needs(module, needs)?;
    push_own(module, own, own_name)
}

fn module(
    alloc: Global,
    upstream: &[u32],
    needs: &[u32],
    own: &[u32],
    own_name: u32,
) -> Mem<ModuleOutline> {
    let mut module = bare(alloc);
    module.needs_artifact = true;
    put_lists(&mut module, upstream, needs, own, own_name)?;
    Ok(module)
}

fn push_module(
    alloc: Global,
    list: &mut List<ModuleOutline>,
    upstream: &[u32],
    needs: &[u32],
    own: &[u32],
    own_name: u32,
) -> Mem<()> {
    list.push(module(alloc, upstream, needs, own, own_name)?)
}

fn push_modules(alloc: Global, list: &mut List<ModuleOutline>) -> Mem<()> {
    push_module(alloc, list, &[], &[0], &[1, 2], 1)?;
    push_module(alloc, list, &[0], &[], &[3], 2)?;
    push_module(alloc, list, &[], &[], &[], 0)
}

fn put_modules(alloc: Global, outline: &mut Outline) -> Mem<()> {
    push_modules(alloc, &mut outline.modules)?;
    push_absent(&mut outline.present, 4)
}

fn outline(alloc: Global) -> Mem<Outline> {
    let mut outline = of_nothing(alloc, 3);
    outline.workers = 2;
    outline.events = 32;
    put_modules(alloc, &mut outline)?;
    Ok(outline)
}

fn core(alloc: Global) -> Mem<Core> {
    let outline = outline(alloc)?;
    begun(alloc, outline)
}

// The number of a kind of events: see `event_at`.
fn kind_of(word: &str) -> u32 {
    let mut kind = 0u32;
    for known in WORDS {
        if *known == word {
            return kind;
        }
        kind = kind.wrapping_add(1);
    }
    kind
}

// The event of a kind, a worker and a number, with dots between.
fn event_of(spelled: &str) -> Event {
    let (word, numbers) = spelled.split_once('.').unwrap_or(("", ""));
    let (worker, number) = numbers.split_once('.').unwrap_or(("", ""));
    let worker = worker.parse::<u32>().unwrap_or(99);
    event_at(kind_of(word), worker, number.parse::<u32>().unwrap_or(99))
}

fn push_number(alloc: Global, shown: &mut String, number: u32) -> Mem<()> {
    shown.push_str(format!(in alloc; " {number}")?.as_str())?;
    Ok(())
}

// What is answered to events.
fn push_each(alloc: Global, shown: &mut String, core: &mut Core, events: &str) -> Mem<()> {
    for event in events.split_whitespace() {
        let answer = number_of(core.step(event_of(event)));
        push_number(alloc, shown, answer)?;
    }
    Ok(())
}

/// What is answered to events of the build, one after another: 0 where one is taken, a number for the cause where not.
pub(crate) fn push_answers(alloc: Global, shown: &mut String, events: &str) -> Mem<()> {
    shown.push_str("answers")?;
    let mut core = core(alloc)?;
    push_each(alloc, shown, &mut core, events)
}

// Asks for events, whatever is answered.
fn ask_for(core: &mut Core, events: &str) {
    for event in events.split_whitespace() {
        let _answer = core.step(event_of(event));
    }
}

// Where a build stands.
fn push_told(alloc: Global, shown: &mut String, core: &Core) -> Mem<()> {
    shown.push_str("stands")?;
    for place in 0..TOLD {
        push_number(alloc, shown, told_at(core, place))?;
    }
    Ok(())
}

// Where a build stands, and which of four files it has.
fn push_standing(alloc: Global, shown: &mut String, core: &Core) -> Mem<()> {
    push_told(alloc, shown, core)?;
    for file in 0..4u32 {
        push_number(alloc, shown, core.has(file) as u32)?;
    }
    Ok(())
}

/// Where the build stands after events.
pub(crate) fn push_stands(alloc: Global, shown: &mut String, events: &str) -> Mem<()> {
    let mut core = core(alloc)?;
    ask_for(&mut core, events);
    push_standing(alloc, shown, &core)
}
