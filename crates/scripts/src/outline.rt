// What a core keeps of a plan: its numbers, and none of its bytes.
ghost use Rattle.std.specs.Prelude.{◌≡◌, ◌<◌, ◌^◌, ℕ, [], ◌++◌, nat_eq, length, map, fold, IfOk, OnOk};
ghost use Rattle.std.specs.Option.{option_to_list};
ghost use Rattle.std.specs.HashSet.{contains};
ghost use Rattle.scripts.specs.Outlines.{file_of, files_of, is_listed, module_outline, once_more, outline_of};

use build_core::{Entry, Origin, OwnFile, Plan, PlanModule};
use mvn_shared::{List, Mem};
use std::alloc::Global;
use std::collections::HashSet;

/// A plan without its bytes.
#[derive(Drop)]
pub struct Outline {
    pub modules: List<ModuleOutline>,
    /// How many names there are.
    pub names: u32,
    /// Which of the files were there at the start.
    pub present: List<bool>,
    pub workers: u32,
    /// At least the number of events of any run.
    pub events: u64,
}

/// A module of an outline.
#[derive(Drop)]
pub struct ModuleOutline {
    pub upstream: List<u32>,
    pub batch: List<u32>,
    pub fetch: List<u32>,
    /// The files that its entries come from, each once, by their first entries.
    pub reads: List<u32>,
    /// How many goals it has.
    pub goals: usize,
    pub own_name: u32,
    /// The files that it is installed as, the POM's first.
    pub own: List<u32>,
    pub installs: bool,
    pub needs_artifact: bool,
}

// A file more, where the entry comes from one.
fn add_file(files: &mut List<u32>, entry: &Entry) -> Mem<()>
    ensures { OnOk result (files.new ≡ files.old ++ option_to_list (file_of entry.now.origin)) }
{
    match entry.origin {
        Origin::File(file) => files.push(file),
        _ => Ok(()),
    }
}

fn files_of(alloc: Global, entries: &[Entry]) -> Mem<List<u32>>
    ensures { IfOk result (λ files. files ≡ files_of entries.now) }
{
    let mut files = List::new(alloc);
    for at in 0..entries.len() {
        add_file(&mut files, &entries[at])?;
    }
    Ok(files)
}

// A number after others, unless it is one of them.
fn add_once(kept: &mut List<u32>, met: &mut HashSet<u32>, file: u32) -> Mem<()>
    requires { (q : ℕ) → contains nat_eq met.old q ≡ is_listed q kept.old }
    ensures { OnOk result ((kept.new ≡ once_more kept.old file)
        × ((q : ℕ) → contains nat_eq met.new q ≡ is_listed q kept.new)) }
{
    if met.insert(file)? {
        kept.push(file)?;
    }
    Ok(())
}

fn once(alloc: Global, files: &[u32]) -> Mem<List<u32>>
    ensures { IfOk result (λ kept. kept ≡ fold once_more [] files.now) }
{
    let mut met = HashSet::new(alloc);
    let mut kept = List::new(alloc);
    for at in 0..files.len() {
        add_once(&mut kept, &mut met, files[at])?;
    }
    Ok(kept)
}

fn files_read(alloc: Global, entries: &[Entry]) -> Mem<List<u32>>
    ensures { IfOk result (λ files. files ≡ fold once_more [] (files_of entries.now)) }
{
    let files = files_of(alloc, entries)?;
    once(alloc, files.as_slice())
}

fn own_files(alloc: Global, own: &[OwnFile]) -> Mem<List<u32>>
    ensures { IfOk result (λ files. files ≡ map (λ o. o.file) own.now) }
{
    let mut files = List::new(alloc);
    for at in 0..own.len() {
        files.push(own[at].file)?;
    }
    Ok(files)
}

impl ModuleOutline {
    fn of(alloc: Global, plan: &PlanModule) -> Mem<ModuleOutline>
        ensures { IfOk result (λ outline. outline ≡ module_outline plan.now) }
    {
        let upstream = plan.upstream.clone()?;
        let batch = plan.batch.clone()?;
        let fetch = plan.fetch.clone()?;
        let reads = files_read(alloc, plan.entries.as_slice())?;
        let own = own_files(alloc, plan.own.as_slice())?;
        Ok(ModuleOutline {
            upstream,
            batch,
            fetch,
            reads,
            goals: plan.goals.len(),
            own_name: plan.own_name,
            own,
            installs: plan.installs,
            needs_artifact: plan.needs_artifact,
        })
    }
}

fn modules_of(alloc: Global, modules: &[PlanModule]) -> Mem<List<ModuleOutline>>
    ensures { IfOk result (λ outlines. outlines ≡ map module_outline modules.now) }
{
    let mut outlines = List::new(alloc);
    for at in 0..modules.len() {
        outlines.push(ModuleOutline::of(alloc, &modules[at])?)?;
    }
    Ok(outlines)
}

// A number of fewer than 2^32 as one of 32 bits.
fn small(count: usize) -> u32
    requires { count < 2 ^ 32 }
    ensures { result ≡ count }
{
    count as u32
}

impl Outline {
    /// What a core keeps of a plan of fewer than 2^32 modules and names. Costs the plan's lists. Project rule.
    pub fn of(alloc: Global, plan: &Plan) -> Mem<Outline>
        requires few { length plan.now.modules < 2 ^ 32 }
        requires names { length plan.now.names < 2 ^ 32 }
        ensures outline { IfOk result (λ outline. outline ≡ outline_of plan.now) }
        ensures few { IfOk result (λ outline. length outline.modules < 2 ^ 32) }
    {
        let modules = modules_of(alloc, plan.modules.as_slice())?;
        let present = plan.present.clone()?;
        let names = small(plan.names.len());
        Ok(Outline {
            modules,
            names,
            present,
            workers: plan.workers,
            events: plan.events,
        })
    }
}
