// How far each module is, and which may begin or are to be skipped.
ghost use Rattle.std.specs.Prelude.{◌≡◌, ℕ, ◌-◌, ◌*◌, ◌<◌, ◌^◌, false, true, [], length, find, get_or, map, replicate, slice_get, slice_set, IfOk, if◌then◌else◌};
ghost use Rattle.std.specs.List.{list_all};
ghost use Rattle.build_core.specs.Locks.{below};
ghost use Rattle.scripts.specs.declared.outline.Outline.{Outline};
ghost use Rattle.event_core.specs.declared.module_steps.Progress.TheVariants.{Waiting};
ghost use Rattle.event_core.specs.Fronts.{is_marked, mark_of, upstreams};
ghost use Rattle.event_core.specs.HowFar.{first_lost, first_not_built, is_over, is_ready, is_skippable, progress_of, state_of};

use crate::follow::{advance_all, lower_lost, mark, mark_all};
use crate::marks::Marks;
use crate::module_steps::{Progress, is_over, progress_at};
use crate::progress_edges::{Edge, edges_of, upstreams};
use build_core::State;
use mvn_shared::{List, Mem};
use scripts::outline::Outline;
use std::alloc::Global;
use std::marker::Model;

/// How far each module is. Kept besides: of each module the places of its first upstreams that aren't built and that are lost, and marks
/// on those that may begin and those that are to be skipped. Project rule.
#[derive(Drop)]
pub struct Modules {
    upstream: Vec<List<u32>>,
    progress: Vec<Progress>,
    edges: Vec<List<Edge>>,
    unbuilt: Vec<usize>,
    lost: Vec<usize>,
    ready: Marks,
    skippable: Marks,
    open: usize,
}

impl Model for Modules {
    ghost use Rattle.std.specs.Prelude.{ℕ, List};
    ghost use Rattle.event_core.specs.declared.module_steps.Progress.{Progress};
    ghost use Rattle.event_core.specs.Fronts.{IsFront};

    ghost Value = { List (List ℕ) × List Progress };

    ghost view = { λ it. (it.upstream.items, it.progress.items) };

    ghost invariant = { λ it. IsFront it.upstream.items it.progress.items it.edges.items it.unbuilt.items it.lost.items it.ready.words.items it.skippable.words.items it.open };
}

// The place of each module's end of its list of upstreams.
fn lengths(alloc: Global, upstream: &[List<u32>]) -> Mem<Vec<usize>>
    ensures { IfOk result (λ lengths. lengths.items ≡ map length upstream.now) }
{
    let mut lengths = Vec::with_capacity(alloc, upstream.len())?;
    for at in 0..upstream.len() {
        lengths.push(upstream[at].len())?;
    }
    Ok(lengths)
}

// Where all modules wait, the marks on those without upstreams.
fn first_ready(
    alloc: Global,
    progress: &[Progress],
    upstream: &[List<u32>],
    unbuilt: &[usize],
) -> Mem<Marks>
    requires few { length upstream.now < 2 ^ 32 }
    requires places { length unbuilt.now ≡ length upstream.now }
    ensures room { IfOk result (λ marks. length upstream.now < 64 * length marks.words.items) }
    ensures small { IfOk result (λ marks. length marks.words.items < 2 ^ 32) }
    ensures same { IfOk result (λ marks. (k : ℕ) → k < length upstream.now
        → is_marked marks.words.items k ≡ mark_of progress.now upstream.now unbuilt.now true k) }
{
    let mut marks = Marks::none(alloc, upstream.len() as u32)?;
    for at in 0..upstream.len() {
        mark(&mut marks, progress, upstream, unbuilt, true, at);
    }
    Ok(marks)
}

// The upstream of a module at its place.
fn upstream_at(upstream: &[List<u32>], places: &[usize], number: u32) -> Option<u32>
    requires { length places.now ≡ length upstream.now }
    ensures { result ≡ slice_get (get_or upstream.now number []) (get_or places.now number 0) }
{
    let number = number as usize;
    if number >= upstream.len() {
        return None;
    }
    upstream[number].as_slice().get(places[number]).copied()
}

// The first module that is marked.
fn first_of(marks: &Marks, count: usize) -> Option<u32>
    requires few { count < 2 ^ 32 }
    requires small { length marks.now.words.items < 2 ^ 32 }
    ensures { result ≡ find (is_marked marks.now.words.items) (below count) }
{
    match marks.first() {
        Some(number) => {
            if number < count {
                Some(number as u32)
            } else {
                None
            }
        }
        None => None,
    }
}

// One less that is open, where it is over.
fn close(open: &mut usize, value: Progress)
    ensures { open.new ≡ open.old - (if is_over value then 1 else 0) }
{
    if is_over(value) {
        *open = open.saturating_sub(1);
    }
}

impl Modules {
    /// All modules wait. Costs the lists of upstreams. Project rule.
    pub fn new(alloc: Global, outline: &Outline) -> Mem<Modules>
        requires { length outline.now.modules < 2 ^ 32 }
        ensures { IfOk result (λ it. it
            ≡ (upstreams outline.now, replicate (length outline.now.modules) Waiting)) }
    {
        let upstream = upstreams(alloc, outline.modules.as_slice())?;
        let progress = vec![in alloc; Progress::Waiting; upstream.len()]?;
        let edges = edges_of(alloc, upstream.as_slice())?;
        let unbuilt = vec![in alloc; 0usize; upstream.len()]?;
        let lost = lengths(alloc, upstream.as_slice())?;
        let ready = first_ready(
            alloc,
            progress.as_slice(),
            upstream.as_slice(),
            unbuilt.as_slice(),
        )?;
        let skippable = Marks::none(alloc, upstream.len() as u32)?;
        let open = upstream.len();
        Ok(Modules {
            upstream,
            progress,
            edges,
            unbuilt,
            lost,
            ready,
            skippable,
            open,
        })
    }

    /// How far a module is. Constant time. Project rule.
    pub fn progress(&self, number: u32) -> Progress
        ensures { result ≡ progress_of self.now.1 number }
    {
        progress_at(self.progress.as_slice(), number as usize)
    }

    /// The first upstream of a module that isn't built. Constant time. Project rule.
    pub fn first_unbuilt(&self, number: u32) -> Option<u32>
        ensures { (o : Outline) → upstreams o ≡ self.now.0
            → result ≡ first_not_built o self.now.1 number }
    {
        upstream_at(self.upstream.as_slice(), self.unbuilt.as_slice(), number)
    }

    /// The first upstream of a module that is lost. Constant time. Project rule.
    pub fn first_lost(&self, number: u32) -> Option<u32>
        ensures { (o : Outline) → upstreams o ≡ self.now.0
            → result ≡ first_lost o self.now.1 number }
    {
        upstream_at(self.upstream.as_slice(), self.lost.as_slice(), number)
    }

    /// How a module stands. Constant time. Project rule.
    pub fn state(&self, number: u32) -> State
        ensures { (o : Outline) → upstreams o ≡ self.now.0 → result ≡ state_of o self.now.1 number }
    {
        match self.progress(number) {
            Progress::Waiting => State::Waiting,
            Progress::Running(worker) => State::Running(worker),
            Progress::Skipped => State::Skipped(self.first_lost(number).unwrap_or(0)),
            Progress::Ended(ending) => State::Ended(ending),
        }
    }

    /// The first module that may begin. Costs a look at words of bits, one for 4,096 modules. Project rule.
    pub fn ready(&self) -> Option<u32>
        ensures { (o : Outline) → upstreams o ≡ self.now.0
            → result ≡ find (is_ready o self.now.1) (below (length o.modules)) }
    {
        first_of(&self.ready, self.upstream.len())
    }

    /// The first module that is to be skipped. Costs a look at words of bits, one for 4,096 modules. Project rule.
    pub fn skippable(&self) -> Option<u32>
        ensures { (o : Outline) → upstreams o ≡ self.now.0
            → result ≡ find (is_skippable o self.now.1) (below (length o.modules)) }
    {
        first_of(&self.skippable, self.upstream.len())
    }

    /// Whether all are over. Constant time. Project rule.
    pub fn is_complete(&self) -> bool
        ensures { result ≡ list_all is_over self.now.1 }
    {
        self.open == 0
    }

    /// A module that isn't over goes on. Costs the modules that it is an upstream of, each once, and of their upstreams those that are
    /// passed over, each once in a build. Project rule.
    pub fn set(&mut self, number: u32, value: Progress)
        requires low { number < length self.old.1 }
        requires open { is_over (progress_of self.old.1 number) ≡ false }
        ensures { self.new ≡ (self.old.0, slice_set self.old.1 number value) }
    {
        let at = number as usize;
        self.progress[at] = value;
        close(&mut self.open, value);
        let upstream = self.upstream.as_slice();
        let progress = self.progress.as_slice();
        let edges = self.edges[at].as_slice();
        advance_all(&mut self.unbuilt, progress, upstream, edges);
        lower_lost(&mut self.lost, edges, value);
        let unbuilt = self.unbuilt.as_slice();
        mark_all(&mut self.ready, progress, upstream, unbuilt, true, edges);
        mark(&mut self.ready, progress, upstream, unbuilt, true, at);
        let lost = self.lost.as_slice();
        mark_all(&mut self.skippable, progress, upstream, lost, false, edges);
        mark(&mut self.skippable, progress, upstream, lost, false, at);
    }
}
