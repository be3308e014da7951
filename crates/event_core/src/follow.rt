// What follows for the modules that have a changed one as an upstream.
ghost use Rattle.std.specs.Prelude.{◌≡◌, ◌≢◌, ◌⊎◌, ℕ, ◌*◌, ◌<◌, ◌≤◌, true, [], length, get_or};
ghost use Rattle.event_core.specs.Fronts.{IsBefore, IsFirst, has_edge, is_marked, is_touched, is_unbuilt, mark_of};
ghost use Rattle.event_core.specs.HowFar.{is_lost};

use crate::marks::Marks;
use crate::module_steps::{Progress, is_built, is_lost, is_waiting, progress_at};
use crate::progress_edges::Edge;
use mvn_shared::List;

// The place from this one on of the first module of a list that isn't built.
fn next_unbuilt(progress: &[Progress], modules: &[u32], from: usize) -> usize
    ensures { IsBefore (is_unbuilt progress.now) modules.now from
        → IsFirst (is_unbuilt progress.now) modules.now result }
{
    for at in from..modules.len() {
        if !is_built(progress_at(progress, modules[at] as usize)) {
            return at;
        }
    }
    modules.len()
}

// The place of one module goes to the first of its upstreams that isn't built now.
fn advance(unbuilt: &mut Vec<usize>, progress: &[Progress], upstream: &[List<u32>], module: usize)
    requires { length unbuilt.old.items ≡ length upstream.now }
    ensures length { length unbuilt.new.items ≡ length unbuilt.old.items }
    ensures others { (k : ℕ) → k ≢ «module»
        → get_or unbuilt.new.items k 0 ≡ get_or unbuilt.old.items k 0 }
    ensures first { «module» < length upstream.now
        → IsBefore (is_unbuilt progress.now) (get_or upstream.now «module» [])
        (get_or unbuilt.old.items «module» 0)
        → IsFirst (is_unbuilt progress.now) (get_or upstream.now «module» [])
        (get_or unbuilt.new.items «module» 0) }
{
    if module < upstream.len() {
        unbuilt[module] = next_unbuilt(progress, upstream[module].as_slice(), unbuilt[module]);
    }
}

/// The places of all modules of edges. Costs the edges and the places passed over.
pub(crate) fn advance_all(
    unbuilt: &mut Vec<usize>,
    progress: &[Progress],
    upstream: &[List<u32>],
    edges: &[Edge],
)
    requires { length unbuilt.old.items ≡ length upstream.now }
    ensures length { length unbuilt.new.items ≡ length unbuilt.old.items }
    ensures first { (k : ℕ) → k < length upstream.now
        → IsBefore (is_unbuilt progress.now) (get_or upstream.now k [])
        (get_or unbuilt.old.items k 0) → (is_touched k edges.now ≡ true)
        ⊎ IsFirst (is_unbuilt progress.now) (get_or upstream.now k [])
        (get_or unbuilt.old.items k 0) → IsFirst (is_unbuilt progress.now)
        (get_or upstream.now k []) (get_or unbuilt.new.items k 0) }
{
    for at in 0..edges.len() {
        advance(unbuilt, progress, upstream, edges[at].module);
    }
}

// A place that isn't after this one.
fn lower(places: &mut Vec<usize>, edge: Edge)
    ensures length { length places.new.items ≡ length places.old.items }
    ensures others { (k : ℕ) → k ≢ edge.«module»
        → get_or places.new.items k 0 ≡ get_or places.old.items k 0 }
    ensures less { get_or places.new.items edge.«module» 0 ≤ get_or places.old.items edge.«module»
        0 }
    ensures here { get_or places.new.items edge.«module» 0 ≤ edge.place }
    ensures either { (get_or places.new.items edge.«module» 0
        ≡ get_or places.old.items edge.«module» 0)
        ⊎ (get_or places.new.items edge.«module» 0 ≡ edge.place) }
{
    let module = edge.module;
    if module < places.len() && edge.place < places[module] {
        places[module] = edge.place;
    }
}

// The places of all modules of edges, not after those of the edges.
fn lower_all(places: &mut Vec<usize>, edges: &[Edge])
    ensures length { length places.new.items ≡ length places.old.items }
    ensures less { (k : ℕ) → get_or places.new.items k 0 ≤ get_or places.old.items k 0 }
    ensures here { (k place : ℕ) → has_edge k place edges.now ≡ true
        → get_or places.new.items k 0 ≤ place }
    ensures either { (k : ℕ) → (get_or places.new.items k 0 ≡ get_or places.old.items k 0)
        ⊎ (has_edge k (get_or places.new.items k 0) edges.now ≡ true) }
{
    for at in 0..edges.len() {
        lower(places, edges[at]);
    }
}

/// The places of all modules of edges to a module that is lost, and else nothing. Costs the edges.
pub(crate) fn lower_lost(places: &mut Vec<usize>, edges: &[Edge], value: Progress)
    ensures length { length places.new.items ≡ length places.old.items }
    ensures less { (k : ℕ) → get_or places.new.items k 0 ≤ get_or places.old.items k 0 }
    ensures here { is_lost value ≡ true → (k place : ℕ) → has_edge k place edges.now ≡ true
        → get_or places.new.items k 0 ≤ place }
    ensures either { (k : ℕ) → (get_or places.new.items k 0 ≡ get_or places.old.items k 0)
        ⊎ ((is_lost value ≡ true) × (has_edge k (get_or places.new.items k 0) edges.now ≡ true)) }
{
    if is_lost(value) {
        lower_all(places, edges);
    }
}

// Marks a module that waits and whose place is its list's end, or isn't.
pub(crate) fn mark(
    marks: &mut Marks,
    progress: &[Progress],
    upstream: &[List<u32>],
    places: &[usize],
    beyond: bool,
    module: usize,
)
    requires room { length upstream.now < 64 * length marks.old.words.items }
    requires places { length places.now ≡ length upstream.now }
    ensures length { length marks.new.words.items ≡ length marks.old.words.items }
    ensures same { «module» < length upstream.now
        → is_marked marks.new.words.items «module»
        ≡ mark_of progress.now upstream.now places.now beyond «module» }
    ensures others { (k : ℕ) → k ≢ «module»
        → is_marked marks.new.words.items k ≡ is_marked marks.old.words.items k }
{
    if module < upstream.len() {
        let ended = upstream[module].len() <= places[module];
        let waits = is_waiting(progress_at(progress, module));
        marks.set(module, waits && ended == beyond);
    }
}

/// Marks so, or not, all modules of edges. Costs the edges.
pub(crate) fn mark_all(
    marks: &mut Marks,
    progress: &[Progress],
    upstream: &[List<u32>],
    places: &[usize],
    beyond: bool,
    edges: &[Edge],
)
    requires room { length upstream.now < 64 * length marks.old.words.items }
    requires places { length places.now ≡ length upstream.now }
    ensures length { length marks.new.words.items ≡ length marks.old.words.items }
    ensures same { (k : ℕ) → k < length upstream.now
        → (is_touched k edges.now ≡ true)
        ⊎ (is_marked marks.old.words.items k
        ≡ mark_of progress.now upstream.now places.now beyond k)
        → is_marked marks.new.words.items k
        ≡ mark_of progress.now upstream.now places.now beyond k }
{
    for at in 0..edges.len() {
        mark(marks, progress, upstream, places, beyond, edges[at].module);
    }
}
