// Which names each worker holds, and how.
ghost use Rattle.std.specs.Prelude.{◌≡◌, ◌<◌, ◌≤◌, ℕ, true, false, List, All, None, Some, [], ◌∷◌, ◌++◌, filter, is_some, length, map, nat_lt, replicate, slice_index_or, slice_set, vec_capacity, IfOk};
ghost use Rattle.std.specs.List.{list_all};
ghost use Rattle.build_core.specs.Locks.{IsSeat, blocker, hold, none_held, with_hold};
ghost use Rattle.event_core.specs.Causes.{last_of};
ghost use Rattle.scripts.specs.Climbing.{Climbs, but};
ghost use Rattle.scripts.specs.Outlines.{is_empty};
ghost use Rattle.event_core.specs.Taken.{ends_freed, is_held};

use build_core::{LockTable, Mode};
use mvn_shared::Mem;
use std::alloc::Global;
use std::marker::Model;

/// Which names each worker holds, as it took them, and how. Kept besides: names that were freed, until they stand at the end.
#[derive(Drop)]
pub(crate) struct Holdings {
    locks: LockTable,
    taken: Vec<Vec<u32>>,
}

impl Model for Holdings {
    ghost use Rattle.std.specs.Prelude.{◌<◌, ℕ, All, List, map, vec_capacity};
    ghost use Rattle.build_core.specs.Locks.{Holds, names_of};
    ghost use Rattle.event_core.specs.Taken.{AreStacks, held_from};

    ghost Value = { Holds × List (List ℕ) };

    ghost view = { λ it. (it.locks, held_from it.locks 0 (map (λ names. names.items) it.taken.items)) };

    ghost invariant = { λ it. AreStacks it.locks (map (λ names. names.items) it.taken.items) × All (λ names. names_of it.locks < vec_capacity names) it.taken.items };
}

// Lists of names for so many workers, each with room for more than so many.
fn no_names(alloc: Global, workers: u32, names: u32) -> Mem<Vec<Vec<u32>>>
    ensures items { IfOk result (λ held. map (λ names. names.items) held.items
        ≡ replicate workers []) }
    ensures room { IfOk result (λ held. All (λ list. names < vec_capacity list) held.items) }
{
    let mut held = Vec::with_capacity(alloc, workers as usize)?;
    for _worker in 0..workers {
        held.push(Vec::with_capacity(alloc, names as usize + 1)?)?;
    }
    Ok(held)
}

// A name more, where there is room.
fn push_in(names: &mut Vec<u32>, name: u32)
    requires { length names.old.items < vec_capacity names.old }
    ensures items { names.new.items ≡ names.old.items ++ name ∷ [] }
    ensures capacity { vec_capacity names.old ≤ vec_capacity names.new }
{
    let _pushed = names.push(name);
}

// A name more, at the end of a worker's. Takes no memory.
fn push_name(held: &mut Vec<Vec<u32>>, worker: u32, name: u32)
    requires low { worker < length held.old.items }
    requires room { All (λ names. length names.items < vec_capacity names) held.old.items }
    ensures items { map (λ names. names.items) held.new.items
        ≡ slice_set (map (λ names. names.items) held.old.items) worker
        (slice_index_or (map (λ names. names.items) held.old.items) worker [] ++ name ∷ []) }
    ensures capacity { (n : ℕ) → All (λ names. n < vec_capacity names) held.old.items
        → All (λ names. n < vec_capacity names) held.new.items }
{
    push_in(&mut held[worker as usize], name);
}

// Whether the last name is freed.
fn ends_freed(names: &[u32], locks: &LockTable, worker: u32) -> bool
    ensures { result ≡ ends_freed locks.now worker names.now }
{
    match names.last() {
        Some(last) => locks.holds(*last, worker).is_none(),
        None => false,
    }
}

// The freed names at the end go.
fn drop_freed(names: &mut Vec<u32>, locks: &LockTable, worker: u32)
    ensures held { filter (is_held locks.now worker) names.new.items
        ≡ filter (is_held locks.now worker) names.old.items }
    ensures top { ends_freed locks.now worker names.new.items ≡ false }
    ensures climbs { Climbs 0 names.old.items → Climbs 0 names.new.items }
    ensures low { (n : ℕ) → list_all (λ h. nat_lt h n) names.old.items ≡ true
        → list_all (λ h. nat_lt h n) names.new.items ≡ true }
    ensures capacity { vec_capacity names.new ≡ vec_capacity names.old }
{
    while ends_freed(names.as_slice(), locks, worker) {
        names.pop();
    }
}

// The last name of a worker's list.
fn last_in(taken: &[Vec<u32>], worker: u32) -> Option<u32>
    ensures { result ≡ last_of (slice_index_or (map (λ names. names.items) taken.now) worker []) }
{
    match taken.get(worker as usize) {
        Some(names) => last_name(names.as_slice()),
        None => None,
    }
}

fn last_name(names: &[u32]) -> Option<u32>
    ensures { result ≡ last_of names.now }
{
    names.last().copied()
}

// Whether a worker's list is empty.
fn none_in(taken: &[Vec<u32>], worker: u32) -> bool
    ensures { result ≡ is_empty (slice_index_or (map (λ names. names.items) taken.now) worker []) }
{
    match taken.get(worker as usize) {
        Some(names) => names.is_empty(),
        None => true,
    }
}

// The freed names at the end of a worker's list go.
fn drop_names(taken: &mut Vec<Vec<u32>>, locks: &LockTable, worker: u32)
    requires { worker < length taken.old.items }
    ensures { (left : List ℕ) × (map (λ names. names.items) taken.new.items
        ≡ slice_set (map (λ names. names.items) taken.old.items) worker left)
        × (filter (is_held locks.now worker) left
        ≡ filter (is_held locks.now worker)
        (slice_index_or (map (λ names. names.items) taken.old.items) worker []))
        × (ends_freed locks.now worker left ≡ false)
        × (Climbs 0 (slice_index_or (map (λ names. names.items) taken.old.items) worker [])
        → Climbs 0 left) × ((n : ℕ) → list_all (λ h. nat_lt h n)
        (slice_index_or (map (λ names. names.items) taken.old.items) worker []) ≡ true
        → list_all (λ h. nat_lt h n) left ≡ true)
        × ((n : ℕ) → All (λ names. n < vec_capacity names) taken.old.items
        → All (λ names. n < vec_capacity names) taken.new.items) }
{
    drop_freed(&mut taken[worker as usize], locks, worker);
}

// A hold that nothing excludes.
fn hold_so(locks: &mut LockTable, name: u32, worker: u32, mode: Mode)
    requires seat { IsSeat locks.old name worker }
    requires free { hold locks.old name worker ≡ None }
    requires allowed { blocker locks.old name worker mode ≡ None }
    ensures { locks.new ≡ with_hold locks.old name worker (Some mode) }
{
    let _taken = locks.take(name, worker, mode);
}

impl Holdings {
    /// No name is held. Costs the names times the workers.
    pub(crate) fn new(alloc: Global, names: u32, workers: u32) -> Mem<Holdings>
        ensures { IfOk result (λ it. it ≡ (none_held names workers, replicate workers [])) }
    {
        let locks = LockTable::new(alloc, names, workers)?;
        let taken = no_names(alloc, workers, names)?;
        Ok(Holdings { locks, taken })
    }

    /// The least worker whose hold keeps another from taking a name so. Costs the number of workers.
    pub(crate) fn blocker(&self, name: u32, worker: u32, mode: Mode) -> Option<u32>
        requires { IsSeat self.now.0 name worker }
        ensures { result ≡ blocker self.now.0 name worker mode }
    {
        self.locks.blocker(name, worker, mode)
    }

    /// How a worker holds a name. Constant time.
    pub(crate) fn holds(&self, name: u32, worker: u32) -> Option<Mode>
        ensures { result ≡ hold self.now.0 name worker }
    {
        self.locks.holds(name, worker)
    }

    /// The greatest name that a worker holds. Constant time.
    pub(crate) fn greatest(&self, worker: u32) -> Option<u32>
        ensures { result ≡ last_of (slice_index_or self.now.1 worker []) }
    {
        last_in(self.taken.as_slice(), worker)
    }

    /// Whether a worker holds no name. Constant time.
    pub(crate) fn has_none(&self, worker: u32) -> bool
        ensures { result ≡ is_empty (slice_index_or self.now.1 worker []) }
    {
        none_in(self.taken.as_slice(), worker)
    }

    /// A name more, above those that the worker holds. Costs the number of workers; takes no memory.
    pub(crate) fn take(&mut self, name: u32, worker: u32, mode: Mode)
        requires seat { IsSeat self.old.0 name worker }
        requires free { hold self.old.0 name worker ≡ None }
        requires allowed { blocker self.old.0 name worker mode ≡ None }
        requires above { list_all (λ h. nat_lt h name) (slice_index_or self.old.1 worker [])
            ≡ true }
        ensures { self.new ≡ (
          with_hold self.old.0 name worker (Some mode),
          slice_set self.old.1
              worker (slice_index_or self.old.1 worker [] ++ name ∷ []),
        ) }
    {
        hold_so(&mut self.locks, name, worker, mode);
        push_name(&mut self.taken, worker, name);
    }

    /// A name less. Constant time on the average: a name goes once.
    pub(crate) fn free(&mut self, name: u32, worker: u32)
        requires seat { IsSeat self.old.0 name worker }
        requires held { is_some (hold self.old.0 name worker) ≡ true }
        ensures { self.new ≡ (
          with_hold self.old.0 name worker None,
          slice_set self.old.1 worker
              (but name (slice_index_or self.old.1 worker [])),
        ) }
    {
        self.locks.free(name, worker);
        drop_names(&mut self.taken, &self.locks, worker);
    }
}
