//! The table of who holds a lock on which name, and how.

ghost use Rattle.std.specs.Prelude.{◌≡◌, ℕ, ◌<◌, length, true, Some, None, IfOk, is_some, replicate};
ghost use Rattle.build_core.specs.Locks.{IsSeat, blocker, blocker_in, blocks_in, excludes, hold, names_of, none_held, with_hold, workers_of};
ghost use Rattle.build_core.specs.declared.table.Tried.TheVariants.{Taken, Busy};

use crate::Mode;
use std::alloc::{AllocError, Global};
use std::marker::Model;

/// What came of asking for a lock: it is taken, or the least worker that keeps it from being taken.
#[derive(Clone, Copy, PartialEq, Eq)]
pub enum Tried {
    Taken,
    Busy(u32),
}

/// The locks of names by their numbers, and how workers hold them. Contracts see it as the number of names, the number of workers, and a
/// list for each name of what each worker holds.
#[derive(Drop)]
pub struct LockTable {
    names: u32,
    workers: u32,
    held: Vec<Vec<Option<Mode>>>,
}

impl Model for LockTable {
    ghost use Rattle.std.specs.Prelude.{◌≡◌, All, map, length};
    ghost use Rattle.build_core.specs.Locks.{Holds};

    ghost Value = { Holds };

    ghost view = { λ table. (table.names, table.workers, map (λ row. row.items) table.held.items) };

    ghost invariant = { λ table. (length table.held.items ≡ table.names) × All (λ row. length row.items ≡ table.workers) table.held.items };
}

// Whether a hold keeps another worker from one of this mode.
fn excludes(held: Option<Mode>, wanted: Mode) -> bool
    ensures { result ≡ excludes held wanted }
{
    match (held, wanted) {
        (None, _) => false,
        (Some(Mode::Shared), Mode::Shared) => false,
        (Some(Mode::Shared), Mode::Exclusive) => true,
        (Some(Mode::Exclusive), _) => true,
    }
}

// Whether the worker at a place keeps another from a name.
fn blocks_at(row: &[Option<Mode>], worker: u32, mode: Mode, other: u32) -> bool
    requires { other < length row.now }
    ensures { result ≡ blocks_in row.now worker mode other }
{
    other != worker && excludes(row[other as usize], mode)
}

// The least worker of so many that keeps another from a name.
fn least(row: &[Option<Mode>], workers: u32, worker: u32, mode: Mode) -> Option<u32>
    requires { length row.now ≡ workers }
    ensures { result ≡ blocker_in row.now workers worker mode }
{
    for other in 0..workers {
        if blocks_at(row, worker, mode, other) {
            return Some(other);
        }
    }
    None
}

// A name that no worker holds.
fn free_row(alloc: Global, workers: u32) -> Result<Vec<Option<Mode>>, AllocError>
    ensures { IfOk result (λ row. row.items ≡ replicate workers None) }
{
    let row = vec![in alloc; None; workers as usize]?;
    Ok(row)
}

impl LockTable {
    /// No name is held. Costs the number of names times that of workers.
    pub fn new(alloc: Global, names: u32, workers: u32) -> Result<LockTable, AllocError>
        ensures { IfOk result (λ table. table ≡ none_held names workers) }
    {
        let mut held = Vec::with_capacity(alloc, names as usize)?;
        for _count in 0..names {
            held.push(free_row(alloc, workers)?)?;
        }
        Ok(LockTable {
            names,
            workers,
            held,
        })
    }

    /// How many names there are. Constant time.
    pub fn names(&self) -> u32
        ensures { result ≡ names_of self.now }
    {
        self.names
    }

    /// How many workers there are. Constant time.
    pub fn workers(&self) -> u32
        ensures { result ≡ workers_of self.now }
    {
        self.workers
    }

    /// How a worker holds a name. Constant time; takes no memory.
    pub fn holds(&self, name: u32, worker: u32) -> Option<Mode>
        ensures { result ≡ hold self.now name worker }
    {
        match self.held.get(name as usize) {
            Some(row) => row.get(worker as usize).copied().flatten(),
            None => None,
        }
    }

    // Holds a name so, or not.
    fn set(&mut self, name: u32, worker: u32, mode: Option<Mode>)
        requires { IsSeat self.old name worker }
        ensures { self.new ≡ with_hold self.old name worker mode }
    {
        self.held[name as usize][worker as usize] = mode;
    }

    /// The least worker whose hold keeps another from taking a name so. Costs the number of workers; takes no memory. Resolver,
    /// "Named Locks"; which of them is named is a project rule.
    pub fn blocker(&self, name: u32, worker: u32, mode: Mode) -> Option<u32>
        requires { IsSeat self.now name worker }
        ensures { result ≡ blocker self.now name worker mode }
    {
        least(
            self.held[name as usize].as_slice(),
            self.workers,
            worker,
            mode,
        )
    }

    /// Takes a name, where no other worker's hold keeps it from this one; else the answer is the least such worker, and the table stays
    /// as it was. Costs the number of workers; takes no memory. Resolver, "Named Locks".
    pub fn take(&mut self, name: u32, worker: u32, mode: Mode) -> Tried
        requires seat { IsSeat self.old name worker }
        requires free { hold self.old name worker ≡ None }
        ensures taken { result ≡ Taken → (blocker self.old name worker mode ≡ None) ×
            (self.new ≡ with_hold self.old name worker (Some mode)) }
        ensures busy { (h : ℕ) → result ≡ Busy h → (blocker self.old name worker mode ≡ Some h) ×
            (self.new ≡ self.old) }
    {
        match self.blocker(name, worker, mode) {
            Some(other) => Tried::Busy(other),
            None => {
                self.set(name, worker, Some(mode));
                Tried::Taken
            }
        }
    }

    /// Frees a name that a worker holds. Constant time; takes no memory.
    pub fn free(&mut self, name: u32, worker: u32)
        requires seat { IsSeat self.old name worker }
        requires held { is_some (hold self.old name worker) ≡ true }
        ensures { self.new ≡ with_hold self.old name worker None }
    {
        self.set(name, worker, None);
    }
}
