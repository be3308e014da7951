// Entries with their bytes, one after another, within the limit.
ghost use Rattle.std.specs.Prelude.{◌≡◌, ◌+◌, ◌<◌, ◌≤◌, ◌∷◌, [], ◌++◌, length, option_map, slice_get, Some, IfErr, IfOk, OnErr, OnOk};
ghost use Rattle.build_core.specs.OneThread.{bytes_len, entries_len, most_classpath};
ghost use Rattle.crew_turns.specs.Parts.{IsAddEnd, is_this_file, place_before};

use build_core::{Ending, Entry, Origin};
use goal_types::PathEntry;
use mvn_shared::{Bytes, List, Mem};
use std::alloc::Global;
use std::marker::Model;

// The most bytes of all entries of a module's classpath.
const MOST_CLASSPATH: u64 = 134_217_728;

/// The first entries of a module's classpath with their bytes: at most 128 MiB together. Contracts see the entries. Project rule.
#[derive(Drop)]
pub struct Gathered {
    paths: List<PathEntry>,
    len: u64,
}

impl Model for Gathered {
    ghost use Rattle.std.specs.Prelude.{◌≡◌, ◌≤◌, List};
    ghost use Rattle.build_core.specs.OneThread.{entries_len, most_classpath};
    ghost use Rattle.goal_types.specs.declared.goal.PathEntry.{PathEntry as Path};

    ghost Value = { List Path };

    ghost view = { λ g. g.paths };

    ghost invariant = { λ g. (g.len ≡ entries_len g.paths) × (g.len ≤ most_classpath) };
}

// The number of bytes, where there are any.
fn len_of(bytes: &Option<Bytes>) -> u64
    ensures { result ≡ bytes_len bytes.now }
{
    match bytes {
        Some(bytes) => bytes.len() as u64,
        None => 0,
    }
}

// A copy of the bytes, where there are any.
fn copy_of(bytes: &Option<Bytes>) -> Mem<Option<Bytes>>
    ensures { IfOk result (λ copy. copy ≡ bytes.now) }
{
    match bytes {
        Some(bytes) => Ok(Some(bytes.clone()?)),
        None => Ok(None),
    }
}

// Whether an entry comes from a file.
fn comes_from(entry: &Entry, file: u32) -> bool
    ensures { result ≡ is_this_file file entry.now }
{
    match entry.origin {
        Origin::File(other) => other == file,
        Origin::Module(_, _) | Origin::Nothing => false,
    }
}

/// The place of the first of so many entries that comes from a file. Takes no memory; costs a look at each entry. Project rule.
#[tactic(auto, using(crate::proofs::Places::not_yet, crate::proofs::Places::found_at, std::proofs::lemmas::Option::slice_get_read))]
pub fn place_before(entries: &[Entry], count: usize, file: u32) -> Option<usize>
    requires { count ≤ length entries.now }
    ensures { result ≡ place_before entries.now count file }
{
    for at in 0..count {
        if comes_from(&entries[at], file) {
            return Some(at);
        }
    }
    None
}

impl Gathered {
    /// No entries yet. Takes no memory. Project rule.
    pub fn new(alloc: Global) -> Gathered
        ensures { result ≡ [] }
    {
        Gathered {
            paths: List::new(alloc),
            len: 0,
        }
    }

    /// How many bytes more there may be. Takes no memory; constant time. Project rule.
    pub fn room(&self) -> u64
        ensures { result + entries_len self.now ≡ most_classpath }
    {
        MOST_CLASSPATH - self.len
    }

    /// A copy of the bytes of an entry that was gathered. Costs the bytes. Project rule.
    pub fn copy_at(&self, at: usize) -> Mem<Option<Bytes>>
        requires { at < length self.now }
        ensures { IfOk result (λ bytes.
            option_map (λ p. p.bytes) (slice_get self.now at) ≡ Some bytes) }
    {
        copy_of(&self.paths.as_slice()[at].bytes)
    }

    /// An entry more with its bytes, where all of them are within the limit; or how the module ends. Costs the entry's name. Introduction
    /// to the Dependency Mechanism; project rule for the limit.
    #[tactic(auto, using(run_law::proofs::Paths::summed))]
    pub fn add(&mut self, entry: &Entry, bytes: Option<Bytes>) -> Result<(), Ending>
        ensures ok { OnOk result (self.new
            ≡ self.old ++ (record { name = entry.now.name; bytes = bytes }) ∷ []) }
        ensures err { IfErr result (λ ending.
            IsAddEnd (entries_len self.old + bytes_len bytes) ending) }
        ensures same { OnErr result (self.new ≡ self.old) }
    {
        let len = len_of(&bytes);
        if len > MOST_CLASSPATH - self.len {
            return Err(Ending::ClasspathTooLarge);
        }
        let Ok(name) = entry.name.clone() else {
            return Err(Ending::Memory);
        };
        let Ok(()) = self.paths.push(PathEntry { name, bytes }) else {
            return Err(Ending::Memory);
        };
        self.len += len;
        Ok(())
    }

    /// The entries. Takes no memory; constant time. Project rule.
    pub fn into_paths(self) -> List<PathEntry>
        ensures { result ≡ self }
    {
        self.paths
    }
}
