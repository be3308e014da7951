//! `ManagedSet`: managed dependencies, the first entry of each key.

ghost use Rattle.std.specs.Prelude.{◌≡◌, [], map, find, fold, IfOk, OnOk};
ghost use Rattle.std.specs.Option.{option_copied};
ghost use Rattle.model_merge.specs.Keyed.{keyed};
ghost use Rattle.mvn_base.specs.declared.key.Key as keys;
ghost use Rattle.managed_deps.specs.Managed.{add, all_entries, find_entry, find_pair, first_of_each, is_import, key_of, own_entries, same_key};

use crate::row::Row;
use indexmap::IndexSet;
use model_types::Dependency;
use mvn_base::Key;
use mvn_shared::{List, Mem, Shared};
use std::alloc::Global;
use std::marker::Model;

/// Managed dependencies, the first of each key. Contracts see it as the list of its entries, each under its key.
#[derive(Drop)]
pub struct ManagedSet {
    rows: IndexSet<Row>,
}

impl Model for ManagedSet {
    ghost use Rattle.std.specs.Prelude as logic;
    ghost use Rattle.std.specs.Coded.{coded_list};
    ghost use Rattle.model_merge.specs.Keyed.{keyed};
    ghost use Rattle.mvn_base.specs.declared.key.Key as keys;
    ghost use Rattle.managed_deps.specs.Managed.{key_of};
    ghost use Rattle.model_types.specs.declared.dependency.Dependency as dependencies;

    ghost Value = { logic.List (keys.Key × dependencies.Dependency) };

    ghost view = { λ set. keyed key_of set.rows.keys };
}

// Whether an entry stands for what another POM manages.
fn is_import(dependency: &Dependency) -> bool
    ensures { result ≡ is_import dependency.now }
{
    match &dependency.scope {
        Some(scope) => scope.as_str() == "import",
        None => false,
    }
}

// No rows yet, with room for a number.
fn no_rows(alloc: Global, room: usize) -> Mem<IndexSet<Row>>
    ensures { IfOk result (λ rows. rows.keys ≡ []) }
{
    Ok(IndexSet::with_capacity(alloc, room)?)
}

// An entry more, where none is there of its key.
#[tactic(auto, using(crate::proofs::Entries::row_more))]
fn add_row(rows: &mut IndexSet<Row>, entry: Shared<Dependency>) -> Mem<()>
    ensures { OnOk result (keyed key_of rows.new.keys ≡ add (keyed key_of rows.old.keys) entry) }
{
    rows.insert(Row { entry })?;
    Ok(())
}

// The entry of a key among rows.
fn row_of<'a>(rows: &'a IndexSet<Row>, key: &Key) -> Option<&'a Shared<Dependency>>
    ensures { option_copied result ≡ find (λ d. same_key key.now (key_of d)) rows.now.keys }
{
    match rows.get(key) {
        Some(row) => Some(&row.entry),
        None => None,
    }
}

// The entries of rows, in order.
fn entries_of(alloc: Global, rows: &[Row]) -> Mem<List<Shared<Dependency>>>
    ensures { IfOk result (λ list. list ≡ rows.now) }
{
    let mut list = List::with_capacity(alloc, rows.len())?;
    for row in rows {
        list.push(row.entry.share()?)?;
    }
    Ok(list)
}

impl ManagedSet {
    // An empty set, with room for a number of entries.
    fn with_room(alloc: Global, room: usize) -> Mem<ManagedSet>
        ensures { IfOk result (λ set. set ≡ []) }
    {
        let rows = no_rows(alloc, room)?;
        Ok(ManagedSet { rows })
    }

    /// What is managed under a key. Constant time on the average, besides the key, and without it where nothing is
    /// managed; takes no memory.
    #[tactic(auto, using(crate::proofs::Entries::nothing))]
    pub fn find(&self, key: &Key) -> Option<&Shared<Dependency>>
        ensures { option_copied result ≡ find_pair self.now key.now }
    {
        if self.rows.is_empty() {
            return None;
        }
        row_of(&self.rows, key)
    }

    /// What is managed, in order. Costs one step an entry; nothing is copied.
    #[tactic(auto, using(crate::proofs::Entries::values))]
    pub fn into_list(self, alloc: Global) -> Mem<List<Shared<Dependency>>>
        ensures { IfOk result (λ list. list ≡ map (λ e. e.1) self) }
    {
        entries_of(alloc, self.rows.as_slice())
    }

    // One entry more, where none is there under its key.
    fn add(&mut self, dependency: &Shared<Dependency>) -> Mem<()>
        ensures { OnOk result (self.new ≡ add self.old dependency.now) }
    {
        add_row(&mut self.rows, dependency.share()?)?;
        Ok(())
    }
}

// The entries of a list, each where none is there under its key.
fn add_all(set: &mut ManagedSet, entries: &[Shared<Dependency>]) -> Mem<()>
    ensures { OnOk result (set.new ≡ fold add set.old entries.now) }
{
    for dependency in entries {
        set.add(dependency)?;
    }
    Ok(())
}

// The entries that are no imports, each where none is there under its key.
fn add_own(set: &mut ManagedSet, entries: &[Shared<Dependency>]) -> Mem<()>
    ensures { OnOk result (set.new ≡ fold add set.old (own_entries entries.now)) }
{
    for dependency in entries {
        if !is_import(dependency) {
            set.add(dependency)?;
        }
    }
    Ok(())
}

// The first entry of each key among the own ones without their imports, and then those of the imports.
fn firsts(
    alloc: Global,
    own: &[Shared<Dependency>],
    imports: &[List<Shared<Dependency>>],
) -> Mem<ManagedSet>
    ensures { IfOk result (λ set. set ≡ first_of_each (all_entries own.now imports.now)) }
{
    let mut set = ManagedSet::with_room(alloc, own.len())?;
    add_own(&mut set, own)?;
    for entries in imports {
        add_all(&mut set, entries.as_slice())?;
    }
    Ok(set)
}

/// What is managed: the first entry of each key among the own ones without their imports, and then those of the imports
/// in order. Costs their number and keys, on the average; the entries are shared. Introduction to the Dependency
/// Mechanism, "Importing Dependencies".
pub fn managed(
    alloc: Global,
    own: &[Shared<Dependency>],
    imports: &[List<Shared<Dependency>>],
) -> Mem<ManagedSet>
    ensures whole { IfOk result (λ set. set ≡ first_of_each (all_entries own.now imports.now)) }
    ensures found { IfOk result (λ set. (key : keys.Key) →
        find_pair set key ≡ find_entry (all_entries own.now imports.now) key) }
{
    let set = firsts(alloc, own, imports)?;
    Ok(set)
}
