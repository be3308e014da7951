// How many entries the classpaths of a build have.
ghost use Rattle.std.specs.Prelude.{◌≡◌, ◌+◌, length, IfOk, OnOk};
ghost use Rattle.generated.specs.EntryCounts.{entries, entries_of};

use classpaths::{Kind, Resolution};
use mvn_shared::Mem;
use std::alloc::Global;

// The entries of a module's classpath for tests, after those of others.
fn add_entries(alloc: Global, places: &mut Vec<usize>, resolution: &Resolution) -> Mem<()>
    ensures { OnOk result (length places.new.items
        ≡ length places.old.items + entries resolution.now) }
{
    let more = resolution.classpath(alloc, Kind::Test)?;
    places.extend_from_slice(more.as_slice())?;
    Ok(())
}

/// The entries of all modules' classpaths for tests together. Costs the types of what they are built with, and memory
/// for the entries' places. Introduction to the Dependency Mechanism, "Dependency Scope".
pub(crate) fn entries_of(alloc: Global, resolutions: &[Resolution]) -> Mem<u64>
    ensures { IfOk result (λ count. count ≡ entries_of resolutions.now) }
{
    let mut places = Vec::new(alloc);
    for resolution in resolutions {
        add_entries(alloc, &mut places, resolution)?;
    }
    Ok(places.len() as u64)
}
