// What a POM manages.
use managed_deps::{ManagedSet, managed};
use model_merge::Keyed;
use model_types::{Dependency, RawModel};
use mvn_base::ModelError;
use mvn_shared::Mem;
use row_models::behind;
use std::alloc::Global;

// Whether a set has an entry of the dependency's key.
fn has_key_of(alloc: Global, set: &ManagedSet, dependency: &Dependency) -> Mem<bool> {
    let key = dependency.key(alloc)?;
    Ok(set.find(&key).is_some())
}

// How many entries a set has.
fn entries_in(alloc: Global, set: ManagedSet) -> Mem<Option<usize>> {
    Ok(Some(set.into_list(alloc)?.len()))
}

// How many entries a set has, where it has one of the dependency's key.
fn count_with(alloc: Global, set: ManagedSet, dependency: &Dependency) -> Mem<Option<usize>> {
    if has_key_of(alloc, &set, dependency)? {
        entries_in(alloc, set)
    } else {
        Ok(None)
    }
}

// How many dependencies a POM manages, where the first of them is found by its key.
fn count_of(alloc: Global, model: &RawModel) -> Mem<Option<usize>> {
    match model.base.managed.get(0) {
        Some(entry) => {
            let set = managed(alloc, model.base.managed.as_slice(), &[])?;
            count_with(alloc, set, entry)
        }
        None => Ok(None),
    }
}

/// How many dependencies a POM manages, or nothing if it manages none or the first isn't found by its key. Project
/// rule.
pub fn managed_count(alloc: Global, inside: &str) -> Result<Option<usize>, ModelError> {
    let model = behind(alloc, inside)?;
    Ok(count_of(alloc, &model)?)
}
