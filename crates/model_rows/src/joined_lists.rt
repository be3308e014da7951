// Lists that were joined, and the same settled, as texts.
use model_types::Dependency;
use mvn_base::Pair;
use mvn_shared::{List, Mem, Shared};
use row_models::{push_dependencies, push_pairs};
use std::alloc::Global;

fn push_both_properties(shown: &mut String, joined: &List<Pair>, settled: &List<Pair>) -> Mem<()> {
    push_pairs(shown, joined)?;
    shown.push_str(" settled")?;
    push_pairs(shown, settled)
}

/// Properties, and the same settled.
pub(crate) fn both_properties(
    alloc: Global,
    joined: &List<Pair>,
    settled: &List<Pair>,
) -> Mem<String> {
    let mut shown = String::new(alloc);
    push_both_properties(&mut shown, joined, settled)?;
    Ok(shown)
}

fn push_both_needs(
    shown: &mut String,
    joined: &List<Shared<Dependency>>,
    settled: &List<Shared<Dependency>>,
) -> Mem<()> {
    push_dependencies(shown, " needs[", joined)?;
    shown.push_str(" settled")?;
    push_dependencies(shown, " needs[", settled)
}

/// Dependencies, and the same settled.
pub(crate) fn both_needs(
    alloc: Global,
    joined: &List<Shared<Dependency>>,
    settled: &List<Shared<Dependency>>,
) -> Mem<String> {
    let mut shown = String::new(alloc);
    push_both_needs(&mut shown, joined, settled)?;
    Ok(shown)
}
