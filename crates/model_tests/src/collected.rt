// What the dependencies of a POM lead to (`collector`).
use collector::{Edge, Exclusions, direct_edges, edges};
use managed_deps::{ManagedSet, managed};
use model_types::RawModel;
use mvn_shared::{List, Mem};
use row_models::behind;
use std::alloc::Global;
use std::test::Fail;

const POM: &str =
    "<dependencyManagement><dependencies><dependency><groupId>g</groupId><artifactId>x</artifactId><version>2</version></dependency></dependencies></dependencyManagement><dependencies><dependency><groupId>g</groupId><artifactId>y</artifactId><optional>true</optional></dependency><dependency><groupId>g</groupId><artifactId>x</artifactId><version>1</version></dependency></dependencies>";

// How many edges there are, and the position of the one at this place, where it requires this.
fn seen(edges: &List<Edge>, at: usize, requirement: &str) -> (usize, Option<usize>) {
    match edges.get(at) {
        Some(edge) if edge.requirement.as_str() == requirement => {
            (edges.len(), Some(edge.position))
        }
        _ => (edges.len(), None),
    }
}

// How many edges a project has of its own, and the position of the second, where it requires 1.
fn own(alloc: Global, model: &RawModel) -> Mem<(usize, Option<usize>)> {
    let own = direct_edges(alloc, model.base.dependencies.as_slice())?;
    Ok(seen(&own, 1, "1"))
}

#[test]
fn a_project_has_all_that_it_declares(rt: HostRuntime) -> Result<(), Fail> {
    let model = behind(rt.alloc(), POM)?;
    let own = own(rt.alloc(), &model)?;
    assert!(rt; own == (2, Some(1)));
    Ok(())
}

// How many edges there are below a project, and the position of the first, where it requires 2.
fn cut_below(
    alloc: Global,
    model: &RawModel,
    set: &ManagedSet,
    cut: &Exclusions,
) -> Mem<(usize, Option<usize>)> {
    let below = edges(alloc, model.base.dependencies.as_slice(), set, cut)?;
    Ok(seen(&below, 0, "2"))
}

// What `cut_below` tells where nothing is excluded.
fn below_with(alloc: Global, model: &RawModel, set: &ManagedSet) -> Mem<(usize, Option<usize>)> {
    let cut = Exclusions::new(alloc, List::new(alloc))?;
    cut_below(alloc, model, set, &cut)
}

// What `below_with` tells by the project's own management.
fn below(alloc: Global, model: &RawModel) -> Mem<(usize, Option<usize>)> {
    let set = managed(alloc, model.base.managed.as_slice(), &[])?;
    below_with(alloc, model, &set)
}

#[test]
fn below_a_project_the_optional_is_left_out(rt: HostRuntime) -> Result<(), Fail> {
    let model = behind(rt.alloc(), POM)?;
    let below = below(rt.alloc(), &model)?;
    assert!(rt; below == (1, Some(1)));
    Ok(())
}
