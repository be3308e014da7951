// Plugins and dependencies that are merged, inherited and managed (`model_merge`, `inheritance`, `managed_deps`).
use crate::{
    Way, executions_left, is_execution_inherited, is_inherited, joined, joined_over, key_artifact,
    managed_count,
};
use std::test::Fail;

const CHILD: &str =
    "<build><plugins><plugin><artifactId>a</artifactId></plugin><plugin><artifactId>c</artifactId><executions><execution><id>e</id></execution></executions></plugin></plugins></build>";

const PARENT: &str =
    "<build><plugins><plugin><artifactId>b</artifactId></plugin><plugin><artifactId>a</artifactId><version>1</version></plugin></plugins></build>";

#[test]
fn a_childs_order_is_kept(rt: HostRuntime) -> Result<(), Fail> {
    let told = joined(rt.alloc(), Way::Under, CHILD, PARENT)?;
    assert_eq!(rt; told.as_str(), "a!c");
    Ok(())
}

#[test]
fn what_the_parent_has_comes_behind(rt: HostRuntime) -> Result<(), Fail> {
    let told = joined(rt.alloc(), Way::Both, CHILD, PARENT)?;
    assert_eq!(rt; told.as_str(), "a!cb");
    Ok(())
}

#[test]
fn a_parents_order_is_kept(rt: HostRuntime) -> Result<(), Fail> {
    let told = joined(rt.alloc(), Way::Lists, CHILD, PARENT)?;
    assert_eq!(rt; told.as_str(), "ba!c");
    Ok(())
}

#[test]
fn a_parents_order_is_inherited(rt: HostRuntime) -> Result<(), Fail> {
    let told = joined(rt.alloc(), Way::Inherited, CHILD, PARENT)?;
    assert_eq!(rt; told.as_str(), "ba!c");
    Ok(())
}

#[test]
fn what_the_child_adds_is_left_out(rt: HostRuntime) -> Result<(), Fail> {
    let told = joined_over(rt.alloc(), CHILD, PARENT)?;
    assert_eq!(rt; told.as_str(), "ba!");
    Ok(())
}

#[test]
fn a_plugin_is_merged(rt: HostRuntime) -> Result<(), Fail> {
    let artifact = key_artifact(rt.alloc(), CHILD, 1)?;
    assert!(rt; artifact.is_some_and(|text| text.as_str() == "c"));
    assert!(rt; is_inherited(rt.alloc(), CHILD, 1)?);
    Ok(())
}

#[test]
fn an_execution_is_merged(rt: HostRuntime) -> Result<(), Fail> {
    assert!(rt; is_execution_inherited(rt.alloc(), CHILD, 1)?);
    Ok(())
}

const TWICE: &str =
    "<build><plugins><plugin><artifactId>a</artifactId></plugin><plugin><artifactId>a</artifactId><version>1</version><executions><execution><id>e</id></execution><execution><id>e</id></execution></executions></plugin></plugins></build>";

#[test]
fn what_stands_twice_is_settled(rt: HostRuntime) -> Result<(), Fail> {
    let told = joined(rt.alloc(), Way::Each, TWICE, "")?;
    assert_eq!(rt; told.as_str(), "aa!");
    let told = joined(rt.alloc(), Way::Settled, TWICE, "")?;
    assert_eq!(rt; told.as_str(), "a!");
    Ok(())
}

#[test]
fn an_execution_that_stands_twice_is_settled(rt: HostRuntime) -> Result<(), Fail> {
    let count = executions_left(rt.alloc(), TWICE, 1)?;
    assert_eq!(rt; count, 1);
    Ok(())
}

const MANAGED: &str =
    "<dependencyManagement><dependencies><dependency><groupId>g</groupId><artifactId>x</artifactId></dependency></dependencies></dependencyManagement>";

#[test]
fn what_is_managed_is_found(rt: HostRuntime) -> Result<(), Fail> {
    let count = managed_count(rt.alloc(), MANAGED)?;
    assert_eq!(rt; count.unwrap_or(0), 1);
    Ok(())
}
