// Lists that are joined, and what is stated first (`model_merge`).
use model_merge::{Item, appended, copies, others_than, stated, stated_list};
use mvn_base::Pair;
use mvn_shared::{List, Mem, Text};
use row_models::{pairs, push_pairs, words};
use std::alloc::Global;
use std::test::Fail;

fn shown(alloc: Global, pairs: &List<Pair>) -> Mem<String> {
    let mut shown = String::new(alloc);
    push_pairs(&mut shown, pairs)?;
    Ok(shown)
}

#[test]
fn what_has_another_key_is_left(rt: HostRuntime) -> Result<(), Fail> {
    let own = pairs(rt.alloc(), "a=1 c=2")?;
    let further = pairs(rt.alloc(), "b=3 a=4")?;
    let others = others_than(rt.alloc(), own.as_slice(), copies(&further)?)?;
    let told = shown(rt.alloc(), &others)?;
    assert_eq!(rt; told.as_str(), " $b=3");
    Ok(())
}

#[test]
fn a_list_stands_behind_another(rt: HostRuntime) -> Result<(), Fail> {
    let own = pairs(rt.alloc(), "a=1 c=2")?;
    let all = appended(own, pairs(rt.alloc(), "b=3 a=4")?)?;
    let told = shown(rt.alloc(), &all)?;
    assert_eq!(rt; told.as_str(), " $a=1 $c=2 $b=3 $a=4");
    Ok(())
}

#[test]
fn what_is_stated_comes_first(rt: HostRuntime) -> Result<(), Fail> {
    let text = Some(Text::from_str(rt.alloc(), "x")?);
    let first = stated(&None, &text)?;
    assert!(rt; first.is_some_and(|text| text.as_str() == "x"));
    Ok(())
}

#[test]
fn a_list_that_is_stated_comes_first(rt: HostRuntime) -> Result<(), Fail> {
    let list = words(rt.alloc(), "x y")?;
    let first = stated_list(&list, &List::new(rt.alloc()))?;
    assert_eq!(rt; first.len(), 2);
    Ok(())
}

#[test]
fn an_item_is_copied(rt: HostRuntime) -> Result<(), Fail> {
    let pairs = pairs(rt.alloc(), "a=1")?;
    let copy = pairs.get(0).ok_or("no pair")?.copy()?;
    assert_eq!(rt; copy.value.as_str(), "1");
    Ok(())
}
