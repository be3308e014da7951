// What the profiles of a POM add.
use model_types::RawModel;
use mvn_base::ModelError;
use mvn_shared::{Mem, Shared};
use profiles::inject;
use row_models::{behind, field, push_base, push_build_base};
use std::alloc::Global;

// The words of a field as numbers.
fn numbers(alloc: Global, field: &str) -> Mem<Vec<usize>> {
    let mut list = Vec::new(alloc);
    for word in field.split_whitespace() {
        let number = word.parse::<usize>().unwrap_or(0);
        list.push(number)?;
    }
    Ok(list)
}

// A POM with its profiles at some places.
fn injected(alloc: Global, raw: &RawModel, places: &[usize]) -> Mem<Shared<RawModel>> {
    let model = inject(alloc, raw, places)?;
    Shared::new(alloc, model)
}

fn push_both(shown: &mut String, model: &RawModel) -> Mem<()> {
    push_base(shown, &model.base)?;
    push_build_base(shown, " managed_plugin[", &model.build.base)
}

// What a POM and its profiles both state.
fn shown(alloc: Global, model: &RawModel) -> Mem<String> {
    let mut shown = String::new(alloc);
    push_both(&mut shown, model)?;
    Ok(shown)
}

fn told_of_model(alloc: Global, raw: &RawModel, field: &str) -> Mem<String> {
    let places = numbers(alloc, field)?;
    let model = injected(alloc, raw, places.as_slice())?;
    shown(alloc, &model)
}

/// What a POM states with its profiles at some places.
pub(crate) fn told(alloc: Global, fields: &[&str]) -> Result<String, ModelError> {
    let raw = behind(alloc, field(fields, 0))?;
    Ok(told_of_model(alloc, &raw, field(fields, 1))?)
}
