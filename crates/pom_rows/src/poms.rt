// What POMs say.
use model_types::RawModel;
use mvn_base::ModelError;
use mvn_shared::{Mem, Shared};
use row_models::{behind, model_text, project, whole, word};
use std::alloc::Global;

fn model(alloc: Global, kind: &str, field: &str) -> Result<Shared<RawModel>, ModelError> {
    match kind {
        "pom" => whole(alloc, field),
        "project" => project(alloc, field),
        _ => behind(alloc, field),
    }
}

fn shown(alloc: Global, kind: &str, model: &RawModel) -> Mem<String> {
    match kind {
        "is-read" => word(alloc, "read"),
        _ => model_text(alloc, model),
    }
}

/// What the POM of a row says, or only that it can be read.
pub(crate) fn told(alloc: Global, kind: &str, field: &str) -> Result<String, ModelError> {
    let model = model(alloc, kind, field)?;
    Ok(shown(alloc, kind, &model)?)
}
