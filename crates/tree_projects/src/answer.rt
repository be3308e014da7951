// What is told of an effective model.
use model_json::write_model_json;
use model_types::Model;
use mvn_shared::Mem;
use pom_source::BuildFault;
use std::alloc::Global;

/// How many models there are, and how many dependencies and plugins they have.
#[derive(Clone, Copy)]
pub(crate) struct Counts {
    pub(crate) models: usize,
    pub(crate) dependencies: usize,
    pub(crate) plugins: usize,
}

fn model_text(alloc: Global, model: &Model) -> anyhow::Result<String> {
    let json = write_model_json(alloc, model)?;
    Ok(String::from_utf8(json.into_vec())?)
}

// How it is told that a POM has no model.
fn fault_text(alloc: Global, fault: &BuildFault) -> Mem<String> {
    match fault {
        BuildFault::Refused(refusal) => Ok(format!(in alloc; "{refusal}")?),
        BuildFault::Absent => Ok(String::from_str(alloc, "no such POM")?),
        BuildFault::Source => Ok(String::from_str(alloc, "the source failed")?),
        BuildFault::Memory => Ok(String::from_str(alloc, "out of memory")?),
    }
}

/// A model as JSON, or why there is none.
pub(crate) fn answer_text(
    alloc: Global,
    answer: &Result<Model, BuildFault>,
) -> anyhow::Result<String> {
    match answer {
        Ok(model) => model_text(alloc, model),
        Err(fault) => Ok(fault_text(alloc, fault)?),
    }
}

impl Counts {
    pub(crate) fn none() -> Counts {
        Counts {
            models: 0,
            dependencies: 0,
            plugins: 0,
        }
    }

    // The counts with one model more.
    fn with_model(self, model: &Model) -> Counts {
        let dependencies = model.base.dependencies.len();
        let plugins = model.build.base.plugins.len();
        Counts {
            models: self.models.saturating_add(1),
            dependencies: self.dependencies.saturating_add(dependencies),
            plugins: self.plugins.saturating_add(plugins),
        }
    }

    /// The counts with an answer more, which count it if it is a model.
    pub(crate) fn with_answer(self, answer: &Result<Model, BuildFault>) -> Counts {
        match answer {
            Ok(model) => self.with_model(model),
            Err(_) => self,
        }
    }
}
