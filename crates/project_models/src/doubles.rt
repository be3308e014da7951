//! Modules of the same coordinates.

ghost use Rattle.std.specs.Prelude.{◌≡◌, [], None, Some, Err, false, option_map, zip, IfOk, OnOk, if◌then◌else◌};
ghost use Rattle.std.specs.HashMap.{get};
ghost use Rattle.mvn_base.specs.declared.gav.Gav as gavs;
ghost use Rattle.mvn_base.specs.declared.refusal.PomId.TheVariants as ids;
ghost use Rattle.mvn_base.specs.declared.rule.Rule.TheVariants as rules;
ghost use Rattle.pom_source.specs.Answers.{Says, build_failed};
ghost use Rattle.pom_source.specs.Refusals.{text_refused};
ghost use Rattle.mvn_base.specs.Gav.{gav_eq};
ghost use Rattle.project_models.specs.Models.{first_double};

use model_resolver::ProjectPom;
use model_types::Model;
use mvn_base::{Gav, PomId, Rule};
use mvn_shared::{List, Mem, Shared, Text};
use pom_source::{BuildFault, text_refused};
use std::alloc::Global;
use std::collections::HashMap;

/// Two modules of the same coordinates: the path of the later one's POM, and of the earlier one's.
#[derive(Drop)]
pub struct Double {
    pub later: Text,
    pub earlier: Text,
}

// Puts a path under coordinates.
fn put_path(paths: &mut HashMap<Gav, Text>, gav: &Gav, path: &Text) -> Mem<()>
    ensures { OnOk result ((other : gavs.Gav) → get gav_eq paths.new other
        ≡ (if gav_eq gav.now other then Some path.now else get gav_eq paths.old other)) }
{
    paths.insert(gav.clone()?, path.clone()?)?;
    Ok(())
}

// A module and the one whose coordinates it has, if there is one; else its path is put under its own.
fn taken(paths: &mut HashMap<Gav, Text>, pom: &ProjectPom, model: &Model) -> Mem<Option<Double>>
    ensures value { IfOk result (λ double. double ≡ option_map
        (λ earlier. record { later = pom.now.path; earlier = earlier })
        (get gav_eq paths.old model.now.gav)) }
    ensures put { IfOk result (λ double. double ≡ None → (other : gavs.Gav)
        → get gav_eq paths.new other
        ≡ (if gav_eq model.now.gav other then Some pom.now.path else get gav_eq paths.old other)) }
{
    let gav = model.gav.value();
    if let Some(earlier) = paths.get(gav) {
        let earlier = earlier.clone()?;
        let later = pom.path.clone()?;
        return Ok(Some(Double { later, earlier }));
    }
    put_path(paths, gav, &pom.path)?;
    Ok(None)
}

/// The first module whose effective coordinates one before it has. Costs all coordinates, on the average.
#[tactic(auto, using(crate::proofs::Looking::double_is, crate::proofs::Looking::one_looked, crate::proofs::Looking::no_pom, crate::proofs::Looking::no_model))]
pub(crate) fn first_double(
    alloc: Global,
    poms: &[ProjectPom],
    models: &List<Shared<Model>>,
) -> Mem<Option<Double>>
    ensures { IfOk result (λ double. double ≡ first_double [] (zip poms.now models.now)) }
{
    let mut paths = HashMap::new(alloc);
    for (at, pom) in poms.iter().enumerate() {
        let Some(model) = models.get(at) else {
            return Ok(None);
        };
        if let Some(double) = taken(&mut paths, pom, model)? {
            return Ok(Some(double));
        }
    }
    Ok(None)
}

/// The refusal of the later one, which names the path of the earlier one. Project rule.
pub(crate) fn refuse<T>(double: &Double) -> Result<T, BuildFault>
    ensures says { Says (Err (text_refused (ids.Path double.now.later) rules.DuplicateProject
        double.now.earlier)) result }
    ensures cause { build_failed result ≡ false }
{
    let pom = PomId::Path(double.later.clone()?);
    text_refused(&pom, Rule::DuplicateProject, &double.earlier)
}
