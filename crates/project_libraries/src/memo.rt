//! What was answered in a run, so that no POM is built twice.

ghost use Rattle.std.specs.Prelude.{◌≡◌, ◌++◌, ◌∷◌, [], is_some, List as Items, IfOk, OnErr, OnOk, if◌then◌else◌, Some, option_map};
ghost use Rattle.std.specs.HashMap.{get};
ghost use Rattle.mvn_base.specs.declared.gav.Gav as gavs;
ghost use Rattle.model_types.specs.declared.model.Model as models;
ghost use Rattle.mvn_base.specs.Gav.{gav_eq};
ghost use Rattle.mediation.specs.declared.known.Known.TheVariants as knowns;
ghost use Rattle.project_libraries.specs.Known.{module_of};

use mediation::{Known, Library};
use model_types::Model;
use mvn_base::Gav;
use mvn_shared::{Mem, Shared};
use std::alloc::Global;
use std::collections::HashMap;

// A copy, which shares the model.
fn copy_of(known: &Known) -> Mem<Known>
    ensures { IfOk result (λ copy. copy ≡ known.now) }
{
    match known {
        Known::Model(library) => Ok(Known::Model(library.share()?)),
        Known::Missing => Ok(Known::Missing),
        Known::Refused(rule) => Ok(Known::Refused(*rule)),
    }
}

/// What is kept of a coordinate's POM.
pub(crate) fn find_known(map: &HashMap<Gav, Known>, gav: &Gav) -> Mem<Option<Known>>
    ensures { IfOk result (λ found. found ≡ get gav_eq map.now gav.now) }
{
    match map.get(gav) {
        Some(known) => Ok(Some(copy_of(known)?)),
        None => Ok(None),
    }
}

/// Keeps what is known of a coordinate's POM, in place of anything else.
pub(crate) fn keep_known(map: &mut HashMap<Gav, Known>, gav: &Gav, known: &Known) -> Mem<()>
    ensures ok { OnOk result ((other : gavs.Gav) → get gav_eq map.new other
        ≡ (if gav_eq gav.now other then Some known.now else get gav_eq map.old other)) }
    ensures err { OnErr result ((other : gavs.Gav) → get gav_eq map.new other
        ≡ get gav_eq map.old other) }
{
    map.insert(gav.clone()?, copy_of(known)?)?;
    Ok(())
}

// Whether anything is kept of a coordinate's POM.
fn is_known(map: &HashMap<Gav, Known>, gav: &Gav) -> bool
    ensures { result ≡ is_some (get gav_eq map.now gav.now) }
{
    map.contains_key(gav)
}

// A model that is known.
fn known_model(alloc: Global, model: &Shared<Model>) -> Mem<Known>
    ensures { IfOk result (λ known. known ≡ knowns.Model model.now) }
{
    let model = model.share()?;
    Ok(Known::Model(Library::new(alloc, model)?))
}

// Keeps a module's model, unless one of its coordinates is kept.
fn keep_module(
    alloc: Global,
    map: &mut HashMap<Gav, Known>,
    gav: &Gav,
    model: &Shared<Model>,
) -> Mem<()>
    requires { gav.now ≡ model.now.gav }
    ensures { OnOk result ((done : Items models.Model)
        → ((gav : gavs.Gav) → get gav_eq map.old gav ≡ option_map knowns.Model (module_of done gav))
        → (gav : gavs.Gav) → get gav_eq map.new gav
        ≡ option_map knowns.Model (module_of (done ++ model.now ∷ []) gav)) }
{
    if is_known(map, gav) {
        return Ok(());
    }
    let known = known_model(alloc, model)?;
    keep_known(map, gav, &known)
}

/// The modules' effective models, each by its coordinates. Costs one step for each and for each of its dependencies, on
/// the average.
pub(crate) fn known_modules(alloc: Global, own: &[Shared<Model>]) -> Mem<HashMap<Gav, Known>>
    ensures { IfOk result (λ map. (gav : gavs.Gav)
        → get gav_eq map gav ≡ option_map knowns.Model (module_of own.now gav)) }
{
    let mut map = HashMap::new(alloc);
    for model in own {
        keep_module(alloc, &mut map, model.gav.value(), model)?;
    }
    Ok(map)
}
