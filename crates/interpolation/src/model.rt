//! A whole model with its expressions replaced.

ghost use Rattle.std.specs.Prelude.{◌≡◌, List as Items, [], Result, Err, IfOk};
ghost use Rattle.std.specs.Option.{option_copied};
ghost use Rattle.mvn_base.specs.Says.{Says};
ghost use Rattle.mvn_base.specs.declared.machine.Pair as pairs;
ghost use Rattle.mvn_base.specs.declared.refusal.Refusal as refusals;
ghost use Rattle.model_types.specs.declared.model.RawModel as models;
ghost use Rattle.interpolation.specs.Filling.{fill, fill_groups, fill_model, with_groups};
ghost use Rattle.interpolation.specs.Tables.{Gives, IsTable};
ghost use Rattle.interpolation.specs.Told.{TellsOf};

use crate::groups::{fill_base, fill_build};
use crate::items::{Fill, fill_each};
use crate::{FillFault, Filler, named};
use model_types::{Build, Coordinates, ModelBase, RawModel};
use mvn_base::{Machine, ModelError, Pair, Place, Refusal};
use mvn_shared::{Mem, Shared, Text};
use std::alloc::Global;

// A model with these groups in the place of its own.
fn with_groups(
    raw: &RawModel,
    coordinates: Shared<Coordinates>,
    base: Shared<ModelBase>,
    build: Shared<Build>,
) -> Mem<RawModel>
    ensures { IfOk result (λ model. model ≡ with_groups raw.now coordinates base build) }
{
    let pom = raw.pom.share()?;
    let parent = raw.parent.clone()?;
    let profiles = raw.profiles.share()?;
    Ok(RawModel {
        pom,
        parent,
        coordinates,
        base,
        build,
        profiles,
    })
}

// A model of this base and build, with its texts filled.
#[tactic(auto, unfolding(crate::specs::Filling::fill_groups))]
fn fill_groups(
    alloc: Global,
    filler: &mut Filler,
    raw: &RawModel,
    base: &ModelBase,
    build: &Build,
) -> Result<RawModel, FillFault>
    ensures { (known : Items pairs.Pair) → IsTable known [] filler.old
        → Gives known (fill_groups known raw.now base.now build.now) filler.new result }
{
    let properties = fill_each(alloc, filler, &base.properties)?;
    let coordinates = raw.coordinates.fill(alloc, filler)?;
    let outputs = build.outputs.fill(alloc, filler)?;
    let sources = build.sources.fill(alloc, filler)?;
    let base = fill_base(alloc, filler, base, properties)?;
    let build = fill_build(alloc, filler, build, outputs, sources)?;
    let model = with_groups(raw, coordinates, base, build)?;
    Ok(model)
}

// A model with its texts filled.
fn filled(alloc: Global, filler: &mut Filler, raw: &RawModel) -> Result<RawModel, FillFault>
    ensures { (known : Items pairs.Pair) → IsTable known [] filler.old
        → Gives known (fill_model known raw.now) filler.new result }
{
    fill_groups(alloc, filler, raw, raw.base.value(), raw.build.value())
}

// A fault as that of a model's POM.
fn in_pom(raw: &RawModel, fault: FillFault) -> ModelError
    ensures { (said : Result models.RawModel refusals.Refusal) → TellsOf raw.now.pom fault said
        → Says said (Err result) }
{
    match fault {
        FillFault::Refused { rule, place } => match raw.pom.value().clone() {
            Ok(pom) => ModelError::Refused(Refusal {
                pom,
                rule,
                place: Place::Name(place),
            }),
            Err(_) => ModelError::Memory,
        },
        FillFault::Memory => ModelError::Memory,
    }
}

/// A model with its texts filled, each expression by what it names: fields after `project.` or `pom.`, then the
/// properties of the command line, the model's, the environment's after `env.`, the system's, and last `basedir`,
/// `groupId`, `artifactId` and `version` alone. An unknown name stays as written.
///
/// Refused are a name that leads back to itself, an expression that is left where an artifact, its version or its scope
/// is named, and a text of more than 65,536 bytes; the first refusal counts, and names the POM. Costs all that can be
/// named, and what the texts come to, on the average. POM Reference, "Properties"; the order of look-up and of refusals
/// is a project rule.
#[tactic(auto, unfolding(crate::specs::Filling::fill))]
pub fn fill(
    alloc: Global,
    raw: &RawModel,
    basedir: Option<&Text>,
    machine: &Machine,
    defines: &[Pair],
) -> Result<RawModel, ModelError>
    ensures { Says (fill raw.now (option_copied basedir.entry) machine.now defines.now) result }
{
    let list = named(alloc, raw, basedir, machine, defines)?;
    let mut filler = Filler::of(alloc, list)?;
    match filled(alloc, &mut filler, raw) {
        Ok(model) => Ok(model),
        Err(fault) => Err(in_pom(raw, fault)),
    }
}
