//! How the groups of a model are filled: coordinates, folders, plugins and what profiles may state.

ghost use Rattle.std.specs.Prelude.{◌≡◌, List as Items, [], IfOk};
ghost use Rattle.mvn_base.specs.declared.machine.Pair as pairs;
ghost use Rattle.interpolation.specs.Filling.{fill_base, fill_build, fill_build_base, fill_coordinates, fill_outputs, fill_sources, with_items};
ghost use Rattle.interpolation.specs.Tables.{Gives, IsTable};

use crate::beside::beside;
use crate::items::{Fill, Stand, fill_each, fill_texts, name_if, text_if};
use crate::{FillFault, Filler};
use model_types::{Build, BuildBase, Coordinates, Dependency, ModelBase, Outputs, Sources};
use mvn_base::Pair;
use mvn_shared::{List, Mem, Shared};
use std::alloc::Global;

impl Stand for Coordinates {
    fn stands(&self) -> bool {
        false
    }
}

impl Fill for Coordinates {
    ghost filled = { fill_coordinates };

    #[tactic(auto, unfolding(crate::specs::Filling::fill_coordinates))]
    fn fill(&self, alloc: Global, filler: &mut Filler) -> Result<Coordinates, FillFault> {
        let group = name_if(alloc, filler, "groupId", &self.group)?;
        let named = beside(group, filler.name(alloc, "artifactId", &self.artifact))?;
        let key = beside(named, name_if(alloc, filler, "version", &self.version))?;
        let all = beside(key, filler.text(alloc, "packaging", &self.packaging))?;
        let (((group, artifact), version), packaging) = all;
        Ok(Coordinates {
            group,
            artifact,
            version,
            packaging,
        })
    }
}

impl Stand for Outputs {
    fn stands(&self) -> bool {
        false
    }
}

impl Fill for Outputs {
    ghost filled = { fill_outputs };

    #[tactic(auto, unfolding(crate::specs::Filling::fill_outputs))]
    fn fill(&self, alloc: Global, filler: &mut Filler) -> Result<Outputs, FillFault> {
        let directory = text_if(alloc, filler, "directory", &self.directory)?;
        let main = beside(
            directory,
            text_if(alloc, filler, "outputDirectory", &self.output),
        )?;
        let folders = beside(
            main,
            text_if(alloc, filler, "testOutputDirectory", &self.test_output),
        )?;
        let all = beside(
            folders,
            text_if(alloc, filler, "finalName", &self.final_name),
        )?;
        let (((directory, output), test_output), final_name) = all;
        Ok(Outputs {
            directory,
            output,
            test_output,
            final_name,
        })
    }
}

impl Stand for Sources {
    fn stands(&self) -> bool {
        false
    }
}

impl Fill for Sources {
    ghost filled = { fill_sources };

    #[tactic(auto, unfolding(crate::specs::Filling::fill_sources))]
    fn fill(&self, alloc: Global, filler: &mut Filler) -> Result<Sources, FillFault> {
        let source = text_if(alloc, filler, "sourceDirectory", &self.source)?;
        let sources = beside(
            source,
            text_if(alloc, filler, "testSourceDirectory", &self.test_source),
        )?;
        let main = beside(
            sources,
            fill_texts(alloc, filler, "directory", &self.resources),
        )?;
        let all = beside(
            main,
            fill_texts(alloc, filler, "directory", &self.test_resources),
        )?;
        let (((source, test_source), resources), test_resources) = all;
        Ok(Sources {
            source,
            test_source,
            resources,
            test_resources,
        })
    }
}

impl Stand for BuildBase {
    fn stands(&self) -> bool {
        false
    }
}

impl Fill for BuildBase {
    ghost filled = { fill_build_base };

    #[tactic(auto, unfolding(crate::specs::Filling::fill_build_base))]
    fn fill(&self, alloc: Global, filler: &mut Filler) -> Result<BuildBase, FillFault> {
        let managed_plugins = fill_each(alloc, filler, &self.managed_plugins)?;
        let plugins = fill_each(alloc, filler, &self.plugins)?;
        Ok(BuildBase {
            plugins,
            managed_plugins,
        })
    }
}

// These items in the place of a base's own; its modules stay as they are.
fn with_items(
    alloc: Global,
    base: &ModelBase,
    properties: List<Pair>,
    managed: List<Shared<Dependency>>,
    dependencies: List<Shared<Dependency>>,
) -> Mem<Shared<ModelBase>>
    ensures { IfOk result (λ filled. filled ≡ with_items base.now properties managed dependencies) }
{
    let modules = base.modules.clone()?;
    let filled = ModelBase {
        modules,
        properties,
        managed,
        dependencies,
    };
    Shared::new(alloc, filled)
}

/// What is managed and the dependencies with their texts filled, beside properties that are filled already. Costs what
/// these come to.
#[tactic(auto, unfolding(crate::specs::Filling::fill_base))]
pub(crate) fn fill_base(
    alloc: Global,
    filler: &mut Filler,
    base: &ModelBase,
    properties: List<Pair>,
) -> Result<Shared<ModelBase>, FillFault>
    ensures { (known : Items pairs.Pair) → IsTable known [] filler.old
        → Gives known (fill_base known base.now properties) filler.new result }
{
    let managed = fill_each(alloc, filler, &base.managed)?;
    let dependencies = fill_each(alloc, filler, &base.dependencies)?;
    let filled = with_items(alloc, base, properties, managed, dependencies)?;
    Ok(filled)
}

/// The plugins and extensions with their texts filled, beside folders and a final name that are filled already. Costs
/// what these come to.
#[tactic(auto, unfolding(crate::specs::Filling::fill_build))]
pub(crate) fn fill_build(
    alloc: Global,
    filler: &mut Filler,
    build: &Build,
    outputs: Shared<Outputs>,
    sources: Shared<Sources>,
) -> Result<Shared<Build>, FillFault>
    ensures { (known : Items pairs.Pair) → IsTable known [] filler.old
        → Gives known (fill_build known build.now outputs sources) filler.new result }
{
    let base = build.base.fill(alloc, filler)?;
    let extensions = fill_each(alloc, filler, &build.extensions)?;
    let build = Build {
        outputs,
        sources,
        base,
        extensions,
    };
    let filled = Shared::new(alloc, build)?;
    Ok(filled)
}
