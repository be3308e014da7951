//! `Fill` and `Stand`: what has texts that are filled, and which of them stand as they are written.

ghost use Rattle.std.specs.Prelude.{◌≡◌, List as Items, []};
ghost use Rattle.std.specs.List.{list_all};
ghost use Rattle.mvn_base.specs.declared.machine.Pair as pairs;
ghost use Rattle.interpolation.specs.Filling.{dependency_of, each, fill_dependency, fill_exclusion, fill_execution, fill_extension, fill_plugin, fill_property, fill_setting, if_there};
ghost use Rattle.interpolation.specs.Texts.{name_of, text_of};
ghost use Rattle.interpolation.specs.Stands.{dependency_stands, exclusion_stands, plugin_stands, stands_if};
ghost use Rattle.interpolation.specs.Tables.{Gives, IsTable};
ghost use Rattle.interpolation.specs.KnownValues.{Filled};

use crate::beside::beside;
use crate::item_parts::{ItemKey, Usage, fill_key, fill_usage};
use crate::settings::fill_configuration;
use crate::{FillFault, Filler, stands};
use model_types::{Dependency, Exclusion, Execution, Plugin};
use mvn_base::{Gav, Pair};
use mvn_shared::{List, Shared, Text};
use std::alloc::Global;

/// What has texts that are filled.
pub(crate) trait Fill: Sized + Drop {
    ghost use Rattle.std.specs.Prelude.{List as Items, []};
    ghost use Rattle.mvn_base.specs.declared.machine.Pair.{Pair};
    ghost use Rattle.interpolation.specs.KnownValues.{Filled};
    ghost use Rattle.interpolation.specs.Tables.{Gives, IsTable};

    /// The item with its texts filled, by what can be named.
    ghost filled: { Items Pair → Self → Filled Self };

    fn fill(&self, alloc: Global, filler: &mut Filler) -> Result<Self, FillFault>
        ensures { (known : Items Pair) → IsTable known [] filler.old
            → Gives known (filled known self.now) filler.new result };
}

/// What has texts that are filled, and says whether all of them surely stand as they are written.
pub(crate) trait Stand: Fill {
    ghost use Rattle.std.specs.Prelude.{◌≡◌, List as Items, true, Ok};
    ghost use Rattle.mvn_base.specs.declared.machine.Pair.{Pair};

    /// Whether it is what it is filled with anything that can be named. It may be so without being said.
    fn stands(&self) -> bool
        ensures { result ≡ true → (known : Items Pair) → Self.filled known self.now ≡ Ok self.now };
}

/// All of some, with their texts filled. Costs what these come to.
pub(crate) fn fill_each<T: Fill>(
    alloc: Global,
    filler: &mut Filler,
    items: &List<T>,
) -> Result<List<T>, FillFault>
    ensures { (known : Items pairs.Pair) → IsTable known [] filler.old
        → Gives known (each (T.filled known) items.now) filler.new result }
{
    let mut list = items.emptied()?;
    for item in items.as_slice() {
        match item.fill(alloc, filler) {
            Ok(item) => list.push(item)?,
            Err(fault) => return Err(fault),
        }
    }
    Ok(list)
}

/// The texts of elements of one name.
pub(crate) fn fill_texts(
    alloc: Global,
    filler: &mut Filler,
    element: &str,
    texts: &List<Text>,
) -> Result<List<Text>, FillFault>
    ensures { (known : Items pairs.Pair) → IsTable known [] filler.old
        → Gives known (each (text_of known element.now) texts.now) filler.new result }
{
    let mut list = List::new(alloc);
    for text in texts.as_slice() {
        match filler.text(alloc, element, text) {
            Ok(text) => list.push(text)?,
            Err(fault) => return Err(fault),
        }
    }
    Ok(list)
}

/// The text of an element that may be missing.
pub(crate) fn text_if(
    alloc: Global,
    filler: &mut Filler,
    element: &str,
    text: &Option<Text>,
) -> Result<Option<Text>, FillFault>
    ensures { (known : Items pairs.Pair) → IsTable known [] filler.old
        → Gives known (if_there (text_of known element.now) text.now) filler.new result }
{
    match text {
        Some(text) => match filler.text(alloc, element, text) {
            Ok(text) => Ok(Some(text)),
            Err(fault) => Err(fault),
        },
        None => Ok(None),
    }
}

/// The text of an element that may be missing, in which no expression may be left.
pub(crate) fn name_if(
    alloc: Global,
    filler: &mut Filler,
    element: &str,
    text: &Option<Text>,
) -> Result<Option<Text>, FillFault>
    ensures { (known : Items pairs.Pair) → IsTable known [] filler.old
        → Gives known (if_there (name_of known element.now) text.now) filler.new result }
{
    match text {
        Some(text) => match filler.name(alloc, element, text) {
            Ok(text) => Ok(Some(text)),
            Err(fault) => Err(fault),
        },
        None => Ok(None),
    }
}

// Whether a text that may be missing stands as it is written.
fn stands_if(text: &Option<Text>) -> bool
    ensures { result ≡ stands_if text.now }
{
    match text {
        Some(text) => stands(text),
        None => true,
    }
}

// Whether the texts of each of some exclusions stand.
fn exclusions_stand(exclusions: &[Exclusion]) -> bool
    ensures { result ≡ list_all exclusion_stands exclusions.now }
{
    exclusions.iter().all(|exclusion| stands(&exclusion.group) && stands(&exclusion.artifact))
}

// Whether the texts of a dependency stand.
fn dependency_stands(dependency: &Dependency) -> bool
    ensures { result ≡ dependency_stands dependency.now }
{
    stands(&dependency.group)
        && stands(&dependency.artifact)
        && stands_if(&dependency.version)
        && stands(&dependency.kind)
        && stands(&dependency.classifier)
        && stands_if(&dependency.scope)
        && stands(&dependency.optional)
        && exclusions_stand(dependency.exclusions.as_slice())
}

// Whether the texts of each of some dependencies stand.
fn dependencies_stand(dependencies: &[Shared<Dependency>]) -> bool
    ensures { result ≡ list_all dependency_stands dependencies.now }
{
    dependencies
        .iter()
        .all(|dependency| dependency_stands(dependency))
}

// Whether the texts of a plugin stand, which has no executions and no configuration.
fn plugin_stands(plugin: &Plugin) -> bool
    ensures { result ≡ plugin_stands plugin.now }
{
    stands(&plugin.group)
        && stands(&plugin.artifact)
        && stands_if(&plugin.version)
        && dependencies_stand(plugin.dependencies.as_slice())
        && plugin.executions.len() == 0
        && plugin.configuration.len() == 0
}

impl Stand for Dependency {
    #[tactic(auto, using(crate::proofs::Standing::dependency_stood))]
    fn stands(&self) -> bool {
        dependency_stands(self)
    }
}

impl Stand for Plugin {
    #[tactic(auto, using(crate::proofs::Standing::plugin_stood))]
    fn stands(&self) -> bool {
        plugin_stands(self)
    }
}

impl Stand for Execution {
    fn stands(&self) -> bool {
        false
    }
}

/// What stands as it is written is shared.
impl<T: Stand> Fill for Shared<T> {
    ghost filled = { T.filled };

    fn fill(&self, alloc: Global, filler: &mut Filler) -> Result<Shared<T>, FillFault> {
        let item = self.value();
        if item.stands() {
            return Ok(self.share()?);
        }
        match item.fill(alloc, filler) {
            Ok(item) => Ok(Shared::new(alloc, item)?),
            Err(fault) => Err(fault),
        }
    }
}

impl Fill for Pair {
    ghost filled = { fill_property };

    #[tactic(auto, unfolding(crate::specs::Filling::fill_property))]
    fn fill(&self, alloc: Global, filler: &mut Filler) -> Result<Pair, FillFault> {
        let name = self.name.clone()?;
        match filler.text(alloc, name.as_str(), &self.value) {
            Ok(value) => Ok(Pair { name, value }),
            Err(fault) => Err(fault),
        }
    }
}

impl Fill for Exclusion {
    ghost filled = { fill_exclusion };

    #[tactic(auto, unfolding(crate::specs::Filling::fill_exclusion))]
    fn fill(&self, alloc: Global, filler: &mut Filler) -> Result<Exclusion, FillFault> {
        let group = filler.name(alloc, "groupId", &self.group)?;
        let artifact = filler.name(alloc, "artifactId", &self.artifact)?;
        Ok(Exclusion { group, artifact })
    }
}

impl Fill for Gav {
    ghost filled = { fill_extension };

    #[tactic(auto, unfolding(crate::specs::Filling::fill_extension))]
    fn fill(&self, alloc: Global, filler: &mut Filler) -> Result<Gav, FillFault> {
        let group = filler.name(alloc, "groupId", &self.group)?;
        let artifact = filler.name(alloc, "artifactId", &self.artifact)?;
        let version = filler.name(alloc, "version", &self.version)?;
        Ok(Gav {
            group,
            artifact,
            version,
        })
    }
}

// A dependency of these parts.
fn dependency_of(key: ItemKey, usage: Usage, exclusions: List<Exclusion>) -> Dependency
    ensures { result ≡ dependency_of key usage exclusions }
{
    let ItemKey {
        group,
        artifact,
        version,
    } = key;
    let Usage {
        kind,
        classifier,
        scope,
        optional,
    } = usage;
    Dependency {
        group,
        artifact,
        version,
        kind,
        classifier,
        scope,
        optional,
        exclusions,
    }
}

impl Fill for Dependency {
    ghost filled = { fill_dependency };

    #[tactic(auto, unfolding(crate::specs::Filling::fill_dependency))]
    fn fill(&self, alloc: Global, filler: &mut Filler) -> Result<Dependency, FillFault> {
        let key = fill_key(alloc, filler, &self.group, &self.artifact, &self.version)?;
        let parts = beside(key, fill_usage(alloc, filler, self))?;
        let all = beside(parts, fill_each(alloc, filler, &self.exclusions))?;
        let ((key, usage), exclusions) = all;
        Ok(dependency_of(key, usage, exclusions))
    }
}

impl Fill for Execution {
    ghost filled = { fill_execution };

    #[tactic(auto, unfolding(crate::specs::Filling::fill_execution))]
    fn fill(&self, alloc: Global, filler: &mut Filler) -> Result<Execution, FillFault> {
        let id = filler.text(alloc, "id", &self.id)?;
        let bound = beside(id, text_if(alloc, filler, "phase", &self.phase))?;
        let runs = beside(bound, fill_texts(alloc, filler, "goal", &self.goals))?;
        let all = beside(runs, fill_configuration(alloc, filler, &self.configuration))?;
        let (((id, phase), goals), configuration) = all;
        Ok(Execution {
            id,
            phase,
            goals,
            inherited: self.inherited,
            configuration,
        })
    }
}

impl Fill for Plugin {
    ghost filled = { fill_plugin };

    #[tactic(auto, unfolding(crate::specs::Filling::fill_plugin))]
    fn fill(&self, alloc: Global, filler: &mut Filler) -> Result<Plugin, FillFault> {
        let key = fill_key(alloc, filler, &self.group, &self.artifact, &self.version)?;
        let needs = beside(key, fill_each(alloc, filler, &self.dependencies))?;
        let runs = beside(needs, fill_each(alloc, filler, &self.executions))?;
        let all = beside(runs, fill_configuration(alloc, filler, &self.configuration))?;
        let (((key, dependencies), executions), configuration) = all;
        let ItemKey {
            group,
            artifact,
            version,
        } = key;
        Ok(Plugin {
            group,
            artifact,
            version,
            inherited: self.inherited,
            dependencies,
            executions,
            configuration,
        })
    }
}
