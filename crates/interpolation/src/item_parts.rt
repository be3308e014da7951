//! The texts of an item that say which artifact is meant and how it is used, filled.

ghost use Rattle.std.specs.Prelude.{List as Items, []};
ghost use Rattle.mvn_base.specs.declared.machine.Pair as pairs;
ghost use Rattle.interpolation.specs.Filling.{fill_key, fill_usage};
ghost use Rattle.interpolation.specs.Tables.{Gives, IsTable};

use crate::beside::beside;
use crate::items::name_if;
use crate::{FillFault, Filler};
use model_types::Dependency;
use mvn_shared::Text;
use std::alloc::Global;

/// Which artifact an item means.
#[derive(Drop)]
pub(crate) struct ItemKey {
    pub(crate) group: Text,
    pub(crate) artifact: Text,
    pub(crate) version: Option<Text>,
}

/// Which file of an artifact a dependency means, and how it is used.
#[derive(Drop)]
pub(crate) struct Usage {
    pub(crate) kind: Text,
    pub(crate) classifier: Text,
    pub(crate) scope: Option<Text>,
    pub(crate) optional: Text,
}

/// The texts that say which artifact is meant, filled.
#[tactic(auto, unfolding(crate::specs::Filling::fill_key))]
pub(crate) fn fill_key(
    alloc: Global,
    filler: &mut Filler,
    group: &Text,
    artifact: &Text,
    version: &Option<Text>,
) -> Result<ItemKey, FillFault>
    ensures { (known : Items pairs.Pair) → IsTable known [] filler.old
        → Gives known (fill_key known group.now artifact.now version.now) filler.new result }
{
    let group = filler.name(alloc, "groupId", group)?;
    let named = beside(group, filler.name(alloc, "artifactId", artifact))?;
    let all = beside(named, name_if(alloc, filler, "version", version))?;
    let ((group, artifact), version) = all;
    Ok(ItemKey {
        group,
        artifact,
        version,
    })
}

/// The texts that say how a dependency is used, filled.
#[tactic(auto, unfolding(crate::specs::Filling::fill_usage))]
pub(crate) fn fill_usage(
    alloc: Global,
    filler: &mut Filler,
    dependency: &Dependency,
) -> Result<Usage, FillFault>
    ensures { (known : Items pairs.Pair) → IsTable known [] filler.old
        → Gives known (fill_usage known dependency.now) filler.new result }
{
    let kind = filler.name(alloc, "type", &dependency.kind)?;
    let file = beside(
        kind,
        filler.name(alloc, "classifier", &dependency.classifier),
    )?;
    let used = beside(file, name_if(alloc, filler, "scope", &dependency.scope))?;
    let all = beside(used, filler.text(alloc, "optional", &dependency.optional))?;
    let (((kind, classifier), scope), optional) = all;
    Ok(Usage {
        kind,
        classifier,
        scope,
        optional,
    })
}
