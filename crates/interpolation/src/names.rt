//! All that an expression of a model can name, from what counts least on.

ghost use Rattle.std.specs.Prelude.{◌≡◌, ◌++◌, [], OnOk, IfOk};
ghost use Rattle.std.specs.Option.{option_copied};
ghost use Rattle.interpolation.specs.Named.{behind, build_fields, coordinate_fields, field, fields, named, named_with, output_fields, own_fields, parent_fields, source_fields};

use model_types::{Build, Outputs, Parent, RawModel, Sources};
use mvn_base::{Gav, Machine, Pair};
use mvn_shared::{List, Mem, Shared, Text};
use std::alloc::Global;

// A name with its text, where there is one, after a list.
fn push_field(alloc: Global, list: &mut List<Pair>, name: &str, text: Option<&Text>) -> Mem<()>
    ensures { OnOk result (list.new ≡ list.old ++ field name.now (option_copied text.entry)) }
{
    let Some(text) = text else {
        return Ok(());
    };
    let name = Text::from_str(alloc, name)?;
    let value = text.clone()?;
    list.push(Pair { name, value })
}

// The names that stand alone, after a list.
fn push_own(alloc: Global, list: &mut List<Pair>, raw: &RawModel, basedir: Option<&Text>) -> Mem<()>
    ensures { OnOk result
        (list.new ≡ list.old ++ own_fields raw.now (option_copied basedir.entry)) }
{
    push_field(alloc, list, "basedir", basedir)?;
    push_field(alloc, list, "groupId", raw.coordinates.group.as_ref())?;
    push_field(alloc, list, "artifactId", Some(&raw.coordinates.artifact))?;
    push_field(alloc, list, "version", raw.coordinates.version.as_ref())
}

// A parent's coordinate, after a list.
fn push_coordinate(alloc: Global, list: &mut List<Pair>, gav: &Gav) -> Mem<()>
    ensures { OnOk result (list.new ≡ list.old ++ coordinate_fields gav.now) }
{
    push_field(alloc, list, "parent.groupId", Some(&gav.group))?;
    push_field(alloc, list, "parent.artifactId", Some(&gav.artifact))?;
    push_field(alloc, list, "parent.version", Some(&gav.version))
}

// The parent's coordinate, where there is one.
fn push_parent(alloc: Global, list: &mut List<Pair>, parent: &Option<Shared<Parent>>) -> Mem<()>
    ensures { OnOk result (list.new ≡ list.old ++ parent_fields parent.now) }
{
    match parent {
        Some(parent) => push_coordinate(alloc, list, &parent.gav),
        None => Ok(()),
    }
}

// The folders that a build fills, and its name, after a list.
fn push_outputs(alloc: Global, list: &mut List<Pair>, outputs: &Outputs) -> Mem<()>
    ensures { OnOk result (list.new ≡ list.old ++ output_fields outputs.now) }
{
    push_field(alloc, list, "build.directory", outputs.directory.as_ref())?;
    push_field(
        alloc,
        list,
        "build.outputDirectory",
        outputs.output.as_ref(),
    )?;
    push_field(
        alloc,
        list,
        "build.testOutputDirectory",
        outputs.test_output.as_ref(),
    )?;
    push_field(alloc, list, "build.finalName", outputs.final_name.as_ref())
}

// The folders that a build reads, after a list.
fn push_sources(alloc: Global, list: &mut List<Pair>, sources: &Sources) -> Mem<()>
    ensures { OnOk result (list.new ≡ list.old ++ source_fields sources.now) }
{
    push_field(
        alloc,
        list,
        "build.sourceDirectory",
        sources.source.as_ref(),
    )?;
    push_field(
        alloc,
        list,
        "build.testSourceDirectory",
        sources.test_source.as_ref(),
    )
}

// The folders and the name of a build, after a list.
fn push_build(alloc: Global, list: &mut List<Pair>, build: &Build) -> Mem<()>
    ensures { OnOk result (list.new ≡ list.old ++ build_fields build.now) }
{
    push_outputs(alloc, list, &build.outputs)?;
    push_sources(alloc, list, &build.sources)
}

// The fields of a model.
fn fields(alloc: Global, raw: &RawModel, basedir: Option<&Text>) -> Mem<List<Pair>>
    ensures { IfOk result (λ list. list ≡ fields raw.now (option_copied basedir.entry)) }
{
    let mut list = List::new(alloc);
    push_own(alloc, &mut list, raw, basedir)?;
    push_field(
        alloc,
        &mut list,
        "packaging",
        Some(&raw.coordinates.packaging),
    )?;
    push_parent(alloc, &mut list, &raw.parent)?;
    push_build(alloc, &mut list, &raw.build)?;
    Ok(list)
}

// A name after a front.
fn behind(alloc: Global, front: &str, pair: &Pair) -> Mem<Pair>
    ensures { IfOk result (λ p.
        p ≡ record { name = front.now ++ pair.now.name; value = pair.now.value }) }
{
    let mut name = String::with_capacity(alloc, front.len().saturating_add(pair.name.len()))?;
    name.push_str(front)?;
    name.push_str(pair.name.as_str())?;
    let value = pair.value.clone()?;
    Ok(Pair {
        name: Text::of(name),
        value,
    })
}

// Names after a front, after a list.
fn push_behind(alloc: Global, list: &mut List<Pair>, front: &str, pairs: &[Pair]) -> Mem<()>
    ensures { OnOk result (list.new ≡ list.old ++ behind front.now pairs.now) }
{
    for pair in pairs {
        list.push(behind(alloc, front, pair)?)?;
    }
    Ok(())
}

// Names as they are, after a list.
fn push_all(list: &mut List<Pair>, pairs: &[Pair]) -> Mem<()>
    ensures { OnOk result (list.new ≡ list.old ++ pairs.now) }
{
    for pair in pairs {
        let name = pair.name.clone()?;
        let value = pair.value.clone()?;
        list.push(Pair { name, value })?;
    }
    Ok(())
}

/// More names than the fields of a model have, alone and after both fronts.
const FIELDS: usize = 32;

// An empty list, with room for what can be named.
fn with_room(alloc: Global, raw: &RawModel, machine: &Machine, defines: &[Pair]) -> Mem<List<Pair>>
    ensures { IfOk result (λ list. list ≡ []) }
{
    let room = machine
        .system
        .len()
        .saturating_add(machine.env.len())
        .saturating_add(raw.base.properties.len())
        .saturating_add(defines.len())
        .saturating_add(FIELDS);
    Ok(List::of(Vec::with_capacity(alloc, room)?))
}

// All that can be named in a model of these fields, after a list.
#[tactic(auto, unfolding(crate::specs::Named::named_with))]
fn push_named(
    alloc: Global,
    list: &mut List<Pair>,
    raw: &RawModel,
    basedir: Option<&Text>,
    machine: &Machine,
    defines: &[Pair],
    fields: &[Pair],
) -> Mem<()>
    ensures { OnOk result (list.new ≡ list.old
        ++ named_with raw.now (option_copied basedir.entry) machine.now defines.now fields.now) }
{
    push_own(alloc, list, raw, basedir)?;
    push_all(list, machine.system.as_slice())?;
    push_behind(alloc, list, "env.", machine.env.as_slice())?;
    push_all(list, raw.base.properties.as_slice())?;
    push_all(list, defines)?;
    push_behind(alloc, list, "pom.", fields)?;
    push_behind(alloc, list, "project.", fields)
}

/// All that can be named in a model, from what counts least on. Costs all of it.
#[tactic(auto, unfolding(crate::specs::Named::named))]
pub fn named(
    alloc: Global,
    raw: &RawModel,
    basedir: Option<&Text>,
    machine: &Machine,
    defines: &[Pair],
) -> Mem<List<Pair>>
    ensures { IfOk result (λ list.
        list ≡ named raw.now (option_copied basedir.entry) machine.now defines.now) }
{
    let fields = fields(alloc, raw, basedir)?;
    let mut list = with_room(alloc, raw, machine, defines)?;
    push_named(
        alloc,
        &mut list,
        raw,
        basedir,
        machine,
        defines,
        fields.as_slice(),
    )?;
    Ok(list)
}
