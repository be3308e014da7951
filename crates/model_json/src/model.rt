//! A whole model as JSON.

ghost use Rattle.std.specs.Prelude.{◌≡◌, fold, IfOk, OnOk};
ghost use Rattle.serde_json.specs.Data.{no_members};
ghost use Rattle.serde_json.specs.View.{members_view, view};
ghost use Rattle.model_json.specs.ModelJson.{base_members, build_data, build_members, coordinate_members, model_data, model_json, output_members, parent_at, properties_data, property_at, source_members};

use crate::item::{Item, list_of};
use crate::object::{Members, put_maybe, put_text, put_value};
use model_types::{Build, Model, Outputs, Sources};
use mvn_base::{Gav, Pair};
use mvn_shared::{Bytes, Mem, Shared};
use serde_json::{Map, Value};
use std::alloc::Global;

// Where a build puts what it makes.
#[tactic(auto, unfolding(crate::specs::ModelJson::output_members))]
fn put_outputs(ms: &mut Members, alloc: Global, o: &Outputs) -> Mem<()>
    ensures { OnOk result (members_view ms.new.entries
        ≡ output_members o.now (members_view ms.old.entries)) }
{
    put_maybe(ms, alloc, "directory", &o.directory)?;
    put_maybe(ms, alloc, "finalName", &o.final_name)?;
    put_maybe(ms, alloc, "outputDirectory", &o.output)?;
    put_maybe(ms, alloc, "testOutputDirectory", &o.test_output)
}

// Where a build finds what it reads.
#[tactic(auto, unfolding(crate::specs::ModelJson::source_members))]
fn put_sources(ms: &mut Members, alloc: Global, s: &Sources) -> Mem<()>
    ensures { OnOk result (members_view ms.new.entries
        ≡ source_members s.now (members_view ms.old.entries)) }
{
    let resources = list_of(alloc, s.resources.as_slice())?;
    put_value(ms, alloc, "resources", resources)?;
    put_maybe(ms, alloc, "sourceDirectory", &s.source)?;
    let test_resources = list_of(alloc, s.test_resources.as_slice())?;
    put_value(ms, alloc, "testResources", test_resources)?;
    put_maybe(ms, alloc, "testSourceDirectory", &s.test_source)
}

fn build_value(alloc: Global, b: &Build) -> Mem<Value>
    ensures { IfOk result (λ value. view value ≡ build_data b.now) }
{
    let mut ms = Map::new(alloc);
    put_outputs(&mut ms, alloc, &b.outputs)?;
    put_sources(&mut ms, alloc, &b.sources)?;
    Ok(Value::Object(ms))
}

// The members of properties.
fn property_members(alloc: Global, pairs: &[Pair]) -> Mem<Members>
    ensures { IfOk result (λ ms. members_view ms.entries ≡ fold property_at no_members pairs.now) }
{
    let mut ms = Map::new(alloc);
    for pair in pairs {
        put_text(&mut ms, alloc, pair.name.as_str(), &pair.value)?;
    }
    Ok(ms)
}

fn properties_value(alloc: Global, pairs: &[Pair]) -> Mem<Value>
    ensures { IfOk result (λ value. view value ≡ properties_data pairs.now) }
{
    Ok(Value::Object(property_members(alloc, pairs)?))
}

fn put_parent(ms: &mut Members, alloc: Global, parent: &Option<Shared<Gav>>) -> Mem<()>
    ensures { OnOk result (members_view ms.new.entries
        ≡ parent_at parent.now (members_view ms.old.entries)) }
{
    match parent {
        Some(gav) => {
            let value = gav.value().value(alloc)?;
            put_value(ms, alloc, "parent", value)
        }
        None => Ok(()),
    }
}

#[tactic(auto, unfolding(crate::specs::ModelJson::coordinate_members))]
fn put_coordinates(ms: &mut Members, alloc: Global, m: &Model) -> Mem<()>
    ensures { OnOk result (members_view ms.new.entries
        ≡ coordinate_members m.now (members_view ms.old.entries)) }
{
    put_parent(ms, alloc, &m.parent)?;
    put_text(ms, alloc, "artifactId", &m.gav.artifact)?;
    put_text(ms, alloc, "groupId", &m.gav.group)?;
    put_text(ms, alloc, "packaging", &m.packaging)?;
    put_text(ms, alloc, "version", &m.gav.version)
}

#[tactic(auto, unfolding(crate::specs::ModelJson::base_members))]
fn put_base(ms: &mut Members, alloc: Global, m: &Model) -> Mem<()>
    ensures { OnOk result (members_view ms.new.entries
        ≡ base_members m.now (members_view ms.old.entries)) }
{
    let dependencies = list_of(alloc, m.base.dependencies.as_slice())?;
    put_value(ms, alloc, "dependencies", dependencies)?;
    let managed = list_of(alloc, m.base.managed.as_slice())?;
    put_value(ms, alloc, "managed", managed)?;
    let modules = list_of(alloc, m.base.modules.as_slice())?;
    put_value(ms, alloc, "modules", modules)?;
    let properties = properties_value(alloc, m.base.properties.as_slice())?;
    put_value(ms, alloc, "properties", properties)
}

#[tactic(auto, unfolding(crate::specs::ModelJson::build_members))]
fn put_build(ms: &mut Members, alloc: Global, m: &Model) -> Mem<()>
    ensures { OnOk result (members_view ms.new.entries
        ≡ build_members m.now (members_view ms.old.entries)) }
{
    let build = build_value(alloc, &m.build)?;
    put_value(ms, alloc, "build", build)?;
    let extensions = list_of(alloc, m.build.extensions.as_slice())?;
    put_value(ms, alloc, "extensions", extensions)?;
    let managed = list_of(alloc, m.build.base.managed_plugins.as_slice())?;
    put_value(ms, alloc, "pluginManagement", managed)?;
    let plugins = list_of(alloc, m.build.base.plugins.as_slice())?;
    put_value(ms, alloc, "plugins", plugins)
}

fn model_value(alloc: Global, m: &Model) -> Mem<Value>
    ensures { IfOk result (λ value. view value ≡ model_data m.now) }
{
    let mut ms = Map::new(alloc);
    put_coordinates(&mut ms, alloc, m)?;
    put_base(&mut ms, alloc, m)?;
    put_build(&mut ms, alloc, m)?;
    Ok(Value::Object(ms))
}

/// An effective model as compact JSON, the keys of each object in byte order. An optional value that is absent is left out, and so is a
/// configuration without settings; every other list is there. Costs what it writes, and the sorting of keys. Project rule.
pub fn write_model_json(alloc: Global, model: &Model) -> Mem<Bytes>
    ensures { IfOk result (λ bytes. bytes ≡ model_json model.now) }
{
    let value = model_value(alloc, model)?;
    Ok(Bytes::of(value.to_string(alloc)?.into_bytes()))
}
