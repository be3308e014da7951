//! The items of lists as JSON: texts, coordinates, dependencies, executions and plugins.

ghost use Rattle.std.specs.Prelude.{◌≡◌, map, IfOk, OnOk};
ghost use Rattle.serde_json.specs.Data.{no_members};
ghost use Rattle.serde_json.specs.View.{members_view, view};
ghost use Rattle.goal_types.specs.Requests.{list_data};
ghost use Rattle.model_json.specs.ModelJson.{dependency_members, execution_members, key_members, plugin_members};

use crate::object::{Members, put_maybe, put_text, put_value};
use crate::setting::put_configuration;
use model_types::{Dependency, Exclusion, Execution, Plugin};
use mvn_base::Gav;
use mvn_shared::{Mem, Shared, Text};
use serde_json::{Map, Value};
use std::alloc::Global;

/// What is written as a JSON value.
pub(crate) trait Item: Sized {
    ghost use Rattle.serde_json.specs.Data.{Data};

    /// The JSON value of the item.
    ghost json: { Self → Data };

    fn value(&self, alloc: Global) -> Mem<Value>
        ensures { IfOk result (λ value. view value ≡ json self.now) };
}

// The values of items.
fn values_of<T: Item>(alloc: Global, items: &[T]) -> Mem<Vec<Value>>
    ensures { IfOk result (λ values. map view values.items ≡ map T.json items.now) }
{
    let mut values = Vec::with_capacity(alloc, items.len())?;
    for item in items {
        values.push(item.value(alloc)?)?;
    }
    Ok(values)
}

/// A list of items.
pub(crate) fn list_of<T: Item>(alloc: Global, items: &[T]) -> Mem<Value>
    ensures { IfOk result (λ value. view value ≡ list_data T.json items.now) }
{
    Ok(Value::Array(values_of(alloc, items)?))
}

impl<T: Item> Item for Shared<T> {
    ghost json = { T.json };

    fn value(&self, alloc: Global) -> Mem<Value> {
        Shared::value(self).value(alloc)
    }
}

impl Item for Text {
    ghost use Rattle.serde_json.specs.Data.{string};

    ghost json = { string };

    fn value(&self, alloc: Global) -> Mem<Value> {
        Ok(Value::try_from_str(alloc, self.as_str())?)
    }
}

impl Item for Gav {
    ghost use Rattle.model_json.specs.ModelJson.{gav_data};

    ghost json = { gav_data };

    fn value(&self, alloc: Global) -> Mem<Value> {
        Ok(Value::String(format!(in alloc; "{self}")?))
    }
}

impl Item for Exclusion {
    ghost use Rattle.model_json.specs.ModelJson.{exclusion_data};

    ghost json = { exclusion_data };

    fn value(&self, alloc: Global) -> Mem<Value> {
        let group = &self.group;
        let artifact = &self.artifact;
        Ok(Value::String(format!(in alloc; "{group}:{artifact}")?))
    }
}

// What tells a dependency from others.
#[tactic(auto, unfolding(crate::specs::ModelJson::key_members))]
fn put_key(ms: &mut Members, alloc: Global, d: &Dependency) -> Mem<()>
    ensures { OnOk result (members_view ms.new.entries
        ≡ key_members d.now (members_view ms.old.entries)) }
{
    put_text(ms, alloc, "artifactId", &d.artifact)?;
    put_text(ms, alloc, "classifier", &d.classifier)?;
    put_text(ms, alloc, "groupId", &d.group)?;
    put_text(ms, alloc, "type", &d.kind)
}

#[tactic(auto, unfolding(crate::specs::ModelJson::dependency_members))]
fn dependency_members(alloc: Global, d: &Dependency) -> Mem<Members>
    ensures { IfOk result (λ ms. members_view ms.entries ≡ dependency_members d.now) }
{
    let mut ms = Map::new(alloc);
    put_key(&mut ms, alloc, d)?;
    let exclusions = list_of(alloc, d.exclusions.as_slice())?;
    put_value(&mut ms, alloc, "exclusions", exclusions)?;
    let optional = Value::Bool(d.optional.as_str() == "true");
    put_value(&mut ms, alloc, "optional", optional)?;
    put_maybe(&mut ms, alloc, "scope", &d.scope)?;
    put_maybe(&mut ms, alloc, "version", &d.version)?;
    Ok(ms)
}

impl Item for Dependency {
    ghost use Rattle.model_json.specs.ModelJson.{dependency_data};

    ghost json = { dependency_data };

    fn value(&self, alloc: Global) -> Mem<Value> {
        Ok(Value::Object(dependency_members(alloc, self)?))
    }
}

#[tactic(auto, unfolding(crate::specs::ModelJson::execution_members))]
fn execution_members(alloc: Global, e: &Execution) -> Mem<Members>
    ensures { IfOk result (λ ms. members_view ms.entries ≡ execution_members e.now) }
{
    let mut ms = Map::new(alloc);
    put_configuration(&mut ms, alloc, e.configuration.as_slice())?;
    let goals = list_of(alloc, e.goals.as_slice())?;
    put_value(&mut ms, alloc, "goals", goals)?;
    put_text(&mut ms, alloc, "id", &e.id)?;
    put_maybe(&mut ms, alloc, "phase", &e.phase)?;
    Ok(ms)
}

impl Item for Execution {
    ghost use Rattle.model_json.specs.ModelJson.{execution_data};

    ghost json = { execution_data };

    fn value(&self, alloc: Global) -> Mem<Value> {
        Ok(Value::Object(execution_members(alloc, self)?))
    }
}

#[tactic(auto, unfolding(crate::specs::ModelJson::plugin_members))]
fn plugin_members(alloc: Global, p: &Plugin) -> Mem<Members>
    ensures { IfOk result (λ ms. members_view ms.entries ≡ plugin_members p.now) }
{
    let mut ms = Map::new(alloc);
    put_text(&mut ms, alloc, "artifactId", &p.artifact)?;
    put_configuration(&mut ms, alloc, p.configuration.as_slice())?;
    let dependencies = list_of(alloc, p.dependencies.as_slice())?;
    put_value(&mut ms, alloc, "dependencies", dependencies)?;
    let executions = list_of(alloc, p.executions.as_slice())?;
    put_value(&mut ms, alloc, "executions", executions)?;
    put_text(&mut ms, alloc, "groupId", &p.group)?;
    put_maybe(&mut ms, alloc, "version", &p.version)?;
    Ok(ms)
}

impl Item for Plugin {
    ghost use Rattle.model_json.specs.ModelJson.{plugin_data};

    ghost json = { plugin_data };

    fn value(&self, alloc: Global) -> Mem<Value> {
        Ok(Value::Object(plugin_members(alloc, self)?))
    }
}
