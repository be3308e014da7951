//! A goal's request as bytes: what a goal in a program of its own reads, and what the built-in goals digest.

ghost use Rattle.std.specs.Prelude.{◌≡◌, ◌++◌, List, map, flat_map, codes, IfOk, OnOk};
ghost use Rattle.std.specs.String.{string_bytes};
ghost use Rattle.serde_json.specs.Data.{string, put as with_member};
ghost use Rattle.serde_json.specs.View.{view, items_view, items_of, members_view};
ghost use Rattle.serde_json.specs.Written.{compact_text};
ghost use Rattle.mvn_base.specs.Phase.{phase_name};
ghost use Rattle.goal_types.specs.Goals.{HasOwnSlots};
ghost use Rattle.goal_types.specs.Requests.{setting_object, setting_data, slot_name, counted, list_data, source_data, own_data, count_data, entry_data, entry_bytes, plugin_text, request_object, request_data, request_line, request_text};

use crate::goal::{GoalCall, GoalRequest, OwnBytes, PathEntry, Slot, SourceFile};
use mvn_base::Setting;
use mvn_shared::{Bytes, Mem};
use serde_json::{Map, Value, json, put};
use std::alloc::{AllocError, Global};

impl Slot {
    /// The word for it in requests.
    pub fn name(self) -> &'static str
        ensures { result.now ≡ slot_name self }
    {
        match self {
            Slot::Nowhere => "nowhere",
            Slot::Pom => "pom",
            Slot::Classes => "classes",
            Slot::TestClasses => "test-classes",
            Slot::Main => "main",
            Slot::Tests => "tests",
            Slot::Sources => "sources",
            Slot::Javadoc => "javadoc",
        }
    }
}

// A setting of these children.
fn setting_object(
    alloc: Global,
    name: &str,
    text: &str,
    children: Value,
) -> Result<Value, AllocError>
    ensures { IfOk result (λ value. view value ≡ setting_object name.now text.now (view children)) }
{
    json!(in alloc; {"children": children, "name": name, "text": text})
}

// A setting with its children.
#[cycle(setting)]
fn setting_value(alloc: Global, setting: &Setting) -> Mem<Value>
    ensures { IfOk result (λ value. view value ≡ setting_data setting.now) }
{
    let children = Value::Array(setting_values(alloc, setting.children.as_slice())?);
    let name = setting.name.as_str();
    let text = setting.text.as_str();
    Ok(setting_object(alloc, name, text, children)?)
}

#[cycle(setting)]
fn setting_values(alloc: Global, settings: &[Setting]) -> Mem<Vec<Value>>
    ensures { IfOk result (λ values. map view values.items ≡ map setting_data settings.now) }
{
    let mut values = Vec::with_capacity(alloc, settings.len())?;
    for setting in settings {
        values.push(setting_value(alloc, setting)?)?;
    }
    Ok(values)
}

// A name, and how many bytes stand for it.
fn counted(alloc: Global, name: &str, count: Value) -> Result<Value, AllocError>
    ensures { IfOk result (λ value. view value ≡ counted name.now (view count)) }
{
    json!(in alloc; [name, count])
}

// A source's path, and how many bytes it has.
fn source_value(alloc: Global, source: &SourceFile) -> Mem<Value>
    ensures { IfOk result (λ value. view value ≡ source_data source.now) }
{
    let count = Value::from(source.bytes.len() as u64);
    Ok(counted(alloc, source.path.as_str(), count)?)
}

fn source_values(alloc: Global, sources: &[SourceFile]) -> Mem<Vec<Value>>
    ensures { IfOk result (λ values. map view values.items ≡ map source_data sources.now) }
{
    let mut values = Vec::with_capacity(alloc, sources.len())?;
    for source in sources {
        values.push(source_value(alloc, source)?)?;
    }
    Ok(values)
}

// An output's slot, and how many bytes it has.
fn own_value(alloc: Global, output: &OwnBytes) -> Mem<Value>
    ensures { IfOk result (λ value. view value ≡ own_data output.now) }
{
    let count = Value::from(output.bytes.len() as u64);
    Ok(counted(alloc, output.slot.name(), count)?)
}

fn own_values(alloc: Global, own: &[OwnBytes]) -> Mem<Vec<Value>>
    ensures { IfOk result (λ values. map view values.items ≡ map own_data own.now) }
{
    let mut values = Vec::with_capacity(alloc, own.len())?;
    for output in own {
        values.push(own_value(alloc, output)?)?;
    }
    Ok(values)
}

// How many bytes an entry has; null where it has none.
fn count_value(bytes: &Option<Bytes>) -> Value
    ensures { view result ≡ count_data bytes.now }
{
    match bytes {
        Some(bytes) => Value::from(bytes.len() as u64),
        None => Value::Null,
    }
}

// An entry's name, and how many bytes it has.
fn entry_value(alloc: Global, entry: &PathEntry) -> Mem<Value>
    ensures { IfOk result (λ value. view value ≡ entry_data entry.now) }
{
    let count = count_value(&entry.bytes);
    Ok(counted(alloc, entry.name.as_text().as_str(), count)?)
}

fn entry_values(alloc: Global, entries: &[PathEntry]) -> Mem<Vec<Value>>
    ensures { IfOk result (λ values. map view values.items ≡ map entry_data entries.now) }
{
    let mut values = Vec::with_capacity(alloc, entries.len())?;
    for entry in entries {
        values.push(entry_value(alloc, entry)?)?;
    }
    Ok(values)
}

// The plugin: group, artifact and version.
fn plugin_text(alloc: Global, call: &GoalCall) -> Mem<String>
    ensures { IfOk result (λ text. string_bytes text ≡ plugin_text call.now) }
{
    let group = &call.group;
    let artifact = &call.artifact;
    let version = &call.version;
    Ok(format!(in alloc; "{group}:{artifact}:{version}")?)
}

// A text under a key.
fn put_text(map: &mut Map<String, Value>, alloc: Global, key: &str, text: &str) -> Mem<()>
    ensures { OnOk result (members_view map.new.entries
        ≡ with_member key.now (string text.now) (members_view map.old.entries)) }
{
    let value = Value::try_from_str(alloc, text)?;
    Ok(put(map, alloc, key, value)?)
}

// The sources under their key.
fn put_sources(map: &mut Map<String, Value>, alloc: Global, sources: &[SourceFile]) -> Mem<()>
    ensures { OnOk result (members_view map.new.entries
        ≡ with_member (codes "sources") (list_data source_data sources.now)
        (members_view map.old.entries)) }
{
    let values = Value::Array(source_values(alloc, sources)?);
    Ok(put(map, alloc, "sources", values)?)
}

// The kept outputs under their key.
fn put_own(map: &mut Map<String, Value>, alloc: Global, own: &[OwnBytes]) -> Mem<()>
    ensures { OnOk result (members_view map.new.entries
        ≡ with_member (codes "own") (list_data own_data own.now)
        (members_view map.old.entries)) }
{
    let values = Value::Array(own_values(alloc, own)?);
    Ok(put(map, alloc, "own", values)?)
}

// The classpath under its key.
fn put_classpath(map: &mut Map<String, Value>, alloc: Global, entries: &[PathEntry]) -> Mem<()>
    ensures { OnOk result (members_view map.new.entries
        ≡ with_member (codes "classpath") (list_data entry_data entries.now)
        (members_view map.old.entries)) }
{
    let values = Value::Array(entry_values(alloc, entries)?);
    Ok(put(map, alloc, "classpath", values)?)
}

// The configuration under its key.
fn put_configuration(map: &mut Map<String, Value>, alloc: Global, settings: &[Setting]) -> Mem<()>
    ensures { OnOk result (members_view map.new.entries
        ≡ with_member (codes "configuration") (list_data setting_data settings.now)
        (members_view map.old.entries)) }
{
    let values = Value::Array(setting_values(alloc, settings)?);
    Ok(put(map, alloc, "configuration", values)?)
}

// The members of a request's line after `groupId`, the last first.
fn put_last(
    map: &mut Map<String, Value>,
    alloc: Global,
    request: &GoalRequest,
    plugin: &str,
) -> Mem<()>
    ensures { OnOk result (members_view map.new.entries
        ≡ with_member (codes "own") (list_data own_data request.now.own) (
        with_member (codes "phase") (string (phase_name request.now.call.phase)) (
        with_member (codes "plugin") (string plugin.now) (
        with_member (codes "sources") (list_data source_data request.now.sources) (
        with_member (codes "version") (string request.now.module.version)
        (members_view map.old.entries)))))) }
{
    put_text(map, alloc, "version", request.module.version.as_str())?;
    put_sources(map, alloc, request.sources.as_slice())?;
    put_text(map, alloc, "plugin", plugin)?;
    put_text(map, alloc, "phase", request.call.phase.name())?;
    put_own(map, alloc, request.own.as_slice())
}

// The members of a request's line up to `groupId`, the last first.
fn put_first(map: &mut Map<String, Value>, alloc: Global, request: &GoalRequest) -> Mem<()>
    ensures { OnOk result (members_view map.new.entries
        ≡ with_member (codes "artifactId") (string request.now.module.artifact) (
        with_member (codes "classpath") (list_data entry_data request.now.classpath) (
        with_member (codes "configuration")
        (list_data setting_data request.now.call.configuration) (
        with_member (codes "execution") (string request.now.call.execution) (
        with_member (codes "goal") (string request.now.call.goal) (
        with_member (codes "groupId") (string request.now.module.group)
        (members_view map.old.entries))))))) }
{
    put_text(map, alloc, "groupId", request.module.group.as_str())?;
    put_text(map, alloc, "goal", request.call.goal.as_str())?;
    put_text(map, alloc, "execution", request.call.execution.as_str())?;
    put_configuration(map, alloc, request.call.configuration.as_slice())?;
    put_classpath(map, alloc, request.classpath.as_slice())?;
    put_text(map, alloc, "artifactId", request.module.artifact.as_str())
}

// The line of a request, as a JSON value.
#[tactic(auto, unfolding(crate::specs::Requests::request_object))]
fn request_value(alloc: Global, request: &GoalRequest) -> Mem<Value>
    ensures { IfOk result (λ value. view value ≡ request_data request.now) }
{
    let plugin = plugin_text(alloc, &request.call)?;
    let mut map = Map::new(alloc);
    put_last(&mut map, alloc, request, plugin.as_str())?;
    put_first(&mut map, alloc, request)?;
    Ok(Value::Object(map))
}

/// The line that a request begins with: compact JSON, and a line feed. Project rule. Costs the time and
/// memory of what it gives.
pub fn request_line(alloc: Global, request: &GoalRequest) -> Mem<Bytes>
    ensures { IfOk result (λ line. line ≡ request_line request.now) }
{
    let value = request_value(alloc, request)?;
    let mut bytes = value.to_string(alloc)?.into_bytes();
    bytes.push(b'\n')?;
    Ok(Bytes::of(bytes))
}

fn push_sources(bytes: &mut Vec<u8>, sources: &[SourceFile]) -> Mem<()>
    ensures { OnOk result
        (bytes.new.items ≡ bytes.old.items ++ flat_map (λ s. s.bytes) sources.now) }
{
    for source in sources {
        bytes.extend_from_slice(source.bytes.as_slice())?;
    }
    Ok(())
}

fn push_own(bytes: &mut Vec<u8>, own: &[OwnBytes]) -> Mem<()>
    ensures { OnOk result (bytes.new.items ≡ bytes.old.items ++ flat_map (λ o. o.bytes) own.now) }
{
    for output in own {
        bytes.extend_from_slice(output.bytes.as_slice())?;
    }
    Ok(())
}

fn push_entries(bytes: &mut Vec<u8>, entries: &[PathEntry]) -> Mem<()>
    ensures { OnOk result
        (bytes.new.items ≡ bytes.old.items ++ flat_map (λ e. entry_bytes e.bytes) entries.now) }
{
    for entry in entries {
        if let Some(found) = &entry.bytes {
            bytes.extend_from_slice(found.as_slice())?;
        }
    }
    Ok(())
}

/// A goal's request as bytes: one line of compact JSON, a line feed, and the bytes of the sources, of the module's own
/// outputs and of the entries of the classpath. Project rule. Costs the time and memory of what it gives.
pub fn request_bytes(alloc: Global, request: &GoalRequest) -> Mem<Bytes>
    requires { HasOwnSlots request.now.own }
    ensures { IfOk result (λ bytes. bytes ≡ request_text request.now) }
{
    let mut bytes = request_line(alloc, request)?.into_vec();
    push_sources(&mut bytes, request.sources.as_slice())?;
    push_own(&mut bytes, request.own.as_slice())?;
    push_entries(&mut bytes, request.classpath.as_slice())?;
    Ok(Bytes::of(bytes))
}
