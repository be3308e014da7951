//! The settings of a configuration as JSON.

ghost use Rattle.std.specs.Prelude.{◌≡◌, map, IfOk, OnOk};
ghost use Rattle.serde_json.specs.View.{members_view, view};
ghost use Rattle.goal_types.specs.Requests.{setting_data, setting_object};
ghost use Rattle.model_json.specs.ModelJson.{configuration_at};

use crate::object::{Members, put_value};
use mvn_base::Setting;
use mvn_shared::Mem;
use serde_json::{Value, json};
use std::alloc::{AllocError, Global};

// A setting of these children.
fn setting_object(
    alloc: Global,
    name: &str,
    text: &str,
    children: Value,
) -> Result<Value, AllocError>
    ensures { IfOk result (λ value. view value ≡ setting_object name.now text.now (view children)) }
{
    json!(in alloc; {"children": children, "name": name, "text": text})
}

// A setting with its children.
#[cycle(setting)]
fn setting_value(alloc: Global, setting: &Setting) -> Mem<Value>
    ensures { IfOk result (λ value. view value ≡ setting_data setting.now) }
{
    let children = Value::Array(setting_values(alloc, setting.children.as_slice())?);
    let name = setting.name.as_str();
    let text = setting.text.as_str();
    Ok(setting_object(alloc, name, text, children)?)
}

#[cycle(setting)]
fn setting_values(alloc: Global, settings: &[Setting]) -> Mem<Vec<Value>>
    ensures { IfOk result (λ values. map view values.items ≡ map setting_data settings.now) }
{
    let mut values = Vec::with_capacity(alloc, settings.len())?;
    for setting in settings {
        values.push(setting_value(alloc, setting)?)?;
    }
    Ok(values)
}

/// A configuration, unless it is empty.
pub(crate) fn put_configuration(ms: &mut Members, alloc: Global, settings: &[Setting]) -> Mem<()>
    ensures { OnOk result (members_view ms.new.entries
        ≡ configuration_at settings.now (members_view ms.old.entries)) }
{
    if settings.is_empty() {
        return Ok(());
    }
    let values = setting_values(alloc, settings)?;
    put_value(ms, alloc, "configuration", Value::Array(values))
}
