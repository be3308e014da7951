// The settings of a request's line.
ghost use Rattle.std.specs.Prelude.{◌≡◌, List, Option, IfOk};
ghost use Rattle.serde_json.specs.View.{view};
ghost use Rattle.goal_program.specs.Members.{all_of, views};
ghost use Rattle.goal_program.specs.Settings.{setting_in, most_levels};

use crate::members::{items_at, keys_of, text_at};
use mvn_base::Setting;
use mvn_shared::{List, Mem, Text};
use serde_json::Value;
use std::alloc::Global;

/// More levels than JSON is read with.
const MOST_LEVELS: u32 = 128;

// The setting that a value is, of so many levels at most.
#[tactic(auto, using(crate::proofs::RequestSettings::setting_zero, crate::proofs::RequestSettings::setting_more))]
#[cycle(setting)]
fn setting_in(alloc: Global, levels: u32, value: &Value) -> Mem<Option<Setting>>
    ensures { IfOk result (λ found. found ≡ setting_in levels (view value.now)) }
{
    if levels == 0 || keys_of(value) != 3 {
        return Ok(None);
    }
    let (Some(name), Some(text), Some(items)) = (
        text_at(value, "name"),
        text_at(value, "text"),
        items_at(value, "children"),
    ) else {
        return Ok(None);
    };
    let Some(children) = settings_in(alloc, levels - 1, items)? else {
        return Ok(None);
    };
    let name = Text::from_str(alloc, name)?;
    let text = Text::from_str(alloc, text)?;
    Ok(Some(Setting {
        name,
        text,
        children,
    }))
}

// The settings that values are, where each is one.
#[tactic(auto, using(crate::proofs::RequestSettings::preceded_none, crate::proofs::RequestSettings::all_more, crate::proofs::RequestSettings::all_none))]
#[cycle(setting)]
fn settings_in(alloc: Global, levels: u32, values: &[Value]) -> Mem<Option<List<Setting>>>
    ensures { IfOk result (λ found. found ≡ all_of (setting_in levels) (views values.now)) }
{
    let mut settings = List::new(alloc);
    for value in values {
        match setting_in(alloc, levels, value)? {
            Some(setting) => settings.push(setting)?,
            None => return Ok(None),
        }
    }
    Ok(Some(settings))
}

/// The settings of a configuration, where each value is one.
pub(crate) fn configuration_in(alloc: Global, values: &[Value]) -> Mem<Option<List<Setting>>>
    ensures { IfOk result (λ found. found ≡ all_of (setting_in most_levels) (views values.now)) }
{
    settings_in(alloc, MOST_LEVELS, values)
}
