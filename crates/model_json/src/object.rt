//! The members of a JSON object, put in by their keys.

ghost use Rattle.std.specs.Prelude.{◌≡◌, OnOk};
ghost use Rattle.serde_json.specs.Data.{put as with_member};
ghost use Rattle.serde_json.specs.View.{members_view, view};
ghost use Rattle.model_json.specs.ModelJson.{maybe_at, text_at};

use mvn_shared::{Mem, Text};
use serde_json::{Map, Value, put};
use std::alloc::Global;

/// The members of an object.
pub(crate) type Members = Map<String, Value>;

/// A value under a key, in place of another.
pub(crate) fn put_value(ms: &mut Members, alloc: Global, key: &str, value: Value) -> Mem<()>
    ensures { OnOk result (members_view ms.new.entries
        ≡ with_member key.now (view value) (members_view ms.old.entries)) }
{
    Ok(put(ms, alloc, key, value)?)
}

/// A text under a key.
pub(crate) fn put_text(ms: &mut Members, alloc: Global, key: &str, text: &Text) -> Mem<()>
    ensures { OnOk result (members_view ms.new.entries
        ≡ text_at key.now text.now (members_view ms.old.entries)) }
{
    let value = Value::try_from_str(alloc, text.as_str())?;
    Ok(put(ms, alloc, key, value)?)
}

/// A text under a key, if there is one.
pub(crate) fn put_maybe(ms: &mut Members, alloc: Global, key: &str, text: &Option<Text>) -> Mem<()>
    ensures { OnOk result (members_view ms.new.entries
        ≡ maybe_at key.now text.now (members_view ms.old.entries)) }
{
    match text {
        Some(text) => put_text(ms, alloc, key, text),
        None => Ok(()),
    }
}
