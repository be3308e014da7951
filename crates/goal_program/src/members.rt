// Looking into a JSON value.
ghost use Rattle.std.specs.Prelude.{◌≡◌};
ghost use Rattle.std.specs.Option.{option_map};
ghost use Rattle.serde_json.specs.View.{view};
ghost use Rattle.goal_types.specs.Answers.{keys_of};
ghost use Rattle.goal_program.specs.Members.{text_at, items_at, views, number_in};

use serde_json::Value;

/// How many members an object has; nothing else has any.
pub(crate) fn keys_of(value: &Value) -> usize
    ensures { result ≡ keys_of (view value.now) }
{
    match value.as_object() {
        Some(members) => members.len(),
        None => 0,
    }
}

/// The text under a key.
pub(crate) fn text_at<'a>(value: &'a Value, key: &str) -> Option<&'a str>
    ensures { option_map (λ text. text.now) result ≡ text_at key.now (view value.now) }
{
    value.get(key).and_then(Value::as_str)
}

/// The items of the array under a key.
#[tactic(auto, using(crate::proofs::Arrays::items_found))]
pub(crate) fn items_at<'a>(value: &'a Value, key: &str) -> Option<&'a [Value]>
    ensures { option_map (λ items. views items.now) result ≡ items_at key.now (view value.now) }
{
    match value.get(key).and_then(Value::as_array) {
        Some(items) => Some(items.as_slice()),
        None => None,
    }
}

/// A number without a sign and a fraction.
pub(crate) fn number_in(value: &Value) -> Option<u64>
    ensures { result ≡ number_in (view value.now) }
{
    value.as_u64()
}
