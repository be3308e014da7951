//! Texts and lists that are stated, or else inherited.

ghost use Rattle.std.specs.Prelude.{◌≡◌, IfOk};
ghost use Rattle.std.specs.Option.{option_or};
ghost use Rattle.model_merge.specs.Stated.{stated_or};

use mvn_shared::{List, Mem, Text};

/// A text that is stated, or else the inherited one. Costs it. POM Reference, "Inheritance".
pub fn stated(own: &Option<Text>, inherited: &Option<Text>) -> Mem<Option<Text>>
    ensures { IfOk result (λ text. text ≡ option_or own.now inherited.now) }
{
    match own {
        Some(text) => Ok(Some(text.clone()?)),
        None => Ok(inherited.clone()?),
    }
}

/// A list that states something, or else the inherited one. Costs it. POM Reference, "Inheritance".
pub fn stated_list(own: &List<Text>, inherited: &List<Text>) -> Mem<List<Text>>
    ensures { IfOk result (λ list. list ≡ stated_or own.now inherited.now) }
{
    if own.as_slice().is_empty() {
        Ok(inherited.clone()?)
    } else {
        Ok(own.clone()?)
    }
}
