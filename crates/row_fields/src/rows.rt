// The fields of a row.
ghost use Rattle.std.specs.Prelude.{◌≡◌, ◌++◌, nat_eq, map, All, IsUtf8, IfOk, OnOk, IsErrOf};
ghost use Rattle.std.specs.List.{slice_split};
ghost use Rattle.row_fields.specs.Spelling.{fields, unescaped};

use crate::escapes::unescaped;
use mvn_shared::{Bytes, List, Mem, Text, TextError};
use std::alloc::{AllocError, Global};

// The parts of a row between spaces.
fn by_space<'a>(alloc: Global, row: &'a str) -> Result<Vec<&'a str>, AllocError>
    ensures { IfOk result (λ parts.
        map (λ x. x.now) parts.items ≡ slice_split (λ b. nat_eq b 32) row.now) }
{
    row.split(' ').collect(alloc)
}

// The bytes of each field.
fn bytes_of(alloc: Global, parts: &[&str]) -> Mem<Vec<Bytes>>
    ensures { IfOk result (λ list. list.items ≡ map unescaped (map (λ x. x.now) parts.now)) }
{
    let mut fields = Vec::new(alloc);
    for part in parts {
        fields.push(unescaped(alloc, *part)?)?;
    }
    Ok(fields)
}

/// The fields of a row, with a space between two of them; an empty row has none. Costs what `unescaped` costs for each. Project rule.
#[tactic(auto, unfolding(crate::specs::Spelling::fields))]
pub fn fields(alloc: Global, row: &str) -> Mem<Vec<Bytes>>
    ensures { IfOk result (λ list. list.items ≡ fields row.now) }
{
    if row.is_empty() {
        return Ok(Vec::new(alloc));
    }
    bytes_of(alloc, by_space(alloc, row)?.as_slice())
}

// Bytes as texts.
fn texts_of(alloc: Global, fields: &[Bytes]) -> Result<List<Text>, TextError>
    ensures texts { IfOk result (λ texts. texts ≡ fields.now) }
    ensures utf8 { OnOk result (All IsUtf8 fields.now) }
    ensures not_utf8 { IsErrOf result TextError.NotUtf8 → ¬ (All IsUtf8 fields.now) }
{
    let mut texts = List::new(alloc);
    for field in fields {
        match Text::from_slice(alloc, field.as_slice()) {
            Ok(text) => texts.push(text)?,
            Err(TextError::NotUtf8) => return Err(TextError::NotUtf8),
            Err(TextError::Memory) => return Err(TextError::Memory),
        }
    }
    Ok(texts)
}

/// The fields of a row as texts: refused exactly where one of them isn't UTF-8. Costs what `fields` costs, and a copy. Project rule.
pub fn texts(alloc: Global, row: &str) -> Result<List<Text>, TextError>
    ensures texts { IfOk result (λ texts. texts ≡ fields row.now) }
    ensures utf8 { OnOk result (All IsUtf8 (fields row.now)) }
    ensures not_utf8 { IsErrOf result TextError.NotUtf8 → ¬ (All IsUtf8 (fields row.now)) }
{
    let fields = fields(alloc, row)?;
    texts_of(alloc, fields.as_slice())
}
