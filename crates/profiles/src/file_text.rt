//! The paths of an activation's file criteria, with their expressions filled.

ghost use Rattle.std.specs.Prelude.{◌≡◌, ◌++◌, [], List as Items, ℕ, codes, flat_map, option_map, unwrap_or, IfOk, OnOk};
ghost use Rattle.mvn_base.specs.Paths.{joined};
ghost use Rattle.std.specs.String.{string_bytes};
ghost use Rattle.interpolation.specs.declared.part.Part.TheVariants as variants;
ghost use Rattle.profiles.specs.FileTexts.{basedir_of, below_root, filled, filled_part, path_of};
ghost use Rattle.profiles.specs.Known.{known_value};
ghost use Rattle.profiles.specs.Lookups.{behind};

use crate::lookup::{Known, behind};
use interpolation::{Part, parts};
use mvn_base::joined;
use mvn_shared::{Mem, Text};
use std::alloc::Global;

/// The folder of a POM as a path of the system, by the root and by the folder from the root on. Costs both texts. POM
/// Reference, "Properties".
pub fn basedir_of(alloc: Global, root: &Text, folder: &Text) -> Mem<Text>
    ensures { IfOk result (λ basedir. basedir ≡ basedir_of root.now folder.now) }
{
    let mut basedir = String::from_str(alloc, root.as_str())?;
    if !folder.is_empty() {
        basedir.push('/')?;
        basedir.push_str(folder.as_str())?;
    }
    Ok(Text::of(basedir))
}

// An expression as it is written, after a text.
fn push_written(text: &mut String, name: &str) -> Mem<()>
    ensures { OnOk result (string_bytes text.new
        ≡ string_bytes text.old ++ codes "${" ++ name.now ++ codes "}") }
{
    text.push_str("${")?;
    text.push_str(name)?;
    text.push('}')?;
    Ok(())
}

// The value of an expression, after a text.
fn push_name(
    alloc: Global,
    text: &mut String,
    basedir: &Text,
    known: &Known,
    name: &Text,
) -> Mem<()>
    ensures { OnOk result (string_bytes text.new ≡ string_bytes text.old
        ++ filled_part basedir.now (known_value known.now) (variants.Name name.now)) }
{
    if name.as_str() == "basedir" {
        text.push_str(basedir.as_str())?;
        return Ok(());
    }
    match known.value(alloc, name)? {
        Some(value) => {
            text.push_str(value.as_str())?;
            Ok(())
        }
        None => push_written(text, name.as_str()),
    }
}

// A part, after a text.
fn push_part(
    alloc: Global,
    text: &mut String,
    basedir: &Text,
    known: &Known,
    part: &Part,
) -> Mem<()>
    ensures { OnOk result (string_bytes text.new ≡ string_bytes text.old
        ++ filled_part basedir.now (known_value known.now) part.now) }
{
    match part {
        Part::Plain(plain) => {
            text.push_str(plain.as_str())?;
            Ok(())
        }
        Part::Name(name) => push_name(alloc, text, basedir, known, name),
    }
}

// All parts.
fn filled_parts(alloc: Global, basedir: &Text, known: &Known, list: &[Part]) -> Mem<Text>
    ensures { IfOk result (λ text. text
        ≡ flat_map (filled_part basedir.now (known_value known.now)) list.now) }
{
    let mut text = String::new(alloc);
    for part in list {
        push_part(alloc, &mut text, basedir, known, part)?;
    }
    Ok(Text::of(text))
}

// A text without what its front says of the POM's folder.
fn without_front<'a>(text: &'a str) -> &'a str
    ensures { result.now ≡ unwrap_or (behind (codes "${basedir}/") text.now) text.now }
{
    let Some(rest) = behind("${basedir}/", text) else {
        return text;
    };
    rest
}

/// A text, filled once. Costs its length and that of the values.
pub(crate) fn filled(alloc: Global, basedir: &Text, known: &Known, text: &Text) -> Mem<Text>
    ensures { IfOk result (λ whole. whole ≡ filled basedir.now (known_value known.now) text.now) }
{
    let text = Text::from_str(alloc, without_front(text.as_str()))?;
    let list = parts(alloc, &text)?;
    filled_parts(alloc, basedir, known, list.as_slice())
}

// A path, followed from the root on.
fn from_root(alloc: Global, path: &str) -> Mem<Text>
    ensures { IfOk result (λ end. end ≡ joined [] path.now) }
{
    let path = Text::from_str(alloc, path)?;
    let root = Text::of(String::new(alloc));
    joined(alloc, &root, &path)
}

// What stands after the beginning of a text, followed from the root on.
fn joined_behind(alloc: Global, front: &str, text: &str) -> Mem<Option<Text>>
    ensures { IfOk result (λ path. path ≡ option_map (joined []) (behind front.now text.now)) }
{
    match behind(front, text) {
        Some(rest) => Ok(Some(from_root(alloc, rest)?)),
        None => Ok(None),
    }
}

// An absolute path in the project, from its root on.
fn below_root(alloc: Global, root: &Text, text: &Text) -> Mem<Option<Text>>
    ensures { IfOk result (λ path. path ≡ below_root root.now text.now) }
{
    if text == root {
        return Ok(Some(Text::of(String::new(alloc))));
    }
    let front = format!(in alloc; "{root}/")?;
    joined_behind(alloc, front.as_str(), text.as_str())
}

/// The path that a filled text names, from the project's root on. Costs its length.
pub(crate) fn path_of(alloc: Global, root: &Text, folder: &Text, text: &Text) -> Mem<Option<Text>>
    ensures { IfOk result (λ path. path ≡ path_of root.now folder.now text.now) }
{
    if behind("/", text.as_str()).is_some() {
        return below_root(alloc, root, text);
    }
    Ok(Some(joined(alloc, folder, text)?))
}
