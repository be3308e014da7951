// Expressions, values by name, and paths.
use interpolation::{Part, Values, parts};
use mvn_base::{Pair, joined};
use mvn_shared::{List, Mem, Text};
use row_fields::word;
use std::alloc::Global;

fn push_text(shown: &mut String, front: &str, text: &Text, back: &str) -> Mem<()> {
    shown.push_str(front)?;
    shown.push_str(text.as_str())?;
    shown.push_str(back)?;
    Ok(())
}

fn push_part(shown: &mut String, part: &Part) -> Mem<()> {
    match part {
        Part::Plain(text) => push_text(shown, "", text, "|"),
        Part::Name(name) => push_text(shown, "<", name, ">|"),
    }
}

fn push_parts(shown: &mut String, parts: &[Part]) -> Mem<()> {
    for part in parts {
        push_part(shown, part)?;
    }
    Ok(())
}

fn shown_parts(alloc: Global, parts: &[Part]) -> Mem<String> {
    let mut shown = String::new(alloc);
    push_parts(&mut shown, parts)?;
    Ok(shown)
}

// The parts of a text, an expression in angle brackets, each with a bar after it.
fn split(alloc: Global, text: &Text) -> Mem<String> {
    let parts = parts(alloc, text)?;
    shown_parts(alloc, parts.as_slice())
}

fn pair(alloc: Global, name: &str, value: &str) -> Mem<Pair> {
    let name = Text::from_str(alloc, name)?;
    let value = Text::from_str(alloc, value)?;
    Ok(Pair { name, value })
}

fn push_pairs(alloc: Global, pairs: &mut List<Pair>, texts: &[Text]) -> Mem<()> {
    for text in texts {
        if let Some((name, value)) = text.as_str().split_once('=') {
            pairs.push(pair(alloc, name, value)?)?;
        }
    }
    Ok(())
}

// The values of texts that have an `=` between a name and its value.
fn values(alloc: Global, texts: &[Text]) -> Mem<Values> {
    let mut pairs = List::new(alloc);
    push_pairs(alloc, &mut pairs, texts)?;
    Values::of(alloc, pairs.as_slice())
}

// The value of a name among such pairs.
fn value(alloc: Global, name: &Text, texts: &[Text]) -> Mem<String> {
    let values = values(alloc, texts)?;
    match values.get(name) {
        Some(value) => word(alloc, value.as_str()),
        None => word(alloc, "none"),
    }
}

// A path in a folder.
fn path(alloc: Global, folder: &Text, path: &Text) -> Mem<String> {
    word(alloc, joined(alloc, folder, path)?.as_str())
}

/// What is told of a row of expressions or paths.
pub(crate) fn told(alloc: Global, kind: &str, texts: &[Text]) -> Mem<String> {
    match (kind, texts) {
        ("parts", [text]) => split(alloc, text),
        ("value", [name, texts @ ..]) => value(alloc, name, texts),
        ("path", [folder, below]) => path(alloc, folder, below),
        _ => word(alloc, "no such row"),
    }
}
