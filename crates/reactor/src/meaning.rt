//! Which modules a selector of the command line means.

ghost use Rattle.std.specs.Prelude.{◌≡◌, ◌<◌, ◌++◌, [], length, flat_map, IfOk};
ghost use Rattle.cli_words.specs.declared.command_line.Word as entries;
ghost use Rattle.reactor_order.specs.Graph.{AreBelow};
ghost use Rattle.reactor.specs.Meaning.{is_coordinate, is_meant, is_place, meant};
ghost use Rattle.reactor.specs.Selection.{or_unknown, unknown};
ghost use Rattle.mvn_base.specs.Paths.{joined};

use cli_words::Word;
use model_types::Model;
use mvn_base::{Gav, PomId, joined};
use mvn_shared::{Mem, Shared, Text};
use std::alloc::Global;

// Whether a text is `group:artifact` or `:artifact` of coordinates.
fn is_coordinate(alloc: Global, text: &Text, gav: &Gav) -> Mem<bool>
    ensures { IfOk result (λ is. is ≡ is_coordinate text.now gav.now) }
{
    let group = &gav.group;
    let artifact = &gav.artifact;
    let whole = format!(in alloc; "{group}:{artifact}")?;
    let short = format!(in alloc; ":{artifact}")?;
    Ok(text.as_str() == whole.as_str() || text.as_str() == short.as_str())
}

// Whether a path is that of a POM, or of its folder.
fn is_place(alloc: Global, path: &Text, pom: &PomId) -> Mem<bool>
    ensures { IfOk result (λ is. is ≡ is_place path.now pom.now) }
{
    match pom {
        PomId::Path(pom) => {
            let folder = joined(alloc, pom, &Text::from_str(alloc, "..")?)?;
            Ok(path.as_str() == pom.as_str() || path.as_str() == folder.as_str())
        }
        PomId::Gav(_) => Ok(false),
    }
}

// Whether a selector, whose path is this one, means a module.
#[tactic(auto, unfolding(crate::specs::Meaning::is_meant))]
fn is_meant(alloc: Global, text: &Text, path: &Text, m: &Model) -> Mem<bool>
    requires { path.now ≡ joined [] text.now }
    ensures { IfOk result (λ is. is ≡ is_meant text.now m.now) }
{
    if is_coordinate(alloc, text, &m.gav)? {
        return Ok(true);
    }
    is_place(alloc, path, &m.pom)
}

// The path that a selector names.
fn path_of(alloc: Global, text: &Text) -> Mem<Text>
    ensures { IfOk result (λ path. path ≡ joined [] text.now) }
{
    joined(alloc, &Text::from_str(alloc, "")?, text)
}

/// The numbers of the modules that a selector means. Costs their names, for each selector.
pub(crate) fn meant(alloc: Global, modules: &[Shared<Model>], text: &Text) -> Mem<Vec<u32>>
    requires { length modules.now < 4294967296 }
    ensures { IfOk result (λ numbers. numbers.items ≡ meant modules.now text.now) }
{
    let path = path_of(alloc, text)?;
    let mut numbers = Vec::new(alloc);
    for number in 0..modules.len() {
        if is_meant(alloc, text, &path, &modules[number])? {
            numbers.push(number as u32)?;
        }
    }
    Ok(numbers)
}

// The place that is known, or that of a word if this means no module and stands first.
fn or_unknown(numbers: &[u32], place: Option<usize>, word: &Word) -> Option<usize>
    ensures { result ≡ or_unknown numbers.now place word.now }
{
    if !numbers.is_empty() {
        return place;
    }
    match place {
        Some(other) => Some(other.min(word.place)),
        None => Some(word.place),
    }
}

/// The first place of a word that means no module, or a place that is known. Costs the modules, for each word.
pub(crate) fn unknown(
    alloc: Global,
    modules: &[Shared<Model>],
    place: Option<usize>,
    words: &[Word],
) -> Mem<Option<usize>>
    requires { length modules.now < 4294967296 }
    ensures { IfOk result (λ found. found ≡ unknown modules.now place words.now) }
{
    let mut found = place;
    for word in words {
        let numbers = meant(alloc, modules, &word.text)?;
        found = or_unknown(&numbers, found, word);
    }
    Ok(found)
}

// The modules that words mean, one word's after another's.
fn meant_by(alloc: Global, modules: &[Shared<Model>], words: &[Word]) -> Mem<Vec<u32>>
    requires { length modules.now < 4294967296 }
    ensures { IfOk result (λ numbers. numbers.items
        ≡ flat_map (λ (w : entries.Word). meant modules.now w.text) words.now) }
{
    let mut numbers = Vec::new(alloc);
    for word in words {
        let mut more = meant(alloc, modules, &word.text)?;
        numbers.append(&mut more)?;
    }
    Ok(numbers)
}

/// The modules that words mean, one word's after another's; each is a module's number. Costs the modules, for each
/// word.
pub(crate) fn all_meant(alloc: Global, modules: &[Shared<Model>], words: &[Word]) -> Mem<Vec<u32>>
    requires { length modules.now < 4294967296 }
    ensures value { IfOk result (λ numbers. numbers.items
        ≡ flat_map (λ (w : entries.Word). meant modules.now w.text) words.now) }
    ensures below { IfOk result (λ numbers. AreBelow (length modules.now) numbers.items) }
{
    let numbers = meant_by(alloc, modules, words)?;
    Ok(numbers)
}
