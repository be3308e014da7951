//! The modules that the words of a command line select.

ghost use Rattle.std.specs.Prelude.{◌≡◌, ◌<◌, true, false, None, Some, find, length, IfOk};
ghost use Rattle.std.specs.Option.{MatchOption};
ghost use Rattle.reactor_order.specs.Graph.{AreBelow, AreEdgesBelow, has};
ghost use Rattle.reactor_order.specs.Select.{Selects, from_on};
ghost use Rattle.reactor.specs.Meaning.{meant};
ghost use Rattle.reactor.specs.Selection.{Answers, IsChosen, Resumes, first_meant, naming, resumed, resumed_at, unknown};

use crate::fault::SelectionFault;
use crate::meaning::{all_meant, meant, unknown};
use cli_words::{CommandLine, Word};
use model_types::Model;
use mvn_shared::{List, Mem, Shared};
use reactor_order::select;
use std::alloc::Global;

// The first place of a word that means no module.
#[tactic(auto, using(crate::proofs::Unknown::last_word))]
fn unknown_word(alloc: Global, modules: &[Shared<Model>], line: &CommandLine) -> Mem<Option<usize>>
    requires { length modules.now < 4294967296 }
    ensures { IfOk result (λ place. place ≡ unknown modules.now None (naming line.now)) }
{
    let place = unknown(alloc, modules, None, line.projects.as_slice())?;
    match &line.from {
        Some(word) => unknown(alloc, modules, place, std::slice::from_ref(word)),
        None => Ok(place),
    }
}

// The modules that are built if some are chosen.
fn with_chosen(
    alloc: Global,
    order: &[u32],
    edges: &[(u32, u32)],
    chosen: &[u32],
    line: &CommandLine,
) -> Mem<List<u32>>
    requires long { length order.now < 4294967296 }
    requires order { AreBelow (length order.now) order.now }
    requires edges { AreEdgesBelow (length order.now) edges.now }
    requires chosen { AreBelow (length order.now) chosen.now }
    ensures { IfOk result (λ list. Selects order.now edges.now (Some chosen.now)
        line.now.also_make line.now.also_make_dependents None list) }
{
    let make = line.also_make;
    let dependents = line.also_make_dependents;
    select(alloc, order, edges, Some(chosen), make, dependents, None)
}

// The modules that are built, before any is left out.
#[tactic(auto, using(crate::proofs::Unknown::chosen_is))]
fn whole(
    alloc: Global,
    modules: &[Shared<Model>],
    order: &[u32],
    edges: &[(u32, u32)],
    line: &CommandLine,
) -> Mem<List<u32>>
    requires long { length order.now < 4294967296 }
    requires modules { length order.now ≡ length modules.now }
    requires order { AreBelow (length order.now) order.now }
    requires edges { AreEdgesBelow (length order.now) edges.now }
    ensures { IfOk result (λ list. IsChosen modules.now order.now edges.now line.now list) }
{
    if line.projects.is_empty() {
        let make = line.also_make;
        let dependents = line.also_make_dependents;
        return select(alloc, order, edges, None, make, dependents, None);
    }
    let chosen = all_meant(alloc, modules, line.projects.as_slice())?;
    with_chosen(alloc, order, edges, &chosen, line)
}

// Whether a module is among some.
fn is_among(numbers: &[u32], n: u32) -> bool
    ensures { result ≡ has numbers.now n }
{
    numbers.iter().any(|m| *m == n)
}

// The first module of an order that is among some.
fn first_among(order: &[u32], numbers: &[u32]) -> Option<u32>
    ensures { result ≡ find (λ n. has numbers.now n) order.now }
{
    for n in order {
        if is_among(numbers, *n) {
            return Some(*n);
        }
    }
    None
}

// The first module of an order that a word means.
fn first_meant(
    alloc: Global,
    modules: &[Shared<Model>],
    order: &[u32],
    word: &Word,
) -> Mem<Option<u32>>
    requires { length modules.now < 4294967296 }
    ensures { IfOk result (λ first. first ≡ first_meant modules.now order.now word.now) }
{
    let numbers = meant(alloc, modules, &word.text)?;
    Ok(first_among(order, &numbers))
}

// A list from a module on, if it is there.
fn rest_from(alloc: Global, list: &[u32], n: u32) -> Mem<Option<Vec<u32>>>
    ensures { IfOk result (λ found. MatchOption found (has list.now n ≡ false) (λ rest.
        (has list.now n ≡ true) × (rest.items ≡ from_on (Some n) list.now))) }
{
    for at in 0..list.len() {
        if list[at] == n {
            let rest = Vec::from_slice(alloc, &list[at..])?;
            return Ok(Some(rest));
        }
    }
    Ok(None)
}

// The modules from one on, if it is one of them.
fn resumed_at(
    alloc: Global,
    whole: &List<u32>,
    place: usize,
    first: Option<u32>,
) -> Result<List<u32>, SelectionFault>
    ensures { Resumes (resumed_at whole.now place first) result }
{
    let Some(n) = first else {
        return Err(SelectionFault::Unknown(place));
    };
    match rest_from(alloc, whole.as_slice(), n)? {
        Some(rest) => Ok(List::of(rest)),
        None => Err(SelectionFault::Unknown(place)),
    }
}

// The modules from the one on that a word means.
fn resumed_word(
    alloc: Global,
    modules: &[Shared<Model>],
    order: &[u32],
    whole: &List<u32>,
    word: &Word,
) -> Result<List<u32>, SelectionFault>
    requires { length modules.now < 4294967296 }
    ensures { Resumes (resumed_at whole.now word.now.place
        (first_meant modules.now order.now word.now)) result }
{
    let first = first_meant(alloc, modules, order, word)?;
    resumed_at(alloc, whole, word.place, first)
}

// The modules from the one on that a word may mean.
fn resumed(
    alloc: Global,
    modules: &[Shared<Model>],
    order: &[u32],
    whole: List<u32>,
    from: &Option<Word>,
) -> Result<List<u32>, SelectionFault>
    requires { length modules.now < 4294967296 }
    ensures { Resumes (resumed modules.now order.now whole from.now) result }
{
    match from {
        None => Ok(whole),
        Some(word) => resumed_word(alloc, modules, order, &whole, word),
    }
}

/// The modules that are built: those that the words of `-pl` mean, or all; with all that they stand on where `-am` asks for it, and all
/// that stand on them where `-amd` does; from the first module on that the word of `-rf` means; in the order of `order`. Or the place of
/// the first word that means no module of the project, or of the word of `-rf` if its module isn't built. Modules are numbered as in
/// `modules`; an edge is a module and an upstream. Costs the modules for each word, and the edges. Guide to Working with Multiple Modules;
/// the order of faults is a project rule.
pub fn selected(
    alloc: Global,
    modules: &[Shared<Model>],
    order: &[u32],
    edges: &[(u32, u32)],
    line: &CommandLine,
) -> Result<List<u32>, SelectionFault>
    requires long { length order.now < 4294967296 }
    requires modules { length order.now ≡ length modules.now }
    requires order { AreBelow (length order.now) order.now }
    requires edges { AreEdgesBelow (length order.now) edges.now }
    ensures { Answers modules.now order.now edges.now line.now result }
{
    if let Some(place) = unknown_word(alloc, modules, line)? {
        return Err(SelectionFault::Unknown(place));
    }
    let whole = whole(alloc, modules, order, edges, line)?;
    resumed(alloc, modules, order, whole, &line.from)
}
