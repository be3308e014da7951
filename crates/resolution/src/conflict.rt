//! The first winner that some declaration of its key doesn't admit.

ghost use Rattle.std.specs.Prelude.{◌≡◌, ◌++◌, false, find, flat_map, IfOk};
ghost use Rattle.std.specs.HashSet.{contains};
ghost use Rattle.std.specs.Option.{option_copied};
ghost use Rattle.model_merge.specs.Keyed.{same_key};
ghost use Rattle.mvn_base.specs.declared.key.Key as names;
ghost use Rattle.resolution.specs.Conflicts.{conflict_among, some_conflict};

use crate::keys::add_conflicts;
use collector::Edge;
use mediation::{Winner, Winners};
use mvn_base::Key;
use mvn_shared::{List, Mem, Shared};
use std::alloc::Global;
use std::collections::HashSet;

// The keys of all conflicting declarations.
fn conflicting(
    alloc: Global,
    own: &[Edge],
    below: &[Shared<List<Edge>>],
    winners: &Winners,
) -> Mem<HashSet<Key>>
    ensures { IfOk result (λ keys. (key : names.Key) → contains same_key keys key
        ≡ some_conflict winners.now (own.now ++ flat_map (λ edges. edges) below.now) key) }
{
    let mut keys = HashSet::new(alloc);
    add_conflicts(alloc, &mut keys, winners, own)?;
    for edges in below {
        add_conflicts(alloc, &mut keys, winners, edges.as_slice())?;
    }
    Ok(keys)
}

// The first winner whose key is one of those. Where there are none, no winner is looked at.
fn first_of<'a>(winners: &'a Winners, keys: &HashSet<Key>) -> Option<&'a Winner>
    ensures { option_copied result
        ≡ find (λ w. contains same_key keys.now w.edge.key) winners.now }
{
    if keys.is_empty() {
        return None;
    }
    for place in 0..winners.len() {
        if let Some(winner) = winners.get(place) {
            if keys.contains(&winner.edge.key) {
                return Some(winner);
            }
        }
    }
    None
}

/// The first winner, in their order, whose version some declaration of its key doesn't admit: a hard requirement of the
/// project's or of a winner's POM, also one that loses. `own` is what the project declares, `below` what the POM of
/// each winner does. Costs a look at the text of each requirement; one that is a range is parsed, and its winner is
/// looked up. Project rule.
pub fn first_conflict<'a>(
    alloc: Global,
    own: &[Edge],
    below: &[Shared<List<Edge>>],
    winners: &'a Winners,
) -> Mem<Option<&'a Winner>>
    ensures { IfOk result (λ found. option_copied found
        ≡ conflict_among winners.now (own.now ++ flat_map (λ edges. edges) below.now)) }
{
    let keys = conflicting(alloc, own, below, winners)?;
    Ok(first_of(winners, &keys))
}
