//! The keys of the edges whose requirements their winners don't meet.

ghost use Rattle.std.specs.Prelude.{◌≡◌, ◌&&◌, ◌||◌, false, IfOk, OnOk};
ghost use Rattle.std.specs.HashSet.{contains};
ghost use Rattle.std.specs.List.{list_any};
ghost use Rattle.model_merge.specs.Keyed.{same_key};
ghost use Rattle.mvn_base.specs.declared.key.Key as names;
ghost use Rattle.resolution.specs.Conflicts.{conflicts, is_of, some_conflict};

use crate::unmet::conflicts;
use collector::Edge;
use mediation::Winners;
use mvn_base::Key;
use mvn_shared::Mem;
use std::alloc::Global;
use std::collections::HashSet;

// The key of an edge, where it conflicts.
fn add_conflict(alloc: Global, keys: &mut HashSet<Key>, winners: &Winners, edge: &Edge) -> Mem<()>
    ensures { OnOk result ((key : names.Key) → contains same_key keys.new key
        ≡ (is_of winners.now key edge.now || contains same_key keys.old key)) }
{
    if conflicts(alloc, winners, edge)? {
        keys.insert(edge.key.clone()?)?;
    }
    Ok(())
}

// The keys of edges that conflict.
pub fn add_conflicts(
    alloc: Global,
    keys: &mut HashSet<Key>,
    winners: &Winners,
    edges: &[Edge],
) -> Mem<()>
    ensures { OnOk result ((key : names.Key) → contains same_key keys.new key
        ≡ (contains same_key keys.old key || some_conflict winners.now edges.now key)) }
{
    for edge in edges {
        add_conflict(alloc, keys, winners, edge)?;
    }
    Ok(())
}
