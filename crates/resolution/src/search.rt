//! One step of the search for the widest scopes.

ghost use Rattle.std.specs.Prelude.{◌≡◌, None, get_or, OnOk};
ghost use Rattle.resolution.specs.Search.{is_wider, raised, search_of};

use crate::link::rank;
use collector::Scope;
use mvn_shared::Mem;

// Whether a scope is wider than the one that is kept at a place, if there is such a place.
fn is_wider(scopes: &[Option<Scope>], place: usize, scope: Scope) -> bool
    ensures { result ≡ is_wider scopes.now place scope }
{
    match scopes.get(place) {
        Some(Some(kept)) => rank(scope) < rank(*kept),
        Some(None) => true,
        None => false,
    }
}

/// Keeps a scope at a place, if there is such a place and the scope is wider than the one that is kept there; then what
/// is below the place waits to be looked at. Constant time on the average. Introduction to the Dependency Mechanism,
/// "Dependency Scope".
pub fn raise(
    scopes: &mut Vec<Option<Scope>>,
    waiting: &mut Vec<usize>,
    place: usize,
    scope: Scope,
) -> Mem<()>
    ensures { OnOk result (search_of scopes.new.items waiting.new.items
        ≡ raised (search_of scopes.old.items waiting.old.items) place scope) }
{
    if is_wider(scopes, place, scope) {
        waiting.push(place)?;
        scopes[place] = Some(scope);
    }
    Ok(())
}

/// The scope that is kept at a place. Constant time.
pub fn kept_at(scopes: &[Option<Scope>], place: usize) -> Option<Scope>
    ensures { result ≡ get_or scopes.now place None }
{
    match scopes.get(place) {
        Some(kept) => *kept,
        None => None,
    }
}
