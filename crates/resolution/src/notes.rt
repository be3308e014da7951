//! Notes on winners whose POMs lead to nothing.

ghost use Rattle.std.specs.Prelude.{◌≡◌, ◌++◌, flat_map, IfOk, OnOk};
ghost use Rattle.std.specs.Option.{option_to_list};
ghost use Rattle.std.specs.Prelude.{slice_get};
ghost use Rattle.mediation.specs.Libraries.{gav_of};
ghost use Rattle.resolution.specs.Resolved.{is_there, note_of, notes_of};

use classpaths::Note;
use mediation::{Known, Winner, Winners};
use mvn_base::Gav;
use mvn_shared::{List, Mem};
use std::alloc::Global;

// The coordinate of a winner.
pub fn coordinate(winner: &Winner) -> Mem<Gav>
    ensures { IfOk result (λ gav. gav ≡ gav_of winner.now.edge.key winner.now.version) }
{
    let group = winner.edge.key.group.clone()?;
    let artifact = winner.edge.key.artifact.clone()?;
    let version = winner.version.clone()?;
    Ok(Gav {
        group,
        artifact,
        version,
    })
}

// Whether a winner has a POM; one that is refused is there.
pub fn is_there(known: &Known) -> bool
    ensures { result ≡ is_there known.now }
{
    match known {
        Known::Model(_) => true,
        Known::Missing => false,
        Known::Refused(_) => true,
    }
}

// A note more, where a winner's POM is missing or refused.
fn add_note(list: &mut List<Note>, winner: &Winner) -> Mem<()>
    ensures { OnOk result (list.new ≡ list.old ++ note_of winner.now) }
{
    match &winner.known {
        Known::Model(_) => Ok(()),
        Known::Missing => list.push(Note::Missing(coordinate(winner)?)),
        Known::Refused(rule) => list.push(Note::Refused(coordinate(winner)?, *rule)),
    }
}

// The note of the winner at a place, if there is one.
fn add_note_at(list: &mut List<Note>, winners: &Winners, place: usize) -> Mem<()>
    ensures { OnOk result (list.new
        ≡ list.old ++ flat_map note_of (option_to_list (slice_get winners.now place))) }
{
    match winners.get(place) {
        Some(winner) => add_note(list, winner),
        None => Ok(()),
    }
}

// The notes of all winners.
pub fn notes_of(alloc: Global, winners: &Winners) -> Mem<List<Note>>
    ensures { IfOk result (λ list. list ≡ notes_of winners.now) }
{
    let mut list = List::new(alloc);
    for place in 0..winners.len() {
        add_note_at(&mut list, winners, place)?;
    }
    Ok(list)
}
