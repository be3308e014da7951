//! `Winner` and `Winners`: the declarations that win, in the order in which they are found.

ghost use Rattle.std.specs.Prelude.{◌≡◌, ◌<◌, ◌≤◌, [], ◌∷◌, ◌++◌, None, Some, length, slice_get, IfOk, IfSome, OnOk};
ghost use Rattle.std.specs.Option.{option_copied};
ghost use Rattle.mediation.specs.Rows.{place_of, row_of};
ghost use Rattle.mediation.specs.Libraries.{most_winners};

use crate::Known;
use crate::row::{Row, Sought};
use collector::Edge;
use indexmap::IndexSet;
use mvn_base::Key;
use mvn_shared::{Mem, Text};
use std::alloc::Global;
use std::marker::Model;

/// The declaration of a key that counts.
#[derive(Drop)]
pub struct Winner {
    pub edge: Edge,
    /// The version that is taken.
    pub version: Text,
    /// The place of the winner whose POM declares it; `None` where the project does.
    pub above: Option<usize>,
    /// What is known of its POM.
    pub known: Known,
}

/// Winners, in the order in which they are found: by the lengths of their paths, and then by the positions on them.
/// Contracts see it as the list.
#[derive(Drop)]
pub struct Winners {
    index: IndexSet<Row>,
}

impl Model for Winners {
    ghost use Rattle.std.specs.Prelude as logic;
    ghost use Rattle.std.specs.Prelude.{◌≤◌, length};
    ghost use Rattle.std.specs.Coded.{codes};
    ghost use Rattle.mvn_base.specs.contracts.setting.Setting as settings;
    ghost use Rattle.mediation.specs.Libraries.{most_winners};
    ghost use Rattle.mediation.specs.declared.winner.Winner as winners;

    ghost Value = { logic.List winners.Winner };

    ghost coded = { Prim.hlevel (codes, settings.the_row.coded) };

    ghost view = { λ w. w.index.keys };

    ghost invariant = { λ w. length w.index.keys ≤ most_winners };
}

impl Winners {
    // No winner yet, with room for a number.
    pub(crate) fn new(alloc: Global, room: usize) -> Mem<Winners>
        ensures { IfOk result (λ winners. winners ≡ []) }
    {
        let index = IndexSet::with_capacity(alloc, room)?;
        Ok(Winners { index })
    }

    // One winner more, of a key that has none.
    pub(crate) fn push(&mut self, winner: Winner) -> Mem<()>
        requires new { row_of self.old winner.edge.key ≡ None }
        requires room { length self.old < most_winners }
        ensures more { OnOk result (self.new ≡ self.old ++ winner ∷ []) }
        ensures placed { OnOk result (place_of self.new winner.edge.key ≡ Some (length self.old)) }
    {
        self.index.insert(Row { winner })?;
        Ok(())
    }

    /// The place of a key's winner; `None` where it has none. Costs the key, on the average.
    pub fn place(&self, key: &Key) -> Option<usize>
        ensures value { result ≡ place_of self.now key.now }
        ensures there { IfSome result (λ place.
            slice_get self.now place ≡ row_of self.now key.now) }
    {
        self.index.get_index_of(Sought { key })
    }

    /// The winner of a key. Costs the key, on the average.
    pub fn find(&self, key: &Key) -> Option<&Winner>
        ensures { option_copied result ≡ row_of self.now key.now }
    {
        match self.index.get(Sought { key }) {
            Some(row) => Some(&row.winner),
            None => None,
        }
    }

    /// The winner at a place. Constant time.
    pub fn get(&self, place: usize) -> Option<&Winner>
        ensures { option_copied result ≡ slice_get self.now place }
    {
        match self.index.get_index(place) {
            Some(row) => Some(&row.winner),
            None => None,
        }
    }

    /// The number of winners.
    pub fn len(&self) -> usize
        ensures value { result ≡ length self.now }
        ensures few { length self.now ≤ most_winners }
    {
        self.index.len()
    }
}
