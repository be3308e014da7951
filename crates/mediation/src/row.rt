//! A winner as a row of the table of winners, found by its key.

ghost use Rattle.std.specs.Prelude.{◌≡◌, fold};
ghost use Rattle.mediation.specs.Keys.{is_usual, key_input};

use crate::winner::Winner;
use indexmap::Equivalent;
use mvn_base::Key;
use std::hash::{Hash, Hasher};
use std::marker::Model;

// Whether a key is of a jar without a classifier, as most are.
fn is_usual(key: &Key) -> bool
    ensures { result ≡ is_usual key.now }
{
    key.classifier.len() == 0 && key.kind.as_str() == "jar"
}

// Feeds a key to a hasher; the type and the classifier of a usual one are left out, since hashing them costs as much as
// the others.
fn feed<H: Hasher>(key: &Key, state: &mut H)
    ensures { state.new ≡ fold H.write state.old (key_input key.now) }
{
    state.write(key.artifact.as_bytes());
    state.write(key.group.as_bytes());
    if !is_usual(key) {
        state.write(key.kind.as_bytes());
        state.write(key.classifier.as_bytes());
    }
}

// A winner in the table of a project's, which tells it from others by its key alone: so the table holds no key beside
// it.
#[derive(Drop)]
pub struct Row {
    pub(crate) winner: Winner,
}

impl Model for Row {
    ghost use Rattle.std.specs.Coded.{codes};
    ghost use Rattle.mvn_base.specs.contracts.setting.Setting as settings;
    ghost use Rattle.mediation.specs.declared.winner.Winner as winners;

    ghost Value = { winners.Winner };

    ghost coded = { Prim.hlevel (codes, settings.the_row.coded) };

    ghost view = { λ row. row.winner };
}

impl PartialEq for Row {
    ghost use Rattle.std.specs.Cmp.{on_equiv, partial_equiv_from_equiv};
    ghost use Rattle.mediation.specs.Keys.{same_key_equiv};
    ghost use Rattle.model_merge.specs.Keyed.{same_key};

    ghost eq = { λ a b. same_key a.edge.key b.edge.key };

    ghost laws = { partial_equiv_from_equiv (on_equiv (λ w. w.edge.key) same_key_equiv) };

    fn eq(&self, other: &Row) -> bool {
        self.winner.edge.key == other.winner.edge.key
    }
}

impl Eq for Row {
    ghost use Rattle.std.specs.Cmp.{on_equiv};
    ghost use Rattle.mediation.specs.Keys.{same_key_equiv};

    ghost laws = { on_equiv (λ w. w.edge.key) same_key_equiv };
}

impl Hash for Row {
    ghost use Rattle.std.proofs.Common.{ap};
    ghost use Rattle.mediation.specs.Keys.{key_input};
    ghost use Rattle.model_merge.proofs.UnderKeys.{same_key_is};

    ghost hash_input = { λ w. key_input w.edge.key };

    ghost respects_eq = { λ a b same. ap key_input (same_key_is a.edge.key b.edge.key same) };

    fn hash<H: Hasher>(&self, state: &mut H) {
        feed(&self.winner.edge.key, state);
    }
}

// A key that is looked for in the table.
#[derive(Clone, Copy)]
pub struct Sought<'a> {
    pub(crate) key: &'a Key,
}

impl<'a> PartialEq for Sought<'a> {
    ghost use Rattle.std.specs.Cmp.{on_equiv, partial_equiv_from_equiv};
    ghost use Rattle.mediation.specs.Keys.{same_key_equiv};
    ghost use Rattle.model_merge.specs.Keyed.{same_key};

    ghost eq = { λ a b. same_key a.key.now b.key.now };

    ghost laws = { partial_equiv_from_equiv (on_equiv (λ s. s.key.now) same_key_equiv) };

    fn eq(&self, other: &Sought<'a>) -> bool {
        *self.key == *other.key
    }
}

impl<'a> Eq for Sought<'a> {
    ghost use Rattle.std.specs.Cmp.{on_equiv};
    ghost use Rattle.mediation.specs.Keys.{same_key_equiv};

    ghost laws = { on_equiv (λ s. s.key.now) same_key_equiv };
}

impl<'a> Hash for Sought<'a> {
    ghost use Rattle.std.proofs.Common.{ap};
    ghost use Rattle.mediation.specs.Keys.{key_input};
    ghost use Rattle.model_merge.proofs.UnderKeys.{same_key_is};

    ghost hash_input = { λ s. key_input s.key.now };

    ghost respects_eq = { λ a b same. ap key_input (same_key_is a.key.now b.key.now same) };

    fn hash<H: Hasher>(&self, state: &mut H) {
        feed(self.key, state);
    }
}

impl<'a> Equivalent<Row> for Sought<'a> {
    ghost use Rattle.std.proofs.Common.{ap};
    ghost use Rattle.mediation.specs.Keys.{key_input, same_key_equiv};
    ghost use Rattle.model_merge.proofs.UnderKeys.{same_key_is};
    ghost use Rattle.model_merge.specs.Keyed.{same_key};

    ghost equivalent = { λ s w. same_key s.key.now w.edge.key };

    ghost respects_hash = { λ s w same. ap key_input (same_key_is s.key.now w.edge.key same) };

    ghost respects_eq = { λ s a b. same_key_equiv.congr s.key.now a.edge.key b.edge.key };

    fn equivalent(&self, row: &Row) -> bool {
        *self.key == row.winner.edge.key
    }
}
