//! A managed dependency as a row of a table, found by its key.

ghost use Rattle.std.specs.Prelude.{◌≡◌};
ghost use Rattle.managed_deps.specs.Managed.{key_of, same_key};

use indexmap::Equivalent;
use model_types::Dependency;
use mvn_base::Key;
use mvn_shared::Shared;
use std::hash::{Hash, Hasher};
use std::marker::Model;

// An entry of a set, which tells it from others by its key alone: so the set holds no key beside it.
#[derive(Drop)]
pub struct Row {
    pub(crate) entry: Shared<Dependency>,
}

impl Model for Row {
    ghost use Rattle.std.specs.Coded.{codes};
    ghost use Rattle.model_types.specs.declared.dependency.Dependency as dependencies;

    ghost Value = { dependencies.Dependency };

    ghost coded = { Prim.hlevel (codes) };

    ghost view = { λ row. row.entry };
}

// Whether two entries have one key.
fn has_key_of(a: &Dependency, b: &Dependency) -> bool
    ensures { result ≡ same_key (key_of a.now) (key_of b.now) }
{
    a.group == b.group
        && (a.artifact == b.artifact && (a.kind == b.kind && a.classifier == b.classifier))
}

// Whether an entry has a key.
fn has_key(entry: &Dependency, key: &Key) -> bool
    ensures { result ≡ same_key key.now (key_of entry.now) }
{
    key.group == entry.group
        && (key.artifact == entry.artifact
            && (key.kind == entry.kind && key.classifier == entry.classifier))
}

impl PartialEq for Row {
    ghost use Rattle.std.specs.Cmp.{on_equiv, partial_equiv_from_equiv};
    ghost use Rattle.managed_deps.specs.Keys.{same_key_equiv};
    ghost use Rattle.managed_deps.specs.Managed.{key_of, same_key};

    ghost eq = { λ a b. same_key (key_of a) (key_of b) };

    ghost laws = { partial_equiv_from_equiv (on_equiv key_of same_key_equiv) };

    fn eq(&self, other: &Row) -> bool {
        has_key_of(&self.entry, &other.entry)
    }
}

impl Eq for Row {
    ghost use Rattle.std.specs.Cmp.{on_equiv};
    ghost use Rattle.managed_deps.specs.Keys.{same_key_equiv};
    ghost use Rattle.managed_deps.specs.Managed.{key_of};

    ghost laws = { on_equiv key_of same_key_equiv };
}

impl Hash for Row {
    ghost use Rattle.std.proofs.Common.{ap};
    ghost use Rattle.managed_deps.specs.Managed.{key_of};
    ghost use Rattle.model_merge.proofs.UnderKeys.{same_key_is};

    ghost hash_input = { λ d. ⟦<Key as Hash>⟧.hash_input (key_of d) };

    ghost respects_eq = { λ a b same. ap (λ k. ⟦<Key as Hash>⟧.hash_input k)
        (same_key_is (key_of a) (key_of b) same) };

    fn hash<H: Hasher>(&self, state: &mut H) {
        self.entry.group.hash(state);
        self.entry.artifact.hash(state);
        self.entry.kind.hash(state);
        self.entry.classifier.hash(state);
    }
}

impl Equivalent<Row> for &Key {
    ghost use Rattle.std.proofs.Common.{ap};
    ghost use Rattle.managed_deps.specs.Keys.{same_key_equiv};
    ghost use Rattle.managed_deps.specs.Managed.{key_of, same_key};
    ghost use Rattle.model_merge.proofs.UnderKeys.{same_key_is};

    ghost equivalent = { λ key d. same_key key.now (key_of d) };

    ghost respects_hash = { λ key d same. ap (λ k. ⟦<Key as Hash>⟧.hash_input k)
        (same_key_is key.now (key_of d) same) };

    ghost respects_eq = { λ key a b. same_key_equiv.congr key.now (key_of a) (key_of b) };

    fn equivalent(&self, row: &Row) -> bool {
        has_key(&row.entry, *self)
    }
}
