//! The keys of names, properties, dependencies, extensions, executions and plugins.

ghost use Rattle.std.specs.Prelude.{◌≡◌, [], IfOk};
ghost use Rattle.model_merge.specs.Keys.{key_of_dependency, key_of_execution, key_of_extension, key_of_name, key_of_pair, key_of_plugin, key_of_two};

use crate::keyed::{Item, Keyed};
use model_types::{Dependency, Execution, Plugin};
use mvn_base::{Gav, Key, Pair};
use mvn_shared::{Mem, Text};
use std::alloc::Global;

// A part that a key doesn't have.
fn nothing(alloc: Global) -> Text
    ensures { result ≡ [] }
{
    Text::of(String::new(alloc))
}

// A key of one part.
fn key_of_name(alloc: Global, name: &Text) -> Mem<Key>
    ensures { IfOk result (λ key. key ≡ key_of_name name.now) }
{
    Ok(Key {
        group: name.clone()?,
        artifact: nothing(alloc),
        kind: nothing(alloc),
        classifier: nothing(alloc),
    })
}

// A key of two parts.
fn key_of_two(alloc: Global, group: &Text, artifact: &Text) -> Mem<Key>
    ensures { IfOk result (λ key. key ≡ key_of_two group.now artifact.now) }
{
    Ok(Key {
        group: group.clone()?,
        artifact: artifact.clone()?,
        kind: nothing(alloc),
        classifier: nothing(alloc),
    })
}

/// A text is its own name.
impl Keyed for Text {
    ghost key_of = { key_of_name };

    fn key(&self, alloc: Global) -> Mem<Key> {
        key_of_name(alloc, self)
    }
}

impl Item for Text {
    fn copy(&self) -> Mem<Text> {
        Ok(self.clone()?)
    }
}

/// A property's key is its name. POM Reference, "Properties".
impl Keyed for Pair {
    ghost key_of = { key_of_pair };

    fn key(&self, alloc: Global) -> Mem<Key> {
        key_of_name(alloc, &self.name)
    }
}

impl Item for Pair {
    fn copy(&self) -> Mem<Pair> {
        Ok(self.clone()?)
    }
}

/// POM Reference, "Dependency Management".
impl Keyed for Dependency {
    ghost key_of = { key_of_dependency };

    fn key(&self, _alloc: Global) -> Mem<Key> {
        let group = self.group.clone()?;
        let artifact = self.artifact.clone()?;
        let kind = self.kind.clone()?;
        let classifier = self.classifier.clone()?;
        Ok(Key {
            group,
            artifact,
            kind,
            classifier,
        })
    }
}

/// An extension's key is its group and artifact. POM Reference, "Extensions".
impl Keyed for Gav {
    ghost key_of = { key_of_extension };

    fn key(&self, alloc: Global) -> Mem<Key> {
        key_of_two(alloc, &self.group, &self.artifact)
    }
}

impl Item for Gav {
    fn copy(&self) -> Mem<Gav> {
        Ok(self.clone()?)
    }
}

/// An execution's key is its id. POM Reference, "Executions".
impl Keyed for Execution {
    ghost key_of = { key_of_execution };

    fn key(&self, alloc: Global) -> Mem<Key> {
        key_of_name(alloc, &self.id)
    }
}

/// A plugin's key is its group and artifact. POM Reference, "Plugins".
impl Keyed for Plugin {
    ghost key_of = { key_of_plugin };

    fn key(&self, alloc: Global) -> Mem<Key> {
        key_of_two(alloc, &self.group, &self.artifact)
    }
}
