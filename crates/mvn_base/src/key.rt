//! The key of a dependency: its group, artifact, type and classifier.

ghost use Rattle.std.specs.Prelude.{◌≡◌, ◌++◌, IfOk, OnOk};
ghost use Rattle.std.specs.String.{string_bytes};
ghost use Rattle.mvn_base.specs.Key.{further_part, key_text};

use mvn_shared::{Mem, Text};
use std::alloc::Global;

/// What tells one dependency of a POM from another: group, artifact, type and classifier. POM Reference, "Dependency
/// Management".
#[derive(Clone, Drop, PartialEq, Eq, Hash)]
pub struct Key {
    pub group: Text,
    pub artifact: Text,
    /// The declared type.
    pub kind: Text,
    /// Empty where none is declared.
    pub classifier: Text,
}

// A colon and the classifier, where there is one.
fn push_classifier(text: &mut String, classifier: &str) -> Mem<()>
    ensures { OnOk result
        (string_bytes text.new ≡ string_bytes text.old ++ further_part classifier.now) }
{
    if !classifier.is_empty() {
        text.push(':')?;
        text.push_str(classifier)?;
    }
    Ok(())
}

/// How a key is written: `group:artifact:type`, and `:classifier` where there is one. Costs its length. POM Reference,
/// "Dependency Management".
#[tactic(auto, unfolding(crate::specs::Key::key_text))]
pub fn key_text(alloc: Global, key: &Key) -> Mem<Text>
    ensures { IfOk result (λ text. text ≡ key_text key.now) }
{
    let mut text = String::from_str(alloc, key.group.as_str())?;
    text.push(':')?;
    text.push_str(key.artifact.as_str())?;
    text.push(':')?;
    text.push_str(key.kind.as_str())?;
    push_classifier(&mut text, key.classifier.as_str())?;
    Ok(Text::of(text))
}
