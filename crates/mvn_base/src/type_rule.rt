//! What a dependency's type says of its file: extension, classifier and whether it is on classpaths.

ghost use Rattle.std.specs.Prelude.{◌≡◌, IfOk};
ghost use Rattle.mvn_base.specs.Types.{is_jar, type_rule};

use mvn_shared::{Mem, Text};
use std::alloc::Global;

/// What a dependency's type says of its file. POM Reference, "Dependencies".
#[derive(Drop)]
pub struct TypeRule {
    /// The extension of the file's name.
    pub extension: Text,
    /// The classifier where none is declared.
    pub classifier: Text,
    /// Whether the file is on the classpath.
    pub on_classpath: bool,
}

// Whether a type's file is a jar that classes are loaded from.
fn is_jar(kind: &[u8]) -> bool
    ensures { result ≡ is_jar kind.now }
{
    kind == b"jar".as_slice()
        || kind == b"maven-plugin".as_slice()
        || kind == b"ejb".as_slice()
        || kind == b"test-jar".as_slice()
}

/// What a dependency's type says of its file; a type that Maven doesn't know is its own extension. Costs the type's
/// length.
#[tactic(auto, unfolding(crate::specs::Types::type_rule))]
pub fn handler(alloc: Global, kind: &Text) -> Mem<TypeRule>
    ensures { IfOk result (λ rule. rule ≡ type_rule kind.now) }
{
    let on_classpath = is_jar(kind.as_bytes());
    let extension = if on_classpath {
        Text::from_str(alloc, "jar")?
    } else {
        kind.clone()?
    };
    let classifier = if kind.as_str() == "test-jar" {
        "tests"
    } else {
        ""
    };
    Ok(TypeRule {
        extension,
        classifier: Text::from_str(alloc, classifier)?,
        on_classpath,
    })
}
