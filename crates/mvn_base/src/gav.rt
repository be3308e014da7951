//! A coordinate of group, artifact and version, and the name of the lock that covers its files.

ghost use Rattle.std.specs.Prelude.{◌≡◌, IfOk};
ghost use Rattle.mvn_base.specs.Gav.{lock_name};

use mvn_shared::{Mem, Text};
use std::alloc::{AllocError, Global};
use std::fmt;

/// A coordinate: group, artifact and version. POM Reference, "Maven Coordinates".
#[derive(Debug, Drop, PartialEq, Eq, Hash)]
pub struct Gav {
    pub group: Text,
    pub artifact: Text,
    pub version: Text,
}

impl Clone for Gav {
    ghost is_clone = { λ gav copy. copy ≡ gav };

    fn clone(&self) -> Result<Gav, AllocError> {
        let group = self.group.clone()?;
        let artifact = self.artifact.clone()?;
        let version = self.version.clone()?;
        Ok(Gav {
            group,
            artifact,
            version,
        })
    }
}

impl fmt::Display for Gav {
    ghost use Rattle.std.specs.Prelude.{Some};
    ghost use Rattle.mvn_base.specs.Gav.{gav_text};

    ghost output = { λ gav. Some (gav_text gav) };

    #[tactic(auto, unfolding(crate::specs::Gav::gav_text))]
    fn fmt<W: fmt::Write>(&self, f: &mut fmt::Formatter<W>) -> fmt::Result {
        let group = &self.group;
        let artifact = &self.artifact;
        let version = &self.version;
        write!(f, "{group}:{artifact}:{version}")
    }
}

/// The name of the lock that covers a coordinate's files: `artifact:group:artifact:version`. Costs its length. An own
/// spelling, by the three parts that the Resolver's GAV name mapper takes.
pub fn lock_name(alloc: Global, gav: &Gav) -> Mem<Text>
    ensures { IfOk result (λ name. name ≡ lock_name gav.now) }
{
    Ok(Text::of(format!(in alloc; "artifact:{gav}")?))
}
