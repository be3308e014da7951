//! The greatest of given versions that a requirement admits.

ghost use Rattle.std.specs.Prelude.{◌+◌, ◌<◌, length};
ghost use Rattle.versions.specs.Highest.{IsHighest};
ghost use Rattle.versions.specs.Requirements.{admits};

use crate::requirement::Requirement;
use crate::version::Version;

// The higher of two places, where the versions there are: the next one, if it is admitted and greater.
fn higher(
    requirement: &Requirement,
    versions: &[Version],
    at: u32,
    highest: Option<u32>,
) -> Option<u32>
    requires next { at < length versions.now }
    requires so_far { IsHighest (admits requirement.now) versions.now at highest }
    ensures { IsHighest (admits requirement.now) versions.now (at + 1) result }
{
    let next = &versions[at as usize];
    if !requirement.admits(next) {
        return highest;
    }
    match highest {
        None => Some(at),
        Some(best) if next.order(&versions[best as usize]).is_gt() => Some(at),
        Some(best) => Some(best),
    }
}

impl Requirement {
    /// The place of the greatest version that the requirement admits, the first among equals; `None` exactly where it
    /// admits none. Costs a comparison for each version beside those of `admits`, and takes no memory.
    pub fn highest(&self, versions: &[Version]) -> Option<u32>
        requires { length versions.now < 4294967296 }
        ensures { IsHighest (admits self.now) versions.now (length versions.now) result }
    {
        let mut highest = None;
        for at in 0..versions.len() as u32 {
            highest = higher(self, versions, at, highest);
        }
        highest
    }
}
