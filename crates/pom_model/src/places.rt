//! The places of a dependency's elements, found in one pass.

ghost use Rattle.std.specs.Prelude.{◌≡◌, option_and_then, slice_get};
ghost use Rattle.std.specs.Option.{option_copied};
ghost use Rattle.std.specs.Str.{bytes_eq};
ghost use Rattle.pom_model.specs.Places.{kept, nowhere, places_of, with_named};

use crate::element::{at, name_of, same};
use pom_text::Node;

/// Where the elements of a dependency stand: the number of the first of each name.
#[derive(Clone, Copy)]
pub(crate) struct Places {
    pub(crate) group: Option<u32>,
    pub(crate) artifact: Option<u32>,
    pub(crate) version: Option<u32>,
    pub(crate) kind: Option<u32>,
    pub(crate) classifier: Option<u32>,
    pub(crate) scope: Option<u32>,
    pub(crate) optional: Option<u32>,
    pub(crate) exclusions: Option<u32>,
}

/// Where none is.
const NOWHERE: Places = Places {
    group: None,
    artifact: None,
    version: None,
    kind: None,
    classifier: None,
    scope: None,
    optional: None,
    exclusions: None,
};

// The number of the first element of a name, where the next has this number and a name.
#[inline(always)]
fn kept(first: Option<u32>, name: &str, wanted: &str, k: u32) -> Option<u32>
    ensures { result ≡ kept first (bytes_eq name.now wanted.now) k }
{
    match first {
        Some(first) => Some(first),
        None if same(name, wanted) => Some(k),
        None => None,
    }
}

impl Places {
    // One element more.
    #[tactic(auto, unfolding(crate::specs::Places::with_named))]
    fn with(self, name: &str, k: u32) -> Places
        ensures { result ≡ with_named self name.now k }
    {
        Places {
            group: kept(self.group, name, "groupId", k),
            artifact: kept(self.artifact, name, "artifactId", k),
            version: kept(self.version, name, "version", k),
            kind: kept(self.kind, name, "type", k),
            classifier: kept(self.classifier, name, "classifier", k),
            scope: kept(self.scope, name, "scope", k),
            optional: kept(self.optional, name, "optional", k),
            exclusions: kept(self.exclusions, name, "exclusions", k),
        }
    }
}

/// Where the elements of a dependency stand, which has these in it. Costs their number: each is looked at once.
pub(crate) fn places_among(nodes: &[Node], ks: &[u32]) -> Places
    ensures { result ≡ places_of nodes.now ks.now }
{
    let mut places = NOWHERE;
    for k in ks {
        if let Some(node) = at(nodes, *k) {
            places = places.with(name_of(node), *k);
        }
    }
    places
}

/// The element of a number, or none. Constant time.
pub(crate) fn numbered(nodes: &[Node], k: Option<u32>) -> Option<&Node>
    ensures { option_copied result ≡ option_and_then (slice_get nodes.now) k }
{
    at(nodes, k?)
}
