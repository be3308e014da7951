//! Intervals of versions and their bounds, and which versions lie in them.

ghost use Rattle.std.specs.Prelude.{◌≡◌};
ghost use Rattle.versions.specs.Intervals.{is_above, is_below, is_crossed, is_past, is_within};

use crate::version::Version;
use std::cmp::Ordering;

/// An end of an interval. POM Reference, "Dependency Version Requirement Specification".
#[derive(Clone, Drop)]
pub struct Bound {
    pub version: Version,
    /// Whether the interval has the version itself.
    pub inclusive: bool,
}

/// What lies between two versions, or to one side of one; without bounds all versions.
#[derive(Drop)]
pub struct Interval {
    pub lower: Option<Bound>,
    pub upper: Option<Bound>,
}

fn is_past(inclusive: bool, order: Ordering) -> bool
    ensures { result ≡ is_past inclusive order }
{
    match order {
        Ordering::Less => true,
        Ordering::Equal => inclusive,
        Ordering::Greater => false,
    }
}

fn is_above(bound: &Option<Bound>, version: &Version) -> bool
    ensures { result ≡ is_above bound.now version.now }
{
    match bound {
        None => true,
        Some(lower) => is_past(lower.inclusive, lower.version.order(version)),
    }
}

fn is_below(bound: &Option<Bound>, version: &Version) -> bool
    ensures { result ≡ is_below bound.now version.now }
{
    match bound {
        None => true,
        Some(upper) => is_past(upper.inclusive, version.order(&upper.version)),
    }
}

impl Interval {
    /// Whether a version lies in the interval. Costs two comparisons, and takes no memory.
    pub fn admits(&self, version: &Version) -> bool
        ensures { result ≡ is_within self.now version.now }
    {
        is_above(&self.lower, version) && is_below(&self.upper, version)
    }

    /// Whether the bounds leave no version: the lower one is greater than the upper, or they are equal and one is
    /// exclusive. Costs a comparison, and takes no memory.
    pub fn is_crossed(&self) -> bool
        ensures { result ≡ is_crossed self.now }
    {
        match (&self.lower, &self.upper) {
            (Some(lower), Some(upper)) => {
                let both = lower.inclusive && upper.inclusive;
                !is_past(both, lower.version.order(&upper.version))
            }
            _ => false,
        }
    }
}
