//! Version requirements: how they are read, and which versions meet them.

ghost use Rattle.std.specs.Prelude.{◌≡◌, ◌≤◌, Ok, length, IfOk};
ghost use Rattle.std.specs.Result.{IfErr};
ghost use Rattle.std.specs.List.{list_any};
ghost use Rattle.versions.specs.Intervals.{is_within};
ghost use Rattle.versions.specs.Requirements.{admits, divider_place, is_hard, requirement, soft, Refuses};

use crate::fault::RequirementError;
use crate::interval::Interval;
use crate::reader::Stand;
use crate::version::Version;
use mvn_shared::{List, Mem, Text};
use std::alloc::Global;

/// What a dependency states of its version: one that it would like, or intervals of which one has to have it. POM
/// Reference, "Dependency Version Requirement Specification".
#[derive(Drop)]
pub enum Requirement {
    Soft(Text),
    Hard(List<Interval>),
}

impl Requirement {
    /// What a text requires: a soft requirement where it is not empty and has none of `[ ] ( ) ,`; else a list of
    /// intervals, `[v]`, or `[` or `(`, a version or none, `,`, a version or none, `]` or `)`, with commas between, and
    /// spaces round versions, commas and intervals. Refused with the first place from which the text is neither, or the
    /// closing bracket of bounds that cross. Costs its length.
    #[tactic(auto, unfolding(crate::specs::Requirements::requirement))]
    pub fn parse(alloc: Global, text: &Text) -> Result<Requirement, RequirementError>
        ensures value { IfOk result (λ parsed. requirement text.now ≡ Ok parsed) }
        ensures refused { IfErr result (λ error. Refuses error (requirement text.now)) }
    {
        let place = divider_place(text.as_bytes());
        if place == text.len() {
            return soft(text);
        }
        match Stand::read(alloc, text.as_str())? {
            Ok(intervals) => Ok(Requirement::Hard(intervals)),
            Err(at) => Err(RequirementError::BadRange {
                place: at.max(place) as u64,
            }),
        }
    }

    /// Whether one of its intervals has to have the version. Constant time.
    pub fn is_hard(&self) -> bool
        ensures { result ≡ is_hard self.now }
    {
        match self {
            Requirement::Soft(_) => false,
            Requirement::Hard(_) => true,
        }
    }

    /// Whether a version meets the requirement: a soft one admits all. Costs a comparison with each bound, and takes no
    /// memory.
    pub fn admits(&self, version: &Version) -> bool
        ensures { result ≡ admits self.now version.now }
    {
        match self {
            Requirement::Soft(_) => true,
            Requirement::Hard(intervals) => any_admits(intervals.as_slice(), version),
        }
    }
}

fn any_admits(intervals: &[Interval], version: &Version) -> bool
    ensures { result ≡ list_any (λ interval. is_within interval version.now) intervals.now }
{
    for interval in intervals {
        if interval.admits(version) {
            return true;
        }
    }
    false
}

// Where the first divider stands.
fn divider_place(text: &[u8]) -> usize
    ensures value { result ≡ divider_place text.now }
    ensures within { result ≤ length text.now }
{
    for at in 0..text.len() {
        if b"[](),".contains(&text[at]) {
            return at;
        }
    }
    text.len()
}

// A copy of a text, which shares its bytes if the text does.
fn copied(text: &Text) -> Mem<Text>
    ensures { IfOk result (λ copy. copy ≡ text.now) }
{
    Ok(text.clone()?)
}

// A text without a divider.
fn soft(text: &Text) -> Result<Requirement, RequirementError>
    ensures value { IfOk result (λ parsed. soft text.now ≡ Ok parsed) }
    ensures refused { IfErr result (λ error. Refuses error (soft text.now)) }
{
    if text.is_empty() {
        return Err(RequirementError::BadRange { place: 0 });
    }
    Ok(Requirement::Soft(copied(text)?))
}
