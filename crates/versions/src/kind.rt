//! The kinds of a version's tokens, in ascending order.

ghost use Rattle.std.specs.Prelude.{◌≡◌};
ghost use Rattle.versions.specs.Order.{rank};

/// The kinds of a version's tokens, ascending, with the end of a version among them. POM Reference, "Version Order
/// Specification".
#[derive(Clone, Copy, PartialEq, Eq)]
pub enum Kind {
    Alpha,
    Beta,
    Milestone,
    ReleaseCandidate,
    Snapshot,
    End,
    Release,
    ServicePack,
    Qualifier,
    HyphenNumber,
    DotNumber,
}

impl Kind {
    /// The kind's place in the order. Constant time.
    #[tactic(auto, unfolding(crate::specs::Order::rank))]
    pub fn rank(self) -> u8
        ensures { result ≡ rank self }
    {
        match self {
            Kind::Alpha => 0,
            Kind::Beta => 1,
            Kind::Milestone => 2,
            Kind::ReleaseCandidate => 3,
            Kind::Snapshot => 4,
            Kind::End => 5,
            Kind::Release => 6,
            Kind::ServicePack => 7,
            Kind::Qualifier => 8,
            Kind::HyphenNumber => 9,
            Kind::DotNumber => 10,
        }
    }
}
