//! Reads versions and version requirements, orders versions, and finds the greatest version that a requirement admits.
//!
//! The order is that of the POM Reference, "Version Order Specification":
//!
//! 1. `piece::first_piece` cuts off a piece, up to a dot, a hyphen, or a change from a digit or to one.
//! 2. `token::cut` makes a token of the piece: a number or a qualifier, with its kind.
//! 3. `Version::parse` keeps the tokens, without the trailing ones that say nothing.
//! 4. `cut::compare` orders two tokens; versions are ordered token by token.
//! 5. `Requirement::parse` reads a soft version or, by `reader::Stand::read`, a list of intervals.
//! 6. `Requirement::highest` finds the greatest version that the requirement admits.
#![tactic(auto)]

mod cut;
mod fault;
mod highest;
mod interval;
mod kind;
mod law;
mod piece;
mod places;
mod reader;
mod requirement;
mod token;
mod version;
mod word;

pub use fault::RequirementError;
pub use interval::{Bound, Interval};
pub use kind::Kind;
pub use law::spelled_and_read;
pub use piece::Mark;
pub use places::refused_place;
pub use requirement::Requirement;
pub use version::Version;
