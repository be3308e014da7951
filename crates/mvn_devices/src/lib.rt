//! Gives all that a call works with as one value, whose types stand under one type parameter.
//!
//! `Outside` names the types; four types as a tuple are one. `Devices` are the objects, which are given by value and
//! given back. There are types here and no functions.
#![tactic(auto)]

use mvn_outside::{Area, Gate, Hand, Remote, Shelf, Tree};

/// The types of all that a call works with.
pub trait Outside {
    /// The project's folder.
    type Tree: Tree;

    /// A worker's staging area.
    type Area: Area + Send;

    /// The local repository.
    type Shelf: Shelf<Area = Self::Area> + Send;

    /// The repository that files are fetched from.
    type Remote: Remote + Send;

    /// What runs the goals.
    type Gate: Gate + Send;
}

/// Any of them: the project's folder, the local repository, the remote, and what runs the goals.
impl<T: Tree, A: Area + Send, S: Shelf<Area = A> + Send, R: Remote + Send, G: Gate + Send> Outside
    for (T, S, R, G) {
    type Tree = T;

    type Area = A;

    type Shelf = S;

    type Remote = R;

    type Gate = G;
}

/// What one worker works with.
pub type HandOf<O> = Hand<<O as Outside>::Remote, <O as Outside>::Area, <O as Outside>::Gate>;

/// All that a call works with: the project's folder, the local repository, and the hands.
#[derive(Drop)]
pub struct Devices<O: Outside> {
    /// The project's folder.
    pub tree: O::Tree,
    /// The local repository.
    pub shelf: O::Shelf,
    /// What each worker works with, by its number.
    pub hands: Vec<HandOf<O>>,
}
