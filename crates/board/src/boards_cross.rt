//! A board may go from one thread to another, and threads may share its lock. A law alone: a function that does nothing, with what holds
//! as its clauses.

ghost use Rattle.board.specs.Crossings.{BoardCrosses, LockIsShared, PassCrosses};

use mvn_outside::{Area, Shelf};

/// A law: where a repository may go from one thread to another, a board over it may too, and so may a pass of the board's lock, and
/// threads may share that lock. The checker finds this anew wherever a board is in what crosses, and gives up; so the crew's functions
/// take it from here. Does nothing. Project rule.
pub fn boards_cross_threads<S: Shelf>()
    ensures sent { BoardCrosses S.row S.Area.row ⟦<S as Shelf>⟧ ⟦<S::Area as Area>⟧ }
    ensures shared { LockIsShared S.row S.Area.row ⟦<S as Shelf>⟧ ⟦<S::Area as Area>⟧ }
    ensures pass { PassCrosses S.row S.Area.row ⟦<S as Shelf>⟧ ⟦<S::Area as Area>⟧ }
{}
