//! The reader of a list of intervals, one state for each place in the grammar.

ghost use Rattle.std.specs.Prelude.{◌≡◌, ℕ, ◌+◌, ◌<◌, List, length, get_or, option_map, IfOk, IfSome};

use crate::interval::{Bound, Interval};
use crate::word::bound;
use mvn_shared::{List, Mem};
use std::alloc::Global;

/// Where a reader of a list of intervals has come to: before one; after its opening bracket, and whether that is
/// square; after its comma, with the lower bound; after its closing bracket. A word begins at `start`.
#[derive(Drop)]
pub(crate) enum Stand {
    Before,
    Lower { square: bool, start: usize },
    Upper { lower: Option<Bound>, start: usize },
    Behind,
}

impl Stand {
    ghost use Rattle.versions.specs.declared.interval.Interval as interval;
    ghost use Rattle.versions.specs.Requirements.{before, behind, bound, closed, exactly, hard, lower, next, upper};
    ghost use Rattle.versions.specs.Stands.{Begins, IsStand, reading_of, since};

    // One byte further before an interval.
    #[tactic(auto, using(crate::proofs::Words::begins))]
    fn before(text: &str, at: usize) -> Option<Stand>
        requires { at < length text.now }
        ensures value { (done : List interval.Interval) →
            option_map (reading_of text.now done (at + 1)) result
            ≡ next (before done) (get_or text.now at 0) }
        ensures stand { IfSome result (IsStand text.now (at + 1)) }
    {
        match text.as_bytes()[at] {
            b' ' => Some(Stand::Before),
            b'[' => Some(Stand::Lower {
                square: true,
                start: at + 1,
            }),
            b'(' => Some(Stand::Lower {
                square: false,
                start: at + 1,
            }),
            _ => None,
        }
    }

    // One byte further after an interval.
    fn behind(text: &str, at: usize) -> Option<Stand>
        requires { at < length text.now }
        ensures value { (done : List interval.Interval) →
            option_map (reading_of text.now done (at + 1)) result
            ≡ next (behind done) (get_or text.now at 0) }
        ensures stand { IfSome result (IsStand text.now (at + 1)) }
    {
        match text.as_bytes()[at] {
            b' ' => Some(Stand::Behind),
            b',' => Some(Stand::Before),
            _ => None,
        }
    }

    // An interval ends, unless its bounds cross.
    fn close(done: &mut Vec<Interval>, interval: Interval) -> Mem<Option<Stand>>
        ensures value { (text : List ℕ) (at : ℕ) →
            IfOk result (λ o.
            option_map (reading_of text done.new.items at) o ≡ closed done.old.items interval) }
        ensures stand { (text : List ℕ) (at : ℕ) → IfOk result (λ o. IfSome o (IsStand text at)) }
    {
        if interval.is_crossed() {
            return Ok(None);
        }
        done.push(interval)?;
        Ok(Some(Stand::Behind))
    }

    // The interval of one version, where there is one.
    fn exactly(done: &mut Vec<Interval>, version: Option<Bound>) -> Mem<Option<Stand>>
        ensures value { (text : List ℕ) (at : ℕ) →
            IfOk result (λ o.
            option_map (reading_of text done.new.items at) o ≡ exactly done.old.items version) }
        ensures stand { (text : List ℕ) (at : ℕ) → IfOk result (λ o. IfSome o (IsStand text at)) }
    {
        match version {
            None => Ok(None),
            Some(version) => {
                let upper = version.clone()?;
                let interval = Interval {
                    lower: Some(version),
                    upper: Some(upper),
                };
                Stand::close(done, interval)
            }
        }
    }

    // The interval of two bounds.
    fn finish(
        alloc: Global,
        lower: Option<Bound>,
        inclusive: bool,
        word: &str,
        done: &mut Vec<Interval>,
    ) -> Mem<Option<Stand>>
        ensures value { (text : List ℕ) (at : ℕ) →
            IfOk result (λ o.
            option_map (reading_of text done.new.items at) o
            ≡ closed done.old.items (record { lower = lower; upper = bound inclusive word.now })) }
        ensures stand { (text : List ℕ) (at : ℕ) → IfOk result (λ o. IfSome o (IsStand text at)) }
    {
        let upper = bound(alloc, inclusive, word)?;
        Stand::close(done, Interval { lower, upper })
    }

    // One byte further after an opening bracket.
    #[tactic(auto, using(crate::proofs::Words::begins, crate::proofs::Words::since_more))]
    fn lower(
        alloc: Global,
        text: &str,
        at: usize,
        square: bool,
        start: usize,
        done: &mut Vec<Interval>,
    ) -> Mem<Option<Stand>>
        requires within { at < length text.now }
        requires begins { Begins text.now start at }
        ensures value { IfOk result (λ o.
            option_map (reading_of text.now done.new.items (at + 1)) o
            ≡ next (lower done.old.items square (since text.now start at)) (get_or text.now at 0)) }
        ensures stand { IfOk result (λ o. IfSome o (IsStand text.now (at + 1))) }
    {
        match text.as_bytes()[at] {
            b',' => {
                let lower = bound(alloc, square, &text[start..at])?;
                Ok(Some(Stand::Upper {
                    lower,
                    start: at + 1,
                }))
            }
            b']' if square => Stand::exactly(done, bound(alloc, true, &text[start..at])?),
            b'[' | b']' | b'(' | b')' => Ok(None),
            _ => Ok(Some(Stand::Lower { square, start })),
        }
    }

    // One byte further after the comma of an interval.
    #[tactic(auto, using(crate::proofs::Words::begins, crate::proofs::Words::since_more))]
    fn upper(
        alloc: Global,
        text: &str,
        at: usize,
        lower: Option<Bound>,
        start: usize,
        done: &mut Vec<Interval>,
    ) -> Mem<Option<Stand>>
        requires within { at < length text.now }
        requires begins { Begins text.now start at }
        ensures value { IfOk result (λ o.
            option_map (reading_of text.now done.new.items (at + 1)) o
            ≡ next (upper done.old.items lower (since text.now start at)) (get_or text.now at 0)) }
        ensures stand { IfOk result (λ o. IfSome o (IsStand text.now (at + 1))) }
    {
        match text.as_bytes()[at] {
            b']' => Stand::finish(alloc, lower, true, &text[start..at], done),
            b')' => Stand::finish(alloc, lower, false, &text[start..at], done),
            b'[' | b'(' | b',' => Ok(None),
            _ => Ok(Some(Stand::Upper { lower, start })),
        }
    }

    // One byte further.
    fn step(
        self,
        alloc: Global,
        text: &str,
        at: usize,
        done: &mut Vec<Interval>,
    ) -> Mem<Option<Stand>>
        requires within { at < length text.now }
        requires stands { IsStand text.now at self }
        ensures value { IfOk result (λ o.
            option_map (reading_of text.now done.new.items (at + 1)) o
            ≡ next (reading_of text.now done.old.items at self) (get_or text.now at 0)) }
        ensures stand { IfOk result (λ o. IfSome o (IsStand text.now (at + 1))) }
    {
        match self {
            Stand::Before => Ok(Stand::before(text, at)),
            Stand::Behind => Ok(Stand::behind(text, at)),
            Stand::Lower { square, start } => Stand::lower(alloc, text, at, square, start, done),
            Stand::Upper { lower, start } => Stand::upper(alloc, text, at, lower, start, done),
        }
    }

    /// The intervals that a text lists, or the place from which it lists none. Costs its length.
    pub(crate) fn read(alloc: Global, text: &str) -> Mem<Result<List<Interval>, usize>>
        ensures { IfOk result (λ read. read ≡ hard text.now) }
    {
        let mut done = Vec::new(alloc);
        let mut stand = Stand::Before;
        for at in 0..text.len() {
            match stand.step(alloc, text, at, &mut done)? {
                Some(next) => stand = next,
                None => return Ok(Err(at)),
            }
        }
        match stand {
            Stand::Behind => Ok(Ok(List::of(done))),
            _ => Ok(Err(text.len())),
        }
    }
}
