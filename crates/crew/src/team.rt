//! Work that is divided among hands by halves, each half in a thread of its own.

ghost use Rattle.std.specs.Prelude.{◌≡◌, ◌<◌, ◌≤◌, ◌+◌, ◌-◌, ◌/◌, ◌^◌, ℕ, length, slice_index_or};
ghost use Rattle.std.specs.Thread.{IsSync, IsSend};

use std::sync::Wait;
use std::thread::{Threads, join_mut};

/// What works with hands under a lock, each with a pass. It says what has to be so of a pass before, what is so of it afterwards, and
/// what it then knows of a hand. Project rule.
pub trait Team<L, H, P> {
    ghost use Rattle.std.specs.Prelude.{◌<◌, ◌≤◌, ◌≡◌, ◌+◌, ◌/◌, ℕ};

    /// The pass is of the lock, and may act for so many workers, from a first one on.
    ghost ready: { Self → L → ℕ → ℕ → P → Type 0 };

    /// What is so of the pass when these workers are done.
    ghost done: { Self → L → ℕ → ℕ → P → Type 0 };

    /// What a pass knows of a worker: what it did with its hand, from what the hand was and what it is.
    ghost leaves: { Self → P → ℕ → H → H → Type 0 };

    /// One worker's work, with its hand. May wait.
    fn work<W: Wait>(&self, rt: &W, lock: &L, first: u32, hand: &mut H, pass: &mut P)
        requires { ready self.now lock.now first 1 pass.old }
        ensures done { done self.now lock.now first 1 pass.new }
        ensures leaves { leaves self.now pass.new first hand.old hand.new };

    /// Cuts a pass in two: the new one is for the last half of the workers, rounded down. Never refused.
    fn cut(&self, lock: &L, first: u32, left: u32, right: u32, pass: &mut P) -> P
        requires whole { ready self.now lock.now first (left + right) pass.old }
        requires half { (0 < right) × (right ≡ (left + right) / 2) }
        ensures left { ready self.now lock.now first left pass.new }
        ensures right { ready self.now lock.now (first + left) right result };

    /// Takes a pass into another: what either knows of its workers, this one then knows.
    fn tie(&self, lock: &L, first: u32, left: u32, right: u32, pass: &mut P, other: P)
        requires left { done self.now lock.now first left pass.old }
        requires right { done self.now lock.now (first + left) right other }
        ensures done { done self.now lock.now first (left + right) pass.new }
        ensures keeps_left { (k : ℕ) (before now : H) → first ≤ k → k < first + left →
            leaves self.now pass.old k before now → leaves self.now pass.new k before now }
        ensures keeps_right { (k : ℕ) (before now : H) → first + left ≤ k →
            k < first + left + right → leaves self.now other k before now →
            leaves self.now pass.new k before now };
}

/// Lets each hand's worker work, in a thread of its own as far as threads can be had, and else one after another. The hands' workers are
/// numbered from the first one on. May wait. Costs a cut, a tie and a thread for each hand but one. Project rule.
#[cycle(halves)]
pub fn run<R: Threads + Wait + Sync, T: Team<L, H, P> + Sync, L: Sync, H: Send, P: Send>(
    rt: &R,
    team: &T,
    lock: &L,
    first: u32,
    hands: &mut [H],
    pass: &mut P,
)
    requires some { 0 < length hands.old }
    requires few { first + length hands.old < 2 ^ 32 }
    requires ready { T.ready team.now lock.now first (length hands.old) pass.old }
    ensures done { T.done team.now lock.now first (length hands.old) pass.new }
    ensures hands { (i : ℕ) (d : H) → i < length hands.old →
        T.leaves team.now pass.new (first + i) (slice_index_or hands.old i d)
        (slice_index_or hands.new i d) }
{
    if hands.len() == 1 {
        team.work(rt, lock, first, &mut hands[0], pass);
        return;
    }
    let right = hands.len() / 2;
    let left = hands.len() - right;
    let mut other = team.cut(lock, first, left as u32, right as u32, pass);
    let (front, back) = hands.split_at_mut(left);
    fork(rt, team, lock, first, front, back, pass, &mut other);
    team.tie(lock, first, left as u32, right as u32, pass, other);
}

// The work of both halves at once, each with its pass.
#[cycle(halves)]
fn fork<R: Threads + Wait + Sync, T: Team<L, H, P> + Sync, L: Sync, H: Send, P: Send>(
    rt: &R,
    team: &T,
    lock: &L,
    first: u32,
    front: &mut [H],
    back: &mut [H],
    pass: &mut P,
    other: &mut P,
)
    requires some { (0 < length front.old) × (0 < length back.old) }
    requires few { first + length front.old + length back.old < 2 ^ 32 }
    requires left { T.ready team.now lock.now first (length front.old) pass.old }
    requires right { T.ready team.now lock.now (first + length front.old)
        (length back.old) other.old }
    ensures done_left { T.done team.now lock.now first (length front.old) pass.new }
    ensures done_right { T.done team.now lock.now (first + length front.old)
        (length back.old) other.new }
    ensures left { (i : ℕ) (d : H) → i < length front.old →
        T.leaves team.now pass.new (first + i) (slice_index_or front.old i d)
        (slice_index_or front.new i d) }
    ensures right { (i : ℕ) (d : H) → i < length back.old →
        T.leaves team.now other.new (first + length front.old + i) (slice_index_or back.old i d)
        (slice_index_or back.new i d) }
{
    let middle = first + front.len() as u32;
    join_mut(
        rt,
        &mut ||
            requires { IsSync R.row × IsSync T.row × IsSync L.row × IsSend H.row × IsSend P.row
                × (0 < length front.now) × (first + length front.now < 2 ^ 32)
                × T.ready team.now lock.now first (length front.now) pass.now }
            ensures done { T.done team.entry.now lock.entry.now first
                (length front.entry.now) pass.exit.now }
            ensures hands { (i : ℕ) (d : H) → i < length front.entry.now →
                T.leaves team.entry.now pass.exit.now (first + i)
                (slice_index_or front.entry.now i d) (slice_index_or front.exit.now i d) }
        { run(rt, team, lock, first, front, pass) },
        &mut ||
            requires { IsSync R.row × IsSync T.row × IsSync L.row × IsSend H.row × IsSend P.row
                × (0 < length back.now) × (middle + length back.now < 2 ^ 32)
                × T.ready team.now lock.now middle (length back.now) other.now }
            ensures done { T.done team.entry.now lock.entry.now middle
                (length back.entry.now) other.exit.now }
            ensures hands { (i : ℕ) (d : H) → i < length back.entry.now →
                T.leaves team.entry.now other.exit.now (middle + i)
                (slice_index_or back.entry.now i d) (slice_index_or back.exit.now i d) }
        { run(rt, team, lock, middle, back, other) },
    );
}
