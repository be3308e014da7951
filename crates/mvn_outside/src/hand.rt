//! `Hand`: the devices of one worker.

/// What one worker works with: the repository that it fetches from, its own staging area, and what runs its goals.
#[derive(Drop)]
pub struct Hand<R, A, G> {
    pub remote: R,
    pub area: A,
    pub gate: G,
}
