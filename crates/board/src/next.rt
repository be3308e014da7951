// What the board answers to an idle worker, and to an answer that is kept.

/// What a worker is told to do next.
#[derive(Clone, Copy)]
pub enum Next {
    /// It builds this module, which has begun.
    Module(u32),
    /// This module was skipped; it asks again.
    Skipped(u32),
    /// Nothing may begin until another worker goes on.
    Wait,
    /// Each module has ended or was skipped.
    Done,
}

/// Whether an answer's output is kept within its module's budget.
#[derive(Clone, Copy)]
pub enum AnswerKept {
    Held,
    /// With it the kept outputs would have more bytes than the budget: it stands among the answers alone.
    TooLarge,
}
