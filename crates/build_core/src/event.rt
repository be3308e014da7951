// The steps of a run. Project rule, but for the modes of locks: Resolver, "Named Locks".
use crate::Mode;
use crate::ending::Ending;
use goal_types::GoalAnswer;

/// One step of a run. Workers are numbered by their hands; modules, names and files are places in the plan's lists, goals
/// places in the list of the worker's module.
#[derive(Clone, Copy, PartialEq, Eq)]
pub enum Event {
    /// The worker begins the module.
    Start { worker: u32, module: u32 },
    /// The module isn't built, for an upstream of it isn't.
    Skip { module: u32 },
    /// The worker takes the lock on the name.
    Take { worker: u32, name: u32, mode: Mode },
    Free { worker: u32, name: u32 },
    /// The worker reads the file from the repository.
    Read { worker: u32, file: u32 },
    /// The worker gives the file's name whole bytes in the repository.
    Publish { worker: u32, file: u32 },
    /// The worker keeps what the goal answered.
    Answer { worker: u32, goal: u32 },
    /// The worker's module ends.
    End { worker: u32, ending: Ending },
}

/// What a goal of a module answered, as it is kept.
#[derive(Drop)]
pub struct Answered {
    pub module: u32,
    pub goal: u32,
    pub answer: GoalAnswer,
}
