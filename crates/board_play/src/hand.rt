// What a worker is at.
use build_core::Ending;
use outside_mem::{Calls, MemArea, MemRemote};

/// The next thing that a worker does for its module. A number is a place in a list of the module.
#[derive(Clone, Copy)]
pub enum Stage {
    /// Asks for a module.
    Idle,
    /// Takes a name of the batch, shared.
    Share(u32),
    /// Frees a name of the batch, since a file is absent.
    Part(u32),
    /// Takes a name of the batch alone.
    Lock(u32),
    /// Fetches a file and publishes it, where it is absent.
    Fetch(u32),
    /// Reads the file of an entry, where none before it did.
    Read(u32),
    /// Frees a name of the batch.
    Release(u32),
    /// Answers a goal.
    Answer(u32),
    /// Takes the module's own name.
    Own,
    /// Publishes an own file.
    Install(u32),
    /// Frees the own name, and ends so.
    FreeOwn(Ending),
    /// Frees a name of the batch, and ends so.
    Abandon(u32, Ending),
    /// Ends so.
    End(Ending),
}

/// A worker: its remote repository and its area, the module that it builds, and the next thing that it does.
#[derive(Drop)]
pub struct Hand {
    pub remote: MemRemote<Calls>,
    pub area: MemArea<Calls>,
    pub module: u32,
    pub stage: Stage,
}

/// What came of a turn.
#[derive(Clone, Copy)]
pub enum Turn {
    /// This comes next.
    Goes(Stage),
    /// The worker waits for another.
    Waits,
    /// All is over.
    Over,
    /// An event that has to be due may not come.
    Stuck,
}
