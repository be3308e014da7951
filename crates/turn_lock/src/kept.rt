// What a locked value tells.
ghost use Rattle.std.specs.Prelude.{◌≡◌, length};

/// Whose an entry of a log is: nobody's, or one worker's, which opens a module with it, goes on or closes it. Project rule.
#[derive(Clone, Copy)]
pub enum Role {
    Nobody,
    /// The worker opens the module.
    Opens(u32, u32),
    GoesOn(u32),
    Closes(u32),
}

/// A value that a turn lock keeps: a fixed part, a number of workers, and a log. Project rule.
pub trait Kept {
    type Fixed;

    type Entry;

    ghost use Rattle.std.specs.Prelude.{ℕ, ◌<◌, ◌^◌, List, length};
    ghost use Rattle.turn_lock.specs.declared.kept.Role.{Role};

    /// What no turn changes.
    ghost fixed: { Self → Self.Fixed };

    /// What happened so far.
    ghost log: { Self → List Self.Entry };

    /// How many workers there are; no turn changes it either.
    ghost count: { Self → ℕ };

    /// Whose an entry is.
    ghost role: { Self.Entry → Role };

    /// How many workers there are. Takes no memory; constant time.
    fn workers(&self) -> u32
        ensures { result ≡ count self.now };

    /// How long the log is; none is longer. Takes no memory; constant time.
    fn entries(&self) -> u64
        ensures length { result ≡ length (log self.now) }
        ensures few { length (log self.now) < 2 ^ 62 };
}
