// How far a module is, as a core keeps it.
ghost use Rattle.std.specs.Prelude.{◌≡◌};
ghost use Rattle.event_core.specs.HowFar.{is_done, is_lost, is_over, is_waiting, progress_of};

use build_core::Ending;

/// How far a module is, as a core keeps it. Which upstream a skipped one is skipped for is told when that is asked.
#[derive(Clone, Copy)]
pub enum Progress {
    Waiting,
    /// This worker builds it.
    Running(u32),
    Skipped,
    Ended(Ending),
}

/// Whether a module hasn't begun, nor was skipped. Constant time. Project rule.
pub fn is_waiting(progress: Progress) -> bool
    ensures { result ≡ is_waiting progress }
{
    match progress {
        Progress::Waiting => true,
        _ => false,
    }
}

/// Whether a module was skipped, or ended otherwise than built. Constant time. Project rule.
pub fn is_lost(progress: Progress) -> bool
    ensures { result ≡ is_lost progress }
{
    match progress {
        Progress::Skipped => true,
        Progress::Ended(Ending::Built) => false,
        Progress::Ended(_) => true,
        _ => false,
    }
}

/// Whether a module ended as built. Constant time. Project rule.
pub fn is_built(progress: Progress) -> bool
    ensures { result ≡ is_done progress }
{
    match progress {
        Progress::Ended(Ending::Built) => true,
        _ => false,
    }
}

/// Whether a module ended or was skipped. Constant time. Project rule.
pub fn is_over(progress: Progress) -> bool
    ensures { result ≡ is_over progress }
{
    match progress {
        Progress::Skipped | Progress::Ended(_) => true,
        _ => false,
    }
}

/// How far a module is: it waits where there is none of this number. Constant time. Project rule.
pub fn progress_at(progress: &[Progress], number: usize) -> Progress
    ensures { result ≡ progress_of progress.now number }
{
    progress.get(number).copied().unwrap_or(Progress::Waiting)
}
