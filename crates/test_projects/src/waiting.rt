// Calls that wait until others have begun.
use gates::Builtin;
use goal_types::{GoalAnswer, GoalRequest};
use mvn_base::FileName;
use mvn_outside::{DeviceFault, Gate, ListFault, ReadFault, Remote};
use mvn_shared::{Bytes, List, Mem, Text};
use outside_mem::Failures;
use std::alloc::Global;
use std::sync::atomic::{AtomicU32, Ordering};
use std::thread;

/// How many calls have begun, how many have to before a goal goes on and before a jar is handed out, how often one looks whether they have,
/// and how many fetches looked in vain.
#[derive(Drop)]
pub struct Meeting {
    begun: AtomicU32,
    vain: AtomicU32,
    at_goal: u32,
    at_fetch: u32,
    looks: u32,
}

impl Meeting {
    fn new(at_goal: u32, at_fetch: u32, looks: u32) -> Meeting {
        Meeting {
            begun: AtomicU32::new(0),
            vain: AtomicU32::new(0),
            at_goal,
            at_fetch,
            looks,
        }
    }

    /// The first goals wait until three have begun.
    pub fn of_goals(looks: u32) -> Meeting {
        Meeting::new(3, 0, looks)
    }

    /// The first goal waits until a fetch has begun, and the fetch until the next goal has.
    pub fn of_a_fetch(looks: u32) -> Meeting {
        Meeting::new(2, 3, looks)
    }

    // Begins a call, and looks until so many have begun. Whether they have.
    fn join(&self, wanted: u32) -> bool {
        self.begun.fetch_add(1, Ordering::SeqCst);
        for _ in 0..self.looks {
            if self.begun.load(Ordering::SeqCst) >= wanted {
                return true;
            }
            thread::yield_now();
        }
        false
    }

    // Begins a goal. Whether the others have begun, and no fetch looked in vain.
    fn goal(&self) -> bool {
        self.join(self.at_goal) && self.vain.load(Ordering::SeqCst) == 0
    }

    // Begins a fetch.
    fn fetch(&self) {
        if !self.join(self.at_fetch) {
            self.vain.fetch_add(1, Ordering::SeqCst);
        }
    }
}

// Begins a goal, where goals wait.
fn goes_on(meeting: Option<&Meeting>) -> bool {
    match meeting {
        Some(meeting) => meeting.goal(),
        None => true,
    }
}

/// The built-in goals. The first of them wait, and they fail as `alone` where that was in vain.
#[derive(Drop)]
pub struct WaitingGate<'a, F> {
    pub alloc: Global,
    pub goals: Builtin,
    pub calls: F,
    pub meeting: Option<&'a Meeting>,
}

// What a goal answers that waited in vain.
fn alone(alloc: Global) -> Mem<GoalAnswer> {
    let text = Text::from_str(alloc, "alone")?;
    Ok(GoalAnswer::Failed(text))
}

impl<'a, F: Failures> Gate for WaitingGate<'a, F> {
    ghost use Rattle.std.specs.Prelude.{None};

    ghost answers = { λ _. None };

    ghost faults = { λ gate. F.count gate.calls };

    ghost never_fails = { λ gate. F.never_fails gate.calls };

    ghost no_faults = { λ gate. F.no_faults gate.calls };

    ghost one_answer = { λ _. tt };

    fn call(&mut self, request: &GoalRequest) -> Result<GoalAnswer, DeviceFault> {
        if self.calls.next_fails() {
            return Err(DeviceFault::Failed);
        }
        if !goes_on(self.meeting) {
            return match alone(self.alloc) {
                Ok(answer) => Ok(answer),
                Err(_) => Err(DeviceFault::Memory),
            };
        }
        match self.goals.call(request) {
            Ok(answer) => Ok(answer),
            Err(_) => Err(DeviceFault::Memory),
        }
    }
}

/// A repository of which calls for a jar wait.
#[derive(Drop)]
pub struct WaitingRemote<'a, R> {
    pub files: R,
    pub meeting: Option<&'a Meeting>,
}

impl<'a, R: Remote> Remote for WaitingRemote<'a, R> {
    ghost files = { λ remote. R.files remote.files };

    ghost faults = { λ remote. R.faults remote.files };

    ghost never_fails = { λ remote. R.never_fails remote.files };

    ghost no_faults = { λ remote. R.no_faults remote.files };

    fn fetch(&mut self, name: &FileName, limit: u64) -> Result<Option<Bytes>, ReadFault> {
        if name.as_text().as_str().ends_with(".jar") {
            if let Some(meeting) = self.meeting {
                meeting.fetch();
            }
        }
        self.files.fetch(name, limit)
    }

    fn versions(&mut self, group: &Text, artifact: &Text) -> Result<List<Text>, ListFault> {
        self.files.versions(group, artifact)
    }
}
