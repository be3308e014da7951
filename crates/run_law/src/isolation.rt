// The law of runs in which modules ended by a fault or for want of memory.
ghost use Rattle.std.specs.Prelude.{◌≡◌, ℕ, ◌<◌, List, length, false};
ghost use Rattle.build_core.specs.declared.ending.Ending.{Ending};
ghost use Rattle.build_core.specs.declared.ending.State.TheVariants.{Ended};
ghost use Rattle.event_core.specs.declared.entry.RunEntry.{RunEntry};
ghost use Rattle.event_core.specs.Runs.{IsComplete, answers_in, contents};
ghost use Rattle.run_law.specs.Closed.{outputs_at, state_at};
ghost use Rattle.run_law.specs.Given.{Answers, Extends, Given, IsBetween, IsFitting, IsUntouched, is_fault, sequential, outputs_after, state_after};

/// A law: faults stay apart. In a complete fitting run a module that neither ended by a fault or for want of memory
/// nor has an upstream that did, however far up, stands as in the sequential build and keeps the same outputs, with
/// any answers that are the run's where it has one. And after any fitting run, complete or not, each module that has
/// ended otherwise than so ended as in that build and keeps the same outputs, and each file is as at the start or as
/// that build leaves it. Does nothing. Project rule.
pub fn faults_stay_apart()
    ensures states { (g : Given) (run : List RunEntry) (said : Answers) → IsFitting g run
        → IsComplete g.plan run → Extends (answers_in g.plan run) said
        → (number : ℕ) → number < length g.plan.modules → IsUntouched g.plan run number
        → state_after g.plan run number ≡ state_at (sequential g said) number }
    ensures outputs { (g : Given) (run : List RunEntry) (said : Answers) → IsFitting g run
        → IsComplete g.plan run → Extends (answers_in g.plan run) said
        → (number : ℕ) → number < length g.plan.modules → IsUntouched g.plan run number
        → outputs_after g.plan run number ≡ outputs_at (sequential g said) number }
    ensures ended { (g : Given) (run : List RunEntry) (said : Answers) → IsFitting g run
        → Extends (answers_in g.plan run) said
        → (number : ℕ) (e : Ending) → number < length g.plan.modules
        → state_after g.plan run number ≡ Ended e → is_fault (Ended e) ≡ false
        → state_at (sequential g said) number ≡ Ended e }
    ensures kept { (g : Given) (run : List RunEntry) (said : Answers) → IsFitting g run
        → Extends (answers_in g.plan run) said
        → (number : ℕ) (e : Ending) → number < length g.plan.modules
        → state_after g.plan run number ≡ Ended e → is_fault (Ended e) ≡ false
        → outputs_after g.plan run number ≡ outputs_at (sequential g said) number }
    ensures files { (g : Given) (run : List RunEntry) (said : Answers) → IsFitting g run
        → Extends (answers_in g.plan run) said
        → IsBetween g.start (sequential g said).files (contents g.plan g.start run) }
{}
