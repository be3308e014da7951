// The law of gates that tell one function.
ghost use Rattle.std.specs.Prelude.{◌≡◌, ℕ, Bool, List, slice_get, Some, true};
ghost use Rattle.mvn_shared.specs.Files.{Files};
ghost use Rattle.goal_types.specs.declared.goal.GoalCall.{GoalCall};
ghost use Rattle.build_core.specs.declared.plan.Plan.{Plan};
ghost use Rattle.build_core.specs.declared.plan.PlanModule.{PlanModule};
ghost use Rattle.build_core.specs.OneThread.{Supply, one_thread};
ghost use Rattle.event_core.specs.declared.entry.RunEntry.{RunEntry};
ghost use Rattle.event_core.specs.Runs.{answers_in};
ghost use Rattle.event_core.specs.SoundPlans.{IsSoundPlan};
ghost use Rattle.run_law.specs.Given.{Answers, Extends, Given, IsBetween, IsFitting, IsWhole, is_kept, supply_by};
ghost use Rattle.gate_laws.specs.Gates.{AllGates, AreGates, IsFunction, Test, request_in};

/// A law: where the gates of all workers tell one function, each fitting run keeps the answers that the sequential build gets of
/// that function, for any number of workers and whichever came first. Answers are the function's (`AreGates`) if each goal that the
/// sequential build comes to has the function's answer to what it is asked there. Does nothing. Guide to Working with Multiple
/// Modules, for the sequential build; project rule for the rest.
///
/// - `kept`: each answer that a fitting run keeps is the function's to what its goal is asked in the sequential build. The run need
///   not be complete, and may have faults; that build has any answers that are the run's where it has one.
/// - `whole`: so the answers of a complete, quiet run are the function's.
/// - `same`: the other way. If answers are the function's, each answer that a fitting run keeps is among them, complete or not, with
///   faults or without. Here alone the function has at most one answer to a request.
/// - `again`: answers that are the function's from some files are so from any files between those and the end of that build.
/// - `present`: it makes no difference which of its files the plan says are there.
pub fn one_function_answers()
    ensures kept { (g : Given) (run : List RunEntry) (said : Answers) (test : Test)
        → IsFitting g run → AllGates g test → Extends (answers_in g.plan run) said
        → (number goal : ℕ) (m : PlanModule) (call : GoalCall)
        → slice_get g.plan.modules number ≡ Some m → slice_get m.goals goal ≡ Some call
        → is_kept (answers_in g.plan run) number goal ≡ true
        → test (request_in g.plan (supply_by g.start g.remote said) number m goal call)
        (said number goal) ≡ true }
    ensures whole { (g : Given) (run : List RunEntry) (said : Answers) (test : Test)
        → IsWhole g run → AllGates g test → Extends (answers_in g.plan run) said
        → AreGates g.plan (supply_by g.start g.remote said) test }
    ensures same { (g : Given) (run : List RunEntry) (said : Answers) (test : Test)
        → IsFitting g run → AllGates g test → IsFunction test
        → AreGates g.plan (supply_by g.start g.remote said) test
        → Extends (answers_in g.plan run) said }
    ensures again { (plan : Plan) (start between remote : Files) (said : Answers) (test : Test)
        → IsSoundPlan plan
        → IsBetween start (one_thread plan (supply_by start remote said)).files between
        → AreGates plan (supply_by start remote said) test
        → AreGates plan (supply_by between remote said) test }
    ensures present { (plan : Plan) (list : List Bool) (supply : Supply) (test : Test)
        → AreGates plan supply test → AreGates (record plan { present = list }) supply test }
{}
