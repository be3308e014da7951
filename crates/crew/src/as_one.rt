// The law of a build by a crew, beside the build by one hand.
ghost use Rattle.std.specs.Prelude.{◌≡◌, ◌<◌, ℕ, List, [], length, Option, Some, is_some, true};
ghost use Rattle.mvn_outside.specs.declared.shelf.ShelfTold.{ShelfTold};
ghost use Rattle.build_core.specs.OneThread.{Supply};
ghost use Rattle.build_core.specs.declared.plan.Plan.{Plan};
ghost use Rattle.event_core.specs.declared.entry.RunEntry.{RunEntry};
ghost use Rattle.event_core.specs.Runs.{IsComplete, IsRunOf};
ghost use Rattle.board.specs.Logs.{AreCarried};
ghost use Rattle.run_law.specs.Given.{states_after};
ghost use Rattle.run_law.specs.Hands.{OwnFit};
ghost use Rattle.crew_turns.specs.Endings.{endings_of};
ghost use Rattle.crew_turns.specs.Hands.{HandState};
ghost use Rattle.crew.specs.AsOne.{EndsApart, EndsAsOne, IsSupplyOf, are_calm};
ghost use Rattle.crew.specs.CrewOutcomes.{IsCrewRun, IsUsed, hand_of, start_of, told_of};

/// A law: a crew builds as one hand. What each worker's hand shows of its own entries makes one run by the crew. Where no module ended by a
/// fault or for want of memory, that run ends as the build by one hand of the same supply: each module stands so, with the same outputs,
/// and the repository has the same files, whatever the number of hands and whoever came first. And else the faults stay apart. Does
/// nothing. Guide to Working with Multiple Modules, for the build by one hand; project rule for the rest.
pub fn crew_builds_as_one()
    ensures gathered { (plan : Plan) (opening : Option ShelfTold) (before now : List HandState)
        (run : List RunEntry) → IsRunOf plan run → IsComplete plan run
        → AreCarried (is_some opening) run → length before ≡ plan.workers
        → ((w : ℕ) → w < plan.workers
        → OwnFit plan (start_of opening) (told_of before w) w [] run)
        → ((w : ℕ) → w < plan.workers
        → IsUsed (hand_of before w) (hand_of now w) (endings_of w run))
        → IsCrewRun plan opening before now run }
    ensures as_one { (plan : Plan) (opening : ShelfTold) (before now : List HandState)
        (run : List RunEntry) (supply : Supply) → IsCrewRun plan (Some opening) before now run
        → IsSupplyOf plan opening before run supply → are_calm (states_after plan run) ≡ true
        → EndsAsOne plan supply run }
    ensures apart { (plan : Plan) (opening : ShelfTold) (before now : List HandState)
        (run : List RunEntry) (supply : Supply) → IsCrewRun plan (Some opening) before now run
        → IsSupplyOf plan opening before run supply → EndsApart plan supply run }
{}
