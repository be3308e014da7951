// What each hand shows of its own worker's entries, and what that makes of the whole run.
ghost use Rattle.std.specs.Prelude.{◌≡◌, ◌<◌, ℕ, List, [], ◌∷◌, ◌++◌, Option, true};
ghost use Rattle.mvn_shared.specs.Files.{Files};
ghost use Rattle.build_core.specs.declared.plan.Plan.{Plan};
ghost use Rattle.event_core.specs.declared.entry.RunEntry.{RunEntry};
ghost use Rattle.event_core.specs.Runs.{IsRunOf};
ghost use Rattle.event_core.specs.Worlds.{AllFit, Fits, HandTold};
ghost use Rattle.run_law.specs.Hands.{AreBare, OwnFit};
ghost use Rattle.run_law.specs.Others.{AreOthers, is_of};

/// A law: if each hand shows that the entries of its own worker fit, then the whole run fits. What a hand has shown of the entries so
/// far stays so after entries of others, and after one entry of its worker that fits. Does nothing. Project rule.
pub fn hands_fit_together()
    ensures others { (plan : Plan) (start : Option Files) (told : HandTold) (w : ℕ)
        (past rest : List RunEntry) → OwnFit plan start told w [] past → AreOthers w rest
        → OwnFit plan start told w [] (past ++ rest) }
    ensures own { (plan : Plan) (start : Option Files) (told : HandTold) (w : ℕ)
        (past : List RunEntry) (e : RunEntry) → OwnFit plan start told w [] past
        → Fits plan start (λ v. told) past e → OwnFit plan start told w [] (past ++ e ∷ []) }
    ensures all { (plan : Plan) (start : Option Files) (hands : ℕ → HandTold) (run : List RunEntry)
        → IsRunOf plan run → AreBare run
        → ((w : ℕ) → w < plan.workers → OwnFit plan start (hands w) w [] run)
        → AllFit plan start hands [] run }
{}
