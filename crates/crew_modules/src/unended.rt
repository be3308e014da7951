// The law of when a worker has ended no module.
ghost use Rattle.std.specs.Prelude.{◌≡◌, ℕ, List, ◌++◌, Some};
ghost use Rattle.build_core.specs.declared.plan.Plan.{Plan};
ghost use Rattle.event_core.specs.declared.entry.RunEntry.{RunEntry};
ghost use Rattle.event_core.specs.Runs.{IsRunOf, module_by};
ghost use Rattle.crew_turns.specs.Endings.{endings_of};

/// A law: a worker that builds the module that it built before has ended none since. For a module that has ended doesn't begin again.
/// Does nothing. Project rule.
pub fn building_ends_none()
    ensures { (plan : Plan) (past rest : List RunEntry) (w number : ℕ)
        → IsRunOf plan (past ++ rest) → module_by plan past w ≡ Some number
        → module_by plan (past ++ rest) w ≡ Some number
        → endings_of w (past ++ rest) ≡ endings_of w past }
{}
