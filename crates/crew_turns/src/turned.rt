// The law of what a turn leaves of a worker's pass.
ghost use Rattle.std.specs.Prelude.{◌≡◌, ℕ, List, [], ◌∷◌, ◌++◌};
ghost use Rattle.build_core.specs.declared.event.Event.{Event};
ghost use Rattle.build_core.specs.declared.plan.Plan.{Plan};
ghost use Rattle.event_core.specs.Runs.{IsRunOf, module_by};
ghost use Rattle.event_core.specs.Worlds.{Fits, HandTold};
ghost use Rattle.event_core.specs.declared.entry.Carried.{Carried};
ghost use Rattle.event_core.specs.declared.entry.RunEntry.{RunEntry};
ghost use Rattle.atomic_table.specs.Seated.{TableId};
ghost use Rattle.turn_lock.specs.Turns.{IsKnown, open_of};
ghost use Rattle.board.specs.Logs.{role};
ghost use Rattle.board.specs.declared.kept.Opened.{Opened};
ghost use Rattle.crew_turns.specs.Came.{HasCome, given_back};
ghost use Rattle.crew_turns.specs.Seen.{FitsHand, IsOf, Sees, Steps, Told, start_by, view};

/// A law: what a worker knows by its pass after a turn. While the turn is out, its log is what the pass had seen with
/// entries of other workers after it. Given back without an entry more, the pass has seen just those; with one of the
/// worker's, those and then that one. It is still that worker's pass of that build, and what fitted the worker's hand
/// fits it still, with an entry that fits. The module that the lock says a worker has open is the one that it builds.
/// Does nothing. Project rule.
pub fn turns_leave()
    ensures opened { (plan : Plan) (log : List RunEntry) (w : ℕ) → IsRunOf plan log
        → open_of role w log ≡ module_by plan log w }
    ensures came { (plan : Plan) (lock : TableId) (w : ℕ) (before : Told) (log : List RunEntry)
        (fixed : Opened) (workers : ℕ) → IsOf plan lock w before
        → IsKnown role log fixed workers (view before) → HasCome w before log }
    ensures sees { (plan : Plan) (lock : TableId) (w : ℕ) (before : Told) (log : List RunEntry)
        → IsOf plan lock w before → HasCome w before log → IsRunOf plan log
        → Sees plan lock w before (given_back before log log) }
    ensures steps { (plan : Plan) (lock : TableId) (w : ℕ) (before : Told)
        (log later : List RunEntry) (e : Event) (what : Carried) → IsOf plan lock w before
        → HasCome w before log
        → later ≡ log ++ (record { event = e; carried = what }) ∷ [] → IsRunOf plan later
        → Steps plan lock w e before (given_back before log later) }
    ensures sees_fit { (plan : Plan) (lock : TableId) (w : ℕ) (before : Told)
        (log : List RunEntry) (told : HandTold) → IsOf plan lock w before → HasCome w before log
        → FitsHand plan w told before → FitsHand plan w told (given_back before log log) }
    ensures steps_fit { (plan : Plan) (lock : TableId) (w : ℕ) (before : Told)
        (log later : List RunEntry) (told : HandTold) (e : RunEntry) → IsOf plan lock w before
        → HasCome w before log → later ≡ log ++ e ∷ []
        → Fits plan (start_by before) (λ v. told) log e → FitsHand plan w told before
        → FitsHand plan w told (given_back before log later) }
{}
