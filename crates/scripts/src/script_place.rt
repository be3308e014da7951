// Where a worker is in the script of its module. A script's place has several names where a list ends: the last of one stage is the
// first of the next.
ghost use Rattle.std.specs.Prelude.{◌≡◌, ◌<◌, ◌+◌, ℕ, Bool, true, false, List, [], ◌∷◌, ◌++◌, length, take, drop, get_or, nat_eq, Option, Some, None, option_map, option_and_then};
ghost use Rattle.std.specs.List.{list_all};
ghost use Rattle.std.specs.Option.{option_map_or};
ghost use Rattle.scripts.specs.declared.deed.Deed.TheVariants.{Take, Free, Read, Publish, Answer};
ghost use Rattle.scripts.specs.declared.script_place.ScriptPlace.{ScriptPlace};
ghost use Rattle.scripts.specs.declared.script_place.ScriptPlace.TheVariants.{Sharing, Unsharing, Locking, Fetching, Reading, Releasing, Answering, Securing, Installing};
ghost use Rattle.scripts.specs.Scripts.{Script, answers_left, done, fetches, head, is_gathered, is_there, is_to_install, may_end, may_publish, published_by, read_by, settled, stage_of, steps, wanted};
ghost use Rattle.scripts.specs.Climbing.{but};
ghost use Rattle.scripts.specs.Outlines.{is_empty, is_listed};
ghost use Rattle.scripts.specs.HeldAt.{HoldsAt, HoldsBehind, HoldsThen};
ghost use Rattle.scripts.specs.ScriptPlaces.{IsPlaced, is_to_install_at, is_unanswered_at, may_end_at, published_at, read_at, rest_of, stage_at, wanted_at};

use crate::deed::Deed;
use crate::outline::ModuleOutline;
use build_core::Mode;

/// A place in the script of a module, as a core keeps it; the definition has what is left of the script from there on. Numbers are places
/// in the module's lists.
#[derive(Clone, Copy)]
pub enum ScriptPlace {
    /// The batch is taken shared, from this name on.
    Sharing(usize),
    /// A file is absent: the batch is freed.
    Unsharing,
    /// The batch is taken exclusively, from this name on.
    Locking(usize),
    /// Absent files are fetched, from this one on.
    Fetching(usize),
    /// Files are read, from this one on.
    Reading(usize),
    /// The batch is freed.
    Releasing,
    /// Goals are answered, from this one on.
    Answering(usize),
    /// All is done but the installing.
    Securing,
    /// It is installed, from this file on.
    Installing(usize),
    Whole,
}

// What is left where all goals are answered.
#[tactic(auto, unfolding(crate::specs::ScriptPlaces::rest_of))]
fn securing(plan: &ModuleOutline) -> ScriptPlace
    ensures here { rest_of plan.now result ≡ rest_of plan.now Securing }
    ensures placed { IsPlaced plan.now result }
    ensures held { HoldsAt plan.now result [] }
    ensures at { plan.now.installs ≡ true → result ≡ Securing }
{
    if plan.installs {
        ScriptPlace::Securing
    } else {
        ScriptPlace::Whole
    }
}

#[tactic(auto, using(crate::proofs::ScriptPlaces::answering_end), unfolding(crate::specs::ScriptPlaces::rest_of))]
fn answering(plan: &ModuleOutline, at: usize) -> ScriptPlace
    ensures here { rest_of plan.now result ≡ rest_of plan.now (Answering at) }
    ensures placed { IsPlaced plan.now result }
    ensures held { HoldsAt plan.now result [] }
    ensures at { at < plan.now.goals → result ≡ Answering at }
{
    if at < plan.goals {
        ScriptPlace::Answering(at)
    } else {
        securing(plan)
    }
}

#[tactic(auto, using(crate::proofs::ScriptPlaces::reading_end), unfolding(crate::specs::ScriptPlaces::rest_of))]
fn reading(plan: &ModuleOutline, at: usize) -> ScriptPlace
    ensures here { rest_of plan.now result ≡ rest_of plan.now (Reading at) }
    ensures placed { IsPlaced plan.now result }
    ensures at { at < length plan.now.reads → result ≡ Reading at }
{
    if at < plan.reads.len() {
        ScriptPlace::Reading(at)
    } else {
        ScriptPlace::Releasing
    }
}

#[tactic(auto, using(crate::proofs::ScriptPlaces::fetching_end), unfolding(crate::specs::ScriptPlaces::rest_of))]
fn fetching(plan: &ModuleOutline, at: usize) -> ScriptPlace
    ensures here { rest_of plan.now result ≡ rest_of plan.now (Fetching at) }
    ensures placed { IsPlaced plan.now result }
    ensures at { at < length plan.now.fetch → result ≡ Fetching at }
{
    if at < plan.fetch.len() {
        ScriptPlace::Fetching(at)
    } else {
        reading(plan, 0)
    }
}

#[tactic(auto, using(crate::proofs::ScriptPlaces::locking_end), unfolding(crate::specs::ScriptPlaces::rest_of))]
fn locking(plan: &ModuleOutline, at: usize) -> ScriptPlace
    ensures here { rest_of plan.now result ≡ rest_of plan.now (Locking at) }
    ensures placed { IsPlaced plan.now result }
    ensures at { at < length plan.now.batch → result ≡ Locking at }
{
    if at < plan.batch.len() {
        ScriptPlace::Locking(at)
    } else {
        fetching(plan, 0)
    }
}

// Whether the files are all there.
#[tactic(auto, using(crate::proofs::ScriptPlaces::all_more, crate::proofs::ScriptPlaces::all_stop, crate::proofs::ScriptPlaces::all_end))]
fn all_there(there: &[bool], files: &[u32]) -> bool
    ensures { result ≡ list_all (is_there there.now) files.now }
{
    for at in 0..files.len() {
        if !is_there(there, files[at]) {
            return false;
        }
    }
    true
}

fn is_there(there: &[bool], file: u32) -> bool
    ensures { result ≡ is_there there.now file }
{
    there.get(file as usize).copied().unwrap_or(false)
}

// The first place from one on whose file is absent.
#[tactic(auto, using(crate::proofs::ScriptPlaces::pass_over, crate::proofs::ScriptPlaces::stop_over, crate::proofs::ScriptPlaces::none_over))]
fn absent_from(there: &[bool], files: &[u32], from: usize) -> Option<usize>
    ensures low { (at : ℕ) → result ≡ Some at → at < length files.now }
    ensures rest { (empty : Bool) (rest : Script)
        → option_map_or (λ at. steps 3 fetches (drop at files.now) rest) result
        (settled there.now empty rest) ≡ settled there.now empty
        (steps 3 fetches (drop from files.now) rest) }
{
    for at in from..files.len() {
        if !is_there(there, files[at]) {
            return Some(at);
        }
    }
    None
}

// The place of a file that may be published, from a place on.
#[tactic(auto, using(crate::proofs::Dues::pass_own, crate::proofs::Dues::stop_own, crate::proofs::Dues::end_own), unfolding(crate::specs::ScriptPlaces::rest_of))]
fn place_from(files: &[u32], from: usize, file: u32) -> Option<usize>
    ensures low { (at : ℕ) → result ≡ Some at → at < length files.now }
    ensures found { (rest : Script)
        → option_map_or (λ at. Some (steps 6 may_publish (drop (at + 1) files.now) rest)) result
        (done rest (Publish file)) ≡ done (steps 6 may_publish (drop from files.now) rest)
        (Publish file) }
{
    for at in from..files.len() {
        if file == files[at] {
            return Some(at);
        }
    }
    None
}

#[tactic(auto, using(crate::proofs::ScriptPlaces::release_empty, crate::proofs::ScriptPlaces::release_held), unfolding(crate::specs::ScriptPlaces::rest_of))]
fn settled_release(plan: &ModuleOutline, empty: bool) -> ScriptPlace
    ensures rest { (there : List Bool)
        → rest_of plan.now result ≡ settled there empty (rest_of plan.now Releasing) }
    ensures held { (held : List ℕ) → empty ≡ is_empty held → HoldsAt plan.now result held }
{
    if empty {
        answering(plan, 0)
    } else {
        ScriptPlace::Releasing
    }
}

#[tactic(auto, using(crate::proofs::ScriptPlaces::read_more, crate::proofs::ScriptPlaces::read_end), unfolding(crate::specs::ScriptPlaces::rest_of))]
fn settled_read(plan: &ModuleOutline, empty: bool, at: usize) -> ScriptPlace
    ensures rest { (there : List Bool)
        → rest_of plan.now result ≡ settled there empty (rest_of plan.now (Reading at)) }
    ensures held { (held : List ℕ) → empty ≡ is_empty held → held ≡ plan.now.batch
        → HoldsAt plan.now result held }
{
    if at < plan.reads.len() {
        ScriptPlace::Reading(at)
    } else {
        settled_release(plan, empty)
    }
}

#[tactic(auto, unfolding(crate::specs::ScriptPlaces::rest_of))]
fn settled_fetch(plan: &ModuleOutline, there: &[bool], empty: bool, at: usize) -> ScriptPlace
    ensures rest { rest_of plan.now result
        ≡ settled there.now empty (rest_of plan.now (Fetching at)) }
    ensures held { (held : List ℕ) → empty ≡ is_empty held → held ≡ plan.now.batch
        → HoldsAt plan.now result held }
{
    match absent_from(there, plan.fetch.as_slice(), at) {
        Some(at) => ScriptPlace::Fetching(at),
        None => settled_read(plan, empty, 0),
    }
}

#[tactic(auto, using(crate::proofs::ScriptPlaces::lock_more, crate::proofs::ScriptPlaces::lock_end), unfolding(crate::specs::ScriptPlaces::rest_of))]
fn settled_lock(plan: &ModuleOutline, there: &[bool], empty: bool, at: usize) -> ScriptPlace
    ensures rest { rest_of plan.now result
        ≡ settled there.now empty (rest_of plan.now (Locking at)) }
    ensures held { (held : List ℕ) → empty ≡ is_empty held → held ≡ take at plan.now.batch
        → HoldsAt plan.now result held }
{
    if at < plan.batch.len() {
        ScriptPlace::Locking(at)
    } else {
        settled_fetch(plan, there, empty, 0)
    }
}

#[tactic(auto, using(crate::proofs::ScriptPlaces::free_empty, crate::proofs::ScriptPlaces::free_held), unfolding(crate::specs::ScriptPlaces::rest_of))]
fn settled_free(plan: &ModuleOutline, there: &[bool], empty: bool) -> ScriptPlace
    ensures rest { rest_of plan.now result ≡ settled there.now empty (rest_of plan.now Unsharing) }
    ensures held { (held : List ℕ) → empty ≡ is_empty held → HoldsAt plan.now result held }
{
    if empty {
        settled_lock(plan, there, empty, 0)
    } else {
        ScriptPlace::Unsharing
    }
}

#[tactic(auto, using(crate::proofs::ScriptPlaces::share_more, crate::proofs::ScriptPlaces::share_there, crate::proofs::ScriptPlaces::share_absent), unfolding(crate::specs::ScriptPlaces::rest_of))]
fn settled_share(plan: &ModuleOutline, there: &[bool], empty: bool, at: usize) -> ScriptPlace
    ensures rest { rest_of plan.now result
        ≡ settled there.now empty (rest_of plan.now (Sharing at)) }
    ensures held { (held : List ℕ) → empty ≡ is_empty held → held ≡ take at plan.now.batch
        → HoldsAt plan.now result held }
{
    if at < plan.batch.len() {
        ScriptPlace::Sharing(at)
    } else if all_there(there, plan.fetch.as_slice()) {
        settled_read(plan, empty, 0)
    } else {
        settled_free(plan, there, empty)
    }
}

#[tactic(auto, using(crate::proofs::ScriptPlaces::install_more, crate::proofs::ScriptPlaces::install_held, crate::proofs::ScriptPlaces::install_end), unfolding(crate::specs::ScriptPlaces::rest_of))]
fn settled_install(plan: &ModuleOutline, empty: bool, at: usize) -> ScriptPlace
    ensures rest { (there : List Bool)
        → rest_of plan.now result ≡ settled there empty (rest_of plan.now (Installing at)) }
    ensures held { (held : List ℕ) → empty ≡ is_empty held
        → HoldsBehind plan.now (Installing at) held → HoldsAt plan.now result held }
{
    if at < plan.own.len() || !empty {
        ScriptPlace::Installing(at)
    } else {
        ScriptPlace::Whole
    }
}

impl ScriptPlace {
    // The name of the place that says what is next.
    #[tactic(auto, unfolding(crate::specs::ScriptPlaces::rest_of))]
    fn here(self, plan: &ModuleOutline) -> ScriptPlace
        ensures here { rest_of plan.now result ≡ rest_of plan.now self }
        ensures placed { IsPlaced plan.now result }
        ensures same { (held : List ℕ) → HoldsAt plan.now self held → result ≡ self }
    {
        match self {
            ScriptPlace::Locking(at) => locking(plan, at),
            ScriptPlace::Fetching(at) => fetching(plan, at),
            ScriptPlace::Reading(at) => reading(plan, at),
            ScriptPlace::Answering(at) => answering(plan, at),
            ScriptPlace::Securing => securing(plan),
            other => other,
        }
    }

    // The first place from here on that wants an event.
    #[tactic(auto, using(crate::proofs::ScriptPlaces::answering_stays, crate::proofs::ScriptPlaces::securing_stays), unfolding(crate::specs::ScriptPlaces::rest_of))]
    pub(crate) fn settled(self, plan: &ModuleOutline, there: &[bool], empty: bool) -> ScriptPlace
        ensures rest { rest_of plan.now result ≡ settled there.now empty (rest_of plan.now self) }
        ensures held { (held : List ℕ) → empty ≡ is_empty held → HoldsBehind plan.now self held
            → HoldsAt plan.now result held }
    {
        match self {
            ScriptPlace::Sharing(at) => settled_share(plan, there, empty, at),
            ScriptPlace::Unsharing => settled_free(plan, there, empty),
            ScriptPlace::Locking(at) => settled_lock(plan, there, empty, at),
            ScriptPlace::Fetching(at) => settled_fetch(plan, there, empty, at),
            ScriptPlace::Reading(at) => settled_read(plan, empty, at),
            ScriptPlace::Releasing => settled_release(plan, empty),
            ScriptPlace::Answering(at) => answering(plan, at),
            ScriptPlace::Securing => securing(plan),
            ScriptPlace::Installing(at) => settled_install(plan, empty, at),
            ScriptPlace::Whole => ScriptPlace::Whole,
        }
    }

    // The place after a deed that is due.
    #[tactic(auto, unfolding(crate::specs::ScriptPlaces::rest_of))]
    pub(crate) fn done(self, plan: &ModuleOutline, deed: Deed) -> Option<ScriptPlace>
        ensures rest { option_map (rest_of plan.now) result ≡ done (rest_of plan.now self) deed }
        ensures held { (held : List ℕ) → HoldsAt plan.now self held → (next : ScriptPlace)
            → result ≡ Some next → HoldsThen deed held (HoldsBehind plan.now next) }
    {
        match deed {
            Deed::Take(mode, name) => taken(self.here(plan), plan, mode, name),
            Deed::Free => freed(self.here(plan), plan),
            Deed::Read(file) => read(self.here(plan), plan, file),
            Deed::Publish(file) => published(self.here(plan), plan, file),
            Deed::Answer(goal) => answered(self.here(plan), plan, goal),
        }
    }

    // The number of the stage.
    pub(crate) fn stage(self, plan: &ModuleOutline) -> u32
        ensures { result ≡ stage_of (rest_of plan.now self) }
    {
        stage_at(self.here(plan))
    }

    // The file that is to be fetched next.
    pub(crate) fn wanted(self, plan: &ModuleOutline) -> Option<u32>
        ensures { result ≡ wanted (rest_of plan.now self) }
    {
        wanted_at(plan, self.here(plan))
    }

    // The file that is to be read next.
    pub(crate) fn to_read(self, plan: &ModuleOutline) -> Option<u32>
        ensures { result ≡ option_and_then read_by (head (rest_of plan.now self)) }
    {
        file_at(plan, self.here(plan))
    }

    // The file that is to be published next.
    pub(crate) fn to_publish(self, plan: &ModuleOutline) -> Option<u32>
        ensures { result ≡ option_and_then published_by (head (rest_of plan.now self)) }
    {
        published_at(plan, self.here(plan))
    }

    // Whether no goal of the module is answered.
    fn is_unanswered(self, plan: &ModuleOutline) -> bool
        ensures { result ≡ nat_eq (answers_left (rest_of plan.now self)) plan.now.goals }
    {
        is_unanswered_at(plan, self.here(plan))
    }

    // Whether all files of the fetch list were there, and no goal is answered.
    pub(crate) fn is_gathered(self, plan: &ModuleOutline) -> bool
        ensures { result ≡ is_gathered plan.now.goals (rest_of plan.now self) }
    {
        3 < self.stage(plan) && self.is_unanswered(plan)
    }

    // Whether the installing is next.
    pub(crate) fn is_to_install(self, plan: &ModuleOutline) -> bool
        ensures { result ≡ is_to_install (rest_of plan.now self) }
    {
        is_to_install_at(self.here(plan))
    }

    pub(crate) fn may_end(self, plan: &ModuleOutline) -> bool
        ensures { result ≡ may_end (rest_of plan.now self) }
    {
        may_end_at(self.here(plan))
    }
}

fn stage_at(place: ScriptPlace) -> u32
    ensures { result ≡ stage_at place }
{
    match place {
        ScriptPlace::Sharing(_) => 2,
        ScriptPlace::Unsharing => 3,
        ScriptPlace::Locking(_) => 3,
        ScriptPlace::Fetching(_) => 3,
        ScriptPlace::Reading(_) => 4,
        ScriptPlace::Releasing => 4,
        ScriptPlace::Answering(_) => 5,
        ScriptPlace::Securing => 6,
        ScriptPlace::Installing(_) => 6,
        ScriptPlace::Whole => 7,
    }
}

fn wanted_at(plan: &ModuleOutline, place: ScriptPlace) -> Option<u32>
    ensures { result ≡ wanted_at plan.now place }
{
    match place {
        ScriptPlace::Fetching(at) => plan.fetch.get(at).copied(),
        _ => None,
    }
}

fn file_at(plan: &ModuleOutline, place: ScriptPlace) -> Option<u32>
    ensures { result ≡ read_at plan.now place }
{
    match place {
        ScriptPlace::Reading(at) => plan.reads.get(at).copied(),
        _ => None,
    }
}

fn published_at(plan: &ModuleOutline, place: ScriptPlace) -> Option<u32>
    ensures { result ≡ published_at plan.now place }
{
    match place {
        ScriptPlace::Fetching(at) => plan.fetch.get(at).copied(),
        ScriptPlace::Installing(at) => plan.own.get(at).copied(),
        _ => None,
    }
}

fn is_unanswered_at(plan: &ModuleOutline, place: ScriptPlace) -> bool
    ensures { result ≡ is_unanswered_at plan.now place }
{
    match place {
        ScriptPlace::Answering(at) => at == 0,
        ScriptPlace::Securing => 0 == plan.goals,
        ScriptPlace::Installing(_) => 0 == plan.goals,
        ScriptPlace::Whole => 0 == plan.goals,
        _ => true,
    }
}

fn is_to_install_at(place: ScriptPlace) -> bool
    ensures { result ≡ is_to_install_at place }
{
    match place {
        ScriptPlace::Securing => true,
        _ => false,
    }
}

fn may_end_at(place: ScriptPlace) -> bool
    ensures { result ≡ may_end_at place }
{
    match place {
        ScriptPlace::Whole => true,
        _ => false,
    }
}

// Whether the item of a list is this one.
fn is_at(list: &[u32], at: usize, wanted: u32) -> bool
    ensures there { result ≡ true → (at < length list.now)
        × (nat_eq wanted (get_or list.now at 0) ≡ true) }
    ensures other { result ≡ false → at < length list.now
        → nat_eq wanted (get_or list.now at 0) ≡ false }
{
    at < list.len() && wanted == list[at]
}

#[tactic(auto, using(crate::proofs::Dues::share_yes, crate::proofs::Dues::share_no, crate::proofs::Dues::share_other), unfolding(crate::specs::ScriptPlaces::rest_of))]
fn shared(plan: &ModuleOutline, at: usize, mode: Mode, name: u32) -> Option<ScriptPlace>
    ensures rest { option_map (rest_of plan.now) result
        ≡ done (rest_of plan.now (Sharing at)) (Take mode name) }
    ensures held { (held : List ℕ) → HoldsAt plan.now (Sharing at) held → (next : ScriptPlace)
        → result ≡ Some next → HoldsBehind plan.now next (held ++ name ∷ []) }
{
    match mode {
        Mode::Shared if is_at(plan.batch.as_slice(), at, name) => Some(ScriptPlace::Sharing(
            at + 1,
        )),
        _ => None,
    }
}

#[tactic(auto, using(crate::proofs::Dues::lock_yes, crate::proofs::Dues::lock_no, crate::proofs::Dues::lock_other), unfolding(crate::specs::ScriptPlaces::rest_of))]
fn locked(plan: &ModuleOutline, at: usize, mode: Mode, name: u32) -> Option<ScriptPlace>
    requires { at < length plan.now.batch }
    ensures rest { option_map (rest_of plan.now) result
        ≡ done (rest_of plan.now (Locking at)) (Take mode name) }
    ensures held { (held : List ℕ) → HoldsAt plan.now (Locking at) held → (next : ScriptPlace)
        → result ≡ Some next → HoldsBehind plan.now next (held ++ name ∷ []) }
{
    match mode {
        Mode::Exclusive if is_at(plan.batch.as_slice(), at, name) => Some(ScriptPlace::Locking(
            at + 1,
        )),
        _ => None,
    }
}

#[tactic(auto, using(crate::proofs::Dues::own_yes, crate::proofs::Dues::own_no, crate::proofs::Dues::own_other), unfolding(crate::specs::ScriptPlaces::rest_of))]
fn secured(plan: &ModuleOutline, mode: Mode, name: u32) -> Option<ScriptPlace>
    requires { plan.now.installs ≡ true }
    ensures rest { option_map (rest_of plan.now) result
        ≡ done (rest_of plan.now Securing) (Take mode name) }
    ensures held { (held : List ℕ) → HoldsAt plan.now Securing held → (next : ScriptPlace)
        → result ≡ Some next → HoldsBehind plan.now next (held ++ name ∷ []) }
{
    match mode {
        Mode::Exclusive if name == plan.own_name => Some(ScriptPlace::Installing(0)),
        _ => None,
    }
}

#[tactic(auto, unfolding(crate::specs::ScriptPlaces::rest_of))]
fn taken(place: ScriptPlace, plan: &ModuleOutline, mode: Mode, name: u32) -> Option<ScriptPlace>
    requires { IsPlaced plan.now place }
    ensures rest { option_map (rest_of plan.now) result
        ≡ done (rest_of plan.now place) (Take mode name) }
    ensures held { (held : List ℕ) → HoldsAt plan.now place held → (next : ScriptPlace)
        → result ≡ Some next → HoldsBehind plan.now next (held ++ name ∷ []) }
{
    match place {
        ScriptPlace::Sharing(at) => shared(plan, at, mode, name),
        ScriptPlace::Locking(at) => locked(plan, at, mode, name),
        ScriptPlace::Securing => secured(plan, mode, name),
        _ => None,
    }
}

#[tactic(auto, unfolding(crate::specs::ScriptPlaces::rest_of))]
fn freed(place: ScriptPlace, plan: &ModuleOutline) -> Option<ScriptPlace>
    requires { IsPlaced plan.now place }
    ensures rest { option_map (rest_of plan.now) result ≡ done (rest_of plan.now place) Free }
    ensures held { (held : List ℕ) → HoldsAt plan.now place held → (n : ℕ) → is_listed n held ≡ true
        → (next : ScriptPlace) → result ≡ Some next → HoldsBehind plan.now next (but n held) }
{
    match place {
        ScriptPlace::Unsharing => Some(ScriptPlace::Unsharing),
        ScriptPlace::Releasing => Some(ScriptPlace::Releasing),
        ScriptPlace::Installing(at) => own_freed(plan, at),
        _ => None,
    }
}

// Of the own files the first must be published before.
#[tactic(auto, using(crate::proofs::Dues::own_freed_yes, crate::proofs::Dues::own_freed_none, crate::proofs::Dues::own_freed_no), unfolding(crate::specs::ScriptPlaces::rest_of))]
fn own_freed(plan: &ModuleOutline, at: usize) -> Option<ScriptPlace>
    ensures rest { option_map (rest_of plan.now) result
        ≡ done (rest_of plan.now (Installing at)) Free }
    ensures held { (held : List ℕ) → HoldsAt plan.now (Installing at) held → (n : ℕ)
        → is_listed n held ≡ true → (next : ScriptPlace) → result ≡ Some next
        → HoldsBehind plan.now next (but n held) }
{
    if at == 0 && !plan.own.is_empty() {
        None
    } else {
        Some(ScriptPlace::Installing(plan.own.len()))
    }
}

#[tactic(auto, using(crate::proofs::Dues::read_yes, crate::proofs::Dues::read_no), unfolding(crate::specs::ScriptPlaces::rest_of))]
fn read_here(plan: &ModuleOutline, at: usize, file: u32) -> Option<ScriptPlace>
    requires { at < length plan.now.reads }
    ensures rest { option_map (rest_of plan.now) result
        ≡ done (rest_of plan.now (Reading at)) (Read file) }
    ensures held { (held : List ℕ) → HoldsAt plan.now (Reading at) held → (next : ScriptPlace)
        → result ≡ Some next → HoldsBehind plan.now next held }
{
    if is_at(plan.reads.as_slice(), at, file) {
        Some(ScriptPlace::Reading(at + 1))
    } else {
        None
    }
}

#[tactic(auto, unfolding(crate::specs::ScriptPlaces::rest_of))]
fn read(place: ScriptPlace, plan: &ModuleOutline, file: u32) -> Option<ScriptPlace>
    requires { IsPlaced plan.now place }
    ensures rest { option_map (rest_of plan.now) result
        ≡ done (rest_of plan.now place) (Read file) }
    ensures held { (held : List ℕ) → HoldsAt plan.now place held → (next : ScriptPlace)
        → result ≡ Some next → HoldsBehind plan.now next held }
{
    match place {
        ScriptPlace::Reading(at) => read_here(plan, at, file),
        _ => None,
    }
}

#[tactic(auto, using(crate::proofs::Dues::fetch_yes, crate::proofs::Dues::fetch_no), unfolding(crate::specs::ScriptPlaces::rest_of))]
fn fetched(plan: &ModuleOutline, at: usize, file: u32) -> Option<ScriptPlace>
    requires { at < length plan.now.fetch }
    ensures rest { option_map (rest_of plan.now) result
        ≡ done (rest_of plan.now (Fetching at)) (Publish file) }
    ensures held { (held : List ℕ) → HoldsAt plan.now (Fetching at) held → (next : ScriptPlace)
        → result ≡ Some next → HoldsBehind plan.now next held }
{
    if is_at(plan.fetch.as_slice(), at, file) {
        Some(ScriptPlace::Fetching(at + 1))
    } else {
        None
    }
}

#[tactic(auto, using(crate::proofs::Dues::pom_yes, crate::proofs::Dues::pom_no), unfolding(crate::specs::ScriptPlaces::rest_of))]
fn pom_published(plan: &ModuleOutline, file: u32) -> Option<ScriptPlace>
    ensures rest { option_map (rest_of plan.now) result
        ≡ done (rest_of plan.now (Installing 0)) (Publish file) }
    ensures held { (held : List ℕ) → HoldsAt plan.now (Installing 0) held → (next : ScriptPlace)
        → result ≡ Some next → HoldsBehind plan.now next held }
{
    if is_at(plan.own.as_slice(), 0, file) {
        Some(ScriptPlace::Installing(1))
    } else {
        None
    }
}

// Of the own files each after the first may be published.
#[tactic(auto, using(crate::proofs::Dues::found_own, crate::proofs::Dues::no_own), unfolding(crate::specs::ScriptPlaces::rest_of))]
fn own_published(plan: &ModuleOutline, at: usize, file: u32) -> Option<ScriptPlace>
    requires { 0 < at }
    ensures rest { option_map (rest_of plan.now) result
        ≡ done (rest_of plan.now (Installing at)) (Publish file) }
    ensures held { (held : List ℕ) → HoldsAt plan.now (Installing at) held → (next : ScriptPlace)
        → result ≡ Some next → HoldsBehind plan.now next held }
{
    match place_from(plan.own.as_slice(), at, file) {
        Some(place) => Some(ScriptPlace::Installing(place + 1)),
        None => None,
    }
}

#[tactic(auto, unfolding(crate::specs::ScriptPlaces::rest_of))]
fn published(place: ScriptPlace, plan: &ModuleOutline, file: u32) -> Option<ScriptPlace>
    requires { IsPlaced plan.now place }
    ensures rest { option_map (rest_of plan.now) result
        ≡ done (rest_of plan.now place) (Publish file) }
    ensures held { (held : List ℕ) → HoldsAt plan.now place held → (next : ScriptPlace)
        → result ≡ Some next → HoldsBehind plan.now next held }
{
    match place {
        ScriptPlace::Fetching(at) => fetched(plan, at, file),
        ScriptPlace::Installing(0) => pom_published(plan, file),
        ScriptPlace::Installing(at) => own_published(plan, at, file),
        _ => None,
    }
}

#[tactic(auto, using(crate::proofs::Dues::answer_yes, crate::proofs::Dues::answer_no), unfolding(crate::specs::ScriptPlaces::rest_of))]
fn answer_at(plan: &ModuleOutline, at: usize, goal: u32) -> Option<ScriptPlace>
    requires { at < plan.now.goals }
    ensures rest { option_map (rest_of plan.now) result
        ≡ done (rest_of plan.now (Answering at)) (Answer goal) }
    ensures held { (held : List ℕ) → HoldsAt plan.now (Answering at) held → (next : ScriptPlace)
        → result ≡ Some next → HoldsBehind plan.now next held }
{
    if at < plan.goals && goal as usize == at {
        Some(ScriptPlace::Answering(at + 1))
    } else {
        None
    }
}

#[tactic(auto, unfolding(crate::specs::ScriptPlaces::rest_of))]
fn answered(place: ScriptPlace, plan: &ModuleOutline, goal: u32) -> Option<ScriptPlace>
    requires { IsPlaced plan.now place }
    ensures rest { option_map (rest_of plan.now) result
        ≡ done (rest_of plan.now place) (Answer goal) }
    ensures held { (held : List ℕ) → HoldsAt plan.now place held → (next : ScriptPlace)
        → result ≡ Some next → HoldsBehind plan.now next held }
{
    match place {
        ScriptPlace::Answering(at) => answer_at(plan, at, goal),
        _ => None,
    }
}
