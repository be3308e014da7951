// What is left of the script of a worker's module, with the module at hand.
ghost use Rattle.std.specs.Prelude.{◌≡◌, ◌&&◌, ℕ, List, slice_get, Some, option_map, option_and_then};
ghost use Rattle.scripts.specs.Scripts.{done, head, is_gathered, is_to_install, may_end, published_by, read_by, settled, stage_of, wanted};
ghost use Rattle.scripts.specs.Outlines.{is_empty};
ghost use Rattle.scripts.specs.HeldAt.{HoldsAt, HoldsBehind, HoldsThen, RestHolds, RestHoldsBehind};
ghost use Rattle.scripts.specs.Rests.{goals_left, module_left, needs_artifact_left, script_at, script_left};
ghost use Rattle.scripts.specs.declared.outline.Outline.{Outline};
ghost use Rattle.scripts.specs.declared.outline.ModuleOutline.{ModuleOutline};
ghost use Rattle.scripts.specs.declared.rest.Rest.{Rest};

use crate::deed::Deed;
use crate::outline::{ModuleOutline, Outline};
use crate::script_place::ScriptPlace;

/// What is left of a script: nothing, or the script of a module from a place on.
#[derive(Clone, Copy)]
pub enum Rest<'a> {
    Nothing,
    From(&'a ModuleOutline, ScriptPlace),
}

impl<'a> Rest<'a> {
    /// What is left from a place on: nothing where no module has this number. Constant time. Project rule.
    pub fn of(outline: &'a Outline, number: u32, place: ScriptPlace) -> Rest<'a>
        ensures owner { module_left result ≡ slice_get outline.now.modules number }
        ensures script { script_left result ≡ script_at outline.now number place }
        ensures held { (held : List ℕ)
            → ((m : ModuleOutline) → slice_get outline.now.modules number ≡ Some m
            → HoldsAt m place held) → RestHolds result held }
        ensures behind { (held : List ℕ)
            → ((m : ModuleOutline) → slice_get outline.now.modules number ≡ Some m
            → HoldsBehind m place held) → RestHoldsBehind result held }
    {
        match outline.modules.get(number as usize) {
            Some(plan) => Rest::From(plan, place),
            None => Rest::Nothing,
        }
    }

    /// What is left after a deed, or none where it isn't due. Costs the own files after the place. Project rule.
    pub fn done(self, deed: Deed) -> Option<Rest<'a>>
        ensures script { option_map script_left result ≡ done (script_left self.entry) deed }
        ensures owner { (next : Rest) → result ≡ Some next
            → module_left next ≡ module_left self.entry }
        ensures held { (held : List ℕ) → RestHolds self.entry held → (next : Rest)
            → result ≡ Some next → HoldsThen deed held (RestHoldsBehind next) }
    {
        match self {
            Rest::Nothing => None,
            Rest::From(plan, place) => match place.done(plan, deed) {
                Some(next) => Some(Rest::From(plan, next)),
                None => None,
            },
        }
    }

    /// The first place from here on that wants an event. Costs the files that are passed over. Project rule.
    pub fn settled(self, there: &[bool], empty: bool) -> ScriptPlace
        ensures script { (o : Outline) (number : ℕ)
            → module_left self.entry ≡ slice_get o.modules number
            → script_at o number result ≡ settled there.now empty (script_left self.entry) }
        ensures held { (held : List ℕ) → empty ≡ is_empty held → RestHoldsBehind self.entry held
            → (m : ModuleOutline) → module_left self.entry ≡ Some m → HoldsAt m result held }
    {
        match self {
            Rest::Nothing => ScriptPlace::Whole,
            Rest::From(plan, place) => place.settled(plan, there, empty),
        }
    }

    /// The number of the stage that is due, 7 where that is the end. Constant time. Project rule.
    pub fn stage(self) -> u32
        ensures { result ≡ stage_of (script_left self.entry) }
    {
        match self {
            Rest::Nothing => 7,
            Rest::From(plan, place) => place.stage(plan),
        }
    }

    /// The file that is to be fetched next. Constant time. Project rule.
    pub fn wanted(self) -> Option<u32>
        ensures { result ≡ wanted (script_left self.entry) }
    {
        match self {
            Rest::Nothing => None,
            Rest::From(plan, place) => place.wanted(plan),
        }
    }

    /// The file that is to be read next. Constant time. Project rule.
    pub fn to_read(self) -> Option<u32>
        ensures { result ≡ option_and_then read_by (head (script_left self.entry)) }
    {
        match self {
            Rest::Nothing => None,
            Rest::From(plan, place) => place.to_read(plan),
        }
    }

    /// The file that is to be published next. Constant time. Project rule.
    pub fn to_publish(self) -> Option<u32>
        ensures { result ≡ option_and_then published_by (head (script_left self.entry)) }
    {
        match self {
            Rest::Nothing => None,
            Rest::From(plan, place) => place.to_publish(plan),
        }
    }

    /// Whether all files of the fetch list were there, and no goal is answered. Constant time. Project rule.
    pub fn is_gathered(self) -> bool
        ensures { result ≡ is_gathered (goals_left self.entry) (script_left self.entry) }
    {
        match self {
            Rest::Nothing => true,
            Rest::From(plan, place) => place.is_gathered(plan),
        }
    }

    /// Whether nothing is left. Constant time. Project rule.
    pub fn may_end(self) -> bool
        ensures { result ≡ may_end (script_left self.entry) }
    {
        match self {
            Rest::Nothing => true,
            Rest::From(plan, place) => place.may_end(plan),
        }
    }

    /// Whether the installing is next, and an artifact is needed for it. Constant time. Project rule.
    pub fn lacks_artifact(self) -> bool
        ensures { result ≡ (is_to_install (script_left self.entry) && needs_artifact_left
            self.entry) }
    {
        match self {
            Rest::Nothing => false,
            Rest::From(plan, place) => place.is_to_install(plan) && plan.needs_artifact,
        }
    }
}
