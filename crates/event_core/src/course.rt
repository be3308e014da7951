// What a worker is at, and what may come next there.
ghost use Rattle.std.specs.Prelude.{◌≡◌, nat_lt, ℕ, List, [], true, None};
ghost use Rattle.scripts.specs.declared.outline.Outline.{Outline};
ghost use Rattle.scripts.specs.Scripts.{settled};
ghost use Rattle.event_core.specs.Standing.{after_deed, after_free, goals_of, module_of, on_course, start_of};
ghost use Rattle.scripts.specs.Outlines.{is_empty, is_listed};
ghost use Rattle.event_core.specs.HowFar.{is_this};
ghost use Rattle.event_core.specs.Enabled.{goal_in_range, is_due, may_end_so, off_ends, on_ends};
ghost use Rattle.event_core.specs.Causes.{missing_due, publish_due, read_due, stage_at};
ghost use Rattle.scripts.specs.Climbing.{but};
ghost use Rattle.event_core.specs.Holders.{CourseHolds, IsHeldThen};
ghost use Rattle.event_core.specs.Kept.{course_at};
ghost use Rattle.scripts.specs.Rests.{script_at};

use build_core::Ending;
use scripts::deed::Deed;
use scripts::outline::Outline;
use scripts::rest::Rest;
use scripts::script_place::ScriptPlace;

/// What a worker is at, as a core keeps it; the definition's course has in a place's stead what is left of the script.
#[derive(Clone, Copy)]
pub enum Course {
    Idle,
    /// A module, with a place in its script, and the goal that was answered last.
    On {
        module: u32,
        place: ScriptPlace,
        answered: Option<u32>,
    },
    /// A module whose script it left, the file that was to be fetched then, and whether all were there and no goal was answered.
    Off {
        module: u32,
        missing: Option<u32>,
        gathered: bool,
    },
}

// Whether a module has a goal of this number: none where there is no such module.
fn has_goal(outline: &Outline, number: u32, goal: u32) -> bool
    ensures { result ≡ nat_lt goal (goals_of outline.now number) }
{
    match outline.modules.get(number as usize) {
        Some(plan) => (goal as usize) < plan.goals,
        None => false,
    }
}

fn is_this(found: Option<u32>, number: u32) -> bool
    ensures { result ≡ is_this found number }
{
    match found {
        Some(other) => other == number,
        None => false,
    }
}

// Whether a module on its script may end so.
fn on_ends(
    outline: &Outline,
    number: u32,
    place: ScriptPlace,
    answered: Option<u32>,
    ending: Ending,
) -> bool
    ensures { result ≡ on_ends outline.now number (script_at outline.now number place) answered
        ending }
{
    let rest = Rest::of(outline, number, place);
    match ending {
        Ending::Built => rest.may_end(),
        Ending::Missing(file) => is_this(rest.wanted(), file),
        Ending::ClasspathTooLarge => rest.is_gathered(),
        Ending::Goal(goal) => is_this(answered, goal),
        Ending::OutputTooLarge(goal) => is_this(answered, goal),
        Ending::NoArtifact => rest.lacks_artifact(),
        Ending::Fault(_) => true,
        Ending::Memory => true,
    }
}

// Whether a module whose script was left may end so.
fn off_ends(missing: Option<u32>, gathered: bool, ending: Ending) -> bool
    ensures { result ≡ off_ends missing gathered ending }
{
    match ending {
        Ending::Missing(file) => is_this(missing, file),
        Ending::ClasspathTooLarge => gathered,
        Ending::Fault(_) => true,
        Ending::Memory => true,
        _ => false,
    }
}

impl Course {
    // A module from its first place on that wants an event.
    pub(crate) fn begun(outline: &Outline, there: &[bool], empty: bool, number: u32) -> Course
        ensures at { course_at outline.now result
            ≡ on_course number (settled there.now empty (start_of outline.now number)) None }
        ensures held { empty ≡ true → CourseHolds outline.now result [] }
    {
        let rest = Rest::of(outline, number, ScriptPlace::Sharing(0));
        Course::On {
            module: number,
            place: rest.settled(there, empty),
            answered: None,
        }
    }

    pub(crate) fn module(self) -> Option<u32>
        ensures { (outline : Outline) → result ≡ module_of (course_at outline self) }
    {
        match self {
            Course::Idle => None,
            Course::On { module, .. } => Some(module),
            Course::Off { module, .. } => Some(module),
        }
    }

    pub(crate) fn stage(self, outline: &Outline) -> u32
        ensures { result ≡ stage_at (course_at outline.now self) }
    {
        match self {
            Course::Idle => 1,
            Course::On { module, place, .. } => Rest::of(outline, module, place).stage(),
            Course::Off { .. } => 7,
        }
    }

    pub(crate) fn is_due(self, outline: &Outline, deed: Deed) -> bool
        ensures { result ≡ is_due (course_at outline.now self) deed }
    {
        match self {
            Course::On { module, place, .. } => Rest::of(outline, module, place)
                .done(deed)
                .is_some(),
            _ => false,
        }
    }

    // The file that is to be read next.
    pub(crate) fn to_read(self, outline: &Outline) -> Option<u32>
        ensures { result ≡ read_due (course_at outline.now self) }
    {
        match self {
            Course::On { module, place, .. } => Rest::of(outline, module, place).to_read(),
            _ => None,
        }
    }

    // The file that is to be published next.
    pub(crate) fn to_publish(self, outline: &Outline) -> Option<u32>
        ensures { result ≡ publish_due (course_at outline.now self) }
    {
        match self {
            Course::On { module, place, .. } => Rest::of(outline, module, place).to_publish(),
            _ => None,
        }
    }

    // The file that it may end for.
    pub(crate) fn missing(self, outline: &Outline) -> Option<u32>
        ensures { result ≡ missing_due (course_at outline.now self) }
    {
        match self {
            Course::Idle => None,
            Course::On { module, place, .. } => Rest::of(outline, module, place).wanted(),
            Course::Off { missing, .. } => missing,
        }
    }

    // Whether a goal of its module has this number; with no module it isn't too large.
    pub(crate) fn has_goal(self, outline: &Outline, goal: u32) -> bool
        ensures { result ≡ goal_in_range outline.now (course_at outline.now self) goal }
    {
        match self.module() {
            Some(module) => has_goal(outline, module, goal),
            None => true,
        }
    }

    pub(crate) fn may_end(self, outline: &Outline, ending: Ending) -> bool
        ensures { result ≡ may_end_so outline.now (course_at outline.now self) ending }
    {
        match self {
            Course::Idle => false,
            Course::On {
                module,
                place,
                answered,
            } => on_ends(outline, module, place, answered, ending),
            Course::Off {
                missing,
                gathered,
                ..
            } => off_ends(missing, gathered, ending),
        }
    }

    // What the worker is at after a deed.
    pub(crate) fn after_deed(
        self,
        outline: &Outline,
        there: &[bool],
        empty: bool,
        deed: Deed,
        answer: Option<u32>,
    ) -> Course
        ensures at { (held : List ℕ) → empty ≡ is_empty held
            → course_at outline.now result ≡ after_deed there.now held deed answer
            (course_at outline.now self) }
        ensures held { (before held : List ℕ) → CourseHolds outline.now self before
            → is_due (course_at outline.now self) deed ≡ true → IsHeldThen deed before held
            → empty ≡ is_empty held → CourseHolds outline.now result held }
    {
        match self {
            Course::On { module, place, .. } => {
                match Rest::of(outline, module, place).done(deed) {
                    Some(next) => Course::On {
                        module,
                        place: next.settled(there, empty),
                        answered: answer,
                    },
                    None => self,
                }
            }
            other => other,
        }
    }

    // What the worker is at after a free: one that isn't due leaves the script.
    pub(crate) fn after_free(self, outline: &Outline, there: &[bool], empty: bool) -> Course
        ensures at { (held : List ℕ) → empty ≡ is_empty held
            → course_at outline.now result ≡ after_free outline.now there.now held
            (course_at outline.now self) }
        ensures held { (before : List ℕ) (n : ℕ) → CourseHolds outline.now self before
            → is_listed n before ≡ true → empty ≡ is_empty (but n before)
            → CourseHolds outline.now result (but n before) }
    {
        match self {
            Course::On { module, place, .. } => {
                let rest = Rest::of(outline, module, place);
                match rest.done(Deed::Free) {
                    Some(next) => Course::On {
                        module,
                        place: next.settled(there, empty),
                        answered: None,
                    },
                    None => Course::Off {
                        module,
                        missing: rest.wanted(),
                        gathered: rest.is_gathered(),
                    },
                }
            }
            other => other,
        }
    }
}
