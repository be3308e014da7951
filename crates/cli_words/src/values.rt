//! Puts the value of an option into the line that is being read.

ghost use Rattle.std.specs.Prelude.{◌≡◌, ◌++◌, [], ◌∷◌, map, fold, Some, None, Ok, if◌then◌else◌, IfOk, OnOk};
ghost use Rattle.std.specs.List.{list_any};
ghost use Rattle.cli_words.specs.Faults.{Answers};
ghost use Rattle.cli_words.specs.declared.fault.WordKind.TheVariants.{BadSelector};
ghost use Rattle.cli_words.specs.Options.{fault as said_fault, are_bad_selectors, is_bad_selector, items, selector, with_define, with_from, with_generated, with_id, with_profiles, with_projects, with_value, with_workers};

use crate::command_line::Word;
use crate::fault::{WordError, WordKind, fault};
use crate::line::{Count, Line};
use crate::spelling::Wanted;
use crate::value::{is_bad_selector, items, name_of, number, trimmed, value_of};
use mvn_base::{Choice, MOST_MODULES, Pair};
use mvn_shared::{List, Mem, Text};
use std::alloc::Global;

impl Line {
    // The number of workers.
    fn with_workers(mut self, at: usize, value: &str) -> Result<Line, WordError>
        ensures { Answers (with_workers at value.now self) result }
    {
        match number(value.as_bytes()) {
            None => Err(fault(at, WordKind::BadNumber)),
            Some(value) => {
                self.workers = Some(Count { place: at, value });
                Ok(self)
            }
        }
    }

    // The module from which on is built.
    fn with_from(mut self, alloc: Global, at: usize, value: &str) -> Result<Line, WordError>
        ensures { Answers (with_from at value.now self) result }
    {
        match selector(alloc, at, trimmed(value)) {
            Ok(word) => {
                self.from = Some(word);
                Ok(self)
            }
            Err(error) => Err(error),
        }
    }

    // The number of the POMs of the generated project.
    fn with_generated(mut self, at: usize, value: &str) -> Result<Line, WordError>
        ensures { Answers (with_generated at value.now self) result }
    {
        match number(value.as_bytes()) {
            Some(poms) if poms <= 1 + MOST_MODULES => {
                self.generated = Some(poms);
                Ok(self)
            }
            _ => Err(fault(at, WordKind::BadNumber)),
        }
    }

    // The selectors of modules.
    fn with_projects(mut self, alloc: Global, at: usize, value: &str) -> Result<Line, WordError>
        ensures { Answers (with_projects at value.now self) result }
    {
        match with_selectors(alloc, self.projects, at, value)? {
            None => Err(fault(at, WordKind::BadSelector)),
            Some(projects) => {
                self.projects = projects;
                Ok(self)
            }
        }
    }

    // The profiles.
    fn with_profiles(mut self, alloc: Global, value: &str) -> Mem<Line>
        ensures { IfOk result (λ line. line ≡ with_profiles value.now self) }
    {
        push_ids(&mut self.choice, alloc, value)?;
        Ok(self)
    }

    // A property.
    fn with_define(mut self, alloc: Global, at: usize, value: &str) -> Result<Line, WordError>
        ensures { Answers (with_define at value.now self) result }
    {
        let name = trimmed(name_of(value));
        if name.is_empty() {
            return Err(fault(at, WordKind::UnknownWord));
        }
        push_define(&mut self.defines, alloc, name, value_of(value))?;
        Ok(self)
    }

    /// What the value of an option says. Costs its length.
    #[tactic(auto, unfolding(crate::specs::Options::with_value))]
    pub(crate) fn with_value(
        self,
        alloc: Global,
        at: usize,
        wanted: Wanted,
        value: &str,
    ) -> Result<Line, WordError>
        ensures { Answers (with_value at wanted value.now self) result }
    {
        match wanted {
            Wanted::Workers => self.with_workers(at, value),
            Wanted::Profiles => Ok(self.with_profiles(alloc, value)?),
            Wanted::Define => self.with_define(alloc, at, value),
            Wanted::Projects => self.with_projects(alloc, at, value),
            Wanted::ResumeFrom => self.with_from(alloc, at, value),
            Wanted::Generated => self.with_generated(at, value),
        }
    }
}

// A selector and its word, unless it is none.
fn selector(alloc: Global, at: usize, text: &str) -> Result<Word, WordError>
    ensures { Answers (if is_bad_selector text.now then said_fault at BadSelector
        else Ok (selector at text.now)) result }
{
    if is_bad_selector(text) {
        return Err(fault(at, WordKind::BadSelector));
    }
    let text = Text::from_str(alloc, text)?;
    Ok(Word { place: at, text })
}

// One property more.
fn push_define(defines: &mut List<Pair>, alloc: Global, name: &str, value: &str) -> Mem<()>
    ensures { OnOk result
        (defines.new ≡ defines.old ++ (record { name = name.now; value = value.now }) ∷ []) }
{
    let name = Text::from_str(alloc, name)?;
    let value = Text::from_str(alloc, value)?;
    defines.push(Pair { name, value })?;
    Ok(())
}

// Whether there is no selector, or one of these is none.
fn are_bad_selectors(selectors: &[&str]) -> bool
    ensures { result ≡ are_bad_selectors (map (λ x. x.now) selectors.now) }
{
    selectors.is_empty() || any_bad_selector(selectors)
}

fn any_bad_selector(selectors: &[&str]) -> bool
    ensures { result ≡ list_any is_bad_selector (map (λ x. x.now) selectors.now) }
{
    for selector in selectors {
        if is_bad_selector(selector) {
            return true;
        }
    }
    false
}

// The selectors that stand in one more word, unless there is none or one of them is none.
fn with_selectors(
    alloc: Global,
    mut projects: List<Word>,
    at: usize,
    value: &str,
) -> Mem<Option<List<Word>>>
    ensures { IfOk result (λ more. more ≡ (if are_bad_selectors (items value.now) then None
        else Some (projects ++ map (selector at) (items value.now)))) }
{
    let selectors = items(alloc, value)?;
    if are_bad_selectors(&selectors) {
        return Ok(None);
    }
    for selector in &selectors {
        let text = Text::from_str(alloc, selector)?;
        projects.push(Word { place: at, text })?;
    }
    Ok(Some(projects))
}

// The profiles that stand in one more word.
fn push_ids(choice: &mut Choice, alloc: Global, value: &str) -> Mem<()>
    ensures { OnOk result (choice.new ≡ fold with_id choice.old (items value.now)) }
{
    let ids = items(alloc, value)?;
    for id in &ids {
        push_id(choice, alloc, id)?;
    }
    Ok(())
}

// One profile more.
#[tactic(auto, using(crate::proofs::Texts::second_boundary))]
fn push_id(choice: &mut Choice, alloc: Global, id: &str) -> Mem<()>
    ensures { OnOk result (choice.new ≡ with_id choice.old id.now) }
{
    match id.as_bytes() {
        [b'-' | b'!', ..] => push_text(&mut choice.off, alloc, &id[1..]),
        [b'+', ..] => push_text(&mut choice.on, alloc, &id[1..]),
        _ => push_text(&mut choice.on, alloc, id),
    }
}

// One text more.
fn push_text(texts: &mut List<Text>, alloc: Global, text: &str) -> Mem<()>
    ensures { OnOk result (texts.new ≡ texts.old ++ text.now ∷ []) }
{
    let text = Text::from_str(alloc, text)?;
    texts.push(text)?;
    Ok(())
}
