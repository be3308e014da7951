// Answers, with the place of each by module and goal.
ghost use Rattle.std.specs.Prelude.{◌≡◌, ℕ, ◌<◌, ◌≤◌, [], ◌∷◌, ◌++◌, None, length, map, replicate, slice_get, slice_index_or, vec_capacity, IfOk};
ghost use Rattle.std.specs.Option.{option_map};
ghost use Rattle.build_core.specs.declared.event.Answered.{Answered as Answer};
ghost use Rattle.board.specs.Tables.{first_answer, goal_counts, place_at, row_with, with_place};

use build_core::{Answered, Plan, PlanModule};
use goal_types::GoalAnswer;
use mvn_shared::{List, Mem};
use std::alloc::Global;
use std::marker::Model;

/// The answers of a build in the order in which they were kept, with the place of the first of each goal. Contracts see the answers, of
/// each module the number of its goals, and for how many answers there is room. Project rule.
#[derive(Drop)]
pub struct AnswerTable {
    answers: Vec<Answered>,
    places: Vec<Vec<Option<usize>>>,
}

impl Model for AnswerTable {
    ghost use Rattle.std.specs.Prelude.{length, map, vec_capacity};
    ghost use Rattle.board.specs.Tables.{IsTable, KeptAnswers};

    ghost Value = { KeptAnswers };

    ghost view = { λ t. record { kept = t.answers.items; goals = map length (map (λ row. row.items) t.places.items); room = vec_capacity t.answers } };

    ghost invariant = { λ t. IsTable t.answers.items (map (λ row. row.items) t.places.items) };
}

// A row for so many goals, without places.
fn empty_row(alloc: Global, goals: usize) -> Mem<Vec<Option<usize>>>
    ensures { IfOk result (λ row. row.items ≡ replicate goals None) }
{
    let row = vec![in alloc; None; goals]?;
    Ok(row)
}

// Of each module a row without places.
fn no_places(alloc: Global, modules: &[PlanModule]) -> Mem<Vec<Vec<Option<usize>>>>
    ensures { IfOk result (λ rows. map (λ row. row.items) rows.items
        ≡ map (λ n. replicate n None) (goal_counts modules.now)) }
{
    let mut rows = Vec::with_capacity(alloc, modules.len())?;
    for module in modules {
        rows.push(empty_row(alloc, module.goals.len())?)?;
    }
    Ok(rows)
}

// An answer more, where there is room.
fn push_answer(answers: &mut Vec<Answered>, answer: Answered)
    requires { length answers.old.items < vec_capacity answers.old }
    ensures items { answers.new.items ≡ answers.old.items ++ answer ∷ [] }
    ensures capacity { vec_capacity answers.old ≤ vec_capacity answers.new }
{
    let _pushed = answers.push(answer);
}

// The place of a goal's answer in its row, unless there is one.
fn set_in(row: &mut Vec<Option<usize>>, goal: u32, place: usize)
    ensures { row.new.items ≡ row_with row.old.items goal place }
{
    let at = goal as usize;
    if at < row.len() && row[at].is_none() {
        row[at] = Some(place);
    }
}

// The place of a goal's answer, unless there is one.
fn set_place(rows: &mut Vec<Vec<Option<usize>>>, number: u32, goal: u32, place: usize)
    ensures { map (λ row. row.items) rows.new.items
        ≡ with_place (map (λ row. row.items) rows.old.items) number goal place }
{
    if (number as usize) < rows.len() {
        set_in(&mut rows[number as usize], goal, place);
    }
}

fn place_in_row(row: &[Option<usize>], goal: usize) -> Option<usize>
    ensures { result ≡ slice_index_or row.now goal None }
{
    match row.get(goal) {
        Some(place) => *place,
        None => None,
    }
}

fn place_in(rows: &[Vec<Option<usize>>], number: u32, goal: usize) -> Option<usize>
    ensures { result ≡ place_at (map (λ row. row.items) rows.now) number goal }
{
    match rows.get(number as usize) {
        Some(row) => place_in_row(row.as_slice(), goal),
        None => None,
    }
}

fn nth_answer(answers: &[Answered], place: usize) -> Option<&GoalAnswer>
    ensures { option_map (λ answer. answer.now) result
        ≡ option_map (λ (a : Answer). a.answer) (slice_get answers.now place) }
{
    match answers.get(place) {
        Some(answered) => Some(&answered.answer),
        None => None,
    }
}

impl AnswerTable {
    /// A table without answers, with room for those of all the plan's events. Costs the plan's goals.
    #[tactic(auto, using(crate::proofs::Placed::fresh, crate::proofs::Placed::counts_of))]
    pub fn new(alloc: Global, plan: &Plan) -> Mem<AnswerTable>
        requires { plan.now.events < 9223372036854775808 }
        ensures kept { IfOk result (λ table. table.kept ≡ []) }
        ensures goals { IfOk result (λ table. table.goals ≡ goal_counts plan.now.modules) }
        ensures room { IfOk result (λ table. plan.now.events ≤ table.room) }
    {
        let answers = Vec::with_capacity(alloc, plan.events as usize)?;
        let places = no_places(alloc, plan.modules.as_slice())?;
        Ok(AnswerTable { answers, places })
    }

    /// An answer more, after the others. Takes no memory, and copies no bytes; constant time.
    #[tactic(auto, using(crate::proofs::Placed::noted, crate::proofs::Placed::counts_same))]
    pub fn note(&mut self, answer: Answered)
        requires { length self.old.kept < self.old.room }
        ensures kept { self.new.kept ≡ self.old.kept ++ answer ∷ [] }
        ensures goals { self.new.goals ≡ self.old.goals }
        ensures room { self.old.room ≤ self.new.room }
    {
        let place = self.answers.len();
        set_place(&mut self.places, answer.module, answer.goal, place);
        push_answer(&mut self.answers, answer);
    }

    /// What a goal of a module answered first, if it did. Constant time.
    #[tactic(auto, using(crate::proofs::Placed::answer_found, crate::proofs::Placed::answer_none))]
    pub fn answer(&self, number: u32, goal: usize) -> Option<&GoalAnswer>
        requires { goal < slice_index_or self.now.goals number 0 }
        ensures { option_map (λ answer. answer.now) result
            ≡ option_map (λ (a : Answer). a.answer) (first_answer self.now.kept number goal) }
    {
        match place_in(self.places.as_slice(), number, goal) {
            Some(place) => nth_answer(self.answers.as_slice(), place),
            None => None,
        }
    }

    /// The answers, in the order in which they were kept. Takes no memory.
    pub fn into_answers(self) -> List<Answered>
        ensures { result ≡ self.kept }
    {
        let AnswerTable { answers, .. } = self;
        List::of(answers)
    }
}
