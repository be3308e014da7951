// Makes the report of a build.
ghost use Rattle.std.specs.Prelude.{◌≡◌, ◌∷◌, ◌++◌, [], IfOk, OnOk};
ghost use Rattle.build_core.specs.OneThread.{answer_at};
ghost use Rattle.report.specs.Report.{report_text};
ghost use Rattle.report.specs.Rows.{NamesFiles, row_of, rows, state_row};
ghost use Rattle.report.specs.Rows.{names_file};
ghost use Rattle.std.specs.Prelude.{true};

use crate::details::Details;
use crate::ending::row_end;
use crate::{ReportRow, RowEnd, report};
use build_core::{Answered, Plan, PlanModule, State};
use mvn_base::Gav;
use mvn_shared::{Bytes, List, Mem};
use std::alloc::Global;

// What a module's row says of the module and of how it ended.
#[derive(Drop)]
struct RowHead {
    gav: Gav,
    end: RowEnd,
}

// What a module's row says so.
fn head_of(
    alloc: Global,
    plan: &Plan,
    module: &PlanModule,
    answers: &[Answered],
    number: usize,
    state: State,
) -> Mem<RowHead>
    requires { names_file plan.now state ≡ true }
    ensures { IfOk result (λ head. head ≡ (record {
      gav = module.now.gav;
      end = state_row plan.now module.now (answer_at answers.now number) state;
    })) }
{
    let gav = module.gav.clone()?;
    let end = row_end(alloc, plan, module, answers, number, state)?;
    Ok(RowHead { gav, end })
}

// The row that says so, and what is told of the module besides.
fn row_with(alloc: Global, head: RowHead, details: Details) -> ReportRow
    ensures { result ≡ (record {
      gav = head.gav;
      end = head.end;
      notes = details.notes;
      tree = [];
      full = details.full;
    }) }
{
    let RowHead { gav, end } = head;
    let Details { notes, full } = details;
    ReportRow {
        gav,
        end,
        notes,
        tree: List::new(alloc),
        full,
    }
}

// A module's row.
fn row_of(
    alloc: Global,
    plan: &Plan,
    module: &PlanModule,
    answers: &[Answered],
    number: usize,
    state: State,
    details: Details,
) -> Mem<ReportRow>
    requires { names_file plan.now state ≡ true }
    ensures { IfOk result (λ row. row ≡ row_of module.now
        (state_row plan.now module.now (answer_at answers.now number) state) details) }
{
    let head = head_of(alloc, plan, module, answers, number, state)?;
    Ok(row_with(alloc, head, details))
}

// Adds a module's row to others.
fn push_row(
    alloc: Global,
    list: &mut Vec<ReportRow>,
    plan: &Plan,
    module: &PlanModule,
    answers: &[Answered],
    number: usize,
    state: State,
    details: Details,
) -> Mem<()>
    requires { names_file plan.now state ≡ true }
    ensures { OnOk result (list.new.items ≡ list.old.items ++ row_of module.now
        (state_row plan.now module.now (answer_at answers.now number) state) details ∷ []) }
{
    list.push(row_of(alloc, plan, module, answers, number, state, details)?)?;
    Ok(())
}

// Adds the rows of a plan's modules to others.
#[tactic(auto, using(crate::proofs::Rows::rows_step, crate::proofs::Rows::rows_out, crate::proofs::Rows::rows_stop, crate::proofs::Rows::named_at))]
fn push_rows(
    alloc: Global,
    list: &mut Vec<ReportRow>,
    plan: &Plan,
    answers: &[Answered],
    states: &[State],
    details: List<Details>,
) -> Mem<()>
    requires files { NamesFiles plan.now states.now }
    ensures { OnOk result (list.new.items ≡ list.old.items
        ++ rows plan.now (answer_at answers.now) 0 details plan.now.modules states.now) }
{
    let mut number = 0;
    for detail in details.into_vec() {
        let Some(module) = plan.modules.as_slice().get(number) else {
            return Ok(());
        };
        let Some(state) = states.get(number) else {
            return Ok(());
        };
        push_row(alloc, list, plan, module, answers, number, *state, detail)?;
        number += 1;
    }
    Ok(())
}

// The rows of a plan's modules.
fn rows_of(
    alloc: Global,
    plan: &Plan,
    answers: &[Answered],
    states: &[State],
    details: List<Details>,
) -> Mem<Vec<ReportRow>>
    requires files { NamesFiles plan.now states.now }
    ensures { IfOk result (λ list. list.items
        ≡ rows plan.now (answer_at answers.now) 0 details plan.now.modules states.now) }
{
    let mut list = Vec::new(alloc);
    push_rows(alloc, &mut list, plan, answers, states, details)?;
    Ok(list)
}

/// The report of a build: the row of each module of the plan in order, by how it ended and what is told of it besides, and the
/// line of totals. Costs its text, and for each goal that failed a look at each answer. Project format.
pub fn plan_report(
    alloc: Global,
    plan: &Plan,
    answers: &[Answered],
    states: &[State],
    details: List<Details>,
) -> Mem<Bytes>
    requires files { NamesFiles plan.now states.now }
    ensures { IfOk result (λ text. text ≡ report_text
        (rows plan.now (answer_at answers.now) 0 details plan.now.modules states.now)) }
{
    let rows = rows_of(alloc, plan, answers, states, details)?;
    report(alloc, &rows)
}
