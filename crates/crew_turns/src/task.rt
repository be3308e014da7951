// The module that a worker builds, with its plan.
use build_core::{Plan, PlanModule};
use std::marker::Model;

/// A worker's module, of a plan. Project rule.
#[derive(Drop)]
pub struct Task<'a> {
    pub plan: &'a Plan,
    pub unit: &'a PlanModule,
    pub number: u32,
    pub worker: u32,
}

impl<'a> Model for Task<'a> {
    ghost use Rattle.crew_turns.specs.Tasks.{IsTask, ModuleTask};

    ghost Value = { ModuleTask };

    ghost use Rattle.mvn_base.specs.contracts.setting.Setting as setting;
    ghost use Rattle.std.specs.Coded.{codes};

    ghost coded = { Prim.hlevel (codes, setting.the_row.coded) };

    ghost view = { λ t. record { plan = t.plan.now; unit = t.unit.now; number = t.number; worker = t.worker } };

    ghost invariant = { λ t. IsTask (record { plan = t.plan.now; unit = t.unit.now; number = t.number; worker = t.worker }) };
}
