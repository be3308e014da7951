//! A plan may be shared by threads, and may go from one to another. A law alone: a function that does nothing, with what holds as its
//! clauses.

ghost use Rattle.std.specs.Thread.{IsSend, IsSync};
ghost use Rattle.build_core.specs.contracts.plan.Plan as plan;

/// A law: threads may share a plan, and a plan may go from one thread to another. The checker finds this anew wherever a plan is in what
/// crosses, and in a large function it gives up; so the crew's functions take it from here. Does nothing. Project rule.
pub fn plans_cross_threads()
    ensures shared { IsSync plan.the_row }
    ensures sent { IsSend plan.the_row }
{}
