//! What each of Maven's goals does by default.

ghost use Rattle.std.specs.Prelude.{◌≡◌, map, find, unwrap_or};
ghost use Rattle.std.specs.Option.{option_map};
ghost use Rattle.goal_types.specs.GoalRules.{goal_rule, is_row, row_view, maven_goals};

use crate::goal::{Need, Slot};
use mvn_base::{MAVEN_PLUGINS, Phase};

/// What a goal does by default: the phase that its executions are bound to, the slot of its output, and the classpath
/// that it is given.
#[derive(Clone, Copy)]
pub struct GoalRule {
    /// None where an execution must name its phase.
    pub phase: Option<Phase>,
    pub slot: Slot,
    pub need: Need,
}

/// A line of the table of goals: the plugin's artifact, the goal, and its phase, slot and need.
type Row = (&'static str, &'static str, Phase, Slot, Need);

/// Maven's own goals.
const MAVEN_GOALS: [Row; 21] = [
    (
        "maven-resources-plugin",
        "resources",
        Phase::ProcessResources,
        Slot::Nowhere,
        Need::Nothing,
    ),
    (
        "maven-resources-plugin",
        "testResources",
        Phase::ProcessTestResources,
        Slot::Nowhere,
        Need::Nothing,
    ),
    (
        "maven-compiler-plugin",
        "compile",
        Phase::Compile,
        Slot::Classes,
        Need::Compile,
    ),
    (
        "maven-compiler-plugin",
        "testCompile",
        Phase::TestCompile,
        Slot::TestClasses,
        Need::Test,
    ),
    (
        "maven-surefire-plugin",
        "test",
        Phase::Test,
        Slot::Nowhere,
        Need::Test,
    ),
    (
        "maven-jar-plugin",
        "jar",
        Phase::Package,
        Slot::Main,
        Need::Nothing,
    ),
    (
        "maven-ejb-plugin",
        "ejb",
        Phase::Package,
        Slot::Main,
        Need::Nothing,
    ),
    (
        "maven-rar-plugin",
        "rar",
        Phase::Package,
        Slot::Main,
        Need::Nothing,
    ),
    (
        "maven-war-plugin",
        "war",
        Phase::Package,
        Slot::Main,
        Need::Runtime,
    ),
    (
        "maven-ear-plugin",
        "ear",
        Phase::Package,
        Slot::Main,
        Need::Runtime,
    ),
    (
        "maven-shade-plugin",
        "shade",
        Phase::Package,
        Slot::Main,
        Need::Runtime,
    ),
    (
        "maven-ear-plugin",
        "generate-application-xml",
        Phase::GenerateResources,
        Slot::Nowhere,
        Need::Nothing,
    ),
    (
        "maven-jar-plugin",
        "test-jar",
        Phase::Package,
        Slot::Tests,
        Need::Nothing,
    ),
    (
        "maven-source-plugin",
        "jar",
        Phase::Package,
        Slot::Sources,
        Need::Nothing,
    ),
    (
        "maven-source-plugin",
        "jar-no-fork",
        Phase::Package,
        Slot::Sources,
        Need::Nothing,
    ),
    (
        "maven-javadoc-plugin",
        "jar",
        Phase::Package,
        Slot::Javadoc,
        Need::Compile,
    ),
    (
        "maven-failsafe-plugin",
        "integration-test",
        Phase::IntegrationTest,
        Slot::Nowhere,
        Need::Test,
    ),
    (
        "maven-failsafe-plugin",
        "verify",
        Phase::Verify,
        Slot::Nowhere,
        Need::Test,
    ),
    (
        "maven-enforcer-plugin",
        "enforce",
        Phase::Validate,
        Slot::Nowhere,
        Need::Nothing,
    ),
    (
        "maven-install-plugin",
        "install",
        Phase::Install,
        Slot::Nowhere,
        Need::Nothing,
    ),
    (
        "maven-deploy-plugin",
        "deploy",
        Phase::Deploy,
        Slot::Nowhere,
        Need::Nothing,
    ),
];

/// Any other goal.
const OTHER_GOAL: GoalRule = GoalRule {
    phase: None,
    slot: Slot::Nowhere,
    need: Need::Test,
};

// The rule of the first of these rows that is this goal's.
fn rule_among(rows: &[Row], plugin: &[u8], goal: &[u8]) -> Option<GoalRule>
    ensures { result
        ≡ option_map (λ r. r.rule) (find (is_row plugin.now goal.now) (map row_view rows.now)) }
{
    for (artifact, name, phase, slot, need) in rows {
        if plugin == artifact.as_bytes() && goal == name.as_bytes() {
            return Some(GoalRule {
                phase: Some(*phase),
                slot: *slot,
                need: *need,
            });
        }
    }
    None
}

// The rule of one of Maven's own goals.
#[tactic(auto, unfolding(crate::specs::GoalRules::maven_goals))]
fn maven_rule(plugin: &[u8], goal: &[u8]) -> Option<GoalRule>
    ensures { result ≡ option_map (λ r. r.rule) (find (is_row plugin.now goal.now) maven_goals) }
{
    rule_among(&MAVEN_GOALS, plugin, goal)
}

/// What a goal of a plugin does by default, by the plugin's group and artifact and the goal's name. Costs a look at
/// each of the 21 goals of Maven's own plugins; no memory.
#[tactic(auto, unfolding(crate::specs::GoalRules::goal_rule))]
pub fn goal_rule(group: &[u8], plugin: &[u8], goal: &[u8]) -> GoalRule
    ensures { result ≡ goal_rule group.now plugin.now goal.now }
{
    if group != MAVEN_PLUGINS.as_bytes() {
        return OTHER_GOAL;
    }
    match maven_rule(plugin, goal) {
        Some(rule) => rule,
        None => OTHER_GOAL,
    }
}
