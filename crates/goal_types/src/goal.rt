//! What a goal is asked and what it answers. Introduction to the Build Lifecycle.

ghost use Rattle.std.specs.Prelude.{◌≡◌, IfOk};

use mvn_base::{FileName, Gav, Phase, Setting};
use mvn_shared::{Bytes, List, Text};
use std::alloc::AllocError;

/// What a goal's output is kept as.
#[derive(Clone, Copy, Debug, PartialEq, Eq)]
pub enum Slot {
    /// Among the answers alone.
    Nowhere,
    Pom,
    Classes,
    TestClasses,
    Main,
    Tests,
    Sources,
    Javadoc,
}

/// Which classpath a goal is given.
#[derive(Clone, Copy, Debug, PartialEq, Eq)]
pub enum Need {
    Nothing,
    Compile,
    Runtime,
    Test,
}

/// One goal of a module's plan.
#[derive(Drop)]
pub struct GoalCall {
    /// The plugin's group.
    pub group: Text,
    /// The plugin's artifact.
    pub artifact: Text,
    /// The plugin's version, empty where none is declared.
    pub version: Text,
    pub goal: Text,
    /// The execution's id.
    pub execution: Text,
    pub phase: Phase,
    pub configuration: List<Setting>,
    pub slot: Slot,
    pub need: Need,
}

// The plugin of a call.
#[derive(Drop)]
struct CallPlugin {
    group: Text,
    artifact: Text,
    version: Text,
}

// The goal of a call, and its execution.
#[derive(Drop)]
struct CallGoal {
    goal: Text,
    execution: Text,
}

// A copy of a call's plugin.
fn plugin_of(call: &GoalCall) -> Result<CallPlugin, AllocError>
    ensures group { IfOk result (λ plugin. plugin.group ≡ call.now.group) }
    ensures artifact { IfOk result (λ plugin. plugin.artifact ≡ call.now.artifact) }
    ensures version { IfOk result (λ plugin. plugin.version ≡ call.now.version) }
{
    let group = call.group.clone()?;
    let artifact = call.artifact.clone()?;
    let version = call.version.clone()?;
    Ok(CallPlugin {
        group,
        artifact,
        version,
    })
}

// A copy of a call's goal and of its execution's id.
fn goal_of(call: &GoalCall) -> Result<CallGoal, AllocError>
    ensures goal { IfOk result (λ named. named.goal ≡ call.now.goal) }
    ensures execution { IfOk result (λ named. named.execution ≡ call.now.execution) }
{
    let goal = call.goal.clone()?;
    let execution = call.execution.clone()?;
    Ok(CallGoal { goal, execution })
}

// A copy of a call's configuration.
fn configuration_of(call: &GoalCall) -> Result<List<Setting>, AllocError>
    ensures { IfOk result (λ configuration. configuration ≡ call.now.configuration) }
{
    call.configuration.clone()
}

// A call of these parts, and of the phase, the slot and the need of another.
fn call_of(
    plugin: CallPlugin,
    named: CallGoal,
    configuration: List<Setting>,
    call: &GoalCall,
) -> GoalCall
    ensures { result ≡ record {
      group = plugin.group;
      artifact = plugin.artifact;
      version = plugin.version;
      goal = named.goal;
      execution = named.execution;
      phase = call.now.phase;
      configuration = configuration;
      slot = call.now.slot;
      need = call.now.need;
    } }
{
    let CallPlugin {
        group,
        artifact,
        version,
    } = plugin;
    let CallGoal { goal, execution } = named;
    GoalCall {
        group,
        artifact,
        version,
        goal,
        execution,
        phase: call.phase,
        configuration,
        slot: call.slot,
        need: call.need,
    }
}

impl Clone for GoalCall {
    ghost is_clone = { λ call copy. copy ≡ call };

    fn clone(&self) -> Result<GoalCall, AllocError> {
        let plugin = plugin_of(self)?;
        let named = goal_of(self)?;
        let configuration = configuration_of(self)?;
        Ok(call_of(plugin, named, configuration, self))
    }
}

/// A kept output of the module itself.
#[derive(Drop)]
pub struct OwnBytes {
    pub slot: Slot,
    pub bytes: Bytes,
}

/// An entry of a classpath, with its bytes where there are any.
#[derive(Drop)]
pub struct PathEntry {
    pub name: FileName,
    pub bytes: Option<Bytes>,
}

/// A file with its bytes, its path relative to the project's root.
#[derive(Clone, Drop)]
pub struct SourceFile {
    pub path: Text,
    pub bytes: Bytes,
}

/// What a goal is asked.
#[derive(Drop)]
pub struct GoalRequest {
    pub module: Gav,
    pub call: GoalCall,
    pub sources: List<SourceFile>,
    /// The module's kept outputs, in the order of `Slot`.
    pub own: List<OwnBytes>,
    /// The entries of the classpath that the call needs, in order.
    pub classpath: List<PathEntry>,
}

/// What a goal answers.
#[derive(Clone, Drop)]
pub enum GoalAnswer {
    Done,
    Produced(Bytes),
    Failed(Text),
}
