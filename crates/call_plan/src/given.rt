// What is given to all POMs of a call.
ghost use Rattle.std.specs.Prelude.{◌≡◌, IfOk};
ghost use Rattle.call_plan.specs.Found.{given_of};

use cli_words::CommandLine;
use mvn_base::{Choice, Machine, Pair};
use mvn_shared::{List, Mem};
use pom_source::Given;
use std::alloc::Global;

fn copied_choice(choice: &Choice) -> Mem<Choice>
    ensures { IfOk result (λ copy. copy ≡ choice.now) }
{
    let on = choice.on.clone()?;
    let off = choice.off.clone()?;
    Ok(Choice { on, off })
}

// Copies of the properties and of the choice of profiles of a line.
#[derive(Drop)]
struct Copies {
    defines: List<Pair>,
    choice: Choice,
}

fn copies_of(line: &CommandLine) -> Mem<Copies>
    ensures defines { IfOk result (λ copies. copies.defines ≡ line.now.defines) }
    ensures choice { IfOk result (λ copies. copies.choice ≡ line.now.choice) }
{
    let defines = line.defines.clone()?;
    let choice = copied_choice(&line.choice)?;
    Ok(Copies { defines, choice })
}

/// What is given to all POMs of a call: the machine, and copies of the properties and the choice of profiles of the
/// line. Costs these.
pub fn given_of(alloc: Global, machine: Machine, line: &CommandLine) -> Mem<Given>
    ensures { IfOk result (λ given. given ≡ given_of machine line.now) }
{
    let Copies { defines, choice } = copies_of(line)?;
    Ok(Given {
        machine,
        defines,
        choice,
        ci: List::new(alloc),
    })
}
