// What runs the goals.
ghost use Rattle.std.specs.Prelude.{◌≡◌, IfOk};
ghost use Rattle.real_devices.specs.Gates.{named_program, gate_program};

use children::RealSpawner;
use gates::{AnyGate, Builtin, ProcessGate};
use mvn_shared::{Mem, Text};

/// The built-in goals, or children of the system.
pub type RealGate<'a> = AnyGate<RealSpawner<'a, HostRuntime>>;

/// Goals in children that run this program; the built-in goals if its name is empty.
pub(crate) fn gate<'a>(rt: &'a HostRuntime, program: &Text) -> Mem<RealGate<'a>>
    ensures { IfOk result (λ gate. gate_program gate ≡ named_program program.now) }
{
    let alloc = rt.alloc();
    match program.as_bytes() {
        [] => Ok(AnyGate::Builtin(Builtin::new(alloc))),
        [_, ..] => {
            let spawner = RealSpawner::new(rt, program.clone()?);
            Ok(AnyGate::Process(ProcessGate::new(alloc, spawner)))
        }
    }
}
