//! Children of the system, each with its pipes.

ghost use Rattle.std.specs.Prelude.{◌≡◌, OnOk, OnErr};
ghost use Rattle.children.specs.Children.{with_child};
ghost use Rattle.children.specs.Numbers.{numbers};

use crate::child::RealChild;
use crate::count::{counted, counted_failed};
use crate::{Failed, Spawner};
use mvn_outside::DeviceFault;
use mvn_shared::{Mem, OutOfMemory, Text};
use std::collections::{BTreeMap, BTreeSet};
use std::process::{Processes, SystemProcess};

/// Children of the system, which run one program without arguments. Their standard error is that of this program. It
/// tells which are there, and nothing of their bytes. A child whose output is too long for any answer before it has taken
/// all of its input is given no more, and so is one that has ended or closed its input. Project rule.
#[derive(Drop)]
pub struct RealSpawner<'a, R: Processes<Started = SystemProcess> + AllocGlobal> {
    rt: &'a R,
    program: Text,
    there: BTreeSet<u64>,
    children: BTreeMap<u64, RealChild>,
    next: u64,
    faults: u64,
}

impl<'a, R: Processes<Started = SystemProcess> + AllocGlobal> RealSpawner<'a, R> {
    ghost use Rattle.children.specs.RealSpawners.{spawner_faults, spawner_program};

    /// Children that run this program: a path, or a name that is looked for in `PATH`.
    pub fn new(rt: &'a R, program: Text) -> RealSpawner<'a, R>
        ensures faults { spawner_faults result ≡ 0 }
        ensures program { spawner_program result ≡ program }
    {
        let there = BTreeSet::new(rt.alloc());
        let children = BTreeMap::new(rt.alloc());
        RealSpawner {
            rt,
            program,
            there,
            children,
            next: 0,
            faults: 0,
        }
    }

    // Keeps a child under its number; without memory it is ended.
    #[tactic(auto, using(crate::proofs::Present::one_added))]
    fn keep(&mut self, child: u64, process: RealChild) -> Mem<()>
        ensures ok { OnOk result
            (numbers self.new.there.keys ≡ with_child (numbers self.old.there.keys) child) }
        ensures err { OnErr result (numbers self.new.there.keys ≡ numbers self.old.there.keys) }
        ensures faults { self.new.faults ≡ self.old.faults }
    {
        if let Err(failed) = self.children.insert(child, process) {
            let (_, mut process) = failed.value;
            process.kill();
            return Err(OutOfMemory);
        }
        if self.there.insert(child).is_err() {
            if let Some(mut process) = self.children.remove(&child) {
                process.kill();
            }
            return Err(OutOfMemory);
        }
        Ok(())
    }
}

impl<'a, R: Processes<Started = SystemProcess> + AllocGlobal> Spawner for RealSpawner<'a, R> {
    ghost use Rattle.std.specs.Prelude.{None, false};

    ghost children = { λ spawner. numbers spawner.there.keys };

    ghost told = { λ _. None };

    ghost faults = { λ spawner. spawner.faults };

    ghost never_fails = { λ _. false };

    ghost no_faults = { λ _ e. cc };

    // A number is given once; the last of them never.
    #[tactic(auto, using(crate::proofs::Present::not_there))]
    fn start(&mut self) -> Result<u64, DeviceFault> {
        let child = self.next;
        if child == u64::MAX || self.there.contains(&child) {
            return Err(DeviceFault::Memory);
        }
        let answer = RealChild::start(self.rt, self.rt.alloc(), &self.program);
        let process = counted(&mut self.faults, answer)?;
        self.keep(child, process)?;
        self.next = child + 1;
        Ok(child)
    }

    fn write(&mut self, child: u64, bytes: &[u8]) -> Result<usize, DeviceFault> {
        let answer = match self.children.get_mut(&child) {
            Some(process) => process.write(bytes),
            None => Err(DeviceFault::Failed),
        };
        counted(&mut self.faults, answer)
    }

    fn close_input(&mut self, child: u64) -> Result<(), Failed> {
        if let Some(process) = self.children.get_mut(&child) {
            process.close_input();
        }
        Ok(())
    }

    fn read(&mut self, child: u64, into: &mut [u8]) -> Result<usize, Failed> {
        let answer = match self.children.get_mut(&child) {
            Some(process) => process.read(into),
            None => Err(Failed),
        };
        counted_failed(&mut self.faults, answer)
    }

    #[tactic(auto, using(crate::proofs::Present::one_gone))]
    fn wait(&mut self, child: u64) -> Result<i32, Failed> {
        let answer = match self.children.get_mut(&child) {
            Some(process) => process.wait(),
            None => Err(Failed),
        };
        match counted_failed(&mut self.faults, answer) {
            Ok(status) => {
                self.children.remove(&child);
                self.there.remove(&child);
                Ok(status)
            }
            Err(_) => Err(Failed),
        }
    }

    #[tactic(auto, using(crate::proofs::Present::one_gone))]
    fn drop_child(&mut self, child: u64) {
        if let Some(mut process) = self.children.remove(&child) {
            process.kill();
        }
        self.there.remove(&child);
    }
}
