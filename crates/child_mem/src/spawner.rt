//! Children in memory, each of which does what its script says.

ghost use Rattle.std.specs.Prelude.{◌≡◌, ◌<◌, ◌≤◌, ℕ, ◌==◌, [], true, length, is_err, IfOk};

use crate::records::{close, fresh_record, give, next_script, status_of, take};
use children::{ChildRecord, Failed, Spawner};
use mvn_outside::DeviceFault;
use mvn_shared::{Bytes, List, Mem};
use outside_mem::{Calls, Failures, NoFailures};
use std::alloc::Global;
use std::collections::BTreeSet;
use std::vec::IntoIter;

/// What a child in memory does: all that it writes, and what it ends with.
#[derive(Drop)]
pub struct ChildScript {
    pub output: Bytes,
    pub status: i32,
}

/// Children in memory: each start that doesn't fail takes the next script, and after the last one a child writes nothing
/// and ends with 0. It tells a record of each.
#[derive(Drop)]
pub struct MemSpawner<F> {
    alloc: Global,
    scripts: IntoIter<ChildScript>,
    records: Vec<ChildRecord>,
    there: BTreeSet<u64>,
    calls: F,
}

impl MemSpawner<Calls> {
    ghost use Rattle.std.specs.List.{list_any};
    ghost use Rattle.child_mem.specs.Spawner.{call_fails, scripts_left, child_records, present};

    /// These scripts, in order. The calls with the numbers fail, from 0 on.
    pub fn new(
        alloc: Global,
        scripts: List<ChildScript>,
        failing: &List<u64>,
    ) -> Mem<MemSpawner<Calls>>
        ensures scripts { IfOk result (λ spawner. scripts_left spawner ≡ scripts) }
        ensures records { IfOk result (λ spawner. child_records spawner ≡ []) }
        ensures present { IfOk result (λ spawner. present spawner ≡ []) }
        ensures failing { IfOk result (λ spawner. (n : ℕ) →
            call_fails spawner n ≡ list_any (λ m. n == m) failing.now) }
        ensures never { failing.now ≡ [] → IfOk result
            (λ spawner. ⟦<MemSpawner<Calls> as Spawner>⟧.never_fails spawner ≡ true) }
    {
        let calls = Calls::new(alloc, failing)?;
        Ok(MemSpawner {
            alloc,
            scripts: scripts.into_vec().into_iter(),
            records: Vec::new(alloc),
            there: BTreeSet::new(alloc),
            calls,
        })
    }
}

impl MemSpawner<NoFailures> {
    ghost use Rattle.child_mem.specs.Spawner.{scripts_left, child_records, present};

    /// These scripts, in order. No call fails.
    pub fn without_failures(alloc: Global, scripts: List<ChildScript>) -> MemSpawner<NoFailures>
        ensures scripts { scripts_left result ≡ scripts }
        ensures records { child_records result ≡ [] }
        ensures present { present result ≡ [] }
        ensures never { ⟦<MemSpawner<NoFailures> as Spawner>⟧.never_fails result ≡ true }
    {
        MemSpawner {
            alloc,
            scripts: scripts.into_vec().into_iter(),
            records: Vec::new(alloc),
            there: BTreeSet::new(alloc),
            calls: NoFailures,
        }
    }
}

impl<F> MemSpawner<F> {
    ghost use Rattle.child_mem.specs.Spawner.{child_records, present};

    /// A record of each child that was started, in order. Takes no memory.
    pub fn records(&self) -> &[ChildRecord]
        ensures { result.now ≡ child_records self.now }
    {
        self.records.as_slice()
    }

    /// How many children are there. Takes no memory.
    pub fn children(&self) -> u64
        ensures { result ≡ length (present self.now) }
    {
        self.there.len() as u64
    }
}

impl<F: Failures> Spawner for MemSpawner<F> {
    ghost use Rattle.std.specs.Prelude.{Some, false, ◌∷◌, ◌++◌, take, drop, slice_get, IfSome, OnOk, OnErr};
    ghost use Rattle.mvn_shared.specs.Cause.{HasCause};
    ghost use Rattle.mvn_outside.specs.Faults.{device_failed};
    ghost use Rattle.children.specs.Children.{is_there, with_child, without_child, changed, given_more, input_closed, read_on, unread, record_of};
    ghost use Rattle.children.specs.Reading.{IsFront};
    ghost use Rattle.children.specs.Numbers.{numbers};
    ghost use Rattle.child_mem.specs.Scripts.{child_of};
    ghost use Rattle.child_mem.specs.Spawner.{scripts_left, child_records, children_there};

    ghost children = { λ spawner. numbers spawner.there.keys };

    ghost told = { λ spawner. Some spawner.records.items };

    ghost faults = { λ spawner. F.count spawner.calls };

    ghost never_fails = { λ spawner. F.never_fails spawner.calls };

    ghost no_faults = { λ spawner. F.no_faults spawner.calls };

    /// Starts a child with the next script. A call that fails uses up none.
    #[tactic(auto, using(children::proofs::Present::not_there, children::proofs::Present::one_added))]
    fn start(&mut self) -> Result<u64, DeviceFault>
        ensures script { OnOk result (child_records self.new
            ≡ child_records self.old ++ child_of (slice_get (scripts_left self.old) 0) ∷ []) }
        ensures next { OnOk result (scripts_left self.new ≡ drop 1 (scripts_left self.old)) }
        ensures kept { OnErr result (scripts_left self.new ≡ scripts_left self.old) }
        ensures fresh { IfOk result
            (λ child. is_there (children_there self.old) child ≡ false) }
        ensures there { IfOk result
            (λ child. children_there self.new ≡ with_child (children_there self.old) child) }
        ensures place { IfOk result (λ child. child ≡ length (child_records self.old)) }
        ensures err { OnErr result (child_records self.new ≡ child_records self.old) }
        ensures none { OnErr result (children_there self.new ≡ children_there self.old) }
        ensures never { F.never_fails self.new.calls ≡ F.never_fails self.old.calls }
        ensures cause { HasCause (F.count self.old.calls) (F.count self.new.calls)
            (device_failed result) }
    {
        if self.calls.next_fails() {
            return Err(DeviceFault::Failed);
        }
        let child = self.records.len() as u64;
        if self.there.contains(&child) {
            return Err(DeviceFault::Memory);
        }
        let Ok(()) = self.records.reserve(1) else {
            return Err(DeviceFault::Memory);
        };
        if self.there.insert(child).is_err() {
            return Err(DeviceFault::Memory);
        }
        let script = next_script(&mut self.scripts);
        self.records.push_reserved(fresh_record(self.alloc, script));
        Ok(child)
    }

    fn write(&mut self, child: u64, bytes: &[u8]) -> Result<usize, DeviceFault>
        requires { is_there (children_there self.old) child ≡ true }
        ensures scripts { scripts_left self.new ≡ scripts_left self.old }
        ensures within { IfOk result (λ count. count ≤ length bytes.now) }
        ensures progress { IfOk result (λ count. 0 < length bytes.now → 0 < count) }
        ensures gives { IfOk result (λ count. Some (child_records self.new)
            ≡ changed (given_more (take count bytes.now)) child (Some (child_records self.old))) }
        ensures err { OnErr result (child_records self.new ≡ child_records self.old) }
        ensures there { children_there self.new ≡ children_there self.old }
        ensures never { F.never_fails self.new.calls ≡ F.never_fails self.old.calls }
        ensures cause { HasCause (F.count self.old.calls) (F.count self.new.calls)
            (device_failed result) }
    {
        if self.calls.next_fails() {
            return Err(DeviceFault::Failed);
        }
        match give(&mut self.records, child as usize, bytes) {
            Ok(()) => Ok(bytes.len()),
            Err(_) => Err(DeviceFault::Memory),
        }
    }

    fn close_input(&mut self, child: u64) -> Result<(), Failed>
        requires { is_there (children_there self.old) child ≡ true }
        ensures scripts { scripts_left self.new ≡ scripts_left self.old }
        ensures ok { OnOk result (Some (child_records self.new)
            ≡ changed input_closed child (Some (child_records self.old))) }
        ensures err { OnErr result (child_records self.new ≡ child_records self.old) }
        ensures there { children_there self.new ≡ children_there self.old }
        ensures never { F.never_fails self.new.calls ≡ F.never_fails self.old.calls }
        ensures cause { HasCause (F.count self.old.calls) (F.count self.new.calls)
            (is_err result) }
    {
        if self.calls.next_fails() {
            return Err(Failed);
        }
        close(&mut self.records, child as usize);
        Ok(())
    }

    fn read(&mut self, child: u64, into: &mut [u8]) -> Result<usize, Failed>
        requires { is_there (children_there self.old) child ≡ true }
        ensures scripts { scripts_left self.new ≡ scripts_left self.old }
        ensures within { IfOk result (λ count. count ≤ length into.new) }
        ensures front { IfSome (record_of child (Some (child_records self.old)))
            (λ known. IfOk result (λ count. IsFront (unread known) into.new count)) }
        ensures reads { IfOk result (λ count. Some (child_records self.new)
            ≡ changed (read_on count) child (Some (child_records self.old))) }
        ensures err { OnErr result (child_records self.new ≡ child_records self.old) }
        ensures there { children_there self.new ≡ children_there self.old }
        ensures never { F.never_fails self.new.calls ≡ F.never_fails self.old.calls }
        ensures cause { HasCause (F.count self.old.calls) (F.count self.new.calls)
            (is_err result) }
    {
        if self.calls.next_fails() {
            return Err(Failed);
        }
        Ok(take(&mut self.records, child as usize, into))
    }

    #[tactic(auto, using(children::proofs::Present::one_gone))]
    fn wait(&mut self, child: u64) -> Result<i32, Failed>
        requires { is_there (children_there self.old) child ≡ true }
        ensures scripts { scripts_left self.new ≡ scripts_left self.old }
        ensures status { IfSome (record_of child (Some (child_records self.old)))
            (λ known. IfOk result (λ status. status ≡ known.status)) }
        ensures gone { OnOk result
            (children_there self.new ≡ without_child (children_there self.old) child) }
        ensures err { OnErr result (children_there self.new ≡ children_there self.old) }
        ensures same { child_records self.new ≡ child_records self.old }
        ensures never { F.never_fails self.new.calls ≡ F.never_fails self.old.calls }
        ensures cause { HasCause (F.count self.old.calls) (F.count self.new.calls)
            (is_err result) }
    {
        if self.calls.next_fails() {
            return Err(Failed);
        }
        self.there.remove(&child);
        Ok(status_of(&self.records, child as usize))
    }

    #[tactic(auto, using(children::proofs::Present::one_gone))]
    fn drop_child(&mut self, child: u64)
        requires { is_there (children_there self.old) child ≡ true }
        ensures scripts { scripts_left self.new ≡ scripts_left self.old }
        ensures gone { children_there self.new ≡ without_child (children_there self.old) child }
        ensures same { child_records self.new ≡ child_records self.old }
        ensures never { F.never_fails self.new.calls ≡ F.never_fails self.old.calls }
        ensures faults { F.count self.new.calls ≡ F.count self.old.calls }
    {
        self.there.remove(&child);
    }
}
