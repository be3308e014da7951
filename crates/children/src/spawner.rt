//! The trait of what starts children, and the record that it tells of each.

ghost use Rattle.std.specs.Prelude.{◌≡◌, ◌<◌, ◌≤◌, ℕ, Bool, true, false, List, Option, length, take, is_err, IfOk, IfSome, OnOk, OnErr};
ghost use Rattle.mvn_shared.specs.Cause.{HasCause};
ghost use Rattle.mvn_outside.specs.Faults.{device_failed};
ghost use Rattle.children.specs.Reading.{IsFront};

use crate::fault::Failed;
use mvn_outside::DeviceFault;
use mvn_shared::Bytes;

/// What is told of one child that was started.
#[derive(Drop)]
pub struct ChildRecord {
    /// The bytes that it was given.
    pub given: Bytes,
    /// Whether its input is closed.
    pub closed: bool,
    /// All that it writes.
    pub output: Bytes,
    /// How many bytes of its output were read.
    pub taken: usize,
    /// What it ends with.
    pub status: i32,
}

/// What starts children: programs that are given bytes, and whose output is read. A child is there from its start until
/// it is waited for or dropped.
pub trait Spawner {
    ghost use Rattle.children.specs.declared.spawner.ChildRecord.{ChildRecord};
    ghost use Rattle.children.specs.Children.{Children, is_there, with_child, without_child, Starts, changed, given_more, input_closed, read_on, unread, record_of};

    /// The numbers of the children that are there. Every spawner tells them.
    ghost children: { Self → Children };

    /// A record of each child that was started, in order, where it tells them. The records stay.
    ghost told: { Self → Option (List ChildRecord) };

    /// The faults so far. The count never falls.
    ghost faults: { Self → ℕ };

    /// Whether no call fails. The count of faults is then the constant 0.
    ghost never_fails: { Self → Bool };

    /// Starts a child, and gives its number. Where records are told, that is the place of its record.
    fn start(&mut self) -> Result<u64, DeviceFault>
        ensures fresh { IfOk result (λ child. is_there (children self.old) child ≡ false) }
        ensures there { IfOk result
            (λ child. children self.new ≡ with_child (children self.old) child) }
        ensures place { IfSome (told self.old)
            (λ records. IfOk result (λ child. child ≡ length records)) }
        ensures starts { OnOk result (Starts (told self.old) (told self.new)) }
        ensures err { OnErr result (told self.new ≡ told self.old) }
        ensures none { OnErr result (children self.new ≡ children self.old) }
        ensures never { never_fails self.new ≡ never_fails self.old }
        ensures cause { HasCause (faults self.old) (faults self.new) (device_failed result) };

    /// Gives a child a part from the front of the bytes, at least one byte where there is one, and says how many it took.
    fn write(&mut self, child: u64, bytes: &[u8]) -> Result<usize, DeviceFault>
        requires { is_there (children self.old) child ≡ true }
        ensures within { IfOk result (λ count. count ≤ length bytes.now) }
        ensures progress { IfOk result (λ count. 0 < length bytes.now → 0 < count) }
        ensures gives { IfOk result (λ count.
            told self.new ≡ changed (given_more (take count bytes.now)) child (told self.old)) }
        ensures err { OnErr result (told self.new ≡ told self.old) }
        ensures there { children self.new ≡ children self.old }
        ensures never { never_fails self.new ≡ never_fails self.old }
        ensures cause { HasCause (faults self.old) (faults self.new) (device_failed result) };

    /// Closes a child's input: it has then been given all.
    fn close_input(&mut self, child: u64) -> Result<(), Failed>
        requires { is_there (children self.old) child ≡ true }
        ensures ok { OnOk result (told self.new ≡ changed input_closed child (told self.old)) }
        ensures err { OnErr result (told self.new ≡ told self.old) }
        ensures there { children self.new ≡ children self.old }
        ensures never { never_fails self.new ≡ never_fails self.old }
        ensures cause { HasCause (faults self.old) (faults self.new) (is_err result) };

    /// Reads the next bytes of a child's output, and says how many. Into a slice that isn't empty it reads none exactly at
    /// the output's end.
    fn read(&mut self, child: u64, into: &mut [u8]) -> Result<usize, Failed>
        requires { is_there (children self.old) child ≡ true }
        ensures within { IfOk result (λ count. count ≤ length into.new) }
        ensures front { IfSome (record_of child (told self.old))
            (λ known. IfOk result (λ count. IsFront (unread known) into.new count)) }
        ensures reads { IfOk result
            (λ count. told self.new ≡ changed (read_on count) child (told self.old)) }
        ensures err { OnErr result (told self.new ≡ told self.old) }
        ensures there { children self.new ≡ children self.old }
        ensures never { never_fails self.new ≡ never_fails self.old }
        ensures cause { HasCause (faults self.old) (faults self.new) (is_err result) };

    /// Waits until a child ends, and gives its status. After an `Err` the child is still there.
    fn wait(&mut self, child: u64) -> Result<i32, Failed>
        requires { is_there (children self.old) child ≡ true }
        ensures status { IfSome (record_of child (told self.old))
            (λ known. IfOk result (λ status. status ≡ known.status)) }
        ensures gone { OnOk result (children self.new ≡ without_child (children self.old) child) }
        ensures err { OnErr result (children self.new ≡ children self.old) }
        ensures same { told self.new ≡ told self.old }
        ensures never { never_fails self.new ≡ never_fails self.old }
        ensures cause { HasCause (faults self.old) (faults self.new) (is_err result) };

    /// Gives a child up, whatever it does.
    fn drop_child(&mut self, child: u64)
        requires { is_there (children self.old) child ≡ true }
        ensures gone { children self.new ≡ without_child (children self.old) child }
        ensures same { told self.new ≡ told self.old }
        ensures never { never_fails self.new ≡ never_fails self.old }
        ensures faults { faults self.new ≡ faults self.old };

    /// Where no call fails, there is no fault.
    ghost no_faults: { (spawner : Self) → never_fails spawner ≡ true → faults spawner ≡ 0 };
}
