// The records of children in memory, changed by each call.
ghost use Rattle.std.specs.Prelude.{◌≡◌, ◌≤◌, length, drop, slice_get, IfSome, OnOk, OnErr};
ghost use Rattle.std.specs.Vec.Iter.{into_iter_items};
ghost use Rattle.children.specs.Children.{change_at, given_more, input_closed, read_on, unread};
ghost use Rattle.children.specs.Reading.{IsFront};
ghost use Rattle.child_mem.specs.Scripts.{child_of};

use crate::front::copy_front;
use crate::spawner::ChildScript;
use children::ChildRecord;
use mvn_shared::{Bytes, Mem};
use std::alloc::Global;
use std::vec::IntoIter;

/// The record of a child that is started with this script.
pub(crate) fn fresh_record(alloc: Global, script: Option<ChildScript>) -> ChildRecord
    ensures { result ≡ child_of script }
{
    let (output, status) = match script {
        Some(script) => (script.output, script.status),
        None => (Bytes::of(Vec::new(alloc)), 0),
    };
    ChildRecord {
        given: Bytes::of(Vec::new(alloc)),
        closed: false,
        output,
        taken: 0,
        status,
    }
}

/// The next script, where there is one.
pub(crate) fn next_script(scripts: &mut IntoIter<ChildScript>) -> Option<ChildScript>
    ensures taken { result ≡ slice_get (into_iter_items scripts.old) 0 }
    ensures left { into_iter_items scripts.new ≡ drop 1 (into_iter_items scripts.old) }
{
    match scripts.next() {
        Some(script) => Some(script),
        None => None,
    }
}

// Gives a child more bytes.
fn give_to(child: &mut ChildRecord, bytes: &[u8]) -> Mem<()>
    ensures ok { OnOk result (child.new ≡ given_more bytes.now child.old) }
    ensures err { OnErr result (child.new ≡ child.old) }
{
    child.given.extend_from_slice(bytes)
}

/// Gives a child more bytes, where it has a record.
#[tactic(auto, using(crate::proofs::Changes::changed_there, crate::proofs::Changes::kept_there, crate::proofs::Changes::change_beyond))]
pub(crate) fn give(records: &mut [ChildRecord], at: usize, bytes: &[u8]) -> Mem<()>
    ensures ok { OnOk result (records.new ≡ change_at (given_more bytes.now) at records.old) }
    ensures err { OnErr result (records.new ≡ records.old) }
{
    if at >= records.len() {
        return Ok(());
    }
    match give_to(&mut records[at], bytes) {
        Ok(()) => Ok(()),
        Err(e) => Err(e),
    }
}

// Closes a child's input.
fn close_of(child: &mut ChildRecord)
    ensures { child.new ≡ input_closed child.old }
{
    child.closed = true;
}

/// Closes a child's input, where it has a record.
#[tactic(auto, using(crate::proofs::Changes::changed_there, crate::proofs::Changes::change_beyond))]
pub(crate) fn close(records: &mut [ChildRecord], at: usize)
    ensures { records.new ≡ change_at input_closed at records.old }
{
    if at >= records.len() {
        return;
    }
    close_of(&mut records[at]);
}

// Reads on in a child's output.
#[tactic(auto, using(crate::proofs::Changes::read_nothing_on))]
fn take_from(child: &mut ChildRecord, into: &mut [u8]) -> usize
    ensures within { result ≤ length into.new }
    ensures front { IsFront (unread child.old) into.new result }
    ensures reads { child.new ≡ read_on result child.old }
{
    match child.output.as_slice().get(child.taken..) {
        Some(rest) => {
            let count = copy_front(rest, into);
            child.taken += count;
            count
        }
        None => 0,
    }
}

/// Reads on in a child's output, where it has a record.
#[tactic(auto, using(crate::proofs::Changes::changed_there, crate::proofs::Changes::change_beyond, crate::proofs::Changes::found_there, crate::proofs::Changes::found_beyond))]
pub(crate) fn take(records: &mut [ChildRecord], at: usize, into: &mut [u8]) -> usize
    ensures within { result ≤ length into.new }
    ensures front { IfSome (slice_get records.old at)
        (λ known. IsFront (unread known) into.new result) }
    ensures reads { records.new ≡ change_at (read_on result) at records.old }
{
    if at >= records.len() {
        return 0;
    }
    take_from(&mut records[at], into)
}

/// What a child ends with, where it has a record.
pub(crate) fn status_of(records: &[ChildRecord], at: usize) -> i32
    ensures { IfSome (slice_get records.now at) (λ known. result ≡ known.status) }
{
    match records.get(at) {
        Some(record) => record.status,
        None => 0,
    }
}
