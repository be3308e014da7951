// Workers who note numbers under a turn lock, in one thread and in several (`turn_lock`).
ghost use Rattle.std.specs.Prelude.{◌<◌};

use mvn_shared::Mem;
use std::alloc::Global;
use std::sync::Wait;
use std::test::Fail;
use std::thread::Threads;
use std::time::Clock;
use turn_lock::Kept;
use turn_lock::tally::{Tally, Task, note_down, opened, tallied};

// How many notes there are, and how many of each of four workers stand in their order.
fn counts(tally: &Tally) -> [u64; 5] {
    [
        tally.notes.len() as u64,
        tally.in_order(0),
        tally.in_order(1),
        tally.in_order(2),
        tally.in_order(3),
    ]
}

// Every call, in one thread. A `rest` that waited would wait for ever.
fn noted_by_calls<R: Wait>(rt: &R, alloc: Global) -> Mem<[u64; 5]> {
    let (lock, mut pass) = opened(alloc, 2)?;
    let first = note_down(rt, &lock, &mut pass, 0, 0);
    let Ok(mut other) = lock.split(&mut pass) else {
        unreachable!()
    };
    let second = note_down(rt, &lock, &mut other, 1, 0);
    lock.rest(rt, &mut pass);
    let third = note_down(rt, &lock, &mut pass, 0, 1);
    lock.join(&mut pass, other);
    let tally = lock.close(pass);
    first?;
    second?;
    third?;
    Ok(counts(&tally))
}

// A thousand notes of each of so many workers.
fn noted<R: Threads + Wait + Clock + Sync>(
    rt: &R,
    alloc: Global,
    workers: u32,
    round: u32,
) -> Mem<[u64; 5]>
    requires { 0 < workers }
{
    let task = Task {
        count: 1000,
        round,
        idle: 0,
        held: 0,
    };
    Ok(counts(&tallied(rt, alloc, workers, &task)?))
}

#[test]
fn a_tally_has_its_workers(rt: HostRuntime) -> Result<(), Fail> {
    assert_eq!(rt; Tally::empty(rt.alloc(), 2)?.workers(), 2);
    Ok(())
}

#[test]
fn one_thread_goes_through_every_call(rt: HostRuntime) {
    assert!(rt; noted_by_calls(&rt, rt.alloc()) == Ok([3, 2, 1, 0, 0]));
    assert!(rt; noted(&rt, rt.alloc(), 1, 0) == Ok([1000, 1000, 0, 0, 0]));
}

#[test]
fn two_threads_note_all_in_their_order(rt: HostRuntime) {
    for _run in 0..10u32 {
        assert!(rt; noted(&rt, rt.alloc(), 2, 0) == Ok([2000, 1000, 1000, 0, 0]));
        assert!(rt; noted(&rt, rt.alloc(), 2, 2) == Ok([2000, 1000, 1000, 0, 0]));
    }
}

#[test]
fn four_threads_note_all_in_their_order(rt: HostRuntime) {
    for _run in 0..10u32 {
        assert!(rt; noted(&rt, rt.alloc(), 4, 0) == Ok([4000, 1000, 1000, 1000, 1000]));
        assert!(rt; noted(&rt, rt.alloc(), 4, 4) == Ok([4000, 1000, 1000, 1000, 1000]));
    }
}
