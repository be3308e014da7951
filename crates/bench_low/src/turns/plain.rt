// The same notes under a plain mutex, to measure the turn lock by.
ghost use Rattle.std.specs.Prelude.{◌<◌};
ghost use Rattle.std.specs.Thread.{IsSync};

use mvn_shared::Mem;
use std::alloc::Global;
use std::sync::{Mutex, Wait};
use std::thread::{Threads, join};
use turn_lock::tally::Note;

// The numbers below `count`, each noted by a worker under the mutex.
fn work<R: Wait>(rt: &R, lock: &Mutex<Vec<Note>>, worker: u32, count: u32) -> Mem<()> {
    for number in 0..count {
        let mut notes = lock.lock(rt);
        notes.push(Note { worker, number })?;
    }
    Ok(())
}

// The workers from `first` on below `reach`, by halves, each in a thread of its own.
fn crew<R: Threads + Wait + Sync>(
    rt: &R,
    lock: &Mutex<Vec<Note>>,
    first: u32,
    reach: u32,
    count: u32,
) -> Mem<()>
    requires { first < reach }
{
    if reach - first < 2 {
        return work(rt, lock, first, count);
    }
    let middle = reach - (reach - first) / 2;
    let (one, two) = join(
        rt,
        || -> Mem<()>
            requires { IsSync R.row × (first < middle) }
        { crew(rt, lock, first, middle, count) },
        || -> Mem<()>
            requires { IsSync R.row × (middle < reach) }
        { crew(rt, lock, middle, reach, count) },
    );
    one?;
    two
}

/// How many notes so many workers leave under a plain mutex, each the numbers below `count` in a thread of its own. May wait. Project rule.
pub fn noted<R: Threads + Wait + Sync>(
    rt: &R,
    alloc: Global,
    workers: u32,
    count: u32,
) -> Mem<usize>
    requires { 0 < workers }
{
    let lock = Mutex::new(Vec::with_capacity(alloc, 4096)?);
    crew(rt, &lock, 0, workers, count)?;
    Ok(lock.into_inner().len())
}
