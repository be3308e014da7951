// A build over each image of each moment of another's repository.
use crate::{Left, build};
use mvn_shared::{Bytes, List, Mem};
use outside_mem::{MemArea, MemShelf, NoFailures};
use std::alloc::Global;
use std::sync::Wait;
use std::thread::Threads;
use test_projects::{Project, Worker, calm, files_under, hand_with, same_at};

/// A project, by how many workers it is built again, the files that its repository had, and what the build left.
#[derive(Drop)]
struct Undisturbed<'a> {
    project: &'a Project,
    workers: usize,
    old: &'a [Option<Bytes>],
    left: &'a Left<NoFailures>,
}

/// How many images there were, in how many of them each name has its old or its new file, and over how many another build ended alike.
#[derive(Drop)]
struct Tally {
    images: u64,
    whole: u64,
    alike: u64,
}

impl Tally {
    // One image more.
    fn count(&mut self, whole: bool, alike: bool) {
        self.images = self.images.saturating_add(1);
        self.whole = self.whole.saturating_add(u64::from(whole));
        self.alike = self.alike.saturating_add(u64::from(alike));
    }
}

// The project's own repository.
fn own(alloc: Global, project: &Project) -> Mem<MemShelf<NoFailures>> {
    MemShelf::without_failures(alloc, project.local.clone()?)
}

// The files that it has.
fn old_files(alloc: Global, project: &Project) -> Mem<List<Option<Bytes>>> {
    let mut shelf = own(alloc, project)?;
    files_under(alloc, &mut shelf, project.names.as_slice())
}

// A hand whose area has no piece.
fn hand(alloc: Global, project: &Project) -> Mem<Worker<'static, NoFailures>> {
    hand_with(alloc, project, &calm(), 0, MemArea::without_failures(alloc))
}

// Adds so many hands.
fn put_hands(
    alloc: Global,
    project: &Project,
    count: usize,
    hands: &mut Vec<Worker<'static, NoFailures>>,
) -> Mem<()> {
    for _ in 0..count {
        hands.push(hand(alloc, project)?)?;
    }
    Ok(())
}

// A build by hands, none of which is there yet.
fn over_by<W: Threads + Wait + Sync>(
    rt: &W,
    alloc: Global,
    project: &Project,
    workers: usize,
    shelf: &mut Option<MemShelf<NoFailures>>,
    hands: &mut Vec<Worker<'static, NoFailures>>,
) -> Mem<Left<NoFailures>> {
    put_hands(alloc, project, workers, hands)?;
    build(rt, alloc, project, workers, shelf, hands)
}

// A build over a repository, which is taken out.
fn over<W: Threads + Wait + Sync>(
    rt: &W,
    alloc: Global,
    project: &Project,
    workers: usize,
    shelf: &mut Option<MemShelf<NoFailures>>,
) -> Mem<Left<NoFailures>> {
    let mut hands = Vec::new(alloc);
    over_by(rt, alloc, project, workers, shelf, &mut hands)
}

// Which of so many names have their newest value: the bits of a number.
fn newest_of(alloc: Global, names: u64, choice: u64) -> Mem<Vec<bool>> {
    let mut newest = Vec::new(alloc);
    let mut rest = choice;
    for _ in 0..names {
        newest.push(rest % 2 == 1)?;
        rest = rest / 2;
    }
    Ok(newest)
}

// Each name has its file of the one or that of the other.
fn between(one: &[Option<Bytes>], image: &[Option<Bytes>], other: &[Option<Bytes>]) -> bool {
    for at in 0..image.len() {
        if !same_at(image, one, at) && !same_at(image, other, at) {
            return false;
        }
    }
    true
}

// Each name has its old or its new file in the image.
fn is_whole(
    alloc: Global,
    undisturbed: &Undisturbed,
    image: &mut MemShelf<NoFailures>,
) -> Mem<bool> {
    let there = files_under(alloc, image, undisturbed.project.names.as_slice())?;
    let new = undisturbed.left.files.as_slice();
    Ok(between(undisturbed.old, there.as_slice(), new))
}

// The build ended as the other did: the same status, text and files.
fn ended_alike(one: &Left<NoFailures>, other: &Left<NoFailures>) -> bool {
    one.status == other.status
        && one.report == other.report
        && one.shelf.names() == other.shelf.names()
        && one.files.as_slice() == other.files.as_slice()
}

// Whether an image is there, and each name has its old or its new file in it.
fn holds_whole(
    alloc: Global,
    undisturbed: &Undisturbed,
    image: &mut Option<MemShelf<NoFailures>>,
) -> Mem<bool> {
    match image {
        Some(image) => is_whole(alloc, undisturbed, image),
        None => Ok(false),
    }
}

// Whether a build over an image, which is taken out, ends as the other did.
fn ends_alike<W: Threads + Wait + Sync>(
    rt: &W,
    alloc: Global,
    undisturbed: &Undisturbed,
    image: &mut Option<MemShelf<NoFailures>>,
) -> Mem<bool> {
    let left = over(rt, alloc, undisturbed.project, undisturbed.workers, image)?;
    Ok(ended_alike(&left, undisturbed.left))
}

// One image more: what stands in it, and how a build ends over it.
fn look<W: Threads + Wait + Sync>(
    rt: &W,
    alloc: Global,
    undisturbed: &Undisturbed,
    image: &mut Option<MemShelf<NoFailures>>,
    tally: &mut Tally,
) -> Mem<()> {
    let whole = holds_whole(alloc, undisturbed, image)?;
    let alike = ends_alike(rt, alloc, undisturbed, image)?;
    tally.count(whole, alike);
    Ok(())
}

// The image of a moment in which these names have their newest value.
fn look_at<W: Threads + Wait + Sync>(
    rt: &W,
    alloc: Global,
    undisturbed: &Undisturbed,
    moment: u64,
    newest: &[bool],
    tally: &mut Tally,
) -> Mem<()> {
    let shelf = &undisturbed.left.shelf;
    if moment >= shelf.moments() {
        return Ok(());
    }
    let mut image = Some(shelf.image(moment, newest)?);
    look(rt, alloc, undisturbed, &mut image, tally)
}

// The image of a moment with this number.
fn look_at_one<W: Threads + Wait + Sync>(
    rt: &W,
    alloc: Global,
    undisturbed: &Undisturbed,
    moment: u64,
    choice: u64,
    tally: &mut Tally,
) -> Mem<()> {
    let newest = newest_of(alloc, moment, choice)?;
    look_at(rt, alloc, undisturbed, moment, &newest, tally)
}

// Every image of a moment.
fn look_at_all<W: Threads + Wait + Sync>(
    rt: &W,
    alloc: Global,
    undisturbed: &Undisturbed,
    moment: u64,
    tally: &mut Tally,
) -> Mem<()> {
    let names = u32::try_from(moment).unwrap_or(u32::MAX);
    for choice in 0..2u64.saturating_pow(names) {
        look_at_one(rt, alloc, undisturbed, moment, choice, tally)?;
    }
    Ok(())
}

fn tally_text(alloc: Global, moments: u64, tally: &Tally) -> Mem<String> {
    let images = tally.images;
    let whole = tally.whole;
    let alike = tally.alike;
    Ok(format!(in alloc; " moments {moments} images {images} whole {whole} alike {alike}")?)
}

// What is told of the images.
fn push_all<W: Threads + Wait + Sync>(
    rt: &W,
    alloc: Global,
    undisturbed: &Undisturbed,
    out: &mut String,
) -> Mem<()> {
    let moments = undisturbed.left.shelf.moments();
    let mut tally = Tally {
        images: 0,
        whole: 0,
        alike: 0,
    };
    for moment in 0..moments {
        look_at_all(rt, alloc, undisturbed, moment, &mut tally)?;
    }
    out.push_str(tally_text(alloc, moments, &tally)?.as_str())?;
    Ok(())
}

/// A build over the project's own repository, of which no call fails, by so many workers.
pub fn build_calm<W: Threads + Wait + Sync>(
    rt: &W,
    alloc: Global,
    project: &Project,
    workers: usize,
) -> Mem<Left<NoFailures>> {
    let mut shelf = Some(own(alloc, project)?);
    over(rt, alloc, project, workers, &mut shelf)
}

/// What is told of another build, by so many workers, over each image of each moment of the repository that a build left.
pub fn push_images<W: Threads + Wait + Sync>(
    rt: &W,
    alloc: Global,
    project: &Project,
    workers: usize,
    left: &Left<NoFailures>,
    out: &mut String,
) -> Mem<()> {
    let old = old_files(alloc, project)?;
    let undisturbed = Undisturbed {
        project,
        workers,
        old: old.as_slice(),
        left,
    };
    push_all(rt, alloc, &undisturbed, out)
}
