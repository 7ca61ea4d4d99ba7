// The disk over a folder, by its own calls: one that fails is told, and is made good by the same call again; and what isn't durable
// stays open.
use crate::machine::Machine;
use crate::same::same;
use crate::world::World;
use base_types::Text;
use edge_traits::{Disk, Failed};
use file_disk::FolderDisk;
use std::alloc::Global;
use std::cell::RefCell;
use std::process::Abort;
use std::test::Fail;

const FILE: u64 = 16;

// A write of a file's front, a cut to a length, and a sync.
#[derive(Clone, Copy)]
enum Call {
    Write(&'static str),
    Cut(u64),
    Sync,
}

// A file is made with no bytes, gets some, keeps its length, is cut, and grows.
const CALLS: [Call; 10] = [
    Call::Write(""),
    Call::Sync,
    Call::Write("abcd"),
    Call::Sync,
    Call::Write("xy"),
    Call::Sync,
    Call::Cut(1),
    Call::Sync,
    Call::Write("efg"),
    Call::Sync,
];

fn make(disk: &mut FolderDisk<Machine>, file: u64, call: Call) -> Result<(), Failed> {
    match call {
        Call::Write(text) => disk.write_at(file, 0, text.as_bytes()),
        Call::Cut(len) => disk.cut(file, len),
        Call::Sync => disk.sync(file),
    }
}

// Makes a call, and again where it fails. Answers whether it did.
fn make_good(rt: &impl Abort, disk: &mut FolderDisk<Machine>, call: Call) -> bool {
    let failed = make(disk, FILE, call).is_err();
    if failed {
        same(rt, make(disk, FILE, call), Ok(()));
    }
    failed
}

// Makes the calls one after the other. After each sync all is durable. Answers how many of them failed.
fn make_all(
    rt: &impl Abort,
    world: &RefCell<World>,
    disk: &mut FolderDisk<Machine>,
) -> Result<u64, Fail> {
    let mut failed = 0u64;
    'calls: for call in &CALLS {
        if make_good(rt, disk, *call) {
            failed = failed.saturating_add(1);
        }
        let world = world.try_borrow()?;
        assert!(rt;
            !matches!(call, Call::Sync) || world.is_durable(),
            "{}",
            world.log()
        );
    }
    Ok(failed)
}

// Of the calls of the system this one fails, none where it is 0. Answers how many there are.
fn check_failing(rt: &(impl Abort + Alloc<A = Global>), call: u64) -> Result<u64, Fail> {
    let alloc = rt.alloc();
    let world = RefCell::new(World::new(alloc, &[])?);
    world.try_borrow_mut()?.fail(call);
    let machine = Machine::new(alloc, "", &world, usize::MAX);
    let folder = Text::new(alloc, b"store")?;
    let failed = make_all(rt, &world, &mut FolderDisk::new(alloc, &machine, &folder))?;
    same(rt, failed, u64::from(call > 0));
    let world = world.try_borrow()?;
    same(
        rt,
        world.content(world.find("store/out-0")?),
        b"efg".as_slice(),
    );
    Ok(world.calls())
}

#[test]
fn a_call_that_failed_is_made_good(rt: HostRuntime) -> Result<(), Fail> {
    let calls = check_failing(&rt, 0)?;
    'calls: for call in 1..=calls {
        check_failing(&rt, call)?;
    }
    Ok(())
}

// A file that is durable is closed where another is opened and 32 are open.
const MANY: u64 = 32;

const OTHER: u64 = 80;

// A call on each of many files.
fn make_on_each(rt: &impl Abort, disk: &mut FolderDisk<Machine>, call: Call) {
    'files: for number in 0..MANY {
        same(rt, make(disk, FILE + 2 * number, call), Ok(()));
    }
}

// A file that was closed is made durable where it is opened again. So each has stayed open since its first change where the second makes
// no further call.
fn check_open(
    rt: &(impl Abort + Alloc<A = Global>),
    first: Call,
    second: Call,
) -> Result<(), Fail> {
    let alloc = rt.alloc();
    let world = RefCell::new(World::new(alloc, &[])?);
    let machine = Machine::new(alloc, "", &world, usize::MAX);
    let folder = Text::new(alloc, b"store")?;
    let mut disk = FolderDisk::new(alloc, &machine, &folder);
    make_on_each(rt, &mut disk, Call::Write("abcd"));
    make_on_each(rt, &mut disk, Call::Sync);
    make_on_each(rt, &mut disk, first);
    same(rt, make(&mut disk, OTHER, Call::Write("z")), Ok(()));
    world.try_borrow_mut()?.fail(0);
    make_on_each(rt, &mut disk, second);
    same(rt, world.try_borrow()?.calls(), MANY);
    Ok(())
}

#[test]
fn a_file_that_is_not_durable_stays_open(rt: HostRuntime) -> Result<(), Fail> {
    check_open(&rt, Call::Write("x"), Call::Write("y"))?;
    check_open(&rt, Call::Cut(2), Call::Cut(1))
}
