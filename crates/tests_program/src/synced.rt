// The order in which files and folders are made durable.
use crate::machine::Machine;
use crate::same::same;
use crate::world::World;
use std::alloc::Global;
use std::cell::RefCell;
use std::process::Abort;
use std::test::Fail;
use system_run::run;

const BUNDLE: &str =
    r#"{"collect":{"module":"collector.file","parameters":{"file":"feed.csv","name":"T"},"destination_queues":{"_default":["parse-queue"]}},"parse":{"module":"parser.csv","parameters":{"columns":["source.ip"]},"destination_queues":{"_default":["write-queue"]}},"write":{"module":"output.file"}}"#;

const INIT: &str = "intelpipe store init --bundle bundle.json";

const DRAIN: &str = "intelpipe store drain";

const STATUS: &str = "intelpipe store status";

fn new_world(alloc: Global) -> Result<RefCell<World>, Fail> {
    let mut world = World::new(alloc, &[])?;
    world.put(alloc, "bundle.json", BUNDLE.as_bytes())?;
    world.put(alloc, "feed.csv", b"192.0.2.1\n192.0.2.2\n")?;
    Ok(RefCell::new(world))
}

// Runs a command of whose calls this one fails, none where it is 0, and answers its status.
fn run_failing<'w>(
    alloc: Global,
    words: &'w str,
    world: &'w RefCell<World>,
    call: u64,
) -> Result<u8, Fail> {
    world.try_borrow_mut()?.fail(call);
    Ok(run(&Machine::new(alloc, words, world, usize::MAX), false))
}

// Nothing was changed before what it rests on.
fn check_order(rt: &impl Abort, world: &RefCell<World>) -> Result<(), Fail> {
    let world = world.try_borrow()?;
    assert_eq!(rt; world.early(), "", "{}", world.log());
    Ok(())
}

// A command that does all of its work, and leaves all of it durable. Answers how many calls it makes.
fn check_whole<'w>(
    rt: &impl Abort,
    alloc: Global,
    words: &'w str,
    world: &'w RefCell<World>,
) -> Result<u64, Fail> {
    let status = run_failing(alloc, words, world, 0)?;
    same(rt, status, 0);
    check_order(rt, world)?;
    let world = world.try_borrow()?;
    assert!(rt; world.is_durable(), "{}", world.log());
    Ok(world.calls())
}

#[test]
fn a_store_is_made_durable(rt: HostRuntime) -> Result<(), Fail> {
    let alloc = rt.alloc();
    let whole = new_world(alloc)?;
    let calls = check_whole(&rt, alloc, INIT, &whole)?;
    for call in 1..=calls {
        let world = new_world(alloc)?;
        let status = run_failing(alloc, INIT, &world, call)?;
        same(&rt, status, 5);
        check_order(&rt, &world)?;
        check_again(&rt, alloc, &world)?;
    }
    Ok(())
}

// After an `init` that failed a store can be made, or it was made.
fn check_again(rt: &impl Abort, alloc: Global, world: &RefCell<World>) -> Result<(), Fail> {
    match run_failing(alloc, INIT, world, 0)? {
        0 => Ok(()),
        status => {
            same(rt, status, 14);
            same(rt, run_failing(alloc, STATUS, world, 0)?, 0);
            Ok(())
        }
    }
}

#[test]
fn steps_are_durable_ahead_of_outputs(rt: HostRuntime) -> Result<(), Fail> {
    let alloc = rt.alloc();
    let world = new_world(alloc)?;
    check_whole(&rt, alloc, INIT, &world)?;
    let calls = check_whole(&rt, alloc, DRAIN, &world)?;
    for call in 1..=calls {
        let world = new_world(alloc)?;
        check_whole(&rt, alloc, INIT, &world)?;
        let status = run_failing(alloc, DRAIN, &world, call)?;
        same(&rt, status, 5);
        check_order(&rt, &world)?;
        check_whole(&rt, alloc, DRAIN, &world)?;
        check_lines(&rt, &world)?;
    }
    Ok(())
}

fn check_lines(rt: &impl Abort, world: &RefCell<World>) -> Result<(), Fail> {
    let world = world.try_borrow()?;
    let lines = world.content(world.find("store/out-0")?);
    same(rt, lines.split(|b| *b == b'\n').count(), 3);
    Ok(())
}
