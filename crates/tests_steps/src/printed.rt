use ack_steps::Core;
use state_texts::{state_text, summary_text};
use std::alloc::Global;
use std::process::Abort;
use std::test::Fail;
use tests_rules::TinyRules;
use tests_tables::read_state;

fn core_of(alloc: Global, state: &str) -> Result<Core<TinyRules>, Fail> {
    Ok(Core::new(alloc, TinyRules, read_state(alloc, state)?)?)
}

const NEW: &'static str = "0 steps, next 1 1, at 0, 1 tiny; out write 0 0:; feed collect 1 0";

const FULL: &'static str =
    "17 steps, next 10 3, at 100, 4 tiny; write-queue: 5=a 3=b; gone-queue:; parse-queue:; hand write 1: 7=x, 0 tries, since 100; hand parse 2: 8=y, 0 tries, since 100; cache dedup: k@99 l@100; cache gone:; dump 1 of parse: 4=!q, 7 bad, at 100; dump 2 of gone: 6=r, 7 bad, at 100; out write 0 0: one two; out gone 12 3: four; feed gone 1 8 finished; feed collect 2 9; halted write; halted gone";

#[test]
fn a_new_store_counts_nothing(rt: HostRuntime) -> Result<(), Fail> {
    let alloc = rt.alloc();
    let text = summary_text(alloc, &core_of(alloc, NEW)?)?;
    assert_eq!(rt;
        text.bytes(),
        b"steps 0\nbundle 1\nmessages 0\nwaiting 0\nin hand 0\ndumped 0\nprocessed 0\nlines 0\n".as_slice()
    );
    Ok(())
}

// Nine messages were made: two wait, two are in hands, two in dumps. Six lines, three of them sealed.
#[test]
fn a_summary_counts_all_parts(rt: HostRuntime) -> Result<(), Fail> {
    let alloc = rt.alloc();
    let text = summary_text(alloc, &core_of(alloc, FULL)?)?;
    assert_eq!(rt;
        text.bytes(),
        b"steps 17\nbundle 4\nmessages 9\nwaiting 2\nin hand 2\ndumped 2\nprocessed 3\nlines 6\n".as_slice()
    );
    Ok(())
}

#[test]
fn a_state_has_a_line_for_each_part(rt: HostRuntime) -> Result<(), Fail> {
    let alloc = rt.alloc();
    let core = core_of(alloc, FULL)?;
    let summary = summary_text(alloc, &core)?;
    let whole = state_text(alloc, &core)?;
    assert!(rt; whole.bytes().starts_with(summary.bytes()));
    let parts = &whole.bytes()[summary.bytes().len()..];
    assert_eq!(rt;
        parts,
        b"queue write-queue 2\nqueue gone-queue 0\nqueue parse-queue 0\nhand write 1 7\nhand parse 2 8\nfeed gone 1 8 finished\nfeed collect 2 9 going\nout write 0 2\nout gone 1 4\nhalted write\nhalted gone\n".as_slice()
    );
    Ok(())
}

// Sealed lines count as those behind them do.
#[test]
fn sealing_changes_nothing_that_is_printed(rt: HostRuntime) -> Result<(), Fail> {
    let alloc = rt.alloc();
    let mut core = core_of(alloc, FULL)?;
    let summary = summary_text(alloc, &core)?;
    let whole = state_text(alloc, &core)?;
    core.sealed_base()?;
    core.seal();
    assert_eq!(rt; summary_text(alloc, &core)?.bytes(), summary.bytes());
    assert_eq!(rt; state_text(alloc, &core)?.bytes(), whole.bytes());
    Ok(())
}
