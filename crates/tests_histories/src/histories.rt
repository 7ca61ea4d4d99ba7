//! Histories by chance: each step that fits is taken, written, read back, and taken by a second core. Both cores come to
//! the same state, and a core made of what is read of it goes on from there.

use crate::candidates::{Scene, candidate};
use crate::random::Random;
use crate::same::same;
use crate::tally::Tally;
use base_types::Blob;
use std::alloc::Global;
use std::process::Abort;
use std::test::Fail;
use step_code::{Step, decode_base, decode_step, encode_base, encode_step};
use tests_core::{NEW, TinyCore};

const SEED: u64 = 20_261_127;

const HISTORIES: u64 = 2_000;

// So many steps of each kind are taken in all histories together.
const LEAST_OF_A_KIND: u64 = 1_000;

// Two cores: the first is asked for any step, the second takes those that fit, as they are read back.
#[derive(Drop)]
struct Pair {
    alloc: Global,
    asked: TinyCore,
    told: TinyCore,
}

fn code_of(alloc: Global, core: &TinyCore) -> Result<Blob, Fail> {
    let base = core.base()?;
    Ok(encode_base(alloc, &base)?)
}

impl Pair {
    fn new(alloc: Global) -> Result<Pair, Fail> {
        Ok(Pair {
            alloc,
            asked: TinyCore::read(alloc, NEW)?,
            told: TinyCore::read(alloc, NEW)?,
        })
    }

    // Whether the step fits. If it doesn't, the first core refuses it, and the states stay the same.
    fn may_take(&mut self, rt: &impl Abort, step: &Step) -> Result<bool, Fail> {
        let refusal = self.asked.refusal(step)?;
        same(rt, self.asked.fits_step(step)?, refusal.is_none());
        if let Some(refusal) = refusal {
            same(rt, self.asked.attempt_step(step)?, Err(refusal));
        }
        Ok(refusal.is_none())
    }

    // A step that fits.
    fn next_step(&mut self, rt: &impl Abort, random: &mut Random) -> Result<Step, Fail> {
        let base = self.asked.base()?;
        for _ in 0..1_000 {
            let scene = Scene {
                alloc: self.alloc,
                core: &self.asked,
                base: &base,
            };
            if let Some(step) = candidate(random, scene)?
                && self.may_take(rt, &step)?
            {
                return Ok(step);
            }
        }
        Err(Fail::from("no step fits"))
    }

    fn take(&mut self, rt: &impl Abort, step: &Step) -> Result<(), Fail> {
        let code = encode_step(self.alloc, step)?;
        let (read, len) = decode_step(self.alloc, code.bytes())?;
        same(rt, len, code.bytes().len());
        same(rt, self.asked.attempt_step(step)?, Ok(()));
        same(rt, self.told.attempt_step(&read)?, Ok(()));
        Ok(())
    }

    fn compare(&self, rt: &impl Abort) -> Result<(), Fail> {
        let asked = code_of(self.alloc, &self.asked)?;
        let told = code_of(self.alloc, &self.told)?;
        assert!(rt; asked == told);
        Ok(())
    }

    // The second core is made anew of what is read of its state.
    fn restart(&mut self, rt: &impl Abort) -> Result<(), Fail> {
        let code = code_of(self.alloc, &self.told)?;
        let (base, len) = decode_base(self.alloc, code.bytes())?;
        same(rt, len, code.bytes().len());
        self.told = TinyCore::new(self.alloc, base)?;
        same(rt, self.told.text()?.as_str(), self.asked.text()?.as_str());
        Ok(())
    }
}

// A history of 20 to 40 steps.
fn run(
    rt: &impl Abort,
    pair: &mut Pair,
    random: &mut Random,
    tally: &mut Tally,
) -> Result<(), Fail> {
    let count = random.below(21).saturating_add(20);
    for i in 0..count {
        let step = pair.next_step(rt, random)?;
        pair.take(rt, &step)?;
        tally.count(&step.what);
        if i % 8 == 7 {
            pair.compare(rt)?;
        }
        if i % 16 == 15 {
            pair.restart(rt)?;
        }
    }
    pair.compare(rt)?;
    pair.restart(rt)
}

#[test]
fn what_is_read_back_leads_to_the_same_state(rt: HostRuntime) -> Result<(), Fail> {
    let mut random = Random::new(SEED);
    let mut tally = Tally::new();
    for _ in 0..HISTORIES {
        let mut pair = Pair::new(rt.alloc())?;
        run(&rt, &mut pair, &mut random, &mut tally)?;
    }
    assert!(rt; tally.least() >= LEAST_OF_A_KIND);
    Ok(())
}
