//! Scripts: steps and what is answered to each, and the states between them.

use ack_steps::CoreFault;
use std::alloc::Global;
use std::process::Abort;
use std::test::Fail;
use step_code::{Step, StepRefusal};
use tests_core::{NEW, TinyCore};
use tests_tables::{number, read_state, read_step, unreadable};

// A line of a script.
#[derive(Clone, Copy)]
enum Line<'s> {
    // It is for the reader.
    Remark,
    // `@ STATE`: a core of this state.
    Core(&'s str),
    // `@`: a core of the last such state anew.
    Anew,
    // `! STATE`: no core is made of this state.
    Refused(&'s str),
    // `= STATE`: the state of the core.
    State(&'s str),
    // `at 5`: the moment of the steps that follow.
    Moment(u64),
    // `seal`: all lines of the outputs are sealed.
    Seal,
    // `STEP -> ANSWER`: `ok`, or what refuses it; `fits` or `unfit`, whether a stored step may be replayed.
    Step(&'s str, &'s str),
}

// The line whose first word is a sign.
fn signed<'s>(sign: &str, text: &'s str) -> Result<Line<'s>, Fail> {
    match sign {
        "#" => Ok(Line::Remark),
        "@" => Ok(Line::Core(text)),
        "!" => Ok(Line::Refused(text)),
        "=" => Ok(Line::State(text)),
        "at" => Ok(Line::Moment(number(text)?)),
        _ => Err(unreadable()),
    }
}

fn line_of(text: &str) -> Result<Line<'_>, Fail> {
    if text.is_empty() {
        return Ok(Line::Remark);
    }
    if text == "@" {
        return Ok(Line::Anew);
    }
    if text == "seal" {
        return Ok(Line::Seal);
    }
    if let Some((step, answer)) = text.split_once(" -> ") {
        return Ok(Line::Step(step, answer));
    }
    match text.split_once(' ') {
        Some((sign, text)) => signed(sign, text),
        None => Err(unreadable()),
    }
}

// What refuses the step, and `ok` where nothing does.
fn answer_text(alloc: Global, answer: Result<(), StepRefusal>) -> Result<String, Fail> {
    match answer {
        Ok(()) => Ok(String::from_str(alloc, "ok")?),
        Err(refusal) => Ok(format!(in alloc; "{refusal:?}")?),
    }
}

// The core of a script, the state that it was made of, and the moment of steps.
#[derive(Drop)]
struct Stage<'s> {
    alloc: Global,
    core: TinyCore,
    first: &'s str,
    moment: u64,
}

impl<'s> Stage<'s> {
    fn begin(&mut self) -> Result<(), Fail> {
        self.core = TinyCore::read(self.alloc, self.first)?;
        Ok(())
    }

    // A step that is refused leaves the state as it was.
    fn attempt(&mut self, rt: &impl Abort, step: &Step, answer: &str) -> Result<(), Fail> {
        let before = self.core.text()?;
        assert_eq!(rt; self.core.fits_step(step)?, answer == "ok");
        let given = self.core.attempt_step(step)?;
        assert_eq!(rt; answer_text(self.alloc, given)?.as_str(), answer);
        if given.is_err() {
            assert_eq!(rt; self.core.text()?.as_str(), before.as_str());
        }
        Ok(())
    }

    fn step(&mut self, rt: &impl Abort, row: &str, answer: &str) -> Result<(), Fail> {
        let step = read_step(self.alloc, self.moment, row)?;
        match answer {
            "fits" => assert!(rt; self.core.fits_step(&step)?),
            "unfit" => assert!(rt; !self.core.fits_step(&step)?),
            _ => self.attempt(rt, &step, answer)?,
        }
        Ok(())
    }

    // The sealed copy leaves the state as it is, and the core is that copy once it is sealed.
    fn seal(&mut self, rt: &impl Abort) -> Result<(), Fail> {
        let before = self.core.text()?;
        let sealed = self.core.sealed_text()?;
        assert_eq!(rt; self.core.text()?.as_str(), before.as_str());
        self.core.seal()?;
        assert_eq!(rt; self.core.text()?.as_str(), sealed.as_str());
        Ok(())
    }

    fn play(&mut self, rt: &impl Abort, line: Line<'s>) -> Result<(), Fail> {
        match line {
            Line::Remark => {}
            Line::Core(state) => {
                self.first = state;
                self.begin()?;
            }
            Line::Anew => self.begin()?,
            Line::Refused(state) => {
                let fault = TinyCore::new(self.alloc, read_state(self.alloc, state)?).err();
                assert_eq!(rt; fault, Some(CoreFault::Refused));
            }
            Line::State(state) => assert_eq!(rt; self.core.text()?.as_str(), state),
            Line::Moment(moment) => self.moment = moment,
            Line::Seal => self.seal(rt)?,
            Line::Step(row, answer) => self.step(rt, row, answer)?,
        }
        Ok(())
    }
}

/// Plays a script, which begins with a new store of the bundle `tiny`. A step that is refused must leave the state as it was.
pub fn play(rt: &impl Abort, alloc: Global, script: &str) -> Result<(), Fail> {
    let mut stage = Stage {
        alloc,
        core: TinyCore::read(alloc, NEW)?,
        first: NEW,
        moment: 100,
    };
    for text in script.lines() {
        stage.play(rt, line_of(text.trim())?)?;
    }
    Ok(())
}
