//! Scripts: states, steps, and whether each may be taken.

use ack_steps::Core;
use std::alloc::Global;
use std::process::Abort;
use std::test::Fail;
use step_checks::may_take;
use step_code::{Rules, Step, StepKind};
use tests_core::{NEW, TinyCore};
use tests_tables::{number, read_step, unreadable};

// A line of a script.
#[derive(Clone, Copy)]
enum Line<'s> {
    // It is for the reader.
    Remark,
    // `@ STATE`: a core of this state.
    Core(&'s str),
    // `at 5`: the moment of the steps that follow.
    Moment(u64),
    // `note 8`: the code of the notes in the steps that follow. That of what the rules give is 7.
    Code(u16),
    // `STEP -> ANSWER`: it `may` be taken; it may not, though it may be replayed where it `fits`; and else it is `unfit`.
    Step(&'s str, &'s str),
}

fn signed<'s>(sign: &str, text: &'s str) -> Result<Line<'s>, Fail> {
    match sign {
        "#" => Ok(Line::Remark),
        "@" => Ok(Line::Core(text)),
        "at" => Ok(Line::Moment(number(text)?)),
        "note" => match text.parse() {
            Ok(code) => Ok(Line::Code(code)),
            Err(_) => Err(unreadable()),
        },
        _ => Err(unreadable()),
    }
}

fn line_of(text: &str) -> Result<Line<'_>, Fail> {
    if text.is_empty() {
        return Ok(Line::Remark);
    }
    if let Some((step, answer)) = text.split_once(" -> ") {
        return Ok(Line::Step(step, answer));
    }
    match text.split_once(' ') {
        Some((sign, text)) => signed(sign, text),
        None => Err(unreadable()),
    }
}

// Whether the step may be taken, as it is answered while no bot is ready; and whether it is answered so again once its bot is.
fn asked_twice<R: Rules>(alloc: Global, core: &Core<R>, step: &Step) -> Result<(bool, bool), Fail> {
    let mut works = Vec::new(alloc);
    let first = may_take(alloc, core, &mut works, step)?;
    let again = may_take(alloc, core, &mut works, step)?;
    Ok((first, first == again))
}

fn answer_of(may: bool, fits: bool) -> &'static str {
    if may {
        "may"
    } else if fits {
        "fits"
    } else {
        "unfit"
    }
}

fn set_code(what: &mut StepKind, code: u16) {
    match what {
        StepKind::Retry { note, .. } => note.code = code,
        StepKind::Fail { note, .. } => note.code = code,
        _ => {}
    }
}

// The row is answered as is wanted, and the same again.
fn same(rt: &impl Abort, row: &str, answer: &str, wanted: &str, again: bool) {
    assert_eq!(rt; answer, wanted, "{row}");
    assert!(rt; again, "{row}");
}

// The core of a script, the moment of steps, and the code of their notes.
#[derive(Drop)]
struct Stage {
    alloc: Global,
    core: TinyCore,
    moment: u64,
    code: u16,
}

impl Stage {
    fn begin(&mut self, state: &str) -> Result<(), Fail> {
        self.core = TinyCore::read(self.alloc, state)?;
        Ok(())
    }

    fn step(&self, rt: &impl Abort, row: &str, wanted: &str) -> Result<(), Fail> {
        let mut step = read_step(self.alloc, self.moment, row)?;
        set_code(&mut step.what, self.code);
        let (may, again) = asked_twice(self.alloc, self.core.core(), &step)?;
        let fits = self.core.fits_step(&step)?;
        same(rt, row, answer_of(may, fits), wanted, again);
        Ok(())
    }

    fn play(&mut self, rt: &impl Abort, line: Line<'_>) -> Result<(), Fail> {
        match line {
            Line::Remark => {}
            Line::Core(state) => self.begin(state)?,
            Line::Moment(moment) => self.moment = moment,
            Line::Code(code) => self.code = code,
            Line::Step(row, wanted) => self.step(rt, row, wanted)?,
        }
        Ok(())
    }
}

/// Plays a script, which begins with a new store of the bundle `tiny`. Its steps have the moment 100, and their notes the code 7, until
/// it says others.
pub fn play(rt: &impl Abort, alloc: Global, script: &str) -> Result<(), Fail> {
    let mut stage = Stage {
        alloc,
        core: TinyCore::read(alloc, NEW)?,
        moment: 100,
        code: 7,
    };
    for text in script.lines() {
        stage.play(rt, line_of(text.trim())?)?;
    }
    Ok(())
}
