//! Scripts: the files of a store, made generation by generation; what is changed in them; and what its history comes to.

use crate::files::Files;
use std::alloc::Global;
use std::process::Abort;
use std::test::Fail;
use step_code::{Step, StepKind, encode_base, encode_step};
use store_audit::{AuditFault, Verdict, audit_store};
use tests_core::{NEW, TinyCore};
use tests_rules::TinyRules;
use tests_tables::{number, read_step, unreadable};

// A line of a script.
#[derive(Clone, Copy)]
enum Line<'s> {
    // It is for the reader.
    Remark,
    // `new`: a new store of the bundle `tiny`.
    New,
    // `first STATE`: a store whose first generation begins with this state.
    First(&'s str),
    // `at 5`: the moment of the steps that follow.
    Moment(u64),
    // `note 8`: the code of the notes in the steps that follow. That of what the rules give is 7.
    Code(u16),
    // `+ STEP`: the core takes the step, and a record of its own has it.
    Step(&'s str),
    // `& STEP`: a record has the step, and no core takes it.
    Put(&'s str),
    // `seal`: the next generation begins, with all lines sealed.
    Seal,
    // `keep`: the next generation begins, with no more lines sealed.
    Keep,
    // `state STATE`: the next generation begins with this state.
    State(&'s str),
    // `end`: the last generation has all of its records.
    End,
    // `-> VERDICT`: what the history comes to.
    Audit(&'s str),
    // `flip FILE AT -> VERDICT`: with another byte there.
    Flip(u64, usize, &'s str),
    // `cut FILE LEN -> VERDICT`: with so many bytes of a file.
    Cut(u64, usize, &'s str),
}

fn place(text: &str) -> Result<(u64, usize), Fail> {
    match text.split_once(' ') {
        Some((file, at)) => Ok((number(file)?, number(at)? as usize)),
        None => Err(unreadable()),
    }
}

fn changed<'s>(text: &str, verdict: &'s str) -> Result<Line<'s>, Fail> {
    let Some((sign, text)) = text.split_once(' ') else {
        return Err(unreadable());
    };
    let (file, at) = place(text)?;
    match sign {
        "flip" => Ok(Line::Flip(file, at, verdict)),
        "cut" => Ok(Line::Cut(file, at, verdict)),
        _ => Err(unreadable()),
    }
}

fn signed<'s>(sign: &str, text: &'s str) -> Result<Line<'s>, Fail> {
    match sign {
        "#" => Ok(Line::Remark),
        "+" => Ok(Line::Step(text)),
        "&" => Ok(Line::Put(text)),
        "at" => Ok(Line::Moment(number(text)?)),
        "note" => match text.parse() {
            Ok(code) => Ok(Line::Code(code)),
            Err(_) => Err(unreadable()),
        },
        "first" => Ok(Line::First(text)),
        "state" => Ok(Line::State(text)),
        "->" => Ok(Line::Audit(text)),
        _ => Err(unreadable()),
    }
}

fn line_of(text: &str) -> Result<Line<'_>, Fail> {
    match text {
        "" => return Ok(Line::Remark),
        "new" => return Ok(Line::New),
        "seal" => return Ok(Line::Seal),
        "keep" => return Ok(Line::Keep),
        "end" => return Ok(Line::End),
        _ => {}
    }
    if let Some((change, verdict)) = text.split_once(" -> ") {
        return changed(change, verdict);
    }
    match text.split_once(' ') {
        Some((sign, text)) => signed(sign, text),
        None => Err(unreadable()),
    }
}

// None where the root is damaged.
fn wanted_in(text: &str) -> Result<Option<Verdict>, Fail> {
    match text {
        "none" => Ok(None),
        text => Ok(Some(verdict_in(text)?)),
    }
}

fn verdict_in(text: &str) -> Result<Verdict, Fail> {
    let Some((word, text)) = text.split_once(' ') else {
        return Err(unreadable());
    };
    match word {
        "legal" => Ok(Verdict::Legal {
            steps: number(text)?,
        }),
        "illegal" => Ok(Verdict::Illegal {
            step: number(text)?,
        }),
        "damaged" => {
            let (file, at) = place(text)?;
            Ok(Verdict::Damaged {
                file,
                at: at as u64,
            })
        }
        _ => Err(unreadable()),
    }
}

fn set_code(what: &mut StepKind, code: u16) {
    match what {
        StepKind::Retry { note, .. } => note.code = code,
        StepKind::Fail { note, .. } => note.code = code,
        _ => {}
    }
}

// What the history comes to is what is wanted.
fn same(rt: &impl Abort, row: &str, found: Option<Verdict>, wanted: Option<Verdict>) {
    assert_eq!(rt; found, wanted, "{row}");
}

fn audited(alloc: Global, files: &Files) -> Result<Option<Verdict>, Fail> {
    let mut disk = files.disk(alloc)?;
    match audit_store(alloc, &mut disk, &TinyRules) {
        Ok(verdict) => Ok(verdict),
        Err(AuditFault::Disk) => Err(Fail::from("the disk")),
        Err(AuditFault::OutOfMemory) => Err(Fail::from("memory")),
    }
}

// The store of a script, the core behind its steps, the moment of steps, and the code of their notes.
#[derive(Drop)]
struct Stage {
    alloc: Global,
    core: TinyCore,
    files: Files,
    moment: u64,
    code: u16,
}

impl Stage {
    fn begin_generation(&mut self) -> Result<(), Fail> {
        let state = encode_base(self.alloc, &self.core.base()?)?;
        self.files.close()?;
        self.files.begin(self.alloc, &state)
    }

    fn begin(&mut self, state: &str) -> Result<(), Fail> {
        self.core = TinyCore::read(self.alloc, state)?;
        self.files = Files::new(self.alloc)?;
        self.begin_generation()
    }

    fn step_of(&self, row: &str) -> Result<Step, Fail> {
        let mut step = read_step(self.alloc, self.moment, row)?;
        set_code(&mut step.what, self.code);
        Ok(step)
    }

    fn put(&mut self, row: &str) -> Result<Step, Fail> {
        let step = self.step_of(row)?;
        let code = encode_step(self.alloc, &step)?;
        self.files.put(&code)?;
        Ok(step)
    }

    fn take(&mut self, row: &str) -> Result<(), Fail> {
        let step = self.put(row)?;
        match self.core.attempt_step(&step)? {
            Ok(()) => Ok(()),
            Err(_) => Err(Fail::from(row)),
        }
    }

    fn seal(&mut self) -> Result<(), Fail> {
        self.files.put_lines(&self.core.base()?)?;
        self.core.seal()?;
        self.begin_generation()
    }

    fn state(&mut self, state: &str) -> Result<(), Fail> {
        self.files.put_lines(&self.core.base()?)?;
        self.core = TinyCore::read(self.alloc, state)?;
        self.begin_generation()
    }

    fn audit(&self, rt: &impl Abort, row: &str, verdict: &str) -> Result<(), Fail> {
        same(
            rt,
            row,
            audited(self.alloc, &self.files)?,
            wanted_in(verdict)?,
        );
        Ok(())
    }

    fn flip(&mut self, file: u64, at: usize) -> Result<(), Fail> {
        match self.files.bytes(file)?.get_mut(at) {
            Some(byte) => {
                *byte ^= 1;
                Ok(())
            }
            None => Err(Fail::from("a place behind the file")),
        }
    }

    // With another byte in a file, which is put back.
    fn flipped(
        &mut self,
        rt: &impl Abort,
        row: &str,
        file: u64,
        at: usize,
        verdict: &str,
    ) -> Result<(), Fail> {
        self.flip(file, at)?;
        self.audit(rt, row, verdict)?;
        self.flip(file, at)
    }

    // With so many bytes of a file, which are put back.
    fn cut(
        &mut self,
        rt: &impl Abort,
        row: &str,
        file: u64,
        len: usize,
        verdict: &str,
    ) -> Result<(), Fail> {
        let alloc = self.alloc;
        let whole = self.files.bytes(file)?.to_vec(alloc)?;
        self.files.bytes(file)?.truncate(len);
        self.audit(rt, row, verdict)?;
        *self.files.bytes(file)? = whole;
        Ok(())
    }

    fn play(&mut self, rt: &impl Abort, row: &str) -> Result<(), Fail> {
        match line_of(row)? {
            Line::Remark => Ok(()),
            Line::New => self.begin(NEW),
            Line::First(state) => self.begin(state),
            Line::Moment(moment) => {
                self.moment = moment;
                Ok(())
            }
            Line::Code(code) => {
                self.code = code;
                Ok(())
            }
            Line::Step(step) => self.take(step),
            Line::Put(step) => {
                self.put(step)?;
                Ok(())
            }
            Line::Seal => self.seal(),
            Line::Keep => self.begin_generation(),
            Line::State(state) => self.state(state),
            Line::End => self.files.close(),
            Line::Audit(verdict) => self.audit(rt, row, verdict),
            Line::Flip(file, at, verdict) => self.flipped(rt, row, file, at, verdict),
            Line::Cut(file, len, verdict) => self.cut(rt, row, file, len, verdict),
        }
    }
}

/// Plays a script. Its steps have the moment 100, and their notes the code 7, until it says others.
pub fn play(rt: &impl Abort, alloc: Global, script: &str) -> Result<(), Fail> {
    let mut stage = Stage {
        alloc,
        core: TinyCore::read(alloc, NEW)?,
        files: Files::new(alloc)?,
        moment: 100,
        code: 7,
    };
    'rows: for row in script.lines() {
        stage.play(rt, row.trim())?;
    }
    Ok(())
}
