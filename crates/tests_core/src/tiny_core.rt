//! A core over the rules of the tests.

use crate::attempt;
use ack_steps::{Core, CoreFault};
use base_types::{Blob, BotName, Moment};
use std::alloc::Global;
use std::test::Fail;
use step_code::{Base, Facts, Given, Rules, Step, StepRefusal};
use tests_rules::TinyRules;
use tests_tables::read_state;

/// The state of a new store of the bundle `tiny`.
pub const NEW: &'static str = "0 steps, next 1 1, at 0, 1 tiny; out write 0 0:; feed collect 1 0";

/// A core, and the memory for steps and texts.
#[derive(Drop)]
pub struct TinyCore {
    alloc: Global,
    core: Core<TinyRules>,
}

impl TinyCore {
    pub fn new(alloc: Global, base: Base) -> Result<TinyCore, CoreFault> {
        let core = Core::new(alloc, TinyRules, base)?;
        Ok(TinyCore { alloc, core })
    }

    /// A core of the state that a line of text stands for.
    pub fn read(alloc: Global, state: &str) -> Result<TinyCore, Fail> {
        Ok(TinyCore::new(alloc, read_state(alloc, state)?)?)
    }

    pub fn core(&self) -> &Core<TinyRules> {
        &self.core
    }

    /// Whether a stored step may be replayed.
    pub fn fits_step(&self, step: &Step) -> Result<bool, Fail> {
        Ok(self.core.fits(step)?)
    }

    /// What refuses the step, if it doesn't fit.
    pub fn refusal(&self, step: &Step) -> Result<Option<StepRefusal>, Fail> {
        Ok(self.core.refusal(step)?)
    }

    /// What the core answers to a step.
    pub fn attempt_step(&mut self, step: &Step) -> Result<Result<(), StepRefusal>, Fail> {
        attempt::attempt(&mut self.core, step)
    }

    /// A copy of the state.
    pub fn base(&self) -> Result<Base, Fail> {
        Ok(self.core.base()?)
    }

    /// The state as a line of text.
    pub fn text(&self) -> Result<String, Fail> {
        attempt::state_text(&self.core, self.alloc)
    }

    /// The state with all lines of its outputs sealed, as a line of text. The core keeps its own.
    pub fn sealed_text(&self) -> Result<String, Fail> {
        attempt::sealed_text(&self.core, self.alloc)
    }

    /// Seals all lines of the outputs.
    pub fn seal(&mut self) -> Result<(), Fail> {
        attempt::seal(&mut self.core)
    }

    /// The bots of the plan.
    pub fn bots(&self) -> &[Facts] {
        self.core.rules().facts(self.core.plan()).as_slice()
    }

    /// What the rules give of a body that was taken at this moment to a bot that is no collector.
    pub fn given_of(&self, bot: &BotName, body: &Blob, since: Moment) -> Result<Given, Fail> {
        attempt::given(self.alloc, &self.core, bot, body, since)
    }
}
