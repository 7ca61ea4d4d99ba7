ghost use Rattle.std.specs.Prelude.{◌≡◌, ◌↔◌, ◌≤◌, ◌^◌, ◌+◌, true, List, length, vec_capacity, ℕ, Option, None, IfOk, IfErr, OnOk, OnErr, IsErrOf};
ghost use Rattle.step_code.specs.declared.step.StepKind.TheVariants as kind;
ghost use Rattle.step_code.specs.After.{acted, after, reports};
ghost use Rattle.step_code.specs.Content.{IsInTime, MayReplay, Shows};
ghost use Rattle.step_code.specs.Fits.{Fits, first_failing, parts};
ghost use Rattle.step_code.specs.Rules.{IsPlanOf, is_collector, last_moment};
ghost use Rattle.step_code.specs.Sound.{IsSound};
ghost use Rattle.ack_steps.specs.Core.{reload_of, HasSmallNumbers, HasSoundHands, IsOrderly, IsNoReload, IsRefusal};
ghost use Rattle.core_state.specs.Caches.{GotAtMost};
ghost use Rattle.core_state.specs.Outputs.{HaveLengths};
ghost use Rattle.core_state.specs.Sealing.{HaveSmallOutputs, sealed_whole};
ghost use Rattle.step_code.specs.Spent.{last_given, spent, StaysSmall};
ghost use Rattle.core_state.specs.State.{AreSendsNumbered, HasFewMarks, HasFewSends, state_of};

use crate::acts;
use crate::content::{is_in_time, rule_of, shows};
use crate::done::{Made, done};
use crate::failing::fail;
use crate::held::Held;
use crate::refusal::refusal;
use crate::reload::{make_entry_room, reload};
use base_types::{Blob, BotName, Moment, OutOfMemory};
use core_state::copies::to_each;
use core_state::outputs::seal_all;
use core_state::spent::first_spent;
use core_state::state::{State, from_base, to_base, to_sealed_base};
use sound_states::is_sound;
use std::alloc::Global;
use std::marker::Model;
use step_code::{Base, Facts, PlanFault, Rules, Step, StepKind, StepRefusal, bot_named};
use stored_types::Coded;

/// Why a state is not taken in.
#[derive(Clone, Copy, Debug, PartialEq, Eq)]
pub enum CoreFault {
    Refused,
    OutOfMemory,
}

impl From<OutOfMemory> for CoreFault {
    ghost use Rattle.ack_steps.specs.declared.pipeline_core.CoreFault.TheVariants as fault;

    ghost from_gives = { λ _ e. e ≡ fault.OutOfMemory };

    fn from(_: OutOfMemory) -> Self {
        CoreFault::OutOfMemory
    }
}

/// The state of a pipeline, ready for steps.
#[derive(Debug, Drop)]
pub struct Core<R: Rules> {
    alloc: Global,
    rules: R,
    plan: R::Plan,
    pub(crate) state: State,
}

impl<R: Rules> Model for Core<R> {
    ghost use Rattle.step_code.specs.Rules.{IsPlanOf};
    ghost use Rattle.std.specs.Prelude.{◌≡◌};
    ghost use Rattle.ack_steps.specs.Core.{CoreView, HasNearFeeds, HasSoundHands, IsOrderly};
    ghost use Rattle.core_state.specs.Outputs.{HaveLengths};
    ghost use Rattle.core_state.specs.State.{HasFewMarks, HasFewSends, state_of};

    ghost Value = { CoreView R };

    ghost view = { λ c. record { rules = c.rules; state = state_of c.state } };

    ghost invariant = { λ c. (R.bundle_of c.plan ≡ c.state.bundle) × IsPlanOf R.meaning c.state.bundle (R.bots_of c.plan) × HaveLengths c.state.outs.items × IsOrderly (state_of c.state)
        × HasSoundHands R.meaning (state_of c.state) × HasNearFeeds (state_of c.state) × HasFewSends c.state × HasFewMarks c.state };
}

// The plan of the state's bundle, where a store may hold the state.
fn sound_plan<R: Rules>(alloc: Global, rules: &R, base: &Base) -> Result<R::Plan, CoreFault>
    ensures bundle { IfOk result (λ plan. R.bundle_of plan ≡ base.now.bundle) }
    ensures plan { IfOk result (λ plan. IsPlanOf R.meaning base.now.bundle (R.bots_of plan)) }
    ensures sound { OnOk result (IsSound R.meaning base.now) }
    ensures refused { IsErrOf result CoreFault.Refused → IsSound R.meaning base.now → ⊥ }
{
    match rules.plan(alloc, &base.bundle) {
        Ok(plan) => {
            if is_sound(alloc, rules.facts(&plan).as_slice(), base)? {
                Ok(plan)
            } else {
                Err(CoreFault::Refused)
            }
        }
        Err(PlanFault::Refused) => Err(CoreFault::Refused),
        Err(PlanFault::OutOfMemory) => Err(CoreFault::OutOfMemory),
    }
}

// A collector reports a piece of its feed.
fn collect<R: Rules>(
    rules: &R,
    plan: &R::Plan,
    state: &mut State,
    alloc: Global,
    bot: &BotName,
    upto: u64,
    piece: &Blob,
    now: Moment,
) -> Result<(), OutOfMemory>
    requires bundle { R.bundle_of plan.now ≡ state.old.bundle }
    requires plan { IsPlanOf R.meaning state.old.bundle (R.bots_of plan.now) }
    requires collector { is_collector (R.bots_of plan.now) bot.now ≡ true }
    requires time { now.0 ≤ last_moment }
    requires small { state.old.next_message + length (reports R.meaning (state_of state.old) bot.now piece.now now) ≤ last_given + 1 }
    requires few { state.old.broker.pushed + length (reports R.meaning (state_of state.old) bot.now piece.now now) ≤ 2 ^ 63 }
    ensures ok { (from : ℕ) → OnOk result (state_of state.new ≡ acted R.meaning now (state_of state.old) (kind.Collect bot.now from upto piece.now)) }
    ensures err { OnErr result (state_of state.new ≡ state_of state.old) }
    ensures outs { state.new.outs ≡ state.old.outs }
    ensures caches { state.new.caches ≡ state.old.caches }
    ensures pushed { AreSendsNumbered state.old state.new }
{
    match bot_named(rules.facts(plan).as_slice(), bot) {
        Some(facts) => {
            let body = rules.report(alloc, plan, bot, piece, now)?;
            let sends = to_each(alloc, facts.defaults.as_slice(), body)?;
            acts::collect(state, bot, upto, sends)
        }
        None => unreachable!(),
    }
}

// Does what the step says, where it puts no bundle in force.
fn act<R: Rules>(
    rules: &R,
    plan: &R::Plan,
    state: &mut State,
    alloc: Global,
    step: &Step,
) -> Result<(), OutOfMemory>
    requires bundle { R.bundle_of plan.now ≡ state.old.bundle }
    requires plan { IsPlanOf R.meaning state.old.bundle (R.bots_of plan.now) }
    requires fits { Fits R.meaning (state_of state.old) step.now }
    requires time { IsInTime (state_of state.old) step.now }
    requires content { Shows R.meaning (state_of state.old) step.now.moment.0 step.now.what }
    requires small { HasSmallNumbers (after R.meaning (state_of state.old) step.now) }
    requires orderly { IsOrderly (state_of state.old) }
    requires kind { IsNoReload step.now.what }
    requires few { HasFewSends state.old }
    requires marks { HasFewMarks state.old }
    ensures ok { OnOk result (state_of state.new ≡ acted R.meaning step.now.moment (state_of state.old) step.now.what) }
    ensures err { OnErr result (state_of state.new ≡ state_of state.old) }
    ensures lengths { HaveLengths state.old.outs.items → HaveLengths state.new.outs.items }
    ensures pushed { OnOk result (state.new.broker.pushed + state.old.next_message ≤ state.old.broker.pushed + state.new.next_message + 1) }
    ensures unsent { OnErr result (state.new.broker.pushed ≤ state.old.broker.pushed) }
    ensures got { (n : ℕ) → GotAtMost n state.old.caches.items → OnOk result (GotAtMost (n + 1) state.new.caches.items) }
    ensures kept { (n : ℕ) → GotAtMost n state.old.caches.items → OnErr result (GotAtMost n state.new.caches.items) }
{
    let now = step.moment;
    match &step.what {
        StepKind::Start => Ok(acts::start(state)),
        StepKind::Collect {
            bot,
            upto,
            piece,
            ..
        } => collect(rules, plan, state, alloc, bot, *upto, piece, now),
        StepKind::FeedEnd { bot, .. } => Ok(acts::end_feed(state, bot)),
        StepKind::Take { bot, instance, .. } => acts::take(state, bot, *instance, now),
        StepKind::Done {
            bot,
            instance,
            message,
            sends,
            dumps,
            key,
            line,
            ..
        } => {
            let rule = rule_of(rules.facts(plan).as_slice(), bot);
            let held = Held {
                bot: *bot,
                instance: *instance,
                message: *message,
                now,
            };
            let made = Made {
                sends: sends.as_slice(),
                dumps: dumps.as_slice(),
                key,
                line: *line,
            };
            done(state, alloc, rule, held, made)
        }
        StepKind::Retry { bot, instance, .. } => Ok(acts::retry(state, bot, *instance)),
        StepKind::Fail {
            bot,
            instance,
            message,
            note,
            queues,
            halts,
            ..
        } => {
            let held = Held {
                bot: *bot,
                instance: *instance,
                message: *message,
                now,
            };
            fail(state, alloc, held, note, queues.as_slice(), *halts)
        }
        StepKind::Reload { .. } => unreachable!(),
        StepKind::Redo { dump } => acts::redo(state, *dump),
        StepKind::Round { bot } => Ok(acts::begin_round(state, bot)),
    }
}

// Does what the step says, where it puts no bundle in force, and counts it.
fn act_and_count<R: Rules>(
    rules: &R,
    plan: &R::Plan,
    state: &mut State,
    alloc: Global,
    step: &Step,
) -> Result<(), OutOfMemory>
    requires bundle { R.bundle_of plan.now ≡ state.old.bundle }
    requires plan { IsPlanOf R.meaning state.old.bundle (R.bots_of plan.now) }
    requires fits { Fits R.meaning (state_of state.old) step.now }
    requires time { IsInTime (state_of state.old) step.now }
    requires content { Shows R.meaning (state_of state.old) step.now.moment.0 step.now.what }
    requires small { HasSmallNumbers (after R.meaning (state_of state.old) step.now) }
    requires orderly { IsOrderly (state_of state.old) }
    requires kind { IsNoReload step.now.what }
    requires few { HasFewSends state.old }
    requires marks { HasFewMarks state.old }
    ensures ok { OnOk result (state_of state.new ≡ after R.meaning (state_of state.old) step.now) }
    ensures err { OnErr result (state_of state.new ≡ state_of state.old) }
    ensures bundle { state.new.bundle ≡ state.old.bundle }
    ensures orderly { IsOrderly (state_of state.new) }
    ensures lengths { HaveLengths state.old.outs.items → HaveLengths state.new.outs.items }
    ensures few { HasFewSends state.new }
    ensures marks { HasFewMarks state.new }
{
    act(rules, plan, state, alloc, step)?;
    state.steps += 1;
    state.latest = step.moment;
    Ok(())
}

// A copy of the bundle, and room for the entries of its bots.
fn prepare(
    state: &mut State,
    alloc: Global,
    bots: &[Facts],
    bundle: &Blob,
) -> Result<Blob, OutOfMemory>
    ensures bundle { IfOk result (λ copy. copy ≡ bundle.now) }
    ensures same { state_of state.new ≡ state_of state.old }
    ensures outs { state.new.outs.items ≡ state.old.outs.items }
    ensures pushed { state.new.broker.pushed ≡ state.old.broker.pushed }
    ensures caches { state.new.caches ≡ state.old.caches }
    ensures feed_room { OnOk result (length state.new.feeds.items + length bots.now ≤ vec_capacity state.new.feeds) }
    ensures out_room { OnOk result (length state.new.outs.items + length bots.now ≤ vec_capacity state.new.outs) }
{
    make_entry_room(state, bots)?;
    bundle.copy(alloc)
}

// Puts another bundle in force, if it gives a plan, and counts the step.
fn put_in_force<R: Rules>(
    rules: &R,
    plan: &mut R::Plan,
    state: &mut State,
    alloc: Global,
    bundle: &Blob,
    now: Moment,
) -> Result<(), StepRefusal>
    requires bundle { R.bundle_of plan.old ≡ state.old.bundle }
    requires plan { IsPlanOf R.meaning state.old.bundle (R.bots_of plan.old) }
    requires small { Fits R.meaning (state_of state.old) (reload_of bundle.now now) → HasSmallNumbers (after R.meaning (state_of state.old) (reload_of bundle.now now)) }
    requires orderly { IsOrderly (state_of state.old) }
    requires few { HasFewSends state.old }
    requires marks { HasFewMarks state.old }
    requires order { Fits R.meaning (state_of state.old) (reload_of bundle.now now) → state.old.latest.0 ≤ now.0 }
    ensures fits { OnOk result (Fits R.meaning (state_of state.old) (reload_of bundle.now now)) }
    ensures ok { OnOk result (state_of state.new ≡ after R.meaning (state_of state.old) (reload_of bundle.now now)) }
    ensures bundle { R.bundle_of plan.new ≡ state.new.bundle }
    ensures plan { IsPlanOf R.meaning state.new.bundle (R.bots_of plan.new) }
    ensures orderly { IsOrderly (state_of state.new) }
    ensures refused { IfErr result (IsRefusal (first_failing (parts R.meaning (state_of state.old) (kind.Reload bundle.now)))) }
    ensures err { OnErr result ((state_of state.new ≡ state_of state.old) × (plan.new ≡ plan.old)) }
    ensures lengths { HaveLengths state.old.outs.items → HaveLengths state.new.outs.items }
    ensures few { HasFewSends state.new }
    ensures marks { HasFewMarks state.new }
{
    let coming = match rules.plan(alloc, bundle) {
        Ok(coming) => coming,
        Err(PlanFault::Refused) => return Err(StepRefusal::Refused),
        Err(PlanFault::OutOfMemory) => return Err(StepRefusal::OutOfMemory),
    };
    let bots = rules.facts(&coming).as_slice();
    let before = rules.facts(plan).as_slice();
    let Ok(bundle) = prepare(state, alloc, bots, bundle) else {
        return Err(StepRefusal::OutOfMemory);
    };
    state.steps += 1;
    state.latest = now;
    reload(state, alloc, bots, before, bundle);
    *plan = coming;
    Ok(())
}

impl<R: Rules> Core<R> {
    /// Takes a state in.
    ///
    /// # Errors
    ///
    /// `Refused` where no store may hold the state under these rules. `OutOfMemory`.
    pub fn new(alloc: Global, rules: R, base: Base) -> Result<Core<R>, CoreFault>
        ensures core { IfOk result (λ core. core ≡ record { rules = rules; state = base }) }
        ensures sound { OnOk result (IsSound R.meaning base) }
        ensures refused { IsErrOf result CoreFault.Refused → IsSound R.meaning base → ⊥ }
    {
        let plan = sound_plan(alloc, &rules, &base)?;
        Ok(Core {
            alloc,
            rules,
            plan,
            state: from_base(alloc, base)?,
        })
    }

    /// The rules that it goes by.
    pub fn rules(&self) -> &R
        ensures { result.now ≡ self.now.rules }
    {
        &self.rules
    }

    /// The plan of the bundle in force. Each full hand is one of its instances', at most one an instance.
    pub fn plan(&self) -> &R::Plan
        ensures bundle { R.bundle_of result.now ≡ self.now.state.bundle }
        ensures plan { IsPlanOf R.meaning self.now.state.bundle (R.bots_of result.now) }
        ensures hands { HasSoundHands R.meaning self.now.state }
    {
        &self.plan
    }

    /// Takes a step, if it fits. It is done whole or not at all.
    ///
    /// # Errors
    ///
    /// What refuses it: the lowest part of the table of steps that fails. Then want of memory.
    pub fn apply(&mut self, step: &Step) -> Result<(), StepRefusal>
        requires replay { Fits R.meaning self.old.state step.now → MayReplay R.meaning self.old.state step.now }
        requires small { Fits R.meaning self.old.state step.now → StaysSmall R.meaning self.old.state step.now }
        ensures fits { OnOk result (Fits R.meaning self.old.state step.now) }
        ensures after { OnOk result (self.new ≡ record self.old { state = after R.meaning self.old.state step.now }) }
        ensures refused { IfErr result (IsRefusal (first_failing (parts R.meaning self.old.state step.now.what))) }
        ensures err { OnErr result (self.new ≡ self.old) }
    {
        if let StepKind::Reload { bundle } = &step.what {
            return put_in_force(
                &self.rules,
                &mut self.plan,
                &mut self.state,
                self.alloc,
                bundle,
                step.moment,
            );
        }
        match self.refusal(step) {
            Err(OutOfMemory) => Err(StepRefusal::OutOfMemory),
            Ok(Some(refusal)) => Err(refusal),
            Ok(None) => match self.act(step) {
                Ok(()) => Ok(()),
                Err(OutOfMemory) => Err(StepRefusal::OutOfMemory),
            },
        }
    }

    /// Takes a step that fits, without a look at whether it does. It is done whole or not at all.
    pub fn apply_fitting(&mut self, step: &Step) -> Result<(), OutOfMemory>
        requires fits { Fits R.meaning self.old.state step.now }
        requires replay { MayReplay R.meaning self.old.state step.now }
        requires small { StaysSmall R.meaning self.old.state step.now }
        ensures ok { OnOk result (self.new ≡ record self.old { state = after R.meaning self.old.state step.now }) }
        ensures err { OnErr result (self.new ≡ self.old) }
    {
        if let StepKind::Reload { .. } = &step.what {
            return match self.apply(step) {
                Ok(()) => Ok(()),
                Err(StepRefusal::OutOfMemory) => Err(OutOfMemory),
                Err(_) => unreachable!(),
            };
        }
        self.act(step)
    }

    // Does what a step says that fits and puts no bundle in force.
    fn act(&mut self, step: &Step) -> Result<(), OutOfMemory>
        requires fits { Fits R.meaning self.old.state step.now }
        requires replay { MayReplay R.meaning self.old.state step.now }
        requires small { StaysSmall R.meaning self.old.state step.now }
        requires kind { IsNoReload step.now.what }
        ensures ok { OnOk result (self.new ≡ record self.old { state = after R.meaning self.old.state step.now }) }
        ensures err { OnErr result (self.new ≡ self.old) }
    {
        act_and_count(&self.rules, &self.plan, &mut self.state, self.alloc, step)
    }

    pub(crate) fn bots(&self) -> &[Facts]
        ensures { R.meaning.facts self.now.state.bundle ≡ Some result.now }
    {
        self.rules.facts(&self.plan).as_slice()
    }

    /// What refuses the step, if it doesn't fit.
    pub fn refusal(&self, step: &Step) -> Result<Option<StepRefusal>, OutOfMemory>
        ensures { IfOk result (λ refusal. refusal ≡ first_failing (parts R.meaning self.now.state step.now.what)) }
    {
        refusal(
            &self.rules,
            self.alloc,
            &self.state,
            self.bots(),
            &step.what,
        )
    }

    /// Whether a stored step may be replayed: it fits, its moment is in order, and what shows of its content is right.
    /// It doesn't ask the rules what they give.
    pub fn fits(&self, step: &Step) -> Result<bool, OutOfMemory>
        ensures { IfOk result (λ fits. (fits ≡ true) ↔ MayReplay R.meaning self.now.state step.now) }
    {
        let is_fitting = self.refusal(step)?.is_none()
            && is_in_time(self.state.latest, step.moment);
        Ok(is_fitting && shows(&self.state, self.bots(), step.moment, &step.what))
    }

    /// The first number that the step would bring past the last one that may be given, if it brings one: of the step, of its
    /// last message, its last dump, the bundle or the last output, or the length of an output in bytes.
    pub fn spent(&self, step: &Step) -> Result<Option<u64>, OutOfMemory>
        ensures { IfOk result (λ number. number ≡ spent R.meaning self.now.state step.now) }
    {
        let StepKind::Reload { bundle } = &step.what else {
            return Ok(first_spent(&self.state, self.bots(), &[], &step.what));
        };
        match self.rules.plan(self.alloc, bundle) {
            Ok(coming) => {
                let coming = self.rules.facts(&coming).as_slice();
                Ok(first_spent(&self.state, self.bots(), coming, &step.what))
            }
            Err(PlanFault::Refused) => Ok(first_spent(&self.state, self.bots(), &[], &step.what)),
            Err(PlanFault::OutOfMemory) => Err(OutOfMemory),
        }
    }

    /// A copy of the state.
    pub fn base(&self) -> Result<Base, OutOfMemory>
        ensures { IfOk result (λ base. base ≡ self.now.state) }
    {
        to_base(self.alloc, &self.state)
    }

    /// A copy of the state with all lines of its outputs sealed. Want of memory also where 64 bits don't hold the bytes or the
    /// lines of an output.
    pub fn sealed_base(&self) -> Result<Base, OutOfMemory>
        ensures base { IfOk result (λ base. base ≡ sealed_whole self.now.state) }
        ensures small { OnOk result (HaveSmallOutputs self.now.state.outs) }
    {
        to_sealed_base(self.alloc, &self.state)
    }

    /// Whether a store may hold this state of the bundle in force.
    pub fn may_hold(&self, base: &Base) -> Result<bool, OutOfMemory>
        requires bundle { base.now.bundle ≡ self.now.state.bundle }
        ensures { IfOk result (λ may. (may ≡ true) ↔ IsSound R.meaning base.now) }
    {
        is_sound(self.alloc, self.bots(), base)
    }

    /// Seals all lines of the outputs, and drops them. It takes no memory.
    pub fn seal(&mut self)
        requires small { HaveSmallOutputs self.old.state.outs }
        ensures { self.new ≡ record self.old { state = sealed_whole self.old.state } }
    {
        seal_all(&mut self.state.outs, self.alloc);
    }
}
