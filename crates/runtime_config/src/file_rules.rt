//! The files of bots that set fields by rules.
ghost use Rattle.std.specs.Prelude.{◌≡◌, option_map, None, Some, IfOk, MatchResult};
ghost use Rattle.runtime_config.specs.Faults.{modify_rules, passes_rules, rules_fault};
ghost use Rattle.runtime_config.specs.FileRules.{bad_rule_of, pass_limit, rules_of};
ghost use Rattle.runtime_config.specs.Found.{IsFault};
ghost use Rattle.runtime_text.specs.Read.{entry_of, members_of};
ghost use Rattle.runtime_config.specs.declared.fault.LoadFault.TheVariants as fault;

use crate::LoadFault;
use crate::rules::rules_text;
use base_types::OutOfMemory;
use config_bundle::Bundle;
use expert_modify::{ModifyRules, RulesFault, read_rules};
use runtime_text::{Bot, Object};
use std::alloc::Global;

fn pass_limit(alloc: Global, text: &[u8]) -> Result<bool, OutOfMemory>
    ensures { IfOk result (λ pass. pass ≡ pass_limit (Some text.now)) }
{
    match read_rules(alloc, text) {
        Ok(_) => Ok(false),
        Err(RulesFault::Rule { .. }) => Ok(false),
        Err(RulesFault::Limit) => Ok(true),
        Err(RulesFault::OutOfMemory) => Err(OutOfMemory),
    }
}

/// Whether the bot's file has too many rules, or too many patterns.
pub(crate) fn passes_rules(
    alloc: Global,
    bundle: &Bundle,
    global: &Object,
    bot: &Bot,
) -> Result<bool, OutOfMemory>
    ensures { IfOk result (λ pass. pass ≡ passes_rules bundle.now (members_of global.now) (entry_of bot.now)) }
{
    match rules_text(alloc, bundle, global, bot)? {
        Some(text) => pass_limit(alloc, text),
        None => Ok(false),
    }
}

// The rules that the text of the bot's file writes. Its limits are tested before.
fn rules_of(alloc: Global, bot: &Bot, text: &[u8]) -> Result<ModifyRules, LoadFault>
    ensures { MatchResult result (λ rules. (option_map (fault.Rules (entry_of bot.now).0) (bad_rule_of (Some text.now)) ≡ None)
        × (rules ≡ rules_of (Some text.now)))
        (IsFault (option_map (fault.Rules (entry_of bot.now).0) (bad_rule_of (Some text.now)))) }
{
    match read_rules(alloc, text) {
        Ok(rules) => Ok(rules),
        Err(RulesFault::Rule { rule }) => Err(LoadFault::Rules {
            bot: bot.name(),
            rule,
        }),
        Err(RulesFault::Limit) => Ok(ModifyRules::new(alloc)),
        Err(RulesFault::OutOfMemory) => Err(LoadFault::OutOfMemory),
    }
}

/// The bot's rules, none where it has none; or the first of its file that is none.
#[tactic(auto, unfolding(crate::specs::Faults::modify_rules))]
pub(crate) fn modify_rules(
    alloc: Global,
    bundle: &Bundle,
    global: &Object,
    bot: &Bot,
) -> Result<ModifyRules, LoadFault>
    ensures { MatchResult result (λ rules. (rules_fault bundle.now (members_of global.now) (entry_of bot.now) ≡ None)
        × (rules ≡ modify_rules bundle.now (members_of global.now) (entry_of bot.now)))
        (IsFault (rules_fault bundle.now (members_of global.now) (entry_of bot.now))) }
{
    match rules_text(alloc, bundle, global, bot)? {
        Some(text) => rules_of(alloc, bot, text),
        None => Ok(ModifyRules::new(alloc)),
    }
}
