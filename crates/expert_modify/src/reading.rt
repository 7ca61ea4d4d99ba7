//! Rules as a file has them.
ghost use Rattle.std.specs.Prelude.{◌≡◌, ◌+◌, nat_lt, codes, count_by, option_map, option_and_then, Ok, IfOk, IfSome, MatchResult};
ghost use Rattle.serde_json.specs.Find.{as_array};
ghost use Rattle.serde_json.specs.View.{view, items_view, members_view};
ghost use Rattle.field_types.specs.Cleaning.{clean, IsOfKind};
ghost use Rattle.event_model.specs.Fields.{value_for, IsField};
ghost use Rattle.event_model.specs.Lenient.{set_all};
ghost use Rattle.event_model.specs.Trees.{value_of};
ghost use Rattle.expert_modify.specs.declared.rule.Want.TheVariants as as_want;
ghost use Rattle.expert_modify.specs.Reading.{condition_in, conditions_in, is_pattern, limited, most_patterns, of_list, of_rules, object_under, pattern_count, rule_in, rule_of, rules_from, rules_in, set_in, sets_in, want_in, want_of_text, AreRead, IsBad, IsFirstBad, IsSet};

use crate::{ConditionList, ModifyRules, Rule, RulesFault, Want};
use base_types::{OutOfMemory, Text};
use event_model::{Fields, ReadFault, read_tree, value_of};
use field_types::{FieldFault, FieldName, FieldType, Value, sanitise_own};
use serde_json::{Map, Value as Tree};
use sieve_tree::is_pattern as reads_as_pattern;
use std::alloc::Global;

const MOST_RULES: usize = 1_000;

const MOST_PATTERNS: usize = 32;

// ---- conditions

fn want_of_text(alloc: Global, text: &str) -> Result<Option<Want<Text>>, OutOfMemory>
    ensures { IfOk result (λ want. want ≡ want_of_text text.now) }
{
    if text == "" {
        return Ok(Some(Want::Absent));
    }
    if !reads_as_pattern(alloc, text)? {
        return Ok(None);
    }
    let text = Text::from(String::from_str(alloc, text)?);
    Ok(Some(Want::Pattern(text)))
}

fn want_of_value(alloc: Global, tree: &Tree) -> Result<Option<Want<Text>>, OutOfMemory>
    ensures { IfOk result (λ want. want ≡ option_map as_want.Value (value_of (view tree.now))) }
{
    match value_of(alloc, tree)? {
        Some(value) => Ok(Some(Want::Value(value))),
        None => Ok(None),
    }
}

// What a member of `if` wants.
fn want_in(alloc: Global, tree: &Tree) -> Result<Option<Want<Text>>, OutOfMemory>
    ensures { IfOk result (λ want. want ≡ want_in (view tree.now)) }
{
    match tree {
        Tree::Null | Tree::Array(_) => Ok(None),
        Tree::String(text) => want_of_text(alloc, text.as_str()),
        Tree::Bool(_) | Tree::Number(_) | Tree::Object(_) => want_of_value(alloc, tree),
    }
}

fn condition_in(
    alloc: Global,
    key: &str,
    tree: &Tree,
) -> Result<Option<(FieldName, Want<Text>)>, OutOfMemory>
    ensures { IfOk result (λ condition. condition ≡ condition_in key.now (view tree.now)) }
{
    let name = FieldName::new(alloc, key)?;
    if name.kind().is_none() {
        return Ok(None);
    }
    match want_in(alloc, tree)? {
        Some(want) => Ok(Some((name, want))),
        None => Ok(None),
    }
}

fn conditions_in(
    alloc: Global,
    members: &Map<String, Tree>,
) -> Result<Option<ConditionList>, OutOfMemory>
    ensures { IfOk result (λ conditions. conditions ≡ conditions_in (members_view members.now.entries)) }
{
    let mut conditions = Vec::with_capacity(alloc, members.len())?;
    'members: for (key, tree) in members.iter() {
        let Some(condition) = condition_in(alloc, key.as_str(), tree)? else {
            return Ok(None);
        };
        conditions.push(condition)?;
    }
    Ok(Some(ConditionList::from(conditions)))
}

// ---- what is set

// The canonical value of the kind, if the kind takes the value.
fn taken_by(alloc: Global, kind: FieldType, value: Value) -> Result<Option<Value>, OutOfMemory>
    ensures taken { IfOk result (λ taken. taken ≡ clean kind value) }
    ensures canonical { IfOk result (λ taken. IfSome taken (IsOfKind kind)) }
{
    match sanitise_own(alloc, kind, value) {
        Ok(value) => Ok(Some(value)),
        Err(FieldFault::BadValue) => Ok(None),
        Err(FieldFault::OutOfMemory) => Err(OutOfMemory),
    }
}

// What a member of `then` sets.
#[tactic(auto, unfolding(event_model::specs::Fields::value_for))]
fn value_in(alloc: Global, name: &FieldName, tree: &Tree) -> Result<Option<Value>, OutOfMemory>
    ensures value { IfOk result (λ value. value ≡ option_and_then (value_for name.now) (value_of (view tree.now))) }
    ensures field { IfOk result (λ value. IfSome value (IsField name.now)) }
{
    let Some(kind) = name.kind() else {
        return Ok(None);
    };
    match value_of(alloc, tree)? {
        Some(value) => taken_by(alloc, kind, value),
        None => Ok(None),
    }
}

// Sets what a member of `then` sets, and answers whether it sets anything.
fn set(alloc: Global, sets: &mut Fields, key: &str, tree: &Tree) -> Result<bool, OutOfMemory>
    ensures { IfOk result (λ is. IsSet (set_in key.now (view tree.now)) is sets.old sets.new) }
{
    let name = FieldName::new(alloc, key)?;
    let Some(value) = value_in(alloc, &name, tree)? else {
        return Ok(false);
    };
    sets.put_named(name, value)?;
    Ok(true)
}

fn sets_in(alloc: Global, members: &Map<String, Tree>) -> Result<Option<Fields>, OutOfMemory>
    ensures { IfOk result (λ sets. sets ≡ option_map set_all (sets_in (members_view members.now.entries))) }
{
    let mut sets = Fields::with_capacity(alloc, members.len())?;
    'members: for (key, tree) in members.iter() {
        if !set(alloc, &mut sets, key.as_str(), tree)? {
            return Ok(None);
        }
    }
    Ok(Some(sets))
}

// ---- rules

fn object_under<'t>(members: &'t Map<String, Tree>, name: &str) -> Option<&'t Map<String, Tree>>
    ensures { option_map (λ inner. members_view inner.now.entries) result ≡ object_under name.now (members_view members.now.entries) }
{
    match members.get(name) {
        Some(tree) => tree.as_object(),
        None => None,
    }
}

fn conditions_of(
    alloc: Global,
    members: &Map<String, Tree>,
) -> Result<Option<ConditionList>, OutOfMemory>
    ensures { IfOk result (λ conditions. conditions ≡ option_and_then conditions_in (object_under (codes "if") (members_view members.now.entries))) }
{
    match object_under(members, "if") {
        Some(inner) => conditions_in(alloc, inner),
        None => Ok(None),
    }
}

fn sets_of(alloc: Global, members: &Map<String, Tree>) -> Result<Option<Fields>, OutOfMemory>
    ensures { IfOk result (λ sets. sets ≡ option_map set_all (option_and_then sets_in (object_under (codes "then") (members_view members.now.entries)))) }
{
    match object_under(members, "then") {
        Some(inner) => sets_in(alloc, inner),
        None => Ok(None),
    }
}

fn rule_of(alloc: Global, members: &Map<String, Tree>) -> Result<Option<Rule>, OutOfMemory>
    ensures { IfOk result (λ rule. rule ≡ rule_of (members_view members.now.entries)) }
{
    let Some(conditions) = conditions_of(alloc, members)? else {
        return Ok(None);
    };
    let Some(sets) = sets_of(alloc, members)? else {
        return Ok(None);
    };
    Ok(Some(Rule { conditions, sets }))
}

#[tactic(auto, unfolding(crate::specs::Reading::rule_in))]
fn rule_in(alloc: Global, tree: &Tree) -> Result<Option<Rule>, OutOfMemory>
    ensures { IfOk result (λ rule. rule ≡ rule_in (view tree.now)) }
{
    match tree.as_object() {
        Some(members) => rule_of(alloc, members),
        None => Ok(None),
    }
}

// The rule behind so many is none. One whose number is too large counts as want of memory; no text has so many.
fn bad_rule(before: usize) -> RulesFault
    ensures { IsBad (before + 1) result }
{
    match u32::try_from(before) {
        Ok(before) if before < u32::MAX => RulesFault::Rule { rule: before + 1 },
        _ => RulesFault::OutOfMemory,
    }
}

fn all_rules(alloc: Global, trees: &[Tree]) -> Result<Vec<Rule>, RulesFault>
    ensures { MatchResult result (λ rules. rules_from 1 (items_view trees.now) ≡ Ok rules.items) (IsFirstBad (rules_from 1 (items_view trees.now))) }
{
    let mut rules = Vec::with_capacity(alloc, trees.len())?;
    'trees: for tree in trees {
        let Some(rule) = rule_in(alloc, tree)? else {
            return Err(bad_rule(rules.len()));
        };
        rules.push(rule)?;
    }
    Ok(rules)
}

// ---- limits

fn is_pattern(condition: &(FieldName, Want<Text>)) -> bool
    ensures { result ≡ is_pattern condition.now }
{
    match condition.1 {
        Want::Pattern(_) => true,
        Want::Absent | Want::Value(_) => false,
    }
}

fn pattern_count(rule: &Rule) -> usize
    ensures { result ≡ count_by is_pattern rule.now.conditions }
{
    let mut patterns: usize = 0;
    'conditions: for condition in rule.conditions.as_slice() {
        if is_pattern(condition) {
            patterns += 1;
        }
    }
    patterns
}

// Whether the rules have more patterns than they may have.
fn have_many_patterns(rules: &[Rule]) -> bool
    ensures { result ≡ nat_lt most_patterns (pattern_count rules.now) }
{
    let mut patterns: usize = 0;
    'rules: for rule in rules {
        patterns = patterns.saturating_add(pattern_count(rule));
        if patterns > MOST_PATTERNS {
            return true;
        }
    }
    false
}

fn limited(rules: Vec<Rule>) -> Result<ModifyRules, RulesFault>
    ensures { AreRead (limited rules.items) result }
{
    if rules.len() > MOST_RULES || have_many_patterns(&rules) {
        return Err(RulesFault::Limit);
    }
    Ok(ModifyRules::from(rules))
}

// ---- the whole

fn rules_of(alloc: Global, trees: &[Tree]) -> Result<ModifyRules, RulesFault>
    ensures { AreRead (of_rules (rules_from 1 (items_view trees.now))) result }
{
    match all_rules(alloc, trees) {
        Ok(rules) => limited(rules),
        Err(fault) => Err(fault),
    }
}

// The tree is the caller's, so that its drop isn't proved at each of these ends.
fn rules_of_tree(alloc: Global, tree: &Tree) -> Result<ModifyRules, RulesFault>
    ensures { AreRead (of_list (as_array (view tree.now))) result }
{
    match tree.as_array() {
        Some(trees) => rules_of(alloc, trees),
        None => Err(RulesFault::Rule { rule: 0 }),
    }
}

/// The rules of a file: 1 `Rule` with the number of the first that is none, 0 where the text is no list; 2 `Limit`.
#[tactic(auto, unfolding(crate::specs::Reading::rules_in))]
pub fn read_rules(alloc: Global, text: &[u8]) -> Result<ModifyRules, RulesFault>
    ensures { AreRead (rules_in text.now) result }
{
    match read_tree(alloc, text) {
        Ok(tree) => rules_of_tree(alloc, &tree),
        Err(ReadFault::OutOfMemory) => Err(RulesFault::OutOfMemory),
        Err(_) => Err(RulesFault::Rule { rule: 0 }),
    }
}
