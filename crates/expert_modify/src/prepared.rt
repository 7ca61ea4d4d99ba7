//! Rules with their patterns built.
ghost use Rattle.std.specs.Prelude.{◌≡◌, ◌<◌, Some, length, option_map, slice_get, IfOk};
ghost use Rattle.std.specs.List.{list_all};
ghost use Rattle.std.specs.Option.{option_copied};
ghost use Rattle.field_types.specs.Writing.{value_text};
ghost use Rattle.sieve_eval.specs.Says.{matches};
ghost use Rattle.expert_modify.specs.Meets.{holds, is_wanted, meets, shown};

use crate::{ModifyRules, Rule, Want};
use base_types::{OutOfMemory, Text};
use event_model::{Fields, PlaceHint};
use field_types::{FieldName, Value, push_value};
use sieve_eval::{Pattern, equal};
use std::alloc::Global;
use std::marker::Model;

type Conditions = Vec<(FieldName, Want<Pattern>)>;

// A rule with its patterns built. Contracts see the rule.
#[derive(Drop)]
struct PreparedRule {
    conditions: Conditions,
    sets: Fields,
}

impl Model for PreparedRule {
    ghost use Rattle.expert_modify.specs.declared.rule.Rule as rule;
    ghost use Rattle.expert_modify.specs.contracts.rule.Rule as code;

    ghost Value = { rule.Rule };

    ghost coded = { code.the_row.coded };

    ghost view = { λ r. record { conditions = r.conditions.items; sets = r.sets } };
}

/// Rules with their patterns built, of which searches keep what they have found out. Contracts see the rules.
#[derive(Drop)]
pub struct PreparedRules {
    rules: Vec<PreparedRule>,
}

impl Model for PreparedRules {
    ghost use Rattle.std.specs.Prelude.{List};
    ghost use Rattle.std.specs.Coded.{coded_list};
    ghost use Rattle.expert_modify.specs.declared.rule.Rule as rule;
    ghost use Rattle.expert_modify.specs.contracts.rule.Rule as code;

    ghost Value = { List rule.Rule };

    ghost coded = { coded_list code.the_row.coded };

    ghost view = { λ p. p.rules.items };
}

// ---- building

fn prepared_want(alloc: Global, want: &Want<Text>) -> Result<Want<Pattern>, OutOfMemory>
    ensures { IfOk result (λ prepared. prepared ≡ want.now) }
{
    Ok(match want {
        Want::Absent => Want::Absent,
        Want::Pattern(text) => Want::Pattern(Pattern::build(alloc, text)?),
        Want::Value(value) => Want::Value(value.copy(alloc)?),
    })
}

fn prepared_conditions(
    alloc: Global,
    conditions: &[(FieldName, Want<Text>)],
) -> Result<Conditions, OutOfMemory>
    ensures { IfOk result (λ prepared. prepared.items ≡ conditions.now) }
{
    let mut prepared = Vec::with_capacity(alloc, conditions.len())?;
    'conditions: for condition in conditions {
        let name = condition.0.copy(alloc)?;
        let want = prepared_want(alloc, &condition.1)?;
        prepared.push((name, want))?;
    }
    Ok(prepared)
}

impl PreparedRule {
    fn new(alloc: Global, rule: &Rule) -> Result<PreparedRule, OutOfMemory>
        ensures { IfOk result (λ prepared. prepared ≡ rule.now) }
    {
        let sets = rule.sets.copy(alloc)?;
        let conditions = prepared_conditions(alloc, rule.conditions.as_slice())?;
        Ok(PreparedRule { conditions, sets })
    }
}

// ---- what holds

// The text that a value shows, where it isn't one.
fn json_of(alloc: Global, value: &Value) -> Result<Text, OutOfMemory>
    ensures { IfOk result (λ text. text ≡ value_text value.now) }
{
    let mut out = Vec::new(alloc);
    push_value(&mut out, value)?;
    // It is UTF-8, since all of a value's texts are.
    match Text::new(alloc, &out) {
        Ok(text) => Ok(text),
        Err(_) => Err(OutOfMemory),
    }
}

fn matches_json(alloc: Global, pattern: &mut Pattern, value: &Value) -> Result<bool, OutOfMemory>
    ensures found { IfOk result (λ found. found ≡ matches (value_text value.now) pattern.old) }
    ensures same { pattern.new ≡ pattern.old }
{
    let text = json_of(alloc, value)?;
    pattern.is_match(alloc, text.as_str())
}

// Whether the pattern has a match in the text that a value shows. What a number and a flag print is their JSON.
#[tactic(auto, unfolding(field_types::specs::Writing::value_text))]
fn matches(alloc: Global, pattern: &mut Pattern, value: &Value) -> Result<bool, OutOfMemory>
    ensures found { IfOk result (λ found. found ≡ matches (shown value.now) pattern.old) }
    ensures same { pattern.new ≡ pattern.old }
{
    match value {
        Value::Text(text) => pattern.is_match(alloc, text.as_str()),
        Value::Whole(_) | Value::Flag(_) | Value::Decimal(_) | Value::List(_) => {
            matches_json(alloc, pattern, value)
        }
    }
}

fn is_wanted(
    alloc: Global,
    want: &mut Want<Pattern>,
    field: Option<&Value>,
) -> Result<bool, OutOfMemory>
    ensures is { IfOk result (λ is. is ≡ is_wanted want.old (option_copied field.entry)) }
    ensures same { want.new ≡ want.old }
{
    let Some(value) = field else {
        return Ok(matches!(want, Want::Absent));
    };
    match want {
        Want::Absent => Ok(false),
        Want::Pattern(pattern) => matches(alloc, pattern, value),
        Want::Value(wanted) => Ok(equal(wanted, value)),
    }
}

fn holds(
    alloc: Global,
    condition: &mut (FieldName, Want<Pattern>),
    fields: &Fields,
    place: &mut PlaceHint,
) -> Result<bool, OutOfMemory>
    ensures is { IfOk result (λ is. is ≡ holds fields.now condition.old) }
    ensures same { condition.new ≡ condition.old }
{
    let field = fields.get_near(&condition.0, place);
    is_wanted(alloc, &mut condition.1, field)
}

fn all_hold(
    alloc: Global,
    conditions: &mut [(FieldName, Want<Pattern>)],
    fields: &Fields,
    place: &mut PlaceHint,
) -> Result<bool, OutOfMemory>
    ensures all { IfOk result (λ all. all ≡ list_all (holds fields.now) conditions.old) }
    ensures same { conditions.new ≡ conditions.old }
{
    let mut i = 0;
    'conditions: while i < conditions.len() {
        if !holds(alloc, &mut conditions[i], fields, place)? {
            return Ok(false);
        }
        i += 1;
    }
    Ok(true)
}

impl PreparedRule {
    fn meets(
        &mut self,
        alloc: Global,
        fields: &Fields,
        place: &mut PlaceHint,
    ) -> Result<bool, OutOfMemory>
        ensures met { IfOk result (λ met. met ≡ meets self.old fields.now) }
        ensures same { self.new ≡ self.old }
    {
        all_hold(alloc, &mut self.conditions, fields, place)
    }

    fn sets(&self) -> &Fields
        ensures { result.now ≡ self.now.sets }
    {
        &self.sets
    }
}

impl PreparedRules {
    /// Copies the rules and builds their patterns. A pattern that can't be built counts as want of memory.
    pub fn new(alloc: Global, rules: &ModifyRules) -> Result<PreparedRules, OutOfMemory>
        ensures { IfOk result (λ prepared. prepared ≡ rules.now) }
    {
        let mut prepared = Vec::with_capacity(alloc, rules.len())?;
        'rules: for rule in rules.as_slice() {
            prepared.push(PreparedRule::new(alloc, rule)?)?;
        }
        Ok(PreparedRules { rules: prepared })
    }

    pub fn len(&self) -> usize
        ensures { result ≡ length self.now }
    {
        self.rules.len()
    }

    /// Whether the conditions of a rule hold of the fields. The names of its conditions may stand where the last one was found,
    /// or right behind it.
    pub fn meets(
        &mut self,
        alloc: Global,
        i: usize,
        fields: &Fields,
        place: &mut PlaceHint,
    ) -> Result<bool, OutOfMemory>
        requires { i < length self.old }
        ensures met { IfOk result (λ met. option_map (λ rule. meets rule fields.now) (slice_get self.old i) ≡ Some met) }
        ensures same { self.new ≡ self.old }
    {
        let rule = &mut self.rules[i];
        rule.meets(alloc, fields, place)
    }

    /// The fields that a rule sets.
    pub fn sets(&self, i: usize) -> &Fields
        requires { i < length self.now }
        ensures { option_map (λ rule. rule.sets) (slice_get self.now i) ≡ Some result.now }
    {
        self.rules[i].sets()
    }
}
