//! Rules that set fields.
use crate::messages::{event_text, fields_of, parts_of};
use base_types::{OutOfMemory, Text};
use event_model::Fields;
use expert_modify::{ModifyRules, PreparedRules, RulesFault, read_rules};
use expert_rules::modify;
use std::alloc::Global;

/// What the rules in front make of the event, or why they are none. Where there is a limit, it stands in front of both.
pub fn modified(
    alloc: Global,
    overwrite: bool,
    limited: bool,
    case: &str,
) -> Result<String, OutOfMemory> {
    let (most, case) = if limited { parts_of(case) } else { ("0", case) };
    let (text, event) = parts_of(case);
    match read_rules(alloc, text.as_bytes()) {
        Ok(rules) => modified_by(alloc, &rules, overwrite, number(most), event),
        Err(fault) => refusal(alloc, fault),
    }
}

fn number(text: &str) -> u32 {
    text.parse::<u32>().unwrap_or(0)
}

fn modified_by(
    alloc: Global,
    rules: &ModifyRules,
    overwrite: bool,
    most: u32,
    event: &str,
) -> Result<String, OutOfMemory> {
    let fields = fields_of(alloc, event)?;
    let mut prepared = PreparedRules::new(alloc, rules)?;
    let made = modified_twice(alloc, &mut prepared, overwrite, most, &fields)?;
    event_text(alloc, made)
}

// What searches have found out must make no difference.
fn modified_twice(
    alloc: Global,
    rules: &mut PreparedRules,
    overwrite: bool,
    most: u32,
    fields: &Fields,
) -> Result<Fields, OutOfMemory> {
    modify(alloc, rules, overwrite, most, fields)?;
    modify(alloc, rules, overwrite, most, fields)
}

fn refusal(alloc: Global, fault: RulesFault) -> Result<String, OutOfMemory> {
    match fault {
        RulesFault::Rule { rule } => Ok(format!(in alloc; "rule {rule}")?),
        RulesFault::Limit => Ok("limit".to_string(alloc)?),
        RulesFault::OutOfMemory => Err(OutOfMemory),
    }
}

/// How many rules there are, or why they are none.
pub fn counted(alloc: Global, text: &str) -> Result<String, OutOfMemory> {
    match read_rules(alloc, text.as_bytes()) {
        Ok(rules) => {
            let rules = rules.len();
            Ok(format!(in alloc; "{rules} rules")?)
        }
        Err(fault) => refusal(alloc, fault),
    }
}

/// The same of a number of rules, each as it stands behind that number.
pub fn counted_among(alloc: Global, case: &str) -> Result<String, OutOfMemory> {
    let (count, rule) = parts_of(case);
    let text = repeated(alloc, number(count), rule)?;
    counted(alloc, text.as_str())
}

fn repeated(alloc: Global, count: u32, rule: &str) -> Result<Text, OutOfMemory> {
    let mut text = String::new(alloc);
    text.push_str("[")?;
    for n in 0..count {
        if n > 0 {
            text.push_str(",")?;
        }
        text.push_str(rule)?;
    }
    text.push_str("]")?;
    Ok(Text::from(text))
}
