//! Laws of the experts. Each is a clause of a function that does nothing.
ghost use Rattle.std.specs.Prelude.{◌≡◌, ◌≤◌, List, ℕ, Bool, false, length, None, Some};
ghost use Rattle.std.specs.Option.{option_or};
ghost use Rattle.std.specs.FinMap.{get};
ghost use Rattle.std.specs.List.{AllByRecursion};
ghost use Rattle.scalar_net.specs.declared.address.Ip.{Ip};
ghost use Rattle.scalar_net.specs.Address.{ip_text};
ghost use Rattle.field_types.specs.declared.value.Value.{Value as AnyValue};
ghost use Rattle.field_types.specs.declared.value.Value.TheVariants as value;
ghost use Rattle.event_model.specs.Fields.{FieldMap, IsField};
ghost use Rattle.expert_rules.specs.Enrich.{address_of, source_key, union};
ghost use Rattle.expert_modify.specs.declared.rule.Rule.{Rule};
ghost use Rattle.expert_rules.specs.Modify.{limit, matched, modified};
ghost use Rattle.expert_rules.specs.Taxonomy.{taxonomy_of, type_key};

use field_types::Value;

/// The value of `source.ip` is the canonical text of an address, and is read as that address.
pub fn source_is_an_address(source: &Value)
    ensures { IsField source_key source.now → (ip : Ip) × (source.now ≡ value.Text (ip_text ip)) × (address_of source.now ≡ Some ip) }
{}

/// The value of `classification.type` is a type that has a taxonomy.
pub fn type_has_a_taxonomy(class: &Value)
    ensures { IsField type_key class.now → (taxonomy : List ℕ) × (taxonomy_of class.now ≡ Some taxonomy) }
{}

/// Of two sets of fields together, a field has the value in the first, or else the value in the second.
pub fn union_is_of_both()
    ensures { (first second : FieldMap) (key : List ℕ) → get (union first second) key ≡ option_or (get first key) (get second key) }
{}

/// A field that no rule sets which matches stays as it is.
pub fn unset_fields_stay()
    ensures { (rules : List Rule) (overwrite : Bool) (most : ℕ) (fields : FieldMap) (key : List ℕ) → AllByRecursion (λ rule. get rule.sets key ≡ None) (matched overwrite rules (limit most, fields))
        → get (modified rules overwrite most fields) key ≡ get fields key }
{}

/// Where rules don't overwrite, a field that is there stays as it is.
pub fn present_fields_stay()
    ensures { (rules : List Rule) (most : ℕ) (fields : FieldMap) (key : List ℕ) (v : AnyValue) → get fields key ≡ Some v → get (modified rules false most fields) key ≡ Some v }
{}

/// At most so many rules match, where there is a limit.
pub fn matches_are_limited()
    ensures { (rules : List Rule) (overwrite : Bool) (most : ℕ) (fields : FieldMap) → 1 ≤ most → length (matched overwrite rules (limit most, fields)) ≤ most }
{}
