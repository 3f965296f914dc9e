//! The condition keys that every schema has.
ghost use Rattle.std.specs.Prelude.{◌≡◌, IfOk, OnOk, All};
ghost use Rattle.json_shapes.specs.Shapes.{texts};
ghost use Rattle.policy_model.specs.Soundness.{SchemaIsSound};
ghost use Rattle.request_schema.specs.BuiltIn.{RulesAreSound, built_in_rules, built_in_schema, keys_of_kind, plain_rule, with_rules};

use policy_model::{KeyRule, KeyRules, Kind, NoMemory, Schema};
use std::alloc::Global;
use wildcard_lang::Text;

const TEXT_KEYS: [&str; 13] = [
    "aws:PrincipalAccount",
    "aws:PrincipalArn",
    "aws:PrincipalOrgID",
    "aws:PrincipalType",
    "aws:Referer",
    "aws:RequestedRegion",
    "aws:SourceAccount",
    "aws:SourceArn",
    "aws:SourceVpc",
    "aws:SourceVpce",
    "aws:UserAgent",
    "aws:userid",
    "aws:username",
];

const TRUTH_KEYS: [&str; 3] = [
    "aws:SecureTransport",
    "aws:MultiFactorAuthPresent",
    "aws:ViaAWSService",
];

const NUMBER_KEYS: [&str; 4] = [
    "aws:MultiFactorAuthAge",
    "aws:CurrentTime",
    "aws:EpochTime",
    "aws:TokenIssueTime",
];

const ADDRESS_KEYS: [&str; 2] = ["aws:SourceIp", "aws:VpcSourceIp"];

const LIST_KEYS: [&str; 3] = ["aws:TagKeys", "aws:PrincipalOrgPaths", "aws:CalledVia"];

/// A rule that asks nothing but a kind and a number of values.
pub(crate) fn plain_rule(kind: Kind, many: bool) -> KeyRule
    ensures { result ≡ plain_rule kind many }
{
    KeyRule {
        kind,
        many,
        required: false,
        among: None,
        shape: None,
    }
}

// Adds keys of a kind, with one value or with several.
fn add_keys(
    alloc: Global,
    rules: &mut KeyRules,
    kind: Kind,
    many: bool,
    names: &[&str],
) -> Result<(), NoMemory>
    ensures value { OnOk result (rules.new ≡ with_rules rules.old
        (keys_of_kind kind many (texts names.now))) }
    ensures sound { OnOk result (RulesAreSound rules.old → RulesAreSound rules.new) }
{
    for name in names {
        let key = Text::of(alloc, name)?.folded()?;
        rules.insert(key, plain_rule(kind, many))?;
    }
    Ok(())
}

/// The rules of the built-in keys.
pub(crate) fn built_in_rules(alloc: Global) -> Result<KeyRules, NoMemory>
    ensures value { IfOk result (λ rules. rules ≡ built_in_rules) }
    ensures sound { IfOk result RulesAreSound }
{
    let mut rules = KeyRules::new(alloc);
    add_keys(alloc, &mut rules, Kind::Text, false, &TEXT_KEYS)?;
    add_keys(alloc, &mut rules, Kind::Truth, false, &TRUTH_KEYS)?;
    add_keys(alloc, &mut rules, Kind::Number, false, &NUMBER_KEYS)?;
    add_keys(alloc, &mut rules, Kind::Address, false, &ADDRESS_KEYS)?;
    add_keys(alloc, &mut rules, Kind::Text, true, &LIST_KEYS)?;
    Ok(rules)
}

/// The schema of the built-in keys, of version 1 and without shapes.
pub fn built_in(alloc: Global) -> Result<Schema, NoMemory>
    ensures value { IfOk result (λ schema. schema ≡ built_in_schema) }
    ensures sound { IfOk result SchemaIsSound }
{
    let keys = built_in_rules(alloc)?;
    let mut schema = Schema::new(alloc);
    schema.keys = keys;
    Ok(schema)
}
