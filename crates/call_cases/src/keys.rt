//! Rules of keys, and tests on keys.
ghost use Rattle.std.specs.Prelude.{All, IfOk};
ghost use Rattle.policy_model.specs.Conds.{IsCondOf};
ghost use Rattle.policy_model.specs.Soundness.{RuleIsSound, TestSuits};
ghost use Rattle.policy_model.specs.declared.value.Kind.TheVariants.{Truth};
ghost use Rattle.call_cases.specs.Cases.{AreShortTexts, IsShortText, IsTestOf};

use policy_model::{Cond, CondList, KeyRule, Kind, Schema, Test, Value, ValueList};
use std::alloc::Global;
use std::io;
use std::io::ErrorKind;
use wildcard_lang::{MOST_PIECES, Pattern, Text, read_glob};

fn kind_named(name: &str) -> Option<Kind> {
    match name {
        "text" => Some(Kind::Text),
        "truth" => Some(Kind::Truth),
        "number" => Some(Kind::Number),
        "address" => Some(Kind::Address),
        "bytes" => Some(Kind::Bytes),
        _ => None,
    }
}

fn glob(alloc: Global, text: &str) -> io::Result<Pattern> {
    match read_glob(alloc, text, false, false) {
        Ok(pattern) => Ok(pattern),
        Err(_) => Err(ErrorKind::InvalidData.into()),
    }
}

// A text of as many characters as a pattern has pieces at most.
fn short(alloc: Global, text: &str) -> io::Result<Text>
    ensures { IfOk result IsShortText }
{
    let text = Text::of(alloc, text)?;
    if text.len() > MOST_PIECES {
        return Err(ErrorKind::InvalidData.into());
    }
    Ok(text)
}

// Two texts that are divided by a bar.
fn listed(alloc: Global, text: &str) -> io::Result<ValueList>
    ensures { IfOk result AreShortTexts }
{
    let Some((first, second)) = text.split_once('|') else {
        return Err(ErrorKind::InvalidData.into());
    };
    let mut values = ValueList::new(alloc);
    values.push(Value::Word(short(alloc, first)?))?;
    values.push(Value::Word(short(alloc, second)?))?;
    Ok(values)
}

fn rule_of_texts(alloc: Global, many: bool, required: bool, values: &str) -> io::Result<KeyRule>
    ensures { IfOk result RuleIsSound }
{
    if let Some(texts) = values.strip_prefix("in=") {
        let among = Some(listed(alloc, texts)?);
        return Ok(KeyRule {
            kind: Kind::Text,
            many,
            required,
            among,
            shape: None,
        });
    }
    let Some(shape) = values.strip_prefix("like=") else {
        return Err(ErrorKind::InvalidData.into());
    };
    let shape = Some(glob(alloc, shape)?);
    Ok(KeyRule {
        kind: Kind::Text,
        many,
        required,
        among: None,
        shape,
    })
}

/// The rule of three words: a kind, `many` and `required` where these are among the letters of the
/// second, and of a text key `in=` with two listed texts, `like=` with a shape, or `-`.
pub(crate) fn rule_of(alloc: Global, words: [&str; 3]) -> io::Result<KeyRule>
    ensures { IfOk result RuleIsSound }
{
    let many = words[1].contains("many");
    let required = words[1].contains("required");
    if words[2] != "-" {
        return rule_of_texts(alloc, many, required, words[2]);
    }
    match kind_named(words[0]) {
        None => Err(ErrorKind::InvalidData.into()),
        Some(kind) => Ok(KeyRule {
            kind,
            many,
            required,
            among: None,
            shape: None,
        }),
    }
}

fn truth_of(word: &str) -> io::Result<Cond>
    ensures { IfOk result (IsCondOf Truth) }
{
    match word {
        "true" => Ok(Cond::Flag(true, false)),
        "false" => Ok(Cond::Flag(false, true)),
        _ => Err(ErrorKind::InvalidData.into()),
    }
}

// A pattern of a text, or a truth value.
fn cond_of(alloc: Global, kind: Kind, word: &str) -> io::Result<Cond>
    ensures { IfOk result (IsCondOf kind) }
{
    match kind {
        Kind::Text => Ok(Cond::Matches(glob(alloc, word)?)),
        Kind::Truth => truth_of(word),
        Kind::Number => Err(ErrorKind::InvalidData.into()),
        Kind::Address => Err(ErrorKind::InvalidData.into()),
        Kind::Bytes => Err(ErrorKind::InvalidData.into()),
    }
}

// What is divided by bars.
fn conds_of(alloc: Global, kind: Kind, text: &str) -> io::Result<CondList>
    ensures { IfOk result (All (IsCondOf kind)) }
{
    let mut conds = CondList::new(alloc);
    for word in text.split('|') {
        conds.push(cond_of(alloc, kind, word)?)?;
    }
    Ok(conds)
}

// The test on a key of the kind.
fn test_on(alloc: Global, key: Text, kind: Kind, word: &str) -> io::Result<Test>
    ensures { IfOk result (IsTestOf key kind) }
{
    if word == "?" {
        return Ok(Test::Present(key));
    }
    if let Some(word) = word.strip_prefix('=') {
        return Ok(Test::SomeMeets(key, cond_of(alloc, kind, word)?));
    }
    let Some(words) = word.strip_prefix('#') else {
        return Err(ErrorKind::InvalidData.into());
    };
    Ok(Test::SomeMeetsNone(key, conds_of(alloc, kind, words)?))
}

/// The test of a word: `?` asks whether there is a value, `=` for one that meets what follows, and `#`
/// for one that meets nothing of what follows. It is on the key `k`, or on `j` where that stands before.
pub(crate) fn key_test_of(alloc: Global, schema: &Schema, word: &str) -> io::Result<Test>
    ensures { IfOk result (TestSuits schema.now) }
{
    let (name, word) = match word.strip_prefix('j') {
        Some(word) => ("j", word),
        None => ("k", word),
    };
    let key = Text::of(alloc, name)?;
    match schema.get(&key) {
        None => Err(ErrorKind::InvalidData.into()),
        Some(rule) => test_on(alloc, key, rule.kind, word),
    }
}
