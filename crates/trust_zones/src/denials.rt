//! The statements that deny everything to requests from inside a zone.
ghost use Rattle.std.specs.Prelude.{◌≡◌, ◌≤◌, ◌++◌, ◌∷◌, [], All as Each, IfOk, OnOk, chars, false, length};
ghost use Rattle.wildcard_lang.specs.declared.pattern.TheConstants.{MOST_PIECES};
ghost use Rattle.trust_zones.specs.Zones.{ZoneIsSound, account_denials, block_denials, block_values, denial, every_action, has_one_of, of_accounts, text_denials, text_values, zone_document};

use crate::keys::{address_name, key_named, organization_name, vpc_name};
use crate::zone::Zone;
use cidr_bits::Block;
use plain_lists::{EqualClone, List, NoMemory};
use policy_model::{
    Base, Condition, ConditionList, Document, Entry, Matcher, Operand, OperandList, Operator,
    Quantifier, Statement, StatementList,
};
use std::alloc::Global;
use wildcard_lang::{Pattern, Piece, Text};

// The pattern of every action.
fn every_action(alloc: Global) -> Result<Pattern, NoMemory>
    ensures { IfOk result (λ p. p ≡ every_action) }
{
    let mut pieces = Vec::new(alloc);
    pieces.push(Piece::Many)?;
    Ok(Pattern::from_pieces(pieces))
}

// All actions.
fn all_actions(alloc: Global) -> Result<Matcher<Pattern>, NoMemory>
    ensures { IfOk result (λ m. m ≡ record { not = false; items = every_action ∷ [] }) }
{
    let mut items = List::new(alloc);
    items.push(every_action(alloc)?)?;
    Ok(Matcher { not: false, items })
}

// All actions are denied to these principals under these conditions.
fn denial(
    alloc: Global,
    principal: Option<Matcher<Entry>>,
    conditions: ConditionList,
) -> Result<Statement, NoMemory>
    ensures { IfOk result (λ s. s ≡ denial principal conditions) }
{
    let action = all_actions(alloc)?;
    Ok(Statement {
        allow: false,
        principal,
        action,
        resource: None,
        conditions,
    })
}

// The principals of the accounts.
fn of_accounts(alloc: Global, accounts: &[Text]) -> Result<Matcher<Entry>, NoMemory>
    ensures { IfOk result (λ m. m ≡ of_accounts accounts.now) }
{
    let mut items = List::new(alloc);
    for account in accounts {
        items.push(Entry::Account(account.copy()?))?;
    }
    Ok(Matcher { not: false, items })
}

// What the texts ask as they stand.
fn text_values(alloc: Global, texts: &[Text]) -> Result<OperandList, NoMemory>
    requires { Each (λ t. length t ≤ MOST_PIECES) texts.now }
    ensures { IfOk result (λ values. values ≡ text_values texts.now) }
{
    let mut values = List::new(alloc);
    for text in texts {
        values.push(Operand::Pattern(Pattern::literal(alloc, text)?))?;
    }
    Ok(values)
}

// What the blocks ask.
fn block_values(alloc: Global, blocks: &[Block]) -> Result<OperandList, NoMemory>
    ensures { IfOk result (λ values. values ≡ block_values blocks.now) }
{
    let mut values = List::new(alloc);
    for block in blocks {
        values.push(Operand::Block(*block))?;
    }
    Ok(values)
}

// The key of the name has one of the values.
fn has_one_of(
    alloc: Global,
    base: Base,
    name: &str,
    values: OperandList,
) -> Result<Condition, NoMemory>
    ensures { IfOk result (λ c. c ≡ has_one_of base name.now values) }
{
    let operator = Operator {
        base,
        quantifier: Quantifier::Plain,
        if_exists: false,
    };
    let key = key_named(alloc, name)?;
    let written = Text::of(alloc, name)?;
    Ok(Condition {
        operator,
        key,
        written,
        values,
    })
}

// All actions are denied where the condition holds.
fn denial_where(alloc: Global, condition: Condition) -> Result<Statement, NoMemory>
    ensures { IfOk result (λ s. s ≡ denial None (condition ∷ [])) }
{
    let mut conditions = List::new(alloc);
    conditions.push(condition)?;
    denial(alloc, None, conditions)
}

// Adds what is denied to the principals of the accounts, where there are some.
fn add_accounts(
    alloc: Global,
    accounts: &[Text],
    statements: &mut StatementList,
) -> Result<(), NoMemory>
    ensures { OnOk result (statements.new ≡ statements.old ++ account_denials accounts.now) }
{
    if accounts.is_empty() {
        return Ok(());
    }
    let principal = of_accounts(alloc, accounts)?;
    statements.push(denial(alloc, Some(principal), List::new(alloc))?)?;
    Ok(())
}

// Adds what is denied where the key of the name is one of the texts, where there are some.
fn add_texts(
    alloc: Global,
    name: &str,
    texts: &[Text],
    statements: &mut StatementList,
) -> Result<(), NoMemory>
    requires { Each (λ t. length t ≤ MOST_PIECES) texts.now }
    ensures { OnOk result (statements.new ≡ statements.old ++ text_denials name.now texts.now) }
{
    if texts.is_empty() {
        return Ok(());
    }
    let values = text_values(alloc, texts)?;
    let condition = has_one_of(alloc, Base::StringEquals, name, values)?;
    statements.push(denial_where(alloc, condition)?)?;
    Ok(())
}

// Adds what is denied where the address lies in one of the blocks, where there are some.
fn add_blocks(
    alloc: Global,
    blocks: &[Block],
    statements: &mut StatementList,
) -> Result<(), NoMemory>
    ensures { OnOk result (statements.new ≡ statements.old ++ block_denials blocks.now) }
{
    if blocks.is_empty() {
        return Ok(());
    }
    let values = block_values(alloc, blocks)?;
    let condition = has_one_of(alloc, Base::IpAddress, address_name(), values)?;
    statements.push(denial_where(alloc, condition)?)?;
    Ok(())
}

/// The document that denies everything to requests from inside the zone.
pub(crate) fn zone_document(alloc: Global, zone: &Zone) -> Result<Document, NoMemory>
    requires { ZoneIsSound zone.now }
    ensures { IfOk result (λ d. d ≡ zone_document zone.now) }
{
    let mut statements = List::new(alloc);
    add_accounts(alloc, zone.accounts.as_slice(), &mut statements)?;
    let organizations = zone.organizations.as_slice();
    add_texts(alloc, organization_name(), organizations, &mut statements)?;
    add_texts(alloc, vpc_name(), zone.vpcs.as_slice(), &mut statements)?;
    add_blocks(alloc, zone.blocks.as_slice(), &mut statements)?;
    Ok(Document { statements })
}
