//! Requests, schemas, tests and sets of policies, with what they mean: which requests are valid, what
//! a test answers, and what a set allows.
#![tactic(auto)]

mod cond;
mod context;
mod matcher;
mod operand;
mod operator;
mod parts;
mod principal;
mod request;
mod required;
mod schema;
mod set;
mod test;
mod validity;
mod value;

pub use cond::{Cond, CondList, are_conds_apart, cond_meets, meets_some};
pub use context::Context;
pub use matcher::Matcher;
pub use operand::{cond_of, conds_of, operand_meets};
pub use operator::{
    Base, Condition, ConditionList, Family, Operand, OperandList, Operator, Quantifier,
    takes_family,
};
pub use parts::{behind_colon, behind_prefix};
pub use plain_lists::{EqualClone, List, NoMemory};
pub use principal::{
    ACCOUNT_DIGITS, Entry, EntryList, PrincipalKind, accounts_have_twelve_digits,
    are_entries_apart, entry_holds, entry_names, is_account,
};
pub use request::Request;
pub use required::Validity;
pub use schema::{KeyRule, KeyRules, Schema, Shapes};
pub use set::{
    Document, DocumentList, GuardList, PolicySet, Statement, StatementList, StatementName,
};
pub use test::{Slot, SlotList, Test, TestList, test_holds};
pub use validity::{is_value_of, is_word, permits_values, shape_of, valid};
pub use value::{Kind, Value, ValueList};
