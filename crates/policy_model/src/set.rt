//! Sets of policies.
ghost use Rattle.std.proofs.Common.{rules};

use crate::matcher::Matcher;
use crate::operator::ConditionList;
use crate::principal::Entry;
use plain_lists::{EqualClone, List};
use wildcard_lang::Pattern;

/// One statement of a policy. An absent principal matches every principal, and an absent resource
/// every resource. Each condition has to hold.
#[derive(Clone, Drop)]
pub struct Statement {
    /// `Allow`, or else `Deny`.
    pub allow: bool,
    pub principal: Option<Matcher<Entry>>,
    pub action: Matcher<Pattern>,
    pub resource: Option<Matcher<Pattern>>,
    /// Operator by operator, and in each key by key.
    pub conditions: ConditionList,
}

impl EqualClone for Statement {
    ghost clones_are_equal = { Prim.search rules };
}

/// A list of statements.
pub type StatementList = List<Statement>;

/// One policy document.
#[derive(Clone, Drop)]
pub struct Document {
    pub statements: StatementList,
}

impl EqualClone for Document {
    ghost clones_are_equal = { Prim.search rules };
}

/// A list of documents.
pub type DocumentList = List<Document>;

/// A list of guards, each a list of pooled documents.
pub type GuardList = List<DocumentList>;

/// A set of policies: documents that grant, and guards that grant nothing and that each have to allow
/// too, as permission boundaries and service control policies do.
#[derive(Drop)]
pub struct PolicySet {
    pub grants: DocumentList,
    pub guards: GuardList,
}

/// A statement by the numbers of its document and of itself in it, both counted from 1. Documents are
/// counted through the grants and then through the guards in order.
#[derive(Clone, Copy)]
pub struct StatementName {
    pub document: u32,
    pub statement: u32,
}
