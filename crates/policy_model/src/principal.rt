//! Principals of requests, and the entries of a policy that name them.
ghost use Rattle.std.specs.Prelude.{◌≡◌, ◌↔◌, length, IsTrue};
ghost use Rattle.std.proofs.Common.{rules};
ghost use Rattle.policy_model.specs.Limits.{AccountsHaveTwelveDigits};
ghost use Rattle.policy_model.specs.Principals.{EntryHolds, EntryNames, IsOfAccount, SharesNoId, SharesNoPrincipal, account_test, kind_word};
ghost use Rattle.policy_model.specs.Soundness.{IsAccount};

use crate::parts::{behind_colon, behind_prefix};
use crate::request::Request;
use plain_lists::{EqualClone, List};
use wildcard_lang::Text;

/// How many digits an account has.
pub const ACCOUNT_DIGITS: usize = 12;

/// The four kinds of principals of the IAM policy language.
#[derive(Clone, Copy, PartialEq, Eq, Hash)]
pub enum PrincipalKind {
    Aws,
    Service,
    Federated,
    CanonicalUser,
}

impl PrincipalKind {
    /// The name of the kind in a policy and in a request.
    pub fn word(self) -> &'static str
        ensures { result.now ≡ kind_word self }
    {
        match self {
            PrincipalKind::Aws => "AWS",
            PrincipalKind::Service => "Service",
            PrincipalKind::Federated => "Federated",
            PrincipalKind::CanonicalUser => "CanonicalUser",
        }
    }
}

/// One principal entry of a policy.
#[derive(Clone, Drop, PartialEq, Eq, Hash)]
pub enum Entry {
    /// Every principal.
    All,
    /// Every principal of this kind.
    Kind(PrincipalKind),
    /// Every `AWS` principal of this account.
    Account(Text),
    /// The principal of this kind and id alone, with regard to case.
    Exact(PrincipalKind, Text),
}

impl EqualClone for Entry {
    ghost clones_are_equal = { Prim.search rules };
}

/// A list of principal entries.
pub type EntryList = List<Entry>;

/// How many digits an account has, as a plain number: a law without a body.
pub fn accounts_have_twelve_digits()
    ensures { AccountsHaveTwelveDigits }
{}

/// Whether the text is an account: twelve ASCII digits. It takes no memory.
pub fn is_account(text: &[char]) -> bool
    ensures { IsTrue result ↔ IsAccount text.now }
{
    text.len() == ACCOUNT_DIGITS && text.iter().all(|c| c.is_ascii_digit())
}

// Whether the id has the form of an account's principal.
fn account_test(account: &[char], id: &[char]) -> bool
    ensures { result ≡ account_test account.now id.now }
{
    let Some(rest) = behind_prefix(id, &['a', 'r', 'n', ':']) else {
        return false;
    };
    let Some(rest) = behind_colon(rest) else {
        return false;
    };
    let Some(rest) = behind_colon(rest) else {
        return false;
    };
    let Some(rest) = behind_colon(rest) else {
        return false;
    };
    match behind_prefix(rest, account) {
        Some([':', ..]) => true,
        _ => false,
    }
}

// Whether the id is that of a principal of the account.
fn is_of_account(account: &Text, id: &Text) -> bool
    ensures { IsTrue result ↔ IsOfAccount account.now id.now }
{
    account_test(account.as_slice(), id.as_slice())
}

/// Whether the principal of this kind and id is one of the entry. It takes no memory.
pub fn entry_names(entry: &Entry, kind: PrincipalKind, id: &Text) -> bool
    ensures { IsTrue result ↔ EntryNames kind id.now entry.now }
{
    match entry {
        Entry::All => true,
        Entry::Kind(named) => kind == *named,
        Entry::Account(account) => kind == PrincipalKind::Aws && is_of_account(account, id),
        Entry::Exact(named, own) => kind == *named && *id == *own,
    }
}

/// Whether the request's principal is one of the entry. It takes no memory.
pub fn entry_holds(entry: &Entry, request: &Request) -> bool
    ensures { IsTrue result ↔ EntryHolds request.now entry.now }
{
    entry_names(entry, request.kind, &request.id)
}

// Whether the accounts have one length, as all accounts of a policy do, and no id is an ARN of both.
fn are_accounts_apart(one: &Text, other: &Text) -> bool
    ensures { IsTrue result ↔ (length one.now ≡ length other.now) × SharesNoId one.now other.now }
{
    one.len() == other.len() && one != other
}

/// Whether no principal is one of both entries, by kind, account and id. The answer may be no although they share none where
/// an account doesn't have twelve digits. It takes no memory.
pub fn are_entries_apart(one: &Entry, other: &Entry) -> bool
    ensures { IsTrue result → SharesNoPrincipal one.now other.now }
{
    match (one, other) {
        (Entry::Exact(kind, id), _) => !entry_names(other, *kind, id),
        (_, Entry::Exact(kind, id)) => !entry_names(one, *kind, id),
        (Entry::Kind(first), Entry::Kind(second)) => first != second,
        (Entry::Account(_), Entry::Kind(kind)) | (Entry::Kind(kind), Entry::Account(_)) => {
            *kind != PrincipalKind::Aws
        }
        (Entry::Account(first), Entry::Account(second)) => are_accounts_apart(first, second),
        (Entry::All, _) | (_, Entry::All) => false,
    }
}
