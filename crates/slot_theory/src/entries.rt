//! What an entry asks of the principals of one kind: a fixed answer, or a pattern of their ids.
ghost use Rattle.std.specs.Prelude.{◌≡◌, None, Some, false, IfOk, if◌then◌else◌};
ghost use Rattle.policy_model.specs.Soundness.{EntryIsSound, IsAccount};
ghost use Rattle.slot_theory.specs.Entries.{account_pattern, entry_pattern, fixed_answer, is_kind};

use plain_lists::NoMemory;
use policy_model::{Entry, PrincipalKind};
use std::alloc::Global;
use wildcard_lang::{Pattern, Piece, Text};

/// Whether the kinds are equal.
fn is_kind(kind: PrincipalKind, other: PrincipalKind) -> bool
    ensures { result ≡ is_kind kind other }
{
    kind == other
}

/// The answer no to every kind but one, and none to that.
fn only_of(kind: PrincipalKind, own: PrincipalKind) -> Option<bool>
    ensures { result ≡ (if is_kind kind own then None else Some false) }
{
    if is_kind(kind, own) {
        None
    } else {
        Some(false)
    }
}

/// The answer that the entry gives to every principal of the kind, where all get one answer.
pub fn fixed_answer(entry: &Entry, kind: PrincipalKind) -> Option<bool>
    ensures { result ≡ fixed_answer kind entry.now }
{
    match entry {
        Entry::All => Some(true),
        Entry::Kind(own) => Some(is_kind(kind, *own)),
        Entry::Account(_) => only_of(kind, PrincipalKind::Aws),
        Entry::Exact(own, _) => only_of(kind, *own),
    }
}

/// The pieces before the account in the pattern of its ids: `arn:*:*:*:`. No wildcard among them takes a
/// colon.
const BEFORE_ACCOUNT: [Piece; 10] = [
    Piece::Lit('a'),
    Piece::Lit('r'),
    Piece::Lit('n'),
    Piece::Lit(':'),
    Piece::ManyNoColon,
    Piece::Lit(':'),
    Piece::ManyNoColon,
    Piece::Lit(':'),
    Piece::ManyNoColon,
    Piece::Lit(':'),
];

/// The pattern of the ids of an account.
fn account_pattern(alloc: Global, account: &Text) -> Result<Pattern, NoMemory>
    requires { IsAccount account.now }
    ensures { IfOk result (λ p. p ≡ account_pattern account.now) }
{
    let mut pieces = Vec::from_slice(alloc, &BEFORE_ACCOUNT)?;
    for c in account.as_slice() {
        pieces.push(Piece::Lit(*c))?;
    }
    pieces.push(Piece::Lit(':'))?;
    pieces.push(Piece::Many)?;
    Ok(Pattern::from_pieces(pieces))
}

/// The pattern that the entry asks ids to match where it has no fixed answer, if it ever asks so.
pub fn entry_pattern(alloc: Global, entry: &Entry) -> Result<Option<Pattern>, NoMemory>
    requires { EntryIsSound entry.now }
    ensures { IfOk result (λ p. p ≡ entry_pattern entry.now) }
{
    match entry {
        Entry::All | Entry::Kind(_) => Ok(None),
        Entry::Account(account) => Ok(Some(account_pattern(alloc, account)?)),
        Entry::Exact(_, id) => Ok(Some(Pattern::literal(alloc, id)?)),
    }
}
