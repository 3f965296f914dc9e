//! Accounts that principals' ids stand for.
ghost use Rattle.std.specs.Prelude.{◌≡◌, IfSome, bytes_eq, codes, option_map};
ghost use Rattle.policy_model.specs.Soundness.{IsAccount};
ghost use Rattle.policy_json.specs.Principals.{account_before_root, account_of, nonempty_part, is_account, root_account};

use policy_model::{ACCOUNT_DIGITS, behind_colon, behind_prefix, is_account};

// Whether the text is an account, as the definitions compute it.
fn is_account_text(text: &[char]) -> bool
    ensures { result ≡ is_account text.now }
{
    is_account(text)
}

// The text, where it isn't empty and doesn't begin with a colon.
fn nonempty_part(text: &[char]) -> Option<&[char]>
    ensures { option_map (λ s. s.now) result ≡ nonempty_part text.now }
{
    match text {
        [] | [':', ..] => None,
        _ => Some(text),
    }
}

// Whether the text is `:root`.
fn is_root(text: &[char]) -> bool
    ensures { result ≡ bytes_eq text.now (codes ":root") }
{
    match text {
        [':', 'r', 'o', 'o', 't'] => true,
        _ => false,
    }
}

// The account at the front, where `:root` follows and ends the text.
fn account_before_root(text: &[char]) -> Option<&[char]>
    ensures { option_map (λ s. s.now) result ≡ account_before_root text.now }
{
    let (account, rest) = text.split_at_checked(ACCOUNT_DIGITS)?;
    if is_account_text(account) && is_root(rest) {
        Some(account)
    } else {
        None
    }
}

// The account whose root the id is.
fn root_account(id: &[char]) -> Option<&[char]>
    ensures { option_map (λ s. s.now) result ≡ root_account id.now }
{
    let partition = nonempty_part(behind_prefix(id, &['a', 'r', 'n', ':'])?)?;
    let service = behind_colon(partition)?;
    account_before_root(behind_prefix(service, &['i', 'a', 'm', ':', ':'])?)
}

/// The account that an id stands for: twelve digits, or the ARN of the account's root.
pub(crate) fn account_of(id: &[char]) -> Option<&[char]>
    ensures { option_map (λ s. s.now) result ≡ account_of id.now }
{
    if is_account_text(id) {
        Some(id)
    } else {
        root_account(id)
    }
}
