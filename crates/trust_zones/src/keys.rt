//! The condition keys that show which requests come from a zone.
ghost use Rattle.std.specs.Prelude.{◌≡◌, IfOk};
ghost use Rattle.policy_model.specs.Keys.{IsFolded};
ghost use Rattle.trust_zones.specs.ZoneKeys.{address_name, key_named, organization_name, vpc_name};

use plain_lists::NoMemory;
use std::alloc::Global;
use wildcard_lang::Text;

/// The organisation of the principal.
pub(crate) fn organization_name() -> &'static str
    ensures { result.now ≡ organization_name }
{
    "aws:PrincipalOrgID"
}

/// The VPC that the request comes from.
pub(crate) fn vpc_name() -> &'static str
    ensures { result.now ≡ vpc_name }
{
    "aws:SourceVpc"
}

/// The address that the request comes from.
pub(crate) fn address_name() -> &'static str
    ensures { result.now ≡ address_name }
{
    "aws:SourceIp"
}

/// The key of a name: its ASCII letters are lowered.
pub(crate) fn key_named(alloc: Global, name: &str) -> Result<Text, NoMemory>
    ensures value { IfOk result (λ key. key ≡ key_named name.now) }
    ensures folded { IfOk result IsFolded }
{
    let name = Text::of(alloc, name)?;
    name.folded()
}
