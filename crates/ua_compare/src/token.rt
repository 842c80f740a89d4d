//! Kinds of user identities that endpoints take (OPC 10000-4, 7.42), by their PolicyId.

ghost use Rattle.std.specs.Prelude.{IfOk, OnOk, string_bytes};
ghost use Rattle.ua_compare.specs.Said.{Says};
ghost use Rattle.ua_compare.specs.Same.{same_text, same_tokens};
ghost use Rattle.ua_compare.specs.SameLaws.{token_decides};

use crate::described::Described;
use crate::differing::add_differences;
use crate::field::{add_field, add_number_field, add_text_field, longer};
use crate::value::{Value, add_text};
use std::alloc::Global;
use ua_service::UserTokenPolicy;
use ua_value::plumbing::let_go;
use ua_value::{Array, NoMemory};

impl Described for UserTokenPolicy {
    ghost named = { λ a b. same_text a.policy_id b.policy_id };

    fn is_named_as(&self, other: &UserTokenPolicy) -> bool {
        self.policy_id == other.policy_id
    }

    fn add_name(&self, text: &mut String) -> Result<(), NoMemory> {
        add_text(&self.policy_id, text)
    }

    fn add_fields(
        &self,
        _alloc: Global,
        found: &UserTokenPolicy,
        start: &str,
        text: &mut String,
    ) -> Result<(), NoMemory> {
        add_number_field(start, "TokenType", self.token_type, found.token_type, text)?;
        add_text_field(
            start,
            "IssuedTokenType",
            &self.issued_token_type,
            &found.issued_token_type,
            text,
        )?;
        add_text_field(
            start,
            "IssuerEndpointUrl",
            &self.issuer_endpoint_url,
            &found.issuer_endpoint_url,
            text,
        )?;
        add_text_field(
            start,
            "SecurityPolicyUri",
            &self.security_policy_uri,
            &found.security_policy_uri,
            text,
        )
    }

    ghost decides = { token_decides };
}

/// The policies of a list, none where it is null.
fn policies_in(list: &Array<UserTokenPolicy>) -> &[UserTokenPolicy] {
    match list.get() {
        Some(policies) => policies,
        None => &[],
    }
}

/// Appends the lines of the policies that are missing, extra or of other fields, and says whether there are none.
fn add_policies(
    alloc: Global,
    wanted: &Array<UserTokenPolicy>,
    found: &Array<UserTokenPolicy>,
    start: &str,
    text: &mut String,
) -> Result<bool, NoMemory>
    ensures { IfOk result (λ same. Says same (string_bytes text.old) (string_bytes text.new)) }
{
    let before = longer(alloc, start, "UserIdentityTokens ")?;
    let wanted = policies_in(wanted);
    let found = policies_in(found);
    let same = add_differences(alloc, before.as_str(), wanted, found, text);
    let_go(before);
    same
}

/// Appends the lines of the policies of two endpoints where these differ: of each policy that is missing, extra or has other
/// fields; else, where the same ones stand in another order or a list is null, of their ids.
pub(crate) fn add_tokens(
    alloc: Global,
    wanted: &Array<UserTokenPolicy>,
    found: &Array<UserTokenPolicy>,
    start: &str,
    text: &mut String,
) -> Result<(), NoMemory>
    ensures { OnOk result (Says (same_tokens wanted.now found.now) (string_bytes text.old) (string_bytes text.new)) }
{
    if wanted == found {
        return Ok(());
    }
    if add_policies(alloc, wanted, found, start, text)? {
        return add_field(
            start,
            "UserIdentityTokens",
            Value::Tokens(wanted),
            Value::Tokens(found),
            text,
        );
    }
    Ok(())
}
