//! Who asks, and whether the access passes.

ghost use Rattle.std.specs.Prelude.{◌≡◌, ◌&&◌, List, IsTrue, IfOk, Some, not, is_some};
ghost use Rattle.std.specs.Option.{option_copied};
ghost use Rattle.op_grant.specs.Value.{has_row};
ghost use Rattle.op_granting.specs.Access.{AreLooksOf};
ghost use Rattle.op_granting.specs.Keeping.{IsGrantsOf};
ghost use Rattle.op_model.specs.Access.{Looked};
ghost use Rattle.op_model.specs.Asking.{caller, access, refuse_with};
ghost use Rattle.op_model.specs.Grants.{grant_row};
ghost use Rattle.op_model.specs.declared.act.Entry.{Entry};
ghost use Rattle.op_model.specs.declared.row.GrantRow.{GrantRow};
ghost use Rattle.op_token_plans.specs.Asking.{number_of, admission};

use op_grant::Grants;
use op_granting::{Looks, access_refusal};
use op_model::{Refusal, Verdict};
use op_names::ClientText;
use op_time::Moment;

/// Who asks, as the fields of the request tell, and at which moment.
#[derive(Clone, Copy)]
pub struct Asking<'a> {
    pub at: Moment,
    pub verdict: &'a Verdict,
}

impl Asking<'_> {
    /// The client that asks.
    pub fn client(&self) -> Option<&ClientText>
        ensures { option_copied result ≡ self.now.verdict.now.client }
    {
        self.verdict.client.as_ref()
    }
}

// Whether the proof does not pass, or names no client.
fn is_unproved(verdict: &Verdict) -> bool
    ensures { result ≡ not (verdict.now.proved && is_some verdict.now.client) }
{
    !verdict.proved || verdict.client.is_none()
}

/// The number of the grant under which a client asks: that of its live access token. `InvalidClient` exactly where its proof
/// does not pass, and else `InvalidToken` exactly where it has no such token (GNAP, RFC 9635, section 7.2).
pub fn caller(grants: &Grants, asking: &Asking<'_>) -> Result<u64, Refusal>
    ensures value { (history : List Entry) → IsGrantsOf history grants.now
        → result ≡ number_of (caller history asking.now.at asking.now.verdict.now) }
    ensures there { IfOk result (λ n. IsTrue (has_row grants.now n)) }
{
    let verdict = asking.verdict;
    if is_unproved(verdict) {
        return Err(Refusal::InvalidClient);
    }
    let Some(token) = &verdict.token else {
        return Err(Refusal::InvalidToken);
    };
    match grants.grant_of(token, asking.at) {
        Some(n) => Ok(n),
        None => Err(Refusal::InvalidToken),
    }
}

/// Why a client may not do under grant `n` what is looked at: the denial by the first of the nine rules that fails. `None`
/// where it may.
pub fn access(grants: &Grants, asking: &Asking<'_>, n: u64, looks: &Looks) -> Option<Refusal>
    requires { IsTrue (has_row grants.now n) }
    ensures { (history : List Entry) (row : GrantRow) (looked : Looked) → IsGrantsOf history grants.now → grant_row history n ≡ Some row
        → AreLooksOf looks.now history asking.now.verdict.now.client looked
        → refuse_with result ≡ access history asking.now.at asking.now.verdict.now (record { grant = n; row = row }) looked }
{
    access_refusal(grants, n, asking.at, asking.client(), looks)
}

/// The number of the grant under which a client asks, where it may do what is looked at; else its refusal, by its proof,
/// by its token or by the rules of access.
pub fn admit(grants: &Grants, asking: &Asking<'_>, looks: &Looks) -> Result<u64, Refusal>
    ensures { (history : List Entry) (looked : Looked) → IsGrantsOf history grants.now
        → AreLooksOf looks.now history asking.now.verdict.now.client looked
        → result ≡ number_of (admission history asking.now.at asking.now.verdict.now looked) }
{
    match caller(grants, asking) {
        Ok(n) => match access(grants, asking, n, looks) {
            Some(refusal) => Err(refusal),
            None => Ok(n),
        },
        Err(refusal) => Err(refusal),
    }
}
