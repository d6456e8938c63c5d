//! Who asks, and for which grant.

ghost use Rattle.std.specs.Prelude.{◌≡◌, ◌&&◌, is_some, Some, IsTrue};
ghost use Rattle.std.specs.Option.{option_map};
ghost use Rattle.op_grant.specs.Value.{has_row};
ghost use Rattle.op_grant_plans.specs.Callers.{own_caller};
ghost use Rattle.op_model.specs.Access.{is_same_client};
ghost use Rattle.op_model.specs.History.{nth};
ghost use Rattle.op_model.specs.declared.row.GrantRow.{GrantRow};

use op_grant::Grants;
use op_model::{GrantRow, Verdict};
use op_names::ClientText;

/// The client is told and its proof passes.
pub(crate) fn is_proved(verdict: &Verdict) -> bool
    ensures { result ≡ (verdict.now.proved && is_some verdict.now.client) }
{
    verdict.proved && verdict.client.is_some()
}

/// The client that asks is this one.
pub(crate) fn is_same_client(asking: &Option<ClientText>, client: &ClientText) -> bool
    ensures { result ≡ is_same_client asking.now client.now }
{
    match asking {
        Some(asking) => asking.bytes() == client.bytes(),
        None => false,
    }
}

/// The number of the grant that is named, where it is there and the client's own.
pub(crate) fn own_grant(grants: &Grants, verdict: &Verdict, grant: Option<u64>) -> Option<u64>
    ensures { result ≡ option_map (λ who. who.grant) (own_caller grants.now verdict.now grant) }
{
    let n = grant?;
    let row = grants.row(n)?;
    if is_same_client(&verdict.client, &row.client) {
        Some(n)
    } else {
        None
    }
}

/// The row of grant `n`.
pub(crate) fn row_of(grants: &Grants, n: u64) -> &GrantRow
    requires { IsTrue (has_row grants.now n) }
    ensures { (row : GrantRow) → nth grants.now.rows n ≡ Some row → result.now ≡ row }
{
    match grants.row(n) {
        Some(row) => row,
        None => unreachable!(),
    }
}
