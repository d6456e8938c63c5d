//! What was spent, behind a payment that is made or fails.

ghost use Rattle.std.specs.Prelude.{◌≡◌, List, IsTrue, IsOk, OnOk, OnErr};
ghost use Rattle.op_grant.specs.Value.{has_row};
ghost use Rattle.op_granting.specs.Keeping.{IsGrantsOf, MayPay, Pays, HasRoom, MayFail, Fails};
ghost use Rattle.op_model.specs.declared.act.Entry.{Entry};

use crate::next::{NextEntry, PaidUnder};
use op_grant::Grants;
use op_model::OutgoingRow;
use op_time::Moment;
use std::alloc::AllocError;

/// Makes room for a payment that is made under grant `n` at a moment, so that `take_made` takes no memory. Of what history
/// the grants are stays, also where memory is short.
pub fn make_room(grants: &mut Grants, n: u64, at: Moment) -> Result<(), AllocError>
    requires { IsTrue (has_row grants.old n) }
    ensures room { OnOk result (HasRoom grants.new n at) }
    ensures kept { (history : List Entry) → IsGrantsOf history grants.old → IsGrantsOf history grants.new }
    ensures rows { grants.new.rows ≡ grants.old.rows }
{
    let Some(j) = grants.interval_at(n, at) else {
        return Ok(());
    };
    grants.reserve_spending(n, j)?;
    Ok(())
}

/// Grants behind the act of a payment that is made and may follow, from a quote or without one. It cannot be refused, and
/// takes memory only where no room was made: where that is short, nothing has changed.
pub fn take_made(grants: &mut Grants, next: NextEntry, paid: PaidUnder) -> Result<(), AllocError>
    requires { MayPay grants.old next paid }
    ensures ok { OnOk result (Pays grants.old grants.new next paid) }
    ensures err { OnErr result (grants.new ≡ grants.old) }
    ensures room { HasRoom grants.old paid.grant next.at → IsOk result }
{
    let Some(j) = grants.interval_at(paid.grant, next.at) else {
        unreachable!()
    };
    let value = grants.counted(paid.grant, paid.debit, paid.receive);
    grants.spend(paid.grant, j, value)?;
    Ok(())
}

/// Grants behind the act by which the payment of this row fails, as the row stood before. What it counted and did not use
/// is given back. Takes no memory.
pub fn take_failed(grants: &mut Grants, next: NextEntry, row: &OutgoingRow)
    requires { MayFail grants.old next row.now }
    ensures { Fails grants.old grants.new next row.now }
{
    let Some(j) = grants.interval_at(row.grant, row.made) else {
        unreachable!()
    };
    let debit = row.terms.debit - row.sent - row.fee;
    let receive = row.terms.receive - row.delivered;
    let value = grants.counted(row.grant, debit, receive);
    grants.unspend(row.grant, j, value);
}
