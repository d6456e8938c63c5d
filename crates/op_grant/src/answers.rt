//! What calls on grants would answer, with nothing changed: for one who plans before anything is done.

ghost use Rattle.std.specs.Prelude.{◌≡◌, IsTrue, IfErr, OnOk, None, Some};
ghost use Rattle.std.specs.Option.{option_copied};
ghost use Rattle.op_grant.specs.Rows.{at_row, ask_fault, decide_answer, proceed_answer, cancel_answer, token_answer};
ghost use Rattle.op_grant.specs.Value.{has_row, cap_in, counted_under};

use crate::fault::{GrantFault, Proceeded};
use crate::grants::Grants;
use crate::{limits, rows};
use op_model::Asked;
use op_names::SecretText;
use op_time::Moment;

/// Whether a grant may be asked for: the answer of `ask` where there is memory.
pub fn may_ask(asked: &Asked) -> Result<(), GrantFault>
    ensures passes { OnOk result (ask_fault asked.now ≡ None) }
    ensures fault { IfErr result (λ e. ask_fault asked.now ≡ Some e) }
{
    let immediate = rows::is_immediate(asked.items.as_slice());
    if !immediate && !rows::is_redirect(&asked.interact) {
        return Err(GrantFault::InvalidInteraction);
    }
    if asked.strange {
        return Err(GrantFault::RequestDenied);
    }
    Ok(())
}

impl Grants {
    /// The answer of `decide`.
    pub fn may_decide(&self, n: u64) -> Result<(), GrantFault>
        requires { IsTrue (has_row self.now n) }
        ensures { result ≡ at_row decide_answer self.now n }
    {
        match self.row(n) {
            Some(row) => rows::decide_answer(row),
            None => unreachable!(),
        }
    }

    /// The answer of `proceed`.
    pub fn may_proceed(
        &self,
        n: u64,
        t: Moment,
        token: &SecretText,
        reference: Option<&SecretText>,
    ) -> Result<Proceeded, GrantFault>
        requires { IsTrue (has_row self.now n) }
        ensures { result ≡ at_row (proceed_answer t token.now (option_copied reference.entry)) self.now n }
    {
        match self.row(n) {
            Some(row) => rows::proceed_answer(row, t, token, reference),
            None => unreachable!(),
        }
    }

    /// The answer of `cancel`.
    pub fn may_cancel(&self, n: u64, token: &SecretText) -> Result<(), GrantFault>
        requires { IsTrue (has_row self.now n) }
        ensures { result ≡ at_row (cancel_answer token.now) self.now n }
    {
        match self.row(n) {
            Some(row) => rows::cancel_answer(row, token),
            None => unreachable!(),
        }
    }

    /// The answer of `rotate`, and of `revoke`.
    pub fn may_change_token(&self, n: u64, token: &SecretText) -> Result<(), GrantFault>
        requires { IsTrue (has_row self.now n) }
        ensures { result ≡ at_row (token_answer token.now) self.now n }
    {
        match self.row(n) {
            Some(row) => rows::token_answer(row, token),
            None => unreachable!(),
        }
    }

    /// What a payment counts as spent under grant `n`, in smallest units: the debit or what is received, as its cap says,
    /// and 0 where it has none.
    pub fn counted(&self, n: u64, debit: u64, receive: u64) -> u64
        requires { IsTrue (has_row self.now n) }
        ensures { result ≡ counted_under debit receive (cap_in self.now n) }
    {
        match self.row(n) {
            Some(row) => match limits::cap_of(row.items.as_slice()) {
                Some(cap) if cap.debit => debit,
                Some(_) => receive,
                None => 0,
            },
            None => unreachable!(),
        }
    }
}
