//! Grants by number, and what was spent under them.

ghost use Rattle.std.specs.Prelude.{◌≡◌, ◌≢◌, ◌≤◌, [], length, IsTrue, OnOk, OnErr, IfOk, IfErr, Some, None};
ghost use Rattle.std.specs.Option.{option_copied};
ghost use Rattle.op_model.specs.History.{nth};
ghost use Rattle.op_grant.specs.Value.{no_grants, has_row, with_grant, with_row, interval_in, counter_of, spent_in, with_counter, spent_more, spent_less};
ghost use Rattle.op_grant.specs.Limits.{may_pay_answer, may_spend_answer, covers_spending, are_readable};
ghost use Rattle.op_grant.specs.Places.{IsNewPlace};
ghost use Rattle.op_grant.specs.Rows.{at_row, asked_row, ask_fault, decide_answer, decided, proceed_answer, proceeded_row, cancel_answer, cancelled, token_answer, rotated, revoked, grant_of_live};
ghost use Rattle.op_grant.specs.declared.fault.GrantFault.TheVariants as faults;

use crate::fault::{GrantFault, Proceeded};
use crate::limits::{self, Spending};
use crate::rows;
use crate::tokens::{Token, Tokens, place_of};
use op_model::{Asked, GrantRow, GrantState, Sum};
use op_names::SecretText;
use op_time::Moment;
use std::alloc::{AllocError, Global};
use std::collections::BTreeMap;
use std::marker::Model;

/// Grants by number, from 1, in the order in which they were asked for (GNAP, RFC 9635), and what was spent under each
/// in each interval of its limits, in smallest units of the cap's asset.
///
/// A grant is found by its access token without a walk over the others. A refused call leaves all as it was. Only `ask`,
/// `reserve_spending` and `spend` take memory.
#[derive(Drop)]
pub struct Grants {
    rows: Vec<GrantRow>,
    tokens: Tokens,
    counters: BTreeMap<(u64, u64), u64>,
}

impl Model for Grants {
    ghost use Rattle.op_grant.specs.Value.{GrantsValue};
    ghost use Rattle.op_grant.specs.Indexed.{IsKept};

    ghost Value = { GrantsValue };

    ghost view = { λ a. record { rows = a.rows.items; spent = a.counters.entries } };

    ghost invariant = { λ a. IsKept a.tokens a.rows.items };
}

impl Grants {
    /// No grants. Takes no memory.
    pub fn new(alloc: Global) -> Grants
        ensures { result ≡ no_grants }
    {
        Grants {
            rows: Vec::new(alloc),
            tokens: Tokens::new(alloc),
            counters: BTreeMap::new(alloc),
        }
    }

    /// How many grants there are.
    pub fn count(&self) -> u64
        ensures { result ≡ length self.now.rows }
    {
        self.rows.len() as u64
    }

    /// Grant `n`. `None` exactly where it is not there.
    pub fn row(&self, n: u64) -> Option<&GrantRow>
        ensures { option_copied result ≡ nth self.now.rows n }
    {
        let place = n.checked_sub(1)?;
        self.rows.get(place as usize)
    }

    /// Asks for a grant at a moment (RFC 9635, section 2), and answers its number. It is issued at once where it has no
    /// item for outgoing payments; else it waits for the provider.
    pub fn ask(
        &mut self,
        t: Moment,
        word: &[u8; 16],
        place: u64,
        asked: Asked,
    ) -> Result<u64, GrantFault>
        requires place { IsNewPlace place self.old.rows }
        requires intervals { IsTrue (are_readable asked.items) }
        ensures ok { IfOk result
            (λ n. (self.new ≡ with_grant self.old (asked_row t word.now place asked)) × (n ≡ length self.new.rows)) }
        ensures passes { OnOk result (ask_fault asked ≡ None) }
        ensures fault { IfErr result (λ e. e ≢ faults.Memory → ask_fault asked ≡ Some e) }
        ensures err { OnErr result (self.new ≡ self.old) }
    {
        let immediate = rows::is_immediate(asked.items.as_slice());
        if !immediate && !rows::is_redirect(&asked.interact) {
            return Err(GrantFault::InvalidInteraction);
        }
        if asked.strange {
            return Err(GrantFault::RequestDenied);
        }
        self.rows.reserve(1)?;
        self.tokens
            .reserve(self.rows.len() + 1 - self.tokens.len())?;
        let n = self.rows.len() as u64 + 1;
        self.rows
            .push_reserved(rows::asked_row(t, word, place, asked));
        if immediate {
            self.tokens.push(Token { place, grant: n });
        }
        Ok(n)
    }

    /// Accepts or rejects a grant for the provider. `NotPending` exactly where it was decided or cancelled before, or
    /// issued at once.
    pub fn decide(
        &mut self,
        n: u64,
        accept: bool,
        word: &[u8; 16],
        place: u64,
    ) -> Result<(), GrantFault>
        requires there { IsTrue (has_row self.old n) }
        requires place { IsNewPlace place self.old.rows }
        ensures answer { result ≡ at_row decide_answer self.old n }
        ensures ok { OnOk result (self.new ≡ with_row (decided accept word.now place) self.old n) }
        ensures err { OnErr result (self.new ≡ self.old) }
    {
        let row = &mut self.rows[n as usize - 1];
        rows::decide_answer(row)?;
        rows::decide(row, accept, word, place);
        Ok(())
    }

    /// Continues a grant at a moment, by its last continuation token and a reference, if one is given (RFC 9635, section
    /// 5). `Issued` gives it its first access token and its next continuation token. Takes no memory.
    pub fn proceed(
        &mut self,
        n: u64,
        t: Moment,
        token: &SecretText,
        reference: Option<&SecretText>,
        word: &[u8; 16],
        place: u64,
    ) -> Result<Proceeded, GrantFault>
        requires there { IsTrue (has_row self.old n) }
        requires place { IsNewPlace place self.old.rows }
        ensures answer { result ≡ at_row (proceed_answer t token.now (option_copied reference.entry)) self.old n }
        ensures ok { IfOk result (λ p. self.new ≡ with_row (proceeded_row t word.now place p) self.old n) }
        ensures err { OnErr result (self.new ≡ self.old) }
    {
        let row = &mut self.rows[n as usize - 1];
        let answer = rows::proceed_answer(row, t, token, reference)?;
        match answer {
            Proceeded::Polled => rows::poll(row, t),
            Proceeded::Issued => {
                let old = row.access;
                rows::issue(row, t, word, place);
                self.tokens.replace(old, Token { place, grant: n });
            }
        }
        Ok(answer)
    }

    /// Cancels a grant by its last continuation token (RFC 9635, section 5.4), also one that was issued. Its access token
    /// is found no more.
    pub fn cancel(&mut self, n: u64, token: &SecretText) -> Result<(), GrantFault>
        requires { IsTrue (has_row self.old n) }
        ensures answer { result ≡ at_row (cancel_answer token.now) self.old n }
        ensures ok { OnOk result (self.new ≡ with_row cancelled self.old n) }
        ensures err { OnErr result (self.new ≡ self.old) }
    {
        let row = &mut self.rows[n as usize - 1];
        rows::cancel_answer(row, token)?;
        row.state = GrantState::Cancelled;
        Ok(())
    }

    /// Gives a grant a new access token for its current one, whatever that one's age (RFC 9635, section 6.1). The old one
    /// is found no more. Takes no memory.
    pub fn rotate(
        &mut self,
        n: u64,
        t: Moment,
        token: &SecretText,
        word: &[u8; 16],
        place: u64,
    ) -> Result<(), GrantFault>
        requires there { IsTrue (has_row self.old n) }
        requires place { IsNewPlace place self.old.rows }
        ensures answer { result ≡ at_row (token_answer token.now) self.old n }
        ensures ok { OnOk result (self.new ≡ with_row (rotated t word.now place) self.old n) }
        ensures err { OnErr result (self.new ≡ self.old) }
    {
        let row = &mut self.rows[n as usize - 1];
        rows::token_answer(row, token)?;
        let old = row.access;
        rows::rotate(row, t, word, place);
        self.tokens.replace(old, Token { place, grant: n });
        Ok(())
    }

    /// Revokes a grant's current access token, whatever its age (RFC 9635, section 6.2). It is found no more.
    pub fn revoke(&mut self, n: u64, token: &SecretText) -> Result<(), GrantFault>
        requires { IsTrue (has_row self.old n) }
        ensures answer { result ≡ at_row (token_answer token.now) self.old n }
        ensures ok { OnOk result (self.new ≡ with_row revoked self.old n) }
        ensures err { OnErr result (self.new ≡ self.old) }
    {
        let row = &mut self.rows[n as usize - 1];
        rows::token_answer(row, token)?;
        row.revoked = true;
        Ok(())
    }

    /// The number of the grant whose live access token this is at a moment. A token lives for 600000 ms from its issue or
    /// rotation. It is found by the place in it, without a walk.
    pub fn grant_of(&self, token: &SecretText, t: Moment) -> Option<u64>
        ensures { result ≡ grant_of_live self.now t token.now }
    {
        let n = self.tokens.find(place_of(token)?)?;
        let row = self.row(n)?;
        if rows::is_live(row, t, token) {
            Some(n)
        } else {
            None
        }
    }

    /// What was spent under grant `n` in interval `j` of its limits, in smallest units of its cap's asset.
    pub fn spent(&self, n: u64, j: u64) -> u64
        requires { IsTrue (has_row self.now n) }
        ensures { result ≡ spent_in self.now n j }
    {
        self.counters.get(&(n, j)).copied().unwrap_or(0)
    }

    /// The interval in which a payment may spend at a moment under grant `n`. Looked at in this order: `LimitReceiver`,
    /// `LimitAsset`, `OutsideInterval`, `OverLimit`. A cap that has nothing to look at lets the payment pass.
    pub fn may_pay(&self, n: u64, t: Moment, asked: Spending) -> Result<u64, GrantFault>
        requires { IsTrue (has_row self.now n) }
        ensures { result ≡ at_row (may_pay_answer self.now n t asked) self.now n }
    {
        let row = &self.rows[n as usize - 1];
        let items = row.items.as_slice();
        if limits::is_other_receiver(items, asked.receiver) {
            return Err(GrantFault::LimitReceiver);
        }
        let cap = limits::cap_of(items);
        if limits::is_other_asset(cap, &asked) {
            return Err(GrantFault::LimitAsset);
        }
        let Some(j) = limits::interval_at(items, t) else {
            return Err(GrantFault::OutsideInterval);
        };
        let spent = self.spent(n, j);
        if limits::is_over(cap, spent, &asked) {
            return Err(GrantFault::OverLimit { spent });
        }
        Ok(j)
    }

    /// The same for a payment of which all is there.
    pub fn may_spend(
        &self,
        n: u64,
        t: Moment,
        receiver: u64,
        debit: Sum,
        receive: Sum,
    ) -> Result<u64, GrantFault>
        requires { IsTrue (has_row self.now n) }
        ensures { result ≡ at_row (may_spend_answer self.now n t receiver debit receive) self.now n }
    {
        let asked = Spending {
            receiver,
            debit: Some(debit),
            receive_asset: receive.asset,
            receive: Some(receive.value),
        };
        self.may_pay(n, t, asked)
    }

    /// The interval of grant `n` in which a moment lies: 0 for all moments where its limits do not repeat.
    pub fn interval_at(&self, n: u64, t: Moment) -> Option<u64>
        requires { IsTrue (has_row self.now n) }
        ensures { result ≡ interval_in self.now n t }
    {
        let row = &self.rows[n as usize - 1];
        limits::interval_at(row.items.as_slice(), t)
    }

    /// Makes room for what is counted under grant `n` in interval `j`: to spend there takes no memory then. What was spent
    /// stays.
    pub fn reserve_spending(&mut self, n: u64, j: u64) -> Result<(), AllocError>
        ensures ok { OnOk result (self.new ≡ with_counter self.old n j) }
        ensures err { OnErr result (self.new ≡ self.old) }
    {
        let spent = self.counters.get(&(n, j)).copied().unwrap_or(0);
        self.counters.insert((n, j), spent)?;
        Ok(())
    }

    /// Counts a value as spent under grant `n` in interval `j`. Without a cap nothing is counted. Takes memory only where
    /// nothing was counted there before, nor reserved.
    pub fn spend(&mut self, n: u64, j: u64, value: u64) -> Result<(), AllocError>
        requires there { IsTrue (has_row self.old n) }
        requires covered { IsTrue (covers_spending self.old n j value) }
        ensures ok { OnOk result (self.new ≡ spent_more self.old n j value) }
        ensures err { OnErr result (self.new ≡ self.old) }
        ensures first { OnErr result (counter_of self.old n j ≡ None) }
    {
        let row = &self.rows[n as usize - 1];
        match limits::cap_of(row.items.as_slice()) {
            Some(_) => {}
            None => return Ok(()),
        }
        let spent = self.spent(n, j);
        self.counters.insert((n, j), spent + value)?;
        Ok(())
    }

    /// Gives back a value that was counted as spent under grant `n` in interval `j`. Takes no memory.
    pub fn unspend(&mut self, n: u64, j: u64, value: u64)
        requires there { IsTrue (has_row self.old n) }
        requires covered { value ≤ spent_in self.old n j }
        ensures { self.new ≡ spent_less self.old n j value }
    {
        if let Some(spent) = self.counters.get_mut(&(n, j)) {
            *spent -= value;
        }
    }
}
