//! One step of a payment, on a ledger and the incoming payments.
ghost use Rattle.std.specs.Prelude.{◌≡◌, ◌≤◌, ◌==◌, true, IsTrue, List, if◌then◌else◌};
ghost use Rattle.op_incoming.specs.declared.incoming.Incoming.{Incoming};
ghost use Rattle.op_ledger.specs.Balances.{is_there, held_in};
ghost use Rattle.op_model.specs.declared.act.Account.TheVariants.{Wallet};
ghost use Rattle.op_model.specs.declared.act.FailReason.{FailReason as AnyReason};
ghost use Rattle.op_model.specs.declared.reply.StepAnswer.TheVariants as answers;
ghost use Rattle.op_model.specs.declared.row.PaymentState.TheVariants as states;
ghost use Rattle.op_outgoing.specs.Answers.{funding_answer, sending_answer, row_answer};
ghost use Rattle.op_outgoing.specs.Held.{are_accounts_there, is_incoming_there, is_rate_plain, HoldsAlike};
ghost use Rattle.op_outgoing.specs.Pieces.{next_sent};
ghost use Rattle.op_outgoing.specs.Progress.{with_progress, is_alive};
ghost use Rattle.op_outgoing.specs.Sound.{IsSoundRow};
ghost use Rattle.op_outgoing.specs.Steps.{ended_as, with_next_piece, stepped_row, stepped_ledger, stepped_incomings, to_hold, voided};

use crate::progress::{
    Progress, behind_next_piece, failed, funded, left_to_post, next_piece, progress_of,
};
use op_incoming::Incomings;
use op_ledger::{Ledger, LedgerFault};
use op_model::{Account, FailReason, OutgoingRow, PaymentState, Shortage, StepAnswer};
use op_time::Moment;

/// The answer to a step, and how far the payment has come behind it.
#[derive(Clone, Copy)]
pub struct Stepped {
    pub answer: StepAnswer,
    pub after: Progress,
}

/// Takes step `k` of a payment at a moment. Takes no memory.
pub fn take_step(
    row: &OutgoingRow,
    ledger: &mut Ledger,
    incomings: &mut Incomings,
    k: u64,
    t: Moment,
) -> Stepped
    requires sound { IsSoundRow row.now }
    requires accounts { IsTrue (are_accounts_there ledger.old row.now) }
    requires incoming { IsTrue (is_incoming_there incomings.old row.now) }
    requires rate { IsTrue (is_rate_plain ledger.old row.now) }
    requires covered { to_hold row.now ≤ held_in ledger.old (Wallet row.now.terms.payer) }
    ensures answer { result.answer ≡ row_answer ledger.old incomings.old k t row.now }
    ensures after { with_progress result.after row.now ≡ stepped_row result.answer row.now }
    ensures money { ledger.new ≡ stepped_ledger ledger.old result.answer row.now }
    ensures paid { incomings.new ≡ stepped_incomings incomings.old result.answer row.now }
    ensures sound { IsSoundRow (stepped_row result.answer row.now) }
    ensures held { HoldsAlike row.now (stepped_row result.answer row.now) ledger.old ledger.new }
    ensures alive { is_alive (stepped_row result.answer row.now) ≡ true → is_alive row.now ≡ true }
{
    if k != row.step {
        return unchanged(row, StepAnswer::Stale { now: row.step });
    }
    match row.state {
        PaymentState::Funding => fund(row, ledger, t),
        PaymentState::Sending => send(row, ledger, incomings, t),
        PaymentState::Completed | PaymentState::Failed => unchanged(row, StepAnswer::Ended),
    }
}

fn unchanged(row: &OutgoingRow, answer: StepAnswer) -> Stepped
    ensures answer { result.answer ≡ answer }
    ensures after { with_progress result.after row.now ≡ row.now }
{
    Stepped {
        answer,
        after: progress_of(row),
    }
}

fn failing(row: &OutgoingRow, reason: FailReason) -> Stepped
    requires sound { IsSoundRow row.now }
    requires alive { is_alive row.now ≡ true }
    ensures answer { result.answer ≡ answers.Failed reason }
    ensures after { with_progress result.after row.now ≡ ended_as reason row.now }
    ensures sound { IsSoundRow (ended_as reason row.now) }
{
    Stepped {
        answer: StepAnswer::Failed(reason),
        after: failed(row, reason),
    }
}

// A payment that waits for its debit.
fn fund(row: &OutgoingRow, ledger: &mut Ledger, t: Moment) -> Stepped
    requires sound { IsSoundRow row.now }
    requires funding { row.now.state ≡ states.Funding }
    requires payer { IsTrue (is_there ledger.old (Wallet row.now.terms.payer)) }
    ensures answer { result.answer ≡ funding_answer ledger.old row.now t }
    ensures after { with_progress result.after row.now ≡ stepped_row result.answer row.now }
    ensures money { ledger.new ≡ stepped_ledger ledger.old result.answer row.now }
    ensures incoming { (incomings : List Incoming) → stepped_incomings incomings result.answer row.now ≡ incomings }
    ensures sound { IsSoundRow (stepped_row result.answer row.now) }
    ensures held { HoldsAlike row.now (stepped_row result.answer row.now) ledger.old ledger.new }
{
    if row.expiry.ms() <= t.ms() {
        return failing(row, FailReason::QuoteExpired);
    }
    let need = row.terms.debit;
    match ledger.hold(Account::Wallet(row.terms.payer), need) {
        Ok(()) => Stepped {
            answer: StepAnswer::Funded,
            after: funded(row),
        },
        Err(LedgerFault::Short { available }) => unchanged(
            row,
            StepAnswer::Waiting(Shortage::NotFunded { available, need }),
        ),
        Err(LedgerFault::AssetFull { .. }) => unreachable!(),
    }
}

// A payment that sends.
fn send(row: &OutgoingRow, ledger: &mut Ledger, incomings: &mut Incomings, t: Moment) -> Stepped
    requires sound { IsSoundRow row.now }
    requires sending { row.now.state ≡ states.Sending }
    requires accounts { IsTrue (are_accounts_there ledger.old row.now) }
    requires incoming { IsTrue (is_incoming_there incomings.old row.now) }
    requires rate { IsTrue (is_rate_plain ledger.old row.now) }
    requires covered { to_hold row.now ≤ held_in ledger.old (Wallet row.now.terms.payer) }
    ensures answer { result.answer ≡ sending_answer ledger.old incomings.old row.now t }
    ensures after { with_progress result.after row.now ≡ stepped_row result.answer row.now }
    ensures money { ledger.new ≡ stepped_ledger ledger.old result.answer row.now }
    ensures paid { incomings.new ≡ stepped_incomings incomings.old result.answer row.now }
    ensures sound { IsSoundRow (stepped_row result.answer row.now) }
    ensures held { HoldsAlike row.now (stepped_row result.answer row.now) ledger.old ledger.new }
{
    if !incomings.is_open(row.terms.incoming, t) {
        void_rest(row, ledger);
        return failing(row, FailReason::ReceiverClosed);
    }
    let piece = next_piece(row);
    match ledger.post_part(&piece) {
        Ok(()) => {
            incomings.receive(row.terms.incoming, piece.delivered);
            sent(row)
        }
        Err(LedgerFault::Short { available }) => unchanged(
            row,
            StepAnswer::Waiting(Shortage::NoLiquidity {
                available,
                need: piece.delivered,
            }),
        ),
        Err(LedgerFault::AssetFull { .. }) => unreachable!(),
    }
}

// A payment whose next piece was posted.
fn sent(row: &OutgoingRow) -> Stepped
    requires sound { IsSoundRow row.now }
    requires sending { row.now.state ≡ states.Sending }
    ensures answer { result.answer ≡ (if next_sent row.now == row.now.terms.source then answers.Completed else answers.Sent) }
    ensures after { with_progress result.after row.now ≡ with_next_piece row.now }
    ensures sound { IsSoundRow (with_next_piece row.now) }
{
    let after = behind_next_piece(row);
    let answer = if after.sent == row.terms.source {
        StepAnswer::Completed
    } else {
        StepAnswer::Sent
    };
    Stepped { answer, after }
}

/// Frees what is held for a payment.
pub fn void_rest(row: &OutgoingRow, ledger: &mut Ledger)
    requires sound { IsSoundRow row.now }
    requires payer { IsTrue (is_there ledger.old (Wallet row.now.terms.payer)) }
    requires covered { to_hold row.now ≤ held_in ledger.old (Wallet row.now.terms.payer) }
    ensures value { ledger.new ≡ voided ledger.old row.now }
    ensures held { (reason : AnyReason) → HoldsAlike row.now (ended_as reason row.now) ledger.old ledger.new }
{
    if let PaymentState::Sending = row.state {
        ledger.void(Account::Wallet(row.terms.payer), left_to_post(row));
    }
}
