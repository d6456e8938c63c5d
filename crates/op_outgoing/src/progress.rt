//! How far a payment has come, and how far it comes by a step.
ghost use Rattle.std.specs.Prelude.{◌≡◌, ◌+◌, ◌-◌, ◌<◌, ◌≤◌, true, Some};
ghost use Rattle.op_amount.specs.declared.TheConstants.{TOP};
ghost use Rattle.op_model.specs.Payments.{left_to_post, reason_number};
ghost use Rattle.op_model.specs.declared.row.PaymentState.TheVariants as states;
ghost use Rattle.op_ledger.specs.Pieces.{taken};
ghost use Rattle.op_outgoing.specs.Pieces.{next_sent, next_fee, next_delivered, next_piece, next_state};
ghost use Rattle.op_outgoing.specs.Progress.{with_progress, is_alive};
ghost use Rattle.op_outgoing.specs.Sound.{IsSoundRow};
ghost use Rattle.op_outgoing.specs.Steps.{funded_row, with_next_piece, ended_as};

use op_amount::{floor_mul, share};
use op_ledger::Piece;
use op_model::{Account, FailReason, OutgoingRow, PaymentState};

/// What a step changes of a payment.
#[derive(Clone, Copy)]
pub struct Progress {
    pub state: PaymentState,
    pub step: u64,
    pub sent: u64,
    pub fee: u64,
    pub delivered: u64,
    pub reason: u8,
}

// What is sent, charged and delivered in all.
#[derive(Clone, Copy)]
struct Sums {
    sent: u64,
    fee: u64,
    delivered: u64,
}

/// How far a payment has come.
pub fn progress_of(row: &OutgoingRow) -> Progress
    ensures { with_progress result row.now ≡ row.now }
{
    Progress {
        state: row.state,
        step: row.step,
        sent: row.sent,
        fee: row.fee,
        delivered: row.delivered,
        reason: row.reason,
    }
}

/// A payment whose debit is held.
pub fn funded(row: &OutgoingRow) -> Progress
    requires sound { IsSoundRow row.now }
    requires funding { row.now.state ≡ states.Funding }
    ensures value { with_progress result row.now ≡ funded_row row.now }
    ensures sound { IsSoundRow (funded_row row.now) }
{
    Progress {
        state: PaymentState::Sending,
        step: row.step + 1,
        ..progress_of(row)
    }
}

/// A payment that failed.
pub fn failed(row: &OutgoingRow, reason: FailReason) -> Progress
    requires sound { IsSoundRow row.now }
    requires alive { is_alive row.now ≡ true }
    ensures value { with_progress result row.now ≡ ended_as reason row.now }
    ensures sound { IsSoundRow (ended_as reason row.now) }
{
    Progress {
        state: PaymentState::Failed,
        step: row.step + 1,
        reason: reason_number(reason),
        ..progress_of(row)
    }
}

/// A payment behind its next piece.
pub fn behind_next_piece(row: &OutgoingRow) -> Progress
    requires sound { IsSoundRow row.now }
    requires sending { row.now.state ≡ states.Sending }
    ensures value { with_progress result row.now ≡ with_next_piece row.now }
    ensures sound { IsSoundRow (with_next_piece row.now) }
{
    let sums = next_sums(row);
    Progress {
        state: next_state(row, sums.sent),
        step: row.step + 1,
        sent: sums.sent,
        fee: sums.fee,
        delivered: sums.delivered,
        reason: row.reason,
    }
}

/// The next piece of a payment: what its sums grow by.
pub fn next_piece(row: &OutgoingRow) -> Piece
    requires sound { IsSoundRow row.now }
    requires sending { row.now.state ≡ states.Sending }
    ensures value { result ≡ next_piece row.now }
    ensures within { taken result ≤ left_to_post row.now }
    ensures amount { result.delivered ≤ TOP }
{
    let sums = next_sums(row);
    Piece {
        payer: Account::Wallet(row.terms.payer),
        payee: Account::Wallet(row.terms.payee),
        sent: sums.sent - row.sent,
        fee: sums.fee - row.fee,
        delivered: sums.delivered - row.delivered,
    }
}

/// What is left of a payment's debit to post.
pub fn left_to_post(row: &OutgoingRow) -> u64
    requires { IsSoundRow row.now }
    ensures { result ≡ left_to_post row.now }
{
    row.terms.debit - row.sent - row.fee
}

// The sums behind the next piece. Fee and delivery are floors of the whole sum that was sent.
fn next_sums(row: &OutgoingRow) -> Sums
    requires sound { IsSoundRow row.now }
    requires sending { row.now.state ≡ states.Sending }
    ensures sent { result.sent ≡ next_sent row.now }
    ensures fee { result.fee ≡ next_fee row.now }
    ensures delivered { result.delivered ≡ next_delivered row.now }
    ensures more_sent { (row.now.sent < result.sent) × (result.sent ≤ row.now.terms.source) }
    ensures more_fee { (row.now.fee ≤ result.fee) × (result.fee ≤ row.now.terms.fee) }
    ensures more_delivered { (row.now.delivered ≤ result.delivered) × (result.delivered ≤ TOP) }
{
    let terms = row.terms;
    let sent = terms.source.min(row.sent + terms.piece);
    Sums {
        sent,
        fee: share(terms.fee, sent, terms.source),
        delivered: match floor_mul(sent, terms.num, terms.den) {
            Some(delivered) => delivered,
            None => unreachable!(),
        },
    }
}

// The last piece completes the payment.
fn next_state(row: &OutgoingRow, sent: u64) -> PaymentState
    requires { sent ≡ next_sent row.now }
    ensures { result ≡ next_state row.now }
{
    if sent == row.terms.source {
        PaymentState::Completed
    } else {
        PaymentState::Sending
    }
}

// The number of a reason, as a payment keeps it.
fn reason_number(reason: FailReason) -> u8
    ensures { result ≡ reason_number (Some reason) }
{
    match reason {
        FailReason::QuoteExpired => 1,
        FailReason::ReceiverClosed => 2,
        FailReason::Cancelled => 3,
    }
}
