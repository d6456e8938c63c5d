//! What becomes of a grant's row.

ghost use Rattle.std.specs.Prelude.{◌≡◌, if◌then◌else◌, [], None, Some};
ghost use Rattle.std.specs.Option.{option_copied};
ghost use Rattle.op_model.specs.Grants.{is_immediate, current_token, live_token, is_secret, is_cancelled};
ghost use Rattle.op_model.specs.GrantAnswers.{is_pending, is_issued, is_rejected, is_redirect, finish_of, is_wrong_reference};
ghost use Rattle.op_grant.specs.Rows.{asked_row, decide_answer, decided, proceed_answer, proceeded_row, rotated, cancel_answer, token_answer};
ghost use Rattle.op_grant.specs.declared.fault.Proceeded.TheVariants as answers;

use crate::fault::{GrantFault, Proceeded};
use op_model::{Asked, Finish, GrantRow, GrantState, Interact, Item};
use op_names::{Letter, SecretText, secret_text};
use op_time::Moment;

/// The type of items for outgoing payments, for which the provider is asked.
pub(crate) const OUTGOING: u8 = 3;

/// How long a client waits before it polls again, in milliseconds (RFC 9635, section 3.1).
const POLL_WAIT: u64 = 5_000;

/// How long an access token lives, in milliseconds.
const TOKEN_LIFETIME: u64 = 600_000;

/// Whether a grant with these items is issued without asking the provider.
pub(crate) fn is_immediate(items: &[Item]) -> bool
    ensures { result ≡ is_immediate items.now }
{
    !items.iter().any(|item| item.kind == OUTGOING)
}

/// Whether the client can send its user to the provider.
pub(crate) fn is_redirect(interact: &Interact) -> bool
    ensures { result ≡ is_redirect interact.now }
{
    matches!(interact, Interact::Redirect(_))
}

// A finish is kept only where the provider is asked.
fn finish_kept(immediate: bool, interact: Interact) -> Option<Finish>
    ensures { result ≡ (if immediate then None else finish_of interact) }
{
    match interact {
        Interact::Redirect(finish) if !immediate => finish,
        _ => None,
    }
}

/// The row of a grant that is asked for.
pub(crate) fn asked_row(t: Moment, word: &[u8; 16], place: u64, asked: Asked) -> GrantRow
    ensures { result ≡ asked_row t word.now place asked }
{
    let immediate = is_immediate(asked.items.as_slice());
    GrantRow {
        client: asked.client,
        items: asked.items,
        finish: finish_kept(immediate, asked.interact),
        asked: t,
        last: t,
        issued: immediate.then_some(t),
        state: if immediate {
            GrantState::Issued
        } else {
            GrantState::Pending
        },
        access: immediate.then_some(secret_text(Letter::Access, word, place)),
        revoked: false,
        continuation: secret_text(Letter::Continuation, word, place),
        nonce: secret_text(Letter::Nonce, word, place),
        reference: None,
    }
}

/// Notes the provider's decision, with the reference that it draws.
pub(crate) fn decide(row: &mut GrantRow, accept: bool, word: &[u8; 16], place: u64)
    ensures { row.new ≡ decided accept word.now place row.old }
{
    row.state = if accept {
        GrantState::Accepted
    } else {
        GrantState::Rejected
    };
    row.reference = Some(secret_text(Letter::Interaction, word, place));
}

fn is_pending(row: &GrantRow) -> bool
    ensures { result ≡ is_pending row.now.state }
{
    matches!(row.state, GrantState::Pending)
}

/// Whether the provider can decide a grant.
pub(crate) fn decide_answer(row: &GrantRow) -> Result<(), GrantFault>
    ensures { result ≡ decide_answer row.now }
{
    if is_pending(row) {
        Ok(())
    } else {
        Err(GrantFault::NotPending)
    }
}

fn is_issued(row: &GrantRow) -> bool
    ensures { result ≡ is_issued row.now.state }
{
    matches!(row.state, GrantState::Issued)
}

fn is_rejected(row: &GrantRow) -> bool
    ensures { result ≡ is_rejected row.now.state }
{
    matches!(row.state, GrantState::Rejected)
}

fn is_cancelled(row: &GrantRow) -> bool
    ensures { result ≡ is_cancelled row.now.state }
{
    matches!(row.state, GrantState::Cancelled)
}

// Whether a token is the grant's last continuation token.
fn holds_continuation(row: &GrantRow, token: &SecretText) -> bool
    ensures { result ≡ is_secret (Some token.now) row.now.continuation }
{
    token.as_bytes() == row.continuation.as_bytes()
}

// Whether a reference is not the one that was drawn for the client's finish.
fn is_wrong_reference(row: &GrantRow, reference: &SecretText) -> bool
    ensures { result ≡ is_wrong_reference row.now (Some reference.now) }
{
    if row.finish.is_none() {
        return true;
    }
    match &row.reference {
        Some(drawn) => drawn.as_bytes() != reference.as_bytes(),
        None => true,
    }
}

/// What a continuation is answered (RFC 9635, section 5).
pub(crate) fn proceed_answer(
    row: &GrantRow,
    t: Moment,
    token: &SecretText,
    reference: Option<&SecretText>,
) -> Result<Proceeded, GrantFault>
    ensures { result ≡ proceed_answer t token.now (option_copied reference.entry) row.now }
{
    if is_cancelled(row) || is_issued(row) || !holds_continuation(row, token) {
        return Err(GrantFault::InvalidContinuation);
    }
    if is_rejected(row) {
        return Err(GrantFault::UserDenied);
    }
    match reference {
        Some(reference) => {
            if is_wrong_reference(row, reference) {
                return Err(GrantFault::InvalidInteraction);
            }
        }
        None => {
            if t.ms() < row.last.ms() + POLL_WAIT {
                return Err(GrantFault::TooFast);
            }
            if !is_pending(row) && row.finish.is_some() {
                return Err(GrantFault::InvalidInteraction);
            }
        }
    }
    if is_pending(row) {
        Ok(Proceeded::Polled)
    } else {
        Ok(Proceeded::Issued)
    }
}

/// Keeps the moment of a poll.
pub(crate) fn poll(row: &mut GrantRow, t: Moment)
    ensures { row.new ≡ proceeded_row t [] 0 answers.Polled row.old }
{
    row.last = t;
}

/// Issues the grant: its first access token and its next continuation token.
pub(crate) fn issue(row: &mut GrantRow, t: Moment, word: &[u8; 16], place: u64)
    ensures { row.new ≡ proceeded_row t word.now place answers.Issued row.old }
{
    row.state = GrantState::Issued;
    row.continuation = secret_text(Letter::Continuation, word, place);
    rotate(row, t, word, place);
}

/// Gives the grant its next access token.
pub(crate) fn rotate(row: &mut GrantRow, t: Moment, word: &[u8; 16], place: u64)
    ensures { row.new ≡ rotated t word.now place row.old }
{
    row.issued = Some(t);
    row.access = Some(secret_text(Letter::Access, word, place));
}

/// Whether a grant can be cancelled with this token.
pub(crate) fn cancel_answer(row: &GrantRow, token: &SecretText) -> Result<(), GrantFault>
    ensures { result ≡ cancel_answer token.now row.now }
{
    if is_cancelled(row) || !holds_continuation(row, token) {
        return Err(GrantFault::InvalidContinuation);
    }
    Ok(())
}

// Whether a token is the grant's access token, and neither revoked nor cancelled.
fn is_current(row: &GrantRow, token: &SecretText) -> bool
    ensures { result ≡ is_secret (current_token row.now) token.now }
{
    if row.revoked || is_cancelled(row) {
        return false;
    }
    match &row.access {
        Some(access) => access.as_bytes() == token.as_bytes(),
        None => false,
    }
}

/// Whether a token may be rotated or revoked: it is current, whatever its age.
pub(crate) fn token_answer(row: &GrantRow, token: &SecretText) -> Result<(), GrantFault>
    ensures { result ≡ token_answer token.now row.now }
{
    if is_current(row, token) {
        Ok(())
    } else {
        Err(GrantFault::InvalidToken)
    }
}

/// Whether a token is the grant's live access token at a moment.
pub(crate) fn is_live(row: &GrantRow, t: Moment, token: &SecretText) -> bool
    ensures { result ≡ is_secret (live_token t row.now) token.now }
{
    match row.issued {
        Some(issued) => t.ms() < Moment::at_most_last(issued.ms() + TOKEN_LIFETIME).ms()
            && is_current(row, token),
        None => false,
    }
}
