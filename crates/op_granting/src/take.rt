//! Grants behind an act on one of them.

ghost use Rattle.std.specs.Prelude.{◌≡◌, [], false, IsTrue, Some, OnOk, OnErr, IfOk};
ghost use Rattle.op_granting.specs.Calls.{asked_of, told_reference, HasRow, HasToken};
ghost use Rattle.op_granting.specs.Keeping.{IsGrantsOf, MayTake, Takes};
ghost use Rattle.op_granting.specs.Kinds.{is_on_spending};
ghost use Rattle.op_granting.specs.Models.{asked_act, decided_act};
ghost use Rattle.op_grant.specs.Value.{has_row};
ghost use Rattle.op_model.specs.Grants.{is_immediate};
ghost use Rattle.op_model.specs.History.{nth};
ghost use Rattle.op_model.specs.Legal.{interact_spelled};
ghost use Rattle.op_model.specs.declared.act.Act.TheVariants as acts;
ghost use Rattle.op_model.specs.declared.row.GrantRow.{GrantRow};

use crate::next::NextEntry;
use op_grant::{Asked, Finish, Grants, Interact, Item, Rows};
use op_model::{Act, Word};
use op_names::{ClientText, SecretText};
use std::alloc::{AllocError, Global};

// The type of items for outgoing payments, for which the provider is asked.
const OUTGOING: u8 = 3;

/// The grants of a history without entries. Takes no memory.
pub fn no_grants(alloc: Global) -> Grants
    ensures { IsGrantsOf [] result }
{
    Grants::new(alloc)
}

/// Grants behind an act that may follow: one is asked for, or one that is there changes. Any other act that does not spend
/// leaves them. It cannot be refused, and takes memory only where a grant is asked for: where that is short, nothing has
/// changed.
pub fn take_grants(
    grants: &mut Grants,
    alloc: Global,
    next: NextEntry,
    act: &Act,
) -> Result<(), AllocError>
    requires may { MayTake grants.old next act.now }
    requires quiet { is_on_spending act.now ≡ false }
    ensures ok { OnOk result (Takes grants.old grants.new next act.now) }
    ensures err { OnErr result (grants.new ≡ grants.old) }
{
    match act {
        Act::GrantAsked {
            client,
            items,
            finish,
            word,
        } => {
            let asked = copied(client, items, finish, alloc)?;
            return take_asked(grants, next, asked, word);
        }
        Act::GrantAccepted { grant, word } => take_decided(grants, next, *grant, true, word),
        Act::GrantRejected { grant, word } => take_decided(grants, next, *grant, false, word),
        Act::GrantPolled { grant } => take_polled(grants, next, *grant),
        Act::GrantContinued { grant, word } => take_continued(grants, next, *grant, word),
        Act::GrantCancelled { grant } => take_cancelled(grants, next, *grant),
        Act::TokenRotated { grant, word } => take_rotated(grants, next, *grant, word),
        Act::TokenRevoked { grant } => take_revoked(grants, next, *grant),
        _ => {}
    }
    Ok(())
}

// What is asked for where an act says so.
fn copied(
    client: &ClientText,
    items: &Rows<Item>,
    finish: &Option<Finish>,
    alloc: Global,
) -> Result<Asked, AllocError>
    ensures { IfOk result (λ asked. asked ≡ asked_of client.now items.now finish.now) }
{
    let client = client.clone(alloc)?;
    let interact = interact_of(items.as_slice(), finish, alloc)?;
    let items = items.clone(alloc)?;
    Ok(Asked {
        client,
        items,
        interact,
        strange: false,
    })
}

// The interaction that an act tells of: none where the grant is issued at once.
fn interact_of(
    items: &[Item],
    finish: &Option<Finish>,
    alloc: Global,
) -> Result<Interact, AllocError>
    ensures { IfOk result (λ interact. interact ≡ interact_spelled items.now finish.now) }
{
    if is_immediate(items) {
        return Ok(Interact::Missing);
    }
    match finish {
        Some(finish) => Ok(Interact::Redirect(Some(finish.clone(alloc)?))),
        None => Ok(Interact::Redirect(None)),
    }
}

// Whether a grant with these items is issued without asking the provider.
fn is_immediate(items: &[Item]) -> bool
    ensures { result ≡ is_immediate items.now }
{
    !items.iter().any(|item| item.kind == OUTGOING)
}

// The last continuation token of grant `n`.
fn continuation_of(grants: &Grants, n: u64) -> SecretText
    requires { IsTrue (has_row grants.now n) }
    ensures { (row : GrantRow) → nth grants.now.rows n ≡ Some row → result ≡ row.continuation }
{
    match grants.row(n) {
        Some(row) => row.continuation,
        None => unreachable!(),
    }
}

// The reference that the client of grant `n` tells: the one that was drawn, where it asked for a finish.
fn reference_of(grants: &Grants, n: u64) -> Option<SecretText>
    requires { IsTrue (has_row grants.now n) }
    ensures { (row : GrantRow) → nth grants.now.rows n ≡ Some row → result ≡ told_reference row }
{
    match grants.row(n) {
        Some(row) => match row.finish {
            Some(_) => row.reference,
            None => None,
        },
        None => unreachable!(),
    }
}

// The access token of grant `n`.
fn access_of(grants: &Grants, n: u64) -> SecretText
    requires { HasRow grants.now n HasToken }
    ensures { (row : GrantRow) → nth grants.now.rows n ≡ Some row → row.access ≡ Some result }
{
    match grants.row(n) {
        Some(row) => match row.access {
            Some(token) => token,
            None => unreachable!(),
        },
        None => unreachable!(),
    }
}

fn take_asked(
    grants: &mut Grants,
    next: NextEntry,
    asked: Asked,
    word: &Word,
) -> Result<(), AllocError>
    requires { MayTake grants.old next (asked_act asked word.now) }
    ensures ok { OnOk result (Takes grants.old grants.new next (asked_act asked word.now)) }
    ensures err { OnErr result (grants.new ≡ grants.old) }
{
    match grants.ask(next.at, word, next.place, asked) {
        Ok(_) => Ok(()),
        // What may follow is not refused: what was wanted is memory.
        Err(_) => Err(AllocError),
    }
}

fn take_decided(grants: &mut Grants, next: NextEntry, n: u64, accept: bool, word: &Word)
    requires { MayTake grants.old next (decided_act accept n word.now) }
    ensures { Takes grants.old grants.new next (decided_act accept n word.now) }
{
    match grants.decide(n, accept, word, next.place) {
        Ok(()) => {}
        Err(_) => unreachable!(),
    }
}

fn take_polled(grants: &mut Grants, next: NextEntry, n: u64)
    requires { MayTake grants.old next (acts.GrantPolled n) }
    ensures { Takes grants.old grants.new next (acts.GrantPolled n) }
{
    let token = continuation_of(grants, n);
    match grants.proceed(n, next.at, &token, None, &[0; 16], next.place) {
        Ok(_) => {}
        Err(_) => unreachable!(),
    }
}

fn take_continued(grants: &mut Grants, next: NextEntry, n: u64, word: &Word)
    requires { MayTake grants.old next (acts.GrantContinued n word.now) }
    ensures { Takes grants.old grants.new next (acts.GrantContinued n word.now) }
{
    let token = continuation_of(grants, n);
    let reference = reference_of(grants, n);
    match grants.proceed(n, next.at, &token, reference.as_ref(), word, next.place) {
        Ok(_) => {}
        Err(_) => unreachable!(),
    }
}

fn take_cancelled(grants: &mut Grants, next: NextEntry, n: u64)
    requires { MayTake grants.old next (acts.GrantCancelled n) }
    ensures { Takes grants.old grants.new next (acts.GrantCancelled n) }
{
    let token = continuation_of(grants, n);
    match grants.cancel(n, &token) {
        Ok(()) => {}
        Err(_) => unreachable!(),
    }
}

fn take_rotated(grants: &mut Grants, next: NextEntry, n: u64, word: &Word)
    requires { MayTake grants.old next (acts.TokenRotated n word.now) }
    ensures { Takes grants.old grants.new next (acts.TokenRotated n word.now) }
{
    let token = access_of(grants, n);
    match grants.rotate(n, next.at, &token, word, next.place) {
        Ok(()) => {}
        Err(_) => unreachable!(),
    }
}

fn take_revoked(grants: &mut Grants, next: NextEntry, n: u64)
    requires { MayTake grants.old next (acts.TokenRevoked n) }
    ensures { Takes grants.old grants.new next (acts.TokenRevoked n) }
{
    let token = access_of(grants, n);
    match grants.revoke(n, &token) {
        Ok(()) => {}
        Err(_) => unreachable!(),
    }
}
