//! The worked rows of tokens, continuations and limits.

mod conditions;

use crate::{
    Asked, Cap, Finish, GrantFault, Grants, Interact, IntervalText, Item, Limits, Proceeded, Rows,
    Spending, Sum,
};
use conditions::{are_readable, covers, is_new_place, is_there};
use op_model::{NonceText, UriText};
use op_names::{SecretText, read_client};
use op_time::Moment;
use std::alloc::Global;
use std::process::Abort;
use std::test::Fail;

/// 2024-03-01T12:00:00Z.
const START: u64 = 1_709_294_400_000;

fn at(ms: u64) -> Moment {
    Moment::at_most_last(ms)
}

fn after(ms: u64) -> Moment {
    at(START.saturating_add(ms))
}

fn secret(text: &str) -> Result<SecretText, Fail> {
    Ok(SecretText::from_bytes(text.as_bytes()).ok_or("too long")?)
}

fn item(kind: u8, actions: u8, limits: Option<Limits>) -> Item {
    Item {
        kind,
        actions,
        identifier: Some(1),
        limits,
    }
}

fn asked(alloc: Global, item: Item, interact: Interact) -> Result<Asked, Fail> {
    let mut items = Vec::new(alloc);
    items.push(item)?;
    Ok(Asked {
        client: read_client(alloc, "https://wallet.example/shop")?,
        items: Rows::new(items),
        interact,
        strange: false,
    })
}

fn finish(alloc: Global) -> Result<Option<Finish>, Fail> {
    Ok(Some(Finish {
        uri: UriText::new(Vec::from_slice(alloc, b"https://wallet.example/done")?),
        nonce: NonceText::new(Vec::from_slice(alloc, b"n")?),
    }))
}

// Asks, decides, continues and rotates with a word of sixteen equal bytes that is drawn at a place of that number.
fn ask(
    rt: &impl Abort,
    grants: &mut Grants,
    t: Moment,
    place: u8,
    asked: Asked,
) -> Result<u64, GrantFault> {
    let number = u64::from(place);
    assert!(rt; is_new_place(grants, number));
    assert!(rt; are_readable(asked.items.as_slice()));
    grants.ask(t, &[place; 16], number, asked)
}

fn decide(rt: &impl Abort, grants: &mut Grants, accept: bool, place: u8) -> Result<(), GrantFault> {
    let number = u64::from(place);
    assert!(rt; is_new_place(grants, number));
    assert!(rt; is_there(grants, 1));
    grants.decide(1, accept, &[place; 16], number)
}

fn proceed(
    rt: &impl Abort,
    grants: &mut Grants,
    t: Moment,
    token: &SecretText,
    reference: Option<&SecretText>,
    place: u8,
) -> Result<Proceeded, GrantFault> {
    let number = u64::from(place);
    assert!(rt; is_new_place(grants, number));
    assert!(rt; is_there(grants, 1));
    grants.proceed(1, t, token, reference, &[place; 16], number)
}

fn rotate(
    rt: &impl Abort,
    grants: &mut Grants,
    t: Moment,
    token: &SecretText,
    place: u8,
) -> Result<(), GrantFault> {
    let number = u64::from(place);
    assert!(rt; is_new_place(grants, number));
    assert!(rt; is_there(grants, 1));
    grants.rotate(1, t, token, &[place; 16], number)
}

fn cancel(rt: &impl Abort, grants: &mut Grants, token: &SecretText) -> Result<(), GrantFault> {
    assert!(rt; is_there(grants, 1));
    grants.cancel(1, token)
}

fn revoke(rt: &impl Abort, grants: &mut Grants, token: &SecretText) -> Result<(), GrantFault> {
    assert!(rt; is_there(grants, 1));
    grants.revoke(1, token)
}

#[test]
fn a_token_lives_for_ten_minutes(rt: HostRuntime) -> Result<(), Fail> {
    let alloc = rt.alloc();
    let mut grants = Grants::new(alloc);
    let request = asked(alloc, item(1, 1, None), Interact::Missing)?;
    assert_eq!(rt; ask(&rt, &mut grants, after(0), 5, request), Ok(1));
    let token = secret("a05050505050505050505050505050505-5")?;
    assert_eq!(rt; grants.grant_of(&token, after(0)), Some(1));
    assert_eq!(rt; grants.grant_of(&token, after(599_999)), Some(1));
    assert_eq!(rt; grants.grant_of(&token, after(600_000)), None);
    let next = secret("a06060606060606060606060606060606-6")?;
    assert_eq!(rt; rotate(&rt, &mut grants, after(600_000), &token, 6), Ok(()));
    assert_eq!(rt; grants.grant_of(&token, after(0)), None);
    assert_eq!(rt; grants.grant_of(&next, after(1_199_999)), Some(1));
    assert_eq!(rt; grants.grant_of(&next, after(1_200_000)), None);
    Ok(())
}

#[test]
fn a_revoked_token_is_gone(rt: HostRuntime) -> Result<(), Fail> {
    let alloc = rt.alloc();
    let mut grants = Grants::new(alloc);
    let request = asked(alloc, item(2, 1, None), Interact::Missing)?;
    assert_eq!(rt; ask(&rt, &mut grants, after(0), 7, request), Ok(1));
    let token = secret("a07070707070707070707070707070707-7")?;
    let other = secret("a07070707070707070707070707070707-8")?;
    let invalid = Err(GrantFault::InvalidToken);
    assert_eq!(rt; revoke(&rt, &mut grants, &other), invalid);
    assert_eq!(rt; revoke(&rt, &mut grants, &token), Ok(()));
    assert_eq!(rt; grants.grant_of(&token, after(0)), None);
    assert_eq!(rt; revoke(&rt, &mut grants, &token), invalid);
    assert_eq!(rt; rotate(&rt, &mut grants, after(0), &token, 9), invalid);
    Ok(())
}

#[test]
fn the_second_of_three_grants_is_found(rt: HostRuntime) -> Result<(), Fail> {
    let alloc = rt.alloc();
    let mut grants = Grants::new(alloc);
    let first = asked(alloc, item(1, 1, None), Interact::Missing)?;
    assert_eq!(rt; ask(&rt, &mut grants, after(0), 1, first), Ok(1));
    let second = asked(alloc, item(2, 1, None), Interact::Missing)?;
    assert_eq!(rt; ask(&rt, &mut grants, after(0), 2, second), Ok(2));
    let token = secret("a01010101010101010101010101010101-1")?;
    assert_eq!(rt; rotate(&rt, &mut grants, after(0), &token, 3), Ok(()));
    let third = asked(alloc, item(1, 1, None), Interact::Missing)?;
    assert_eq!(rt; ask(&rt, &mut grants, after(0), 4, third), Ok(3));
    let second = secret("a02020202020202020202020202020202-2")?;
    let rotated = secret("a03030303030303030303030303030303-3")?;
    let third = secret("a04040404040404040404040404040404-4")?;
    assert_eq!(rt; grants.grant_of(&second, after(0)), Some(2));
    assert_eq!(rt; grants.grant_of(&rotated, after(0)), Some(1));
    assert_eq!(rt; grants.grant_of(&third, after(0)), Some(3));
    assert_eq!(rt; grants.count(), 3);
    Ok(())
}

// A grant that waits for the provider, with a finish.
fn waiting(rt: &impl Abort, alloc: Global) -> Result<Grants, Fail> {
    let mut grants = Grants::new(alloc);
    let request = asked(alloc, item(3, 5, None), Interact::Redirect(finish(alloc)?))?;
    assert_eq!(rt; ask(rt, &mut grants, after(0), 9, request), Ok(1));
    Ok(grants)
}

#[test]
fn a_client_waits_between_polls(rt: HostRuntime) -> Result<(), Fail> {
    let mut grants = waiting(&rt, rt.alloc())?;
    let token = secret("c09090909090909090909090909090909-9")?;
    let early = Err(GrantFault::TooFast);
    assert_eq!(rt;
        proceed(&rt, &mut grants, after(4_999), &token, None, 10),
        early
    );
    let polled = Ok(Proceeded::Polled);
    assert_eq!(rt;
        proceed(&rt, &mut grants, after(5_000), &token, None, 10),
        polled
    );
    assert_eq!(rt;
        proceed(&rt, &mut grants, after(9_999), &token, None, 10),
        early
    );
    assert_eq!(rt;
        proceed(&rt, &mut grants, after(10_000), &token, None, 10),
        polled
    );
    Ok(())
}

#[test]
fn an_accepted_grant_needs_its_reference(rt: HostRuntime) -> Result<(), Fail> {
    let mut grants = waiting(&rt, rt.alloc())?;
    let token = secret("c09090909090909090909090909090909-9")?;
    assert_eq!(rt; decide(&rt, &mut grants, true, 10), Ok(()));
    assert_eq!(rt;
        decide(&rt, &mut grants, false, 11),
        Err(GrantFault::NotPending)
    );
    let wrong = secret("i0b0b0b0b0b0b0b0b0b0b0b0b0b0b0b0b-10")?;
    let right = secret("i0a0a0a0a0a0a0a0a0a0a0a0a0a0a0a0a-10")?;
    let invalid = Err(GrantFault::InvalidInteraction);
    assert_eq!(rt;
        proceed(&rt, &mut grants, after(0), &token, Some(&wrong), 11),
        invalid
    );
    assert_eq!(rt;
        proceed(&rt, &mut grants, after(5_000), &token, None, 11),
        invalid
    );
    let issued = Ok(Proceeded::Issued);
    assert_eq!(rt;
        proceed(&rt, &mut grants, after(0), &token, Some(&right), 11),
        issued
    );
    let access = secret("a0b0b0b0b0b0b0b0b0b0b0b0b0b0b0b0b-11")?;
    assert_eq!(rt; grants.grant_of(&access, after(599_999)), Some(1));
    let over = Err(GrantFault::InvalidContinuation);
    assert_eq!(rt;
        proceed(&rt, &mut grants, after(0), &token, Some(&right), 12),
        over
    );
    Ok(())
}

#[test]
fn an_issued_grant_is_cancelled_by_its_next_token(rt: HostRuntime) -> Result<(), Fail> {
    let mut grants = waiting(&rt, rt.alloc())?;
    let token = secret("c09090909090909090909090909090909-9")?;
    let reference = secret("i0a0a0a0a0a0a0a0a0a0a0a0a0a0a0a0a-10")?;
    assert_eq!(rt; decide(&rt, &mut grants, true, 10), Ok(()));
    let issued = Ok(Proceeded::Issued);
    assert_eq!(rt;
        proceed(&rt, &mut grants, after(0), &token, Some(&reference), 11),
        issued
    );
    let invalid = Err(GrantFault::InvalidContinuation);
    assert_eq!(rt; cancel(&rt, &mut grants, &token), invalid);
    let next = secret("c0b0b0b0b0b0b0b0b0b0b0b0b0b0b0b0b-11")?;
    assert_eq!(rt; cancel(&rt, &mut grants, &next), Ok(()));
    assert_eq!(rt; cancel(&rt, &mut grants, &next), invalid);
    let access = secret("a0b0b0b0b0b0b0b0b0b0b0b0b0b0b0b0b-11")?;
    assert_eq!(rt; grants.grant_of(&access, after(0)), None);
    Ok(())
}

#[test]
fn a_rejected_grant_is_denied(rt: HostRuntime) -> Result<(), Fail> {
    let mut grants = waiting(&rt, rt.alloc())?;
    let token = secret("c09090909090909090909090909090909-9")?;
    assert_eq!(rt; decide(&rt, &mut grants, false, 10), Ok(()));
    let denied = Err(GrantFault::UserDenied);
    assert_eq!(rt;
        proceed(&rt, &mut grants, after(0), &token, None, 11),
        denied
    );
    assert_eq!(rt;
        decide(&rt, &mut grants, true, 11),
        Err(GrantFault::NotPending)
    );
    Ok(())
}

#[test]
fn asking_for_payments_needs_a_redirect(rt: HostRuntime) -> Result<(), Fail> {
    let alloc = rt.alloc();
    let mut grants = Grants::new(alloc);
    let missing = asked(alloc, item(3, 5, None), Interact::Missing)?;
    let invalid = Err(GrantFault::InvalidInteraction);
    assert_eq!(rt; ask(&rt, &mut grants, after(0), 1, missing), invalid);
    let no_redirect = asked(alloc, item(3, 5, None), Interact::NoRedirect)?;
    assert_eq!(rt; ask(&rt, &mut grants, after(0), 1, no_redirect), invalid);
    let mut strange = asked(alloc, item(3, 5, None), Interact::Redirect(None))?;
    strange.strange = true;
    let denied = Err(GrantFault::RequestDenied);
    assert_eq!(rt; ask(&rt, &mut grants, after(0), 1, strange), denied);
    assert_eq!(rt; grants.count(), 0);
    assert!(rt; grants.row(0).is_none());
    assert!(rt; grants.row(1).is_none());
    Ok(())
}

fn sum(value: u64) -> Sum {
    Sum { asset: 1, value }
}

fn cap(debit: bool, value: u64) -> Cap {
    Cap {
        debit,
        sum: sum(value),
    }
}

// A grant with a cap, to be spent on the seventh incoming payment.
fn capped(
    rt: &impl Abort,
    alloc: Global,
    cap: Cap,
    interval: Option<IntervalText>,
) -> Result<Grants, Fail> {
    let limits = Limits {
        receiver: Some(7),
        cap: Some(cap),
        interval,
    };
    let mut grants = Grants::new(alloc);
    let request = asked(alloc, item(3, 5, Some(limits)), Interact::Redirect(None))?;
    assert_eq!(rt; ask(rt, &mut grants, after(0), 9, request), Ok(1));
    Ok(grants)
}

fn may_spend(
    rt: &impl Abort,
    grants: &Grants,
    t: Moment,
    receiver: u64,
    debit: Sum,
    receive: Sum,
) -> Result<u64, GrantFault> {
    assert!(rt; is_there(grants, 1));
    grants.may_spend(1, t, receiver, debit, receive)
}

fn spend(rt: &impl Abort, grants: &mut Grants, j: u64, value: u64) -> Result<(), Fail> {
    assert!(rt; covers(grants, 1, j, value));
    grants.spend(1, j, value)?;
    Ok(())
}

fn unspend(rt: &impl Abort, grants: &mut Grants, value: u64) {
    assert!(rt; is_there(grants, 1));
    assert!(rt; value <= grants.spent(1, 0));
    grants.unspend(1, 0, value)
}

fn spent(rt: &impl Abort, grants: &Grants, j: u64) -> u64 {
    assert!(rt; is_there(grants, 1));
    grants.spent(1, j)
}

fn may_pay(rt: &impl Abort, grants: &Grants, asked: Spending) -> Result<u64, GrantFault> {
    assert!(rt; is_there(grants, 1));
    grants.may_pay(1, after(0), asked)
}

#[test]
fn a_cap_looks_at_what_is_there(rt: HostRuntime) -> Result<(), Fail> {
    let asked = Spending {
        receiver: 7,
        debit: Some(sum(1000)),
        receive_asset: 1,
        receive: None,
    };
    let received = capped(&rt, rt.alloc(), cap(false, 100), None)?;
    assert_eq!(rt; may_pay(&rt, &received, asked), Ok(0));
    let priced = Spending {
        receive: Some(101),
        ..asked
    };
    assert_eq!(rt;
        may_pay(&rt, &received, priced),
        Err(GrantFault::OverLimit { spent: 0 })
    );
    let elsewhere = Spending {
        receive_asset: 2,
        ..asked
    };
    assert_eq!(rt;
        may_pay(&rt, &received, elsewhere),
        Err(GrantFault::LimitAsset)
    );
    let debited = capped(&rt, rt.alloc(), cap(true, 100), None)?;
    assert_eq!(rt;
        may_pay(&rt, &debited, asked),
        Err(GrantFault::OverLimit { spent: 0 })
    );
    let by_nobody = Spending {
        debit: None,
        ..asked
    };
    assert_eq!(rt; may_pay(&rt, &debited, by_nobody), Ok(0));
    Ok(())
}

#[test]
fn two_payments_pass_one_limit(rt: HostRuntime) -> Result<(), Fail> {
    let mut grants = capped(&rt, rt.alloc(), cap(true, 100), None)?;
    assert_eq!(rt;
        may_spend(&rt, &grants, after(0), 7, sum(60), sum(1)),
        Ok(0)
    );
    spend(&rt, &mut grants, 0, 60)?;
    let over = Err(GrantFault::OverLimit { spent: 60 });
    assert_eq!(rt; may_spend(&rt, &grants, after(0), 7, sum(60), sum(1)), over);
    assert_eq!(rt;
        may_spend(&rt, &grants, after(0), 7, sum(40), sum(1)),
        Ok(0)
    );
    Ok(())
}

#[test]
fn a_receive_cap_counts_what_is_received(rt: HostRuntime) -> Result<(), Fail> {
    let grants = capped(&rt, rt.alloc(), cap(false, 100), None)?;
    let over = Err(GrantFault::OverLimit { spent: 0 });
    assert_eq!(rt;
        may_spend(&rt, &grants, after(0), 7, sum(1), sum(101)),
        over
    );
    assert_eq!(rt;
        may_spend(&rt, &grants, after(0), 7, sum(101), sum(100)),
        Ok(0)
    );
    Ok(())
}

#[test]
fn what_a_closed_payment_did_not_send_is_given_back(rt: HostRuntime) -> Result<(), Fail> {
    let mut grants = capped(&rt, rt.alloc(), cap(true, 102), None)?;
    spend(&rt, &mut grants, 0, 102)?;
    assert_eq!(rt; spent(&rt, &grants, 0), 102);
    unspend(&rt, &mut grants, 57);
    assert_eq!(rt; spent(&rt, &grants, 0), 45);
    Ok(())
}

#[test]
fn limits_are_looked_at_in_order(rt: HostRuntime) -> Result<(), Fail> {
    let alloc = rt.alloc();
    let text = IntervalText::new(Vec::from_slice(alloc, b"R1/2024-03-01T00:00:00Z/P1M")?);
    let grants = capped(&rt, alloc, cap(true, 100), Some(text))?;
    let late = at(1_711_929_600_000);
    let other = Sum {
        asset: 2,
        value: 101,
    };
    let receiver = Err(GrantFault::LimitReceiver);
    assert_eq!(rt; may_spend(&rt, &grants, late, 8, other, other), receiver);
    let asset = Err(GrantFault::LimitAsset);
    assert_eq!(rt; may_spend(&rt, &grants, late, 7, other, other), asset);
    let outside = Err(GrantFault::OutsideInterval);
    assert_eq!(rt; may_spend(&rt, &grants, late, 7, sum(101), other), outside);
    let over = Err(GrantFault::OverLimit { spent: 0 });
    assert_eq!(rt; may_spend(&rt, &grants, after(0), 7, sum(101), other), over);
    Ok(())
}

#[test]
fn each_interval_has_its_own_limit(rt: HostRuntime) -> Result<(), Fail> {
    let alloc = rt.alloc();
    let text = IntervalText::new(Vec::from_slice(alloc, b"R12/2024-03-01T00:00:00Z/P1M")?);
    let mut grants = capped(&rt, alloc, cap(true, 100), Some(text))?;
    let before = at(1_709_251_199_999);
    let outside = Err(GrantFault::OutsideInterval);
    assert_eq!(rt; may_spend(&rt, &grants, before, 7, sum(1), sum(1)), outside);
    assert_eq!(rt;
        may_spend(&rt, &grants, after(0), 7, sum(100), sum(1)),
        Ok(0)
    );
    spend(&rt, &mut grants, 0, 100)?;
    let next = at(1_711_929_600_000);
    assert_eq!(rt; may_spend(&rt, &grants, next, 7, sum(100), sum(1)), Ok(1));
    spend(&rt, &mut grants, 1, 1)?;
    assert_eq!(rt; spent(&rt, &grants, 0), 100);
    assert_eq!(rt; spent(&rt, &grants, 1), 1);
    Ok(())
}
